// What the trace shows of the values of the libraries, as text.
use bond::{Address, BondInformation};
use crypto::IdentityResolvingKey;
use machine::Phase;
use smp_types::{AuthReq, BondingFlag, IoCapabilities, KeyDistributionFlags, PairingFeatures};
use std::fmt;
use util::{PairingMethod, PassKeyEntryAction};

// A value of a library, as it is shown.
#[derive(Clone, Copy)]
pub(crate) struct Shown<T>(pub T);

// Octets in hexadecimal, in their order.
#[derive(Clone, Copy)]
pub(crate) struct Octets<const N: usize>(pub [u8; N]);

impl<const N: usize> fmt::Display for Octets<N> {
    fn fmt<W: fmt::Write>(&self, f: &mut fmt::Formatter<W>) -> fmt::Result {
        for octet in &self.0 {
            write!(f, "{octet:02x}")?;
        }
        Ok(())
    }
}

// A character, or a question mark for what is no printable ASCII.
pub(crate) fn printable(c: char) -> char {
    if matches!(c, ' '..='~') { c } else { '?' }
}

// Other people's text.
#[derive(Clone, Copy)]
pub(crate) struct Quoted<'a>(pub &'a [u8]);

impl fmt::Display for Quoted<'_> {
    fn fmt<W: fmt::Write>(&self, f: &mut fmt::Formatter<W>) -> fmt::Result {
        f.write_str("'")?;
        for octet in self.0 {
            f.write_char(printable(char::from(*octet)))?;
        }
        f.write_str("'")
    }
}

impl fmt::Display for Shown<Address> {
    fn fmt<W: fmt::Write>(&self, f: &mut fmt::Formatter<W>) -> fmt::Result {
        let [a, b, c, d, e, g] = self.0.addr.into_inner();
        let kind = if self.0.kind == 0 { "public" } else { "random" };
        write!(
            f,
            "{g:02x}:{e:02x}:{d:02x}:{c:02x}:{b:02x}:{a:02x} ({kind})"
        )
    }
}

impl fmt::Display for Shown<IoCapabilities> {
    fn fmt<W: fmt::Write>(&self, f: &mut fmt::Formatter<W>) -> fmt::Result {
        f.write_str(match self.0 {
            IoCapabilities::DisplayOnly => "DisplayOnly",
            IoCapabilities::DisplayYesNo => "DisplayYesNo",
            IoCapabilities::KeyboardOnly => "KeyboardOnly",
            IoCapabilities::NoInputNoOutput => "NoInputNoOutput",
            IoCapabilities::KeyboardDisplay => "KeyboardDisplay",
        })
    }
}

// The names of the flags that are set.
fn write_flags<W: fmt::Write>(
    f: &mut fmt::Formatter<W>,
    flags: &[(bool, &'static str)],
) -> fmt::Result {
    for (is_set, name) in flags {
        if *is_set {
            f.write_str(name)?;
        }
    }
    Ok(())
}

impl fmt::Display for Shown<AuthReq> {
    fn fmt<W: fmt::Write>(&self, f: &mut fmt::Formatter<W>) -> fmt::Result {
        let flags = self.0;
        f.write_str(match flags.bond() {
            BondingFlag::Bonding => "bonding",
            BondingFlag::NoBonding => "no bonding",
        })?;
        write_flags(
            f,
            &[
                (flags.man_in_the_middle(), ", MITM"),
                (flags.secure_connection(), ", SC"),
                (flags.key_press_notification(), ", keypress"),
                (flags.ct2(), ", CT2"),
            ],
        )
    }
}

impl fmt::Display for Shown<KeyDistributionFlags> {
    fn fmt<W: fmt::Write>(&self, f: &mut fmt::Formatter<W>) -> fmt::Result {
        let flags = self.0;
        write_flags(
            f,
            &[
                ((flags.0 & 0b1111) == 0, " none"),
                (flags.encryption_key(), " EncKey"),
                (flags.identity_key(), " IdKey"),
                (flags.signing_key(), " SignKey"),
                (flags.link_key(), " LinkKey"),
            ],
        )
    }
}

impl fmt::Display for Shown<PairingFeatures> {
    fn fmt<W: fmt::Write>(&self, f: &mut fmt::Formatter<W>) -> fmt::Result {
        let features = self.0;
        let no = if bool::from(features.use_oob) {
            ""
        } else {
            "no "
        };
        write!(
            f,
            "{}, {no}OOB, {}, key size {}, initiator{}, responder{}",
            Shown(features.io_capabilities),
            Shown(features.security_properties),
            features.maximum_encryption_key_size,
            Shown(features.initiator_key_distribution),
            Shown(features.responder_key_distribution)
        )
    }
}

// A security level, and its name in the Rust.
#[derive(Clone, Copy)]
pub(crate) struct Level(pub u8);

impl fmt::Display for Level {
    fn fmt<W: fmt::Write>(&self, f: &mut fmt::Formatter<W>) -> fmt::Result {
        let name = match self.0 {
            1 => "Encrypted",
            2 => "EncryptedAuthenticated",
            _ => "of the host",
        };
        write!(f, "{} {name}", self.0)
    }
}

// An IRK; all zero stands for none.
impl fmt::Display for Shown<IdentityResolvingKey> {
    fn fmt<W: fmt::Write>(&self, f: &mut fmt::Formatter<W>) -> fmt::Result {
        if self.0.0 == 0 {
            f.write_str("no IRK")
        } else {
            write!(f, "IRK {}", Octets(self.0.to_le_bytes()))
        }
    }
}

impl fmt::Display for Shown<BondInformation> {
    fn fmt<W: fmt::Write>(&self, f: &mut fmt::Formatter<W>) -> fmt::Result {
        let bond = self.0;
        let bonded = if bond.is_bonded {
            "bonded"
        } else {
            "not bonded"
        };
        write!(
            f,
            "LTK {}, EDIV {}, Rand {}, {bonded}, level {}, {}, {}",
            Octets(bond.ltk.to_le_bytes()),
            bond.ediv,
            Octets(bond.rand.to_le_bytes()),
            bond.security_level,
            Shown(bond.identity.irk),
            Shown(bond.identity.addr)
        )
    }
}

// The name of a machine's state in the Rust.
pub(crate) fn state_name(phase: Phase) -> &'static str {
    match phase {
        Phase::WaitingPairingRequest => "WaitingPairingRequest",
        Phase::WaitingPairingResponse => "WaitingPairingResponse",
        Phase::WaitingPassKeyInput { .. } => "WaitingPassKeyInput",
        Phase::WaitingOobData => "WaitingOobData",
        Phase::WaitingPairingConfirm => "WaitingPairingConfirm",
        Phase::WaitingPairingRandom { .. } => "WaitingPairingRandom",
        Phase::WaitingLinkEncrypted => "WaitingLinkEncrypted",
        Phase::WaitingIdentitityInformation => "WaitingIdentitityInformation",
        Phase::WaitingIdentitityAddressInformation => "WaitingIdentitityAddressInformation",
        Phase::ReceivingKeys { .. } => "ReceivingKeys",
        Phase::Success => "Success",
        Phase::Error(_) => "Error",
    }
}

impl fmt::Display for Shown<PairingMethod> {
    fn fmt<W: fmt::Write>(&self, f: &mut fmt::Formatter<W>) -> fmt::Result {
        use PassKeyEntryAction::{Display, Input};
        f.write_str(match self.0 {
            PairingMethod::JustWorks => "JustWorks",
            PairingMethod::NumericComparison => "NumericComparison",
            PairingMethod::PassKeyEntry {
                central: Display,
                peripheral: Input,
            } => "the terminal shows, the head types: PassKeyEntry CENTRAL_DISPLAYS",
            PairingMethod::PassKeyEntry {
                central: Input,
                peripheral: Display,
            } => "the head shows, the terminal types: PassKeyEntry PERIPHERAL_DISPLAYS",
            PairingMethod::PassKeyEntry {
                central: Input,
                peripheral: Input,
            } => "both type: PassKeyEntry BOTH_INPUT",
            PairingMethod::PassKeyEntry {
                central: Display,
                peripheral: Display,
            } => "both show: PassKeyEntry",
            PairingMethod::OutOfBand => "OutOfBand",
        })
    }
}
