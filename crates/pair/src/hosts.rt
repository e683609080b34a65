// The host of either end, fixed, so that a pairing is printed the same each time.
//
// It gives verdict 0 to every packet, event and bond update, finds no bond and has none for a bonded link. The bonding
// flag and whether OOB data is there are those of the end's own feature record, the identity address is its own. Where
// encryption is called for, the bond is that of the key: no EDIV, Rand or IRK, not bonded, the level of the call, the
// peer's address. Drawn octets count upwards; a nonce is drawn most significant octet first:
//
//              address                       IRK       nonce      LTK        EDIV     Rand
//   terminal   00:00:5e:00:53:01 (public)    16 x a1   10 .. 1f   30 .. 3f   50, 51   52 .. 59
//   head       c0:00:5e:00:53:02 (random)    16 x b2   20 .. 2f   40 .. 4f   60, 61   62 .. 69
//
// The passkey is 204518, drawn or typed, the OOB data 70 .. 7f, at both ends.
use crate::print::{Octets, Shown};
use arrayvec::ArrayVec;
use bond::{Address, BdAddr, BondInformation, Identity};
use crypto::{IdentityResolvingKey, LongTermKey, Nonce};
use host_calls::{Call, Draw, Question};
use machine::{Event, Role};
use smp_types::{BondingFlag, PairingFeatures, PassKey};
use std::io::Write;
use std::{fmt, io};

const PASS_KEY: PassKey = PassKey(204518);

const OOB_DATA: u128 = 0x7f7e7d7c_7b7a7978_77767574_73727170;

const TERMINAL_ADDRESS: Address = Address {
    kind: 0,
    addr: BdAddr {
        low: 0x5e00_5301,
        high: 0x0000,
    },
};

const HEAD_ADDRESS: Address = Address {
    kind: 1,
    addr: BdAddr {
        low: 0x5e00_5302,
        high: 0xc000,
    },
};

// The values of one end's host.
#[derive(Clone, Copy)]
pub(crate) struct Host {
    pub local_features: PairingFeatures,
    pub address: Address,
    pub peer_address: Address,
    irk: IdentityResolvingKey,
    nonce: Nonce,
    ltk: LongTermKey,
    ediv: u16,
    rand: u64,
}

impl Host {
    pub(crate) fn new(role: Role, local_features: PairingFeatures) -> Host {
        match role {
            Role::Central => Host {
                local_features,
                address: TERMINAL_ADDRESS,
                peer_address: HEAD_ADDRESS,
                irk: IdentityResolvingKey(0xa1a1a1a1_a1a1a1a1_a1a1a1a1_a1a1a1a1),
                nonce: Nonce(0x10111213_14151617_18191a1b_1c1d1e1f),
                ltk: LongTermKey(0x3f3e3d3c_3b3a3938_37363534_33323130),
                ediv: 0x5150,
                rand: 0x59585756_55545352,
            },
            Role::Peripheral => Host {
                local_features,
                address: HEAD_ADDRESS,
                peer_address: TERMINAL_ADDRESS,
                irk: IdentityResolvingKey(0xb2b2b2b2_b2b2b2b2_b2b2b2b2_b2b2b2b2),
                nonce: Nonce(0x20212223_24252627_28292a2b_2c2d2e2f),
                ltk: LongTermKey(0x4f4e4d4c_4b4a4948_47464544_43424140),
                ediv: 0x6160,
                rand: 0x69686766_65646362,
            },
        }
    }

    // The answer to a call.
    pub(crate) fn answer(&self, call: Call) -> Answer {
        match call {
            Call::SendPacket(_) | Call::SendConnectionEvent(_) | Call::UpdateBondInformation(_) =>
                Answer::Verdict,
            Call::Ask(question) => self.reply(question),
            Call::Draw(draw) => self.draw(draw),
            Call::EnableEncryption {
                ltk,
                security_level,
                ..
            } => Answer::Bond(self.bond(ltk, security_level)),
            Call::EnableBondedEncryption => Answer::NoBond,
        }
    }

    fn reply(&self, question: Question) -> Answer {
        let bonding = self.local_features.security_properties.bond();
        match question {
            Question::FindBond => Answer::YesNo(false),
            Question::LocalIrk => Answer::LocalIrk(self.irk),
            Question::LocalIdentityAddress => Answer::IdentityAddress(self.address),
            Question::BondingFlag => Answer::YesNo(bonding == BondingFlag::Bonding),
            Question::OobAvailable => Answer::YesNo(bool::from(self.local_features.use_oob)),
        }
    }

    fn draw(&self, draw: Draw) -> Answer {
        match draw {
            Draw::Nonce => Answer::Nonce(self.nonce),
            Draw::PassKey => Answer::PassKey(PASS_KEY),
            Draw::LongTermKey => Answer::LongTermKey(self.ltk),
            Draw::Ediv => Answer::Ediv(self.ediv),
            Draw::Rand => Answer::Rand(self.rand),
        }
    }

    // The bond of the key for which encryption was called.
    fn bond(&self, ltk: LongTermKey, security_level: u8) -> BondInformation {
        BondInformation {
            ltk,
            ediv: 0,
            rand: 0,
            is_bonded: false,
            security_level,
            identity: Identity {
                addr: self.peer_address,
                irk: IdentityResolvingKey(0),
            },
        }
    }
}

// The answers of a step: it makes at most 11 calls, and the longest answer has 54 octets with its kind.
pub(crate) type Answers = ArrayVec<u8, 594>;

// The answer to a call.
#[derive(Clone, Copy)]
pub(crate) enum Answer {
    // on a packet, an event or an update of the bond
    Verdict,
    YesNo(bool),
    LocalIrk(IdentityResolvingKey),
    IdentityAddress(Address),
    Nonce(Nonce),
    PassKey(PassKey),
    LongTermKey(LongTermKey),
    Ediv(u16),
    Rand(u64),
    Bond(BondInformation),
    NoBond,
}

impl Answer {
    // Appends the kind of the call and the octets of its answer. A verdict stands in front of what may be refused.
    pub(crate) fn write(self, call: Call, answers: &mut Answers) -> io::Result<()> {
        answers.write_all(&[call.kind()])?;
        match self {
            Answer::Verdict => answers.write_all(&[0]),
            Answer::YesNo(yes) => answers.write_all(&[u8::from(yes)]),
            Answer::LocalIrk(irk) => answers.write_all(&irk.to_le_bytes()),
            Answer::IdentityAddress(address) => {
                answers.write_all(&[0])?;
                answers.write_all(&address.encode())
            }
            Answer::Nonce(nonce) => answers.write_all(&nonce.0.to_be_bytes()),
            Answer::PassKey(passkey) => answers.write_all(&passkey.0.to_le_bytes()),
            Answer::LongTermKey(ltk) => answers.write_all(&ltk.to_le_bytes()),
            Answer::Ediv(ediv) => answers.write_all(&ediv.to_le_bytes()),
            Answer::Rand(rand) => answers.write_all(&rand.to_le_bytes()),
            Answer::Bond(bond) => {
                answers.write_all(&[0])?;
                answers.write_all(&bond.encode())
            }
            // verdict, absent, and the place of a bond
            Answer::NoBond => answers.write_all(&[0; 53]),
        }
    }
}

impl fmt::Display for Answer {
    fn fmt<W: fmt::Write>(&self, f: &mut fmt::Formatter<W>) -> fmt::Result {
        match *self {
            Answer::Verdict | Answer::Bond(_) => Ok(()),
            Answer::YesNo(true) => f.write_str("yes"),
            Answer::YesNo(false) | Answer::NoBond => f.write_str("no"),
            Answer::LocalIrk(irk) => write!(f, "{}", Octets(irk.to_le_bytes())),
            Answer::IdentityAddress(address) => write!(f, "{}", Shown(address)),
            Answer::Nonce(nonce) => write!(f, "{}", Octets(nonce.0.to_le_bytes())),
            Answer::PassKey(passkey) => write!(f, "{}", passkey.0),
            Answer::LongTermKey(ltk) => write!(f, "{}", Octets(ltk.to_le_bytes())),
            Answer::Ediv(ediv) => write!(f, "{ediv}"),
            Answer::Rand(rand) => write!(f, "{}", Octets(rand.to_le_bytes())),
        }
    }
}

// An event that a host reports.
#[derive(Clone, Copy, PartialEq, Eq)]
pub(crate) enum HostEvent {
    EncryptionOn,
    PassKeyTyped,
    OobDataGiven,
}

impl From<HostEvent> for Event {
    fn from(event: HostEvent) -> Event {
        match event {
            HostEvent::EncryptionOn => Event::LinkEncryptedResult(true),
            HostEvent::PassKeyTyped => Event::PassKeyInput(PASS_KEY.0),
            HostEvent::OobDataGiven => Event::OobDataReceived(OOB_DATA),
        }
    }
}

impl fmt::Display for HostEvent {
    fn fmt<W: fmt::Write>(&self, f: &mut fmt::Formatter<W>) -> fmt::Result {
        match self {
            HostEvent::EncryptionOn => {
                write!(f, "{:<30}encryption is on", "LinkEncryptedResult")
            }
            HostEvent::PassKeyTyped => write!(f, "{:<30}{}", "PassKeyInput", PASS_KEY.0),
            HostEvent::OobDataGiven => {
                write!(
                    f,
                    "{:<30}{}",
                    "OobDataReceived",
                    Octets(OOB_DATA.to_le_bytes())
                )
            }
        }
    }
}
