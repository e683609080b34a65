// A packet of the link: what a step reads of it, and how it is printed.
use crate::print::{Octets, Shown};
use arrayvec::ArrayVec;
use host_calls::Call;
use octets::{octets_at, write};
use smp_types::{Command, PairingFeatures};
use std::fmt;

#[derive(Clone, Copy)]
pub(crate) enum Packet {
    // the terminal's, with which a pairing starts
    PairingRequest(PairingFeatures),
    // one that a step has sent
    Sent(host_calls::Packet),
}

// What the free places of a queue hold.
impl Default for Packet {
    fn default() -> Self {
        Packet::PairingRequest(PairingFeatures::default())
    }
}

impl Packet {
    pub(crate) fn command(self) -> Command {
        match self {
            Packet::PairingRequest(_) => Command::PairingRequest,
            Packet::Sent(packet) => packet.command(),
        }
    }

    fn name(self) -> &'static str {
        match self {
            Packet::PairingRequest(_) => "Pairing Request",
            Packet::Sent(host_calls::Packet::PairingResponse(_)) => "Pairing Response",
            Packet::Sent(host_calls::Packet::PairingConfirm(_)) => "Pairing Confirm",
            Packet::Sent(host_calls::Packet::PairingRandom(_)) => "Pairing Random",
            Packet::Sent(host_calls::Packet::EncryptionInformation(_)) => "Encryption Information",
            Packet::Sent(host_calls::Packet::CentralIdentification { .. }) =>
                "Central Identification",
            Packet::Sent(host_calls::Packet::IdentityInformation(_)) => "Identity Information",
            Packet::Sent(host_calls::Packet::IdentityAddressInformation(_)) => {
                "Identity Address Information"
            }
        }
    }

    // The octets after the code.
    pub(crate) fn payload(self) -> ArrayVec<u8, 16> {
        let mut octets = [0; 17];
        match self {
            Packet::PairingRequest(features) => write(&mut octets, 1, &features.encode()),
            Packet::Sent(packet) => Call::SendPacket(packet).write(&mut octets, 0),
        };
        let mut payload = ArrayVec::from(octets_at::<16>(&octets, 1));
        payload.truncate(usize::from(self.command().payload_size()));
        payload
    }
}

// A request or a response: all its octets, and what they say.
fn write_features<W: fmt::Write>(
    f: &mut fmt::Formatter<W>,
    command: Command,
    features: PairingFeatures,
) -> fmt::Result {
    let octets = Octets(features.encode());
    write!(f, "{:02x}{octets}  {}", u8::from(command), Shown(features))
}

impl fmt::Display for Packet {
    fn fmt<W: fmt::Write>(&self, f: &mut fmt::Formatter<W>) -> fmt::Result {
        write!(f, "{:<30}", self.name())?;
        match *self {
            Packet::PairingRequest(features) => write_features(f, self.command(), features),
            Packet::Sent(packet) => write!(f, "{}", Shown(packet)),
        }
    }
}

// What a packet carries.
impl fmt::Display for Shown<host_calls::Packet> {
    fn fmt<W: fmt::Write>(&self, f: &mut fmt::Formatter<W>) -> fmt::Result {
        match self.0 {
            host_calls::Packet::PairingResponse(features) => {
                write_features(f, self.0.command(), features)
            }
            host_calls::Packet::PairingConfirm(confirm) => {
                write!(f, "{}", Octets(confirm.0.to_le_bytes()))
            }
            host_calls::Packet::PairingRandom(nonce) => write!(
                f,
                "{}",
                Octets(nonce.0.to_le_bytes())
            ),
            host_calls::Packet::EncryptionInformation(ltk) => {
                write!(f, "LTK {}", Octets(ltk.to_le_bytes()))
            }
            host_calls::Packet::CentralIdentification { ediv, rand } => {
                write!(f, "EDIV {ediv}, Rand {}", Octets(rand.to_le_bytes()))
            }
            host_calls::Packet::IdentityInformation(irk) => {
                write!(f, "IRK {}", Octets(irk.to_le_bytes()))
            }
            host_calls::Packet::IdentityAddressInformation(address) => write!(
                f,
                "{}",
                Shown(address)
            ),
        }
    }
}
