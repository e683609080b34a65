// Host calls: one octet of kind, then a body whose length the kind fixes.
// Each is laid into a list at a place. Calls differ in length: by value each would be an array of the longest with a
// length beside it, since there is no heap.
// Each `write` gives a bool: `Written` says by it whether the octets fit.
ghost use Rattle.std.specs.Prelude.{◌≡◌, [], ◌∷◌, ◌++◌, length};
ghost use Rattle.octets.specs.Octets.{to_octets, octets_of, Written};
ghost use Rattle.bond.specs.Bond.{address_type, bd_addr_octets, option_bond_octets};
ghost use Rattle.host_calls.specs.Calls.{packet_command, kind_of, event_kind, question_kind, draw_kind, body_length, packet_body, event_body};
ghost use Rattle.host_calls.specs.Calls.{body_of, call_octets, listed, no_trace, push_of};

use bond::{Address, BondInformation, Error, encode_option_bond};
use crypto::{Confirm, IdentityResolvingKey, LongTermKey, Nonce};
use octets::{word_to_octets, write};
use smp_types::{Command, PairingFeatures, PassKey};

// A packet to the peer (util.rs makes them).
#[derive(Clone, Copy, PartialEq, Eq)]
pub enum Packet {
    PairingResponse(PairingFeatures),
    PairingConfirm(Confirm),
    PairingRandom(Nonce),
    EncryptionInformation(LongTermKey),
    CentralIdentification { ediv: u16, rand: u64 },
    IdentityInformation(IdentityResolvingKey),
    IdentityAddressInformation(Address),
}

// An event to the host's user (connection.rs).
#[derive(Clone, Copy, PartialEq, Eq)]
pub enum ConnectionEvent {
    PairingFailed(Error),
    PairingComplete {
        // a number: the host may give any octet
        security_level: u8,
        bond: Option<BondInformation>,
    },
    PassKeyDisplay(PassKey),
    PassKeyInput,
    BondLost,
    OobRequest,
}

// A question to the host.
#[derive(Clone, Copy, PartialEq, Eq)]
pub enum Question {
    FindBond = 0x30,
    LocalIrk = 0x31,
    LocalIdentityAddress = 0x32,
    BondingFlag = 0x33,
    OobAvailable = 0x34,
}

// A draw of the generator.
#[derive(Clone, Copy, PartialEq, Eq)]
pub enum Draw {
    Nonce = 0x35,
    PassKey = 0x36,
    LongTermKey = 0x37,
    Ediv = 0x38,
    Rand = 0x39,
}

#[derive(Clone, Copy, PartialEq, Eq)]
pub enum Call {
    SendPacket(Packet),
    SendConnectionEvent(ConnectionEvent),
    Ask(Question),
    Draw(Draw),
    EnableEncryption {
        ltk: LongTermKey,
        security_level: u8,
        encryption_key_len: u8,
    },
    EnableBondedEncryption,
    UpdateBondInformation(BondInformation),
}

impl Packet {
    pub fn command(self) -> Command
        ensures { result ≡ packet_command self }
    {
        match self {
            Packet::PairingResponse(_) => Command::PairingResponse,
            Packet::PairingConfirm(_) => Command::PairingConfirm,
            Packet::PairingRandom(_) => Command::PairingRandom,
            Packet::EncryptionInformation(_) => Command::EncryptionInformation,
            Packet::CentralIdentification { .. } => Command::CentralIdentification,
            Packet::IdentityInformation(_) => Command::IdentityInformation,
            Packet::IdentityAddressInformation(_) => Command::IdentityAddressInformation,
        }
    }

    // Lays the payload over list from place at on, as `octets::write` does.
    fn write(self, list: &mut [u8], at: usize) -> bool
        ensures { Written list.old at (packet_body self) result list.new }
    {
        match self {
            Packet::PairingResponse(features) => write(list, at, &features.encode()),
            Packet::PairingConfirm(confirm) => write(list, at, &word_to_octets(confirm.0)),
            Packet::PairingRandom(nonce) => write(list, at, &word_to_octets(nonce.0)),
            Packet::EncryptionInformation(ltk) => write(list, at, &ltk.to_le_bytes()),
            Packet::CentralIdentification { ediv, rand } => {
                write(list, at, &identification(ediv, rand))
            }
            Packet::IdentityInformation(irk) => write(list, at, &irk.to_le_bytes()),
            Packet::IdentityAddressInformation(address) => {
                write(list, at, &identity_address(address))
            }
        }
    }
}

// EDIV, then Rand.
#[tactic(auto, unfolding(octets::specs::Octets::fits_at, octets::specs::Octets::write_at))]
fn identification(ediv: u16, rand: u64) -> [u8; 10]
    ensures { result ≡ to_octets 2 ediv ++ to_octets 8 rand }
{
    let mut octets = [0; 10];
    write(&mut octets, 0, &ediv.to_le_bytes());
    write(&mut octets, 2, &rand.to_le_bytes());
    octets
}

// The type of an address, then its six octets.
#[tactic(auto, unfolding(bond::specs::Bond::bd_addr_octets))]
fn identity_address(address: Address) -> [u8; 7]
    ensures { result ≡ address_type address ∷ bd_addr_octets address.addr }
{
    let [a, b, c, d, e, f] = address.addr.into_inner();
    [address.addr_type(), a, b, c, d, e, f]
}

impl ConnectionEvent {
    pub fn kind(self) -> u8
        ensures { result ≡ event_kind self }
    {
        match self {
            ConnectionEvent::PairingFailed(_) => 0x20,
            ConnectionEvent::PairingComplete { .. } => 0x21,
            ConnectionEvent::PassKeyDisplay(_) => 0x22,
            ConnectionEvent::PassKeyInput => 0x23,
            ConnectionEvent::BondLost => 0x24,
            ConnectionEvent::OobRequest => 0x25,
        }
    }

    // Lays the body over list from place at on, as `octets::write` does.
    fn write(self, list: &mut [u8], at: usize) -> bool
        ensures { Written list.old at (event_body self) result list.new }
    {
        match self {
            ConnectionEvent::PairingFailed(error) => write(list, at, &error.failed_body()),
            ConnectionEvent::PairingComplete {
                security_level,
                bond,
            } => write(list, at, &complete(security_level, bond)),
            ConnectionEvent::PassKeyDisplay(passkey) => write(list, at, &passkey.0.to_le_bytes()),
            ConnectionEvent::PassKeyInput
            | ConnectionEvent::BondLost
            | ConnectionEvent::OobRequest => write(list, at, &[]),
        }
    }
}

// Level, bond present 0/1, bond or zeros.
#[tactic(auto, unfolding(octets::specs::Octets::fits_at, octets::specs::Octets::write_at))]
fn complete(security_level: u8, bond: Option<BondInformation>) -> [u8; 53]
    ensures { result ≡ security_level ∷ option_bond_octets bond }
{
    let mut octets = [0; 53];
    write(&mut octets, 0, &[security_level]);
    write(&mut octets, 1, &encode_option_bond(bond));
    octets
}

// Key, level, key size.
#[tactic(auto, unfolding(octets::specs::Octets::fits_at, octets::specs::Octets::write_at, octets::specs::Octets::octets_of))]
fn encryption(ltk: LongTermKey, security_level: u8, encryption_key_len: u8) -> [u8; 18]
    ensures { result ≡ octets_of ltk.0 ++ (security_level ∷ encryption_key_len ∷ []) }
{
    let mut octets = [0; 18];
    write(&mut octets, 0, &ltk.to_le_bytes());
    write(&mut octets, 16, &[security_level, encryption_key_len]);
    octets
}

impl Question {
    // `kind` and no From, here and for a draw: events and calls have it under this name.
    pub fn kind(self) -> u8
        ensures { result ≡ question_kind self }
    {
        self as u8
    }
}

impl Draw {
    pub fn kind(self) -> u8
        ensures { result ≡ draw_kind self }
    {
        self as u8
    }
}

impl Call {
    pub fn kind(self) -> u8
        ensures { result ≡ kind_of self }
    {
        match self {
            Call::SendPacket(packet) => u8::from(packet.command()),
            Call::SendConnectionEvent(event) => event.kind(),
            Call::Ask(question) => question.kind(),
            Call::Draw(draw) => draw.kind(),
            Call::EnableEncryption { .. } => 0x3A,
            Call::EnableBondedEncryption => 0x3B,
            Call::UpdateBondInformation(_) => 0x3C,
        }
    }

    // The octets of the call: its kind and its body.
    #[tactic(auto, using(crate::proofs::Writing::body_length_lem), unfolding(crate::specs::Calls::call_octets))]
    pub fn size(self) -> usize
        ensures { result ≡ length (call_octets self) }
    {
        body_length(self.kind()).map_or(0, |n| 1 + n)
    }

    // Lays the body over list from place at on, as `octets::write` does.
    fn write_body(self, list: &mut [u8], at: usize) -> bool
        ensures { Written list.old at (body_of self) result list.new }
    {
        match self {
            Call::SendPacket(packet) => packet.write(list, at),
            Call::SendConnectionEvent(event) => event.write(list, at),
            Call::EnableEncryption {
                ltk,
                security_level,
                encryption_key_len,
            } => {
                let octets = encryption(ltk, security_level, encryption_key_len);
                write(list, at, &octets)
            }
            Call::UpdateBondInformation(bond) => write(list, at, &bond.encode()),
            Call::Ask(_) | Call::Draw(_) | Call::EnableBondedEncryption => write(list, at, &[]),
        }
    }

    // Lays the call over list from place at on, as `octets::write` does.
    #[tactic(auto, unfolding(crate::specs::Calls::call_octets), using(octets::proofs::Parts::fits, octets::proofs::Parts::fits_not, octets::proofs::Parts::not_written, octets::proofs::Parts::length_written, octets::proofs::Parts::write_then))]
    pub fn write(self, list: &mut [u8], at: usize) -> bool
        ensures { Written list.old at (call_octets self) result list.new }
    {
        if list.len().saturating_sub(at) < self.size() {
            return false;
        }
        write(list, at, &[self.kind()]);
        self.write_body(list, at + 1)
    }
}

// The length of the body that a kind fixes, or that there is no such kind of call.
// By number: each kind is a variant of `Call` or below it already, and a list of calls has any octet in this place.
pub fn body_length(kind: u8) -> Option<usize>
    ensures { result ≡ body_length kind }
{
    match kind {
        0x02 => Some(6),
        0x03 | 0x04 | 0x06 | 0x08 => Some(16),
        0x07 => Some(10),
        0x09 => Some(7),
        0x20 => Some(2),
        0x21 => Some(53),
        0x22 => Some(4),
        0x23..=0x25 | 0x30..=0x39 | 0x3B => Some(0),
        0x3A => Some(18),
        0x3C => Some(51),
        _ => None,
    }
}

// One step's calls have no more octets than these.
pub const LONGEST: usize = 164;

// What a step has done so far: the octets of the calls that it has listed, and how many octets of answers it has read.
// No ArrayVec: it does not say what stands behind its items, and a trace is compared whole.
#[derive(Clone, Copy, PartialEq, Eq)]
pub struct Trace {
    pub octets: [u8; LONGEST],
    pub len: usize,
    pub read: usize,
}

impl Default for Trace {
    ghost is_default = { λ trace. trace ≡ no_trace };

    #[tactic(auto, unfolding(crate::specs::Calls::no_trace))]
    fn default() -> Self {
        Self {
            octets: [0; LONGEST],
            len: 0,
            read: 0,
        }
    }
}

impl Trace {
    // One more call; where it has no room, the trace stays as it is.
    #[tactic(auto, using(octets::proofs::Parts::fitting), unfolding(crate::specs::Calls::push_of, octets::specs::Octets::write_at))]
    pub fn push(&mut self, call: Call)
        ensures { self.new ≡ push_of self.old call }
    {
        if call.write(&mut self.octets, self.len) {
            self.len += call.size();
        }
    }

    // The octets of all calls.
    #[tactic(auto, unfolding(crate::specs::Calls::listed))]
    pub fn size(self) -> usize
        ensures { result ≡ length (listed self) }
    {
        self.len.min(LONGEST)
    }

    // Lays the calls over list from its beginning on, as `octets::write` does.
    #[tactic(auto, unfolding(crate::specs::Calls::listed))]
    pub fn write(self, list: &mut [u8]) -> bool
        ensures { Written list.old 0 (listed self) result list.new }
    {
        write(list, 0, &self.octets[..self.size()])
    }
}
