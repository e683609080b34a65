// lib.rs: addresses, errors and bonds, with the octets that document 01 gives them.
#![tactic(auto)]

ghost use Rattle.std.specs.Prelude.{◌≡◌};
ghost use Rattle.bond.specs.Bond.{bd_addr_of, bd_addr_octets, address_of, address_octets, address_type};
ghost use Rattle.bond.specs.Bond.{failed_body, verdict_error, verdict_result, flag_of, bond_octets, bond_of, option_bond_octets};

use crypto::{IdentityResolvingKey, LongTermKey};
use octets::{Number, octets_at, write};
use smp_types::Reason;

// A device address of six octets: `low + 2^32 * high`. Two numbers and no array, so that in the definitions, too, every
// value is an address: an array stands there as a list of any length.
#[derive(Clone, Copy, PartialEq, Eq)]
pub struct BdAddr {
    pub low: u32,
    pub high: u16,
}

impl BdAddr {
    // From 6 octets, least significant first.
    #[tactic(auto, unfolding(crate::specs::Bond::bd_addr_of))]
    pub fn new(val: [u8; 6]) -> BdAddr
        ensures { result ≡ bd_addr_of val }
    {
        let [a, b, c, d, e, f] = val;
        BdAddr {
            low: u32::from_le_bytes([a, b, c, d]),
            high: u16::from_le_bytes([e, f]),
        }
    }

    // To 6 octets, least significant first.
    #[tactic(auto, unfolding(crate::specs::Bond::bd_addr_octets))]
    pub fn into_inner(self) -> [u8; 6]
        ensures { result ≡ bd_addr_octets self }
    {
        let [a, b, c, d] = self.low.to_le_bytes();
        let [e, f] = self.high.to_le_bytes();
        [a, b, c, d, e, f]
    }
}

// A device address and its kind. Kind 0 is public; every other octet is kept.
// The kind is a number: the host may give any octet.
#[derive(Clone, Copy, PartialEq, Eq)]
pub struct Address {
    pub kind: u8,
    pub addr: BdAddr,
}

impl Address {
    // To 7 octets: the kind, then the address.
    #[tactic(auto, unfolding(crate::specs::Bond::address_octets, crate::specs::Bond::bd_addr_octets))]
    pub fn encode(self) -> [u8; 7]
        ensures { result ≡ address_octets self }
    {
        let [a, b, c, d, e, f] = self.addr.into_inner();
        [self.kind, a, b, c, d, e, f]
    }

    // The address type in c1 and in packet 0x09: 0 for public, 1 for every other kind.
    #[tactic(auto, unfolding(crate::specs::Bond::address_type))]
    pub fn addr_type(self) -> u8
        ensures { result ≡ address_type self }
    {
        u8::from(self.kind != 0)
    }
}

// From 7 octets: the kind, then the address.
impl From<[u8; 7]> for Address {
    ghost from_gives = { λ octets address. address ≡ address_of octets };

    #[tactic(auto, unfolding(crate::specs::Bond::address_of))]
    fn from(octets: [u8; 7]) -> Address {
        let [kind, a, b, c, d, e, f] = octets;
        Address {
            kind,
            addr: BdAddr::new([a, b, c, d, e, f]),
        }
    }
}

// Why a pairing failed.
#[derive(Clone, Copy, PartialEq, Eq)]
pub enum Error {
    Security(Reason),
    InvalidState,
    InvalidValue,
    OutOfMemory,
    // an error of the host, with its verdict
    Host(u8),
}

impl Error {
    // The error of a verdict that is not 0.
    pub fn from_verdict(verdict: u8) -> Error
        ensures { result ≡ verdict_error verdict }
    {
        if verdict == 1 {
            Error::OutOfMemory
        } else {
            Error::Host(verdict)
        }
    }

    // The two octets of document 01's failed body.
    pub fn failed_body(self) -> [u8; 2]
        ensures { result ≡ failed_body self }
    {
        match self {
            Error::Security(reason) => [1, u8::from(reason)],
            Error::InvalidState => [2, 0],
            Error::InvalidValue => [3, 0],
            Error::OutOfMemory => [4, 0],
            Error::Host(verdict) => [5, verdict],
        }
    }
}

// A verdict: 0 done, or the error that it stands for.
pub fn read_verdict(verdict: u8) -> Result<(), Error>
    ensures { result ≡ verdict_result verdict }
{
    match verdict {
        0 => Ok(()),
        _ => Err(Error::from_verdict(verdict)),
    }
}

// A yes/no octet is 0 or 1.
pub fn read_flag(octet: u8) -> Option<bool>
    ensures { result ≡ flag_of octet }
{
    match octet {
        0 => Some(false),
        1 => Some(true),
        _ => None,
    }
}

// Identity of a peer device: its identity address, and its IRK.
// No Option of the IRK, which the Rust has: the bond's 16 octets hold zeros for none, and are kept as they came.
#[derive(Clone, Copy, PartialEq, Eq)]
pub struct Identity {
    pub addr: Address,
    pub irk: IdentityResolvingKey,
}

// What the host keeps of a pairing.
#[derive(Clone, Copy, PartialEq, Eq)]
pub struct BondInformation {
    pub ltk: LongTermKey,
    pub ediv: u16,
    pub rand: u64,
    pub is_bonded: bool,
    // 1 Encrypted, 2 EncryptedAuthenticated, others the host's: a number, since the host may give any octet
    pub security_level: u8,
    pub identity: Identity,
}

impl BondInformation {
    // To the 51 octets of document 01's bond.
    pub fn encode(self) -> [u8; 51]
        ensures { result ≡ bond_octets self }
    {
        let mut octets = [0; 51];
        write(&mut octets, 0, &self.ltk.to_le_bytes());
        write(&mut octets, 16, &self.ediv.to_le_bytes());
        write(&mut octets, 18, &self.rand.to_le_bytes());
        write(
            &mut octets,
            26,
            &[u8::from(self.is_bonded), self.security_level],
        );
        write(&mut octets, 28, &self.identity.irk.to_le_bytes());
        write(&mut octets, 44, &self.identity.addr.encode());
        octets
    }

    // Of the 51 octets; where the yes/no octet of `is_bonded` is neither, there is no bond.
    #[tactic(auto, unfolding(crate::specs::Bond::bond_of, crate::specs::Bond::bond_with))]
    pub fn decode(octets: [u8; 51]) -> Option<BondInformation>
        ensures { result ≡ bond_of octets }
    {
        Some(BondInformation {
            ltk: LongTermKey::from_le_bytes(octets_at(&octets, 0)),
            ediv: u16::from_octets(octets_at(&octets, 16)),
            rand: u64::from_octets(octets_at(&octets, 18)),
            is_bonded: read_flag(octets[26])?,
            security_level: octets[27],
            identity: Identity {
                irk: IdentityResolvingKey::from_le_bytes(octets_at(&octets, 28)),
                addr: Address::from(octets_at(&octets, 44)),
            },
        })
    }
}

// Whether there is a bond, 0 or 1, then its 51 octets, or zeros where there is none.
#[tactic(auto, unfolding(octets::specs::Octets::fits_at, octets::specs::Octets::write_at))]
pub fn encode_option_bond(bond: Option<BondInformation>) -> [u8; 52]
    ensures { result ≡ option_bond_octets bond }
{
    let bond_or_zeros = match bond {
        Some(bond) => bond.encode(),
        None => [0; 51],
    };
    let mut octets = [0; 52];
    write(&mut octets, 0, &[u8::from(bond.is_some())]);
    write(&mut octets, 1, &bond_or_zeros);
    octets
}
