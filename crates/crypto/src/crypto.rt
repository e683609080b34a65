// crypto.rs, the part of legacy pairing: e, c1 and s1 of Vol 3 Part H, keys and nonces.
ghost use Rattle.std.specs.Prelude.{◌≡◌};
ghost use Rattle.octets.specs.Octets.{octets_of, word_of};
ghost use Rattle.crypto.specs.Crypto.{e_of, p1_of, p2_of, c1_of, s1_of, masked_of, drawn_nonce};

use octets::{Number, word_from_octets_be, word_to_octets, word_to_octets_be};

// A Long Term Key, or a Short Term Key in its place.
// A type apart from IdentityResolvingKey with the same methods, as in the Rust: one key is not to be passed for the other.
#[derive(Clone, Copy, PartialEq, Eq)]
pub struct LongTermKey(pub u128);

impl LongTermKey {
    // From 16 octets, least significant first.
    pub fn from_le_bytes(k: [u8; 16]) -> LongTermKey
        ensures { result.0 ≡ word_of k }
    {
        LongTermKey(u128::from_octets(k))
    }

    // To 16 octets, least significant first.
    pub fn to_le_bytes(self) -> [u8; 16]
        ensures { result ≡ octets_of self.0 }
    {
        word_to_octets(self.0)
    }

    // The key cut to a size in octets: its low octets, and zeros above them.
    #[tactic(auto, using(crate::proofs::Cutting::shifted, crate::proofs::Cutting::masked_whole, crate::proofs::Cutting::masked_part))]
    pub fn masked(self, key_size: u8) -> LongTermKey
        ensures { result ≡ masked_of key_size self }
    {
        if 16 <= key_size {
            return self;
        }
        LongTermKey(self.0 % (1 << (8 * key_size)))
    }
}

// An Identity Resolving Key; all zero stands for none.
#[derive(Clone, Copy, PartialEq, Eq)]
pub struct IdentityResolvingKey(pub u128);

impl IdentityResolvingKey {
    // From 16 octets, least significant first.
    pub fn from_le_bytes(k: [u8; 16]) -> IdentityResolvingKey
        ensures { result.0 ≡ word_of k }
    {
        IdentityResolvingKey(u128::from_octets(k))
    }

    // To 16 octets, least significant first.
    pub fn to_le_bytes(self) -> [u8; 16]
        ensures { result ≡ octets_of self.0 }
    {
        word_to_octets(self.0)
    }
}

// A random number of 128 bits, Mrand or Srand.
#[derive(Clone, Copy, PartialEq, Eq)]
pub struct Nonce(pub u128);

impl Nonce {
    // From 16 octets of the generator, most significant first; 0 becomes 1.
    #[tactic(auto, unfolding(crate::specs::Crypto::drawn_nonce, crate::specs::Crypto::non_zero))]
    pub fn new(drawn: [u8; 16]) -> Nonce
        ensures { result ≡ drawn_nonce drawn }
    {
        Nonce(word_from_octets_be(drawn).max(1))
    }
}

// A confirm value, Mconfirm or Sconfirm.
#[derive(Clone, Copy, PartialEq, Eq)]
pub struct Confirm(pub u128);

// The security function e: AES-128 of 128-bit numbers.
#[tactic(auto, unfolding(crate::specs::Crypto::e_of))]
pub fn e(key: u128, plaintext_data: u128) -> u128
    ensures { result ≡ e_of key plaintext_data }
{
    word_from_octets_be(aes::encrypt(word_to_octets_be(key), word_to_octets_be(plaintext_data)))
}

// p1 = pres || preq || rat || iat, of which iat is the least significant octet.
fn p1(pres: [u8; 7], preq: [u8; 7], rat: u8, iat: u8) -> u128
    ensures { result ≡ p1_of pres preq rat iat }
{
    u128::from_octets([
        iat, rat, preq[0], preq[1], preq[2], preq[3], preq[4], preq[5], preq[6], pres[0], pres[1],
        pres[2], pres[3], pres[4], pres[5], pres[6],
    ])
}

// p2 = padding || ia || ra, of which the first octet of ra on the air is the least significant.
fn p2(ia: [u8; 6], ra: [u8; 6]) -> u128
    ensures { result ≡ p2_of ia ra }
{
    u128::from_octets([
        ra[0], ra[1], ra[2], ra[3], ra[4], ra[5], ia[0], ia[1], ia[2], ia[3], ia[4], ia[5], 0, 0,
        0, 0,
    ])
}

// The confirm value. preq and pres have their codes in front; ia and iat are the initiator's, in both roles.
// Octet strings as on the air.
// preq and pres apart, as Part H has them.
#[tactic(auto, unfolding(crate::specs::Crypto::c1_of))]
pub fn c1(
    k: u128,
    r: Nonce,
    preq: [u8; 7],
    pres: [u8; 7],
    iat: u8,
    ia: [u8; 6],
    rat: u8,
    ra: [u8; 6],
) -> Confirm
    ensures { result ≡ c1_of k r preq pres iat ia rat ra }
{
    let first = e(k, r.0 ^ p1(pres, preq, rat, iat));
    Confirm(e(k, first ^ p2(ia, ra)))
}

// The short-term key. r1 is Srand and r2 is Mrand, in both roles.
#[tactic(auto, using(crate::proofs::Reading::s1_reading, crate::proofs::Reading::low_halves))]
pub fn s1(k: u128, r1: Nonce, r2: Nonce) -> LongTermKey
    ensures { result ≡ s1_of k r1 r2 }
{
    let r = ((r1.0 % (1 << 64)) << 64) + r2.0 % (1 << 64);
    LongTermKey(e(k, r))
}
