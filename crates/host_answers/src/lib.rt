// Answers: records of one octet of kind, the call's, and a body whose length the kind fixes; read at a place, since a step
// gives back how many octets it has read. An Err says why there is no answer.
#![tactic(auto)]

ghost use Rattle.std.specs.Prelude.{ℕ, List, ◌≡◌, ◌+◌, ◌≤◌, IfOk, IfErr, OnOk, get_or, length};
ghost use Rattle.octets.specs.Octets.{from_octets, word_of};
ghost use Rattle.crypto.specs.Crypto.{drawn_nonce};
ghost use Rattle.bond.specs.Bond.{flag_of, verdict_result};
ghost use Rattle.host_answers.specs.Answers.{Found, found, found_of, on_found, stop_found, allowed, body_at};
ghost use Rattle.host_answers.specs.Answers.{address_body, pass_key_body, encryption_body, bonded_body};

use bond::{Address, BondInformation, Error, read_flag, read_verdict};
use crypto::{IdentityResolvingKey, LongTermKey, Nonce};
use octets::{Number, octets_at};
use smp_types::PassKey;

// Why there is no answer: the answers end here, or what is here is refused by 3.
#[derive(Clone, Copy, PartialEq, Eq)]
pub enum Stop {
    Wanted,
    Refused,
}

// What is answered in a body of N octets. A body that holds a forbidden value is refused.
// Each impl repeats the clause: the check cannot give these methods that of the trait.
pub trait Answer<const N: usize>: Sized {
    ghost said: { List ℕ → Found Self };

    fn from_body(body: [u8; N]) -> Option<Self>
        ensures { allowed result (λ a. a) ≡ said body.entry };
}

// A verdict: on a packet, an event or an update of the bond.
impl Answer<1> for Result<(), Error> {
    ghost said = { λ b. found (verdict_result (get_or b 0 0)) };

    fn from_body(body: [u8; 1]) -> Option<Result<(), Error>>
        ensures { allowed result (λ a. a) ≡ found (verdict_result (get_or body 0 0)) }
    {
        Some(read_verdict(body[0]))
    }
}

// The yes or no to a question.
impl Answer<1> for bool {
    ghost said = { λ b. allowed (flag_of (get_or b 0 0)) (λ yes. yes) };

    fn from_body(body: [u8; 1]) -> Option<bool>
        ensures { allowed result (λ a. a) ≡ allowed (flag_of (get_or body 0 0)) (λ yes. yes) }
    {
        read_flag(body[0])
    }
}

impl Answer<16> for IdentityResolvingKey {
    ghost said = { λ b. found (record { 0 = word_of b }) };

    fn from_body(body: [u8; 16]) -> Option<IdentityResolvingKey>
        ensures { allowed result (λ a. a) ≡ found (record { 0 = word_of body }) }
    {
        Some(IdentityResolvingKey::from_le_bytes(body))
    }
}

// Verdict, then the identity address, which a verdict other than 0 leaves out.
impl Answer<8> for Result<Address, Error> {
    ghost said = { λ b. found (address_body b) };

    fn from_body(body: [u8; 8]) -> Option<Result<Address, Error>>
        ensures { allowed result (λ a. a) ≡ found (address_body body) }
    {
        let address = Address::from(octets_at(&body, 1));
        Some(read_verdict(body[0]).map(|()| address))
    }
}

// Mrand or Srand, drawn.
impl Answer<16> for Nonce {
    ghost said = { λ b. found (drawn_nonce b) };

    fn from_body(body: [u8; 16]) -> Option<Nonce>
        ensures { allowed result (λ a. a) ≡ found (drawn_nonce body) }
    {
        Some(Nonce::new(body))
    }
}

// The largest passkey that is drawn.
const PASSKEY_MAX: u32 = 999999;

impl Answer<4> for PassKey {
    ghost said = { λ b. pass_key_body (from_octets b) };

    fn from_body(body: [u8; 4]) -> Option<PassKey>
        ensures { allowed result (λ a. a) ≡ pass_key_body (from_octets body) }
    {
        let drawn = u32::from_octets(body);
        (drawn <= PASSKEY_MAX).then_some(PassKey(drawn))
    }
}

impl Answer<16> for LongTermKey {
    ghost said = { λ b. found (record { 0 = word_of b }) };

    fn from_body(body: [u8; 16]) -> Option<LongTermKey>
        ensures { allowed result (λ a. a) ≡ found (record { 0 = word_of body }) }
    {
        Some(LongTermKey::from_le_bytes(body))
    }
}

// EDIV, drawn.
impl Answer<2> for u16 {
    ghost said = { λ b. found (from_octets b) };

    fn from_body(body: [u8; 2]) -> Option<u16>
        ensures { allowed result (λ a. a) ≡ found (from_octets body) }
    {
        Some(u16::from_octets(body))
    }
}

// Rand, drawn.
impl Answer<8> for u64 {
    ghost said = { λ b. found (from_octets b) };

    fn from_body(body: [u8; 8]) -> Option<u64>
        ensures { allowed result (λ a. a) ≡ found (from_octets body) }
    {
        Some(u64::from_octets(body))
    }
}

// Verdict, then the bond, which a verdict other than 0 leaves out.
impl Answer<52> for Result<BondInformation, Error> {
    ghost said = { encryption_body };

    fn from_body(body: [u8; 52]) -> Option<Result<BondInformation, Error>>
        ensures { allowed result (λ a. a) ≡ encryption_body body }
    {
        if let Err(e) = read_verdict(body[0]) {
            return Some(Err(e));
        }
        let bond = BondInformation::decode(octets_at(&body, 1))?;
        Some(Ok(bond))
    }
}

// Verdict, then present 0/1, which a verdict other than 0 leaves out, then the bond, which absence leaves out.
impl Answer<53> for Result<Option<BondInformation>, Error> {
    ghost said = { bonded_body };

    fn from_body(body: [u8; 53]) -> Option<Result<Option<BondInformation>, Error>>
        ensures { allowed result (λ a. a) ≡ bonded_body body }
    {
        if let Err(e) = read_verdict(body[0]) {
            return Some(Err(e));
        }
        let present = read_flag(body[1])?;
        if !present {
            return Some(Ok(None));
        }
        let bond = BondInformation::decode(octets_at(&body, 2))?;
        Some(Ok(Some(bond)))
    }
}

// The body at a place: wanted where the answers end there; refused where the kind is another or the body is cut.
#[tactic(auto, unfolding(crate::specs::Answers::body_at))]
fn body_at(answers: &[u8], at: usize, kind: u8, size: usize) -> Result<&[u8], Stop>
    ensures found { IfOk result (λ body. found body.now ≡ body_at answers.now at kind size) }
    ensures size { IfOk result (λ body. length body.now ≡ size) }
    ensures within { OnOk result (at + (1 + size) ≤ length answers.now) }
    ensures stop { IfErr result (λ stop. stop_found stop ≡ body_at answers.now at kind size) }
{
    match answers.get(at..) {
        Some([]) => Err(Stop::Wanted),
        Some([octet, body @ ..]) if *octet == kind && size <= body.len() => Ok(&body[..size]),
        _ => Err(Stop::Refused),
    }
}

// The answer at a place to a call of this kind. By number: a call to send has its packet, event or bond with it, which
// no answer needs.
pub fn read_answer<T: Answer<N>, const N: usize>(
    answers: &[u8],
    at: usize,
    kind: u8,
) -> Result<T, Stop>
    ensures answer { found_of result ≡ on_found (body_at answers.now at kind N) T.said }
    ensures within { OnOk result (at + (1 + N) ≤ length answers.now) }
{
    let body = body_at(answers, at, kind, N)?;
    T::from_body(octets_at(body, 0)).ok_or(Stop::Refused)
}
