// Document 01's operations on octet slices and numbers, for callers that have no types of ours: features, c1 and s1, and
// reading a call list. Octet strings run least significant octet first, as on the air. A refusal writes nothing.
#![tactic(auto)]

ghost use Rattle.std.specs.Prelude.{ℕ, ◌≡◌};
ghost use Rattle.octets.specs.Answer.{accepted};
ghost use Rattle.host_call_list.specs.CallList.{count_of};
ghost use Rattle.c_values.specs.declared.OctetsError.TheVariants.{InvalidValue, InvalidList};
ghost use Rattle.c_values.specs.Values.{of_length, address_in, word_in, wrote, writes, read_features_on, write_features_on, c1_on, s1_on};
ghost use Rattle.c_values.specs.Values.{call_on, error_number, codec_error, octets_number, octets_answer, call_given};

use bond::Address;
use crypto::{Nonce, c1, s1};
use host_call_list::InvalidList;
use host_calls::call::body_length;
use octets::{Number, word_to_octets};
use smp_types::{InvalidValue, PairingFeatures, codec};

// Why an operation is refused, with the number that C gets. 4 to 6 are document 01's.
#[derive(Clone, Copy, PartialEq, Eq)]
pub enum OctetsError {
    // There are fewer octets than features have
    InsufficientSpace = 4,
    // An octet stands for no value of features
    InvalidValue = 5,
    // A call on the list has an unknown kind or a cut body
    InvalidList = 6,
    // A slice has another length
    WrongLength = 29,
    // The list has no call at this index
    NoCall = 30,
}

impl From<OctetsError> for u8 {
    ghost from_gives = { λ e number. number ≡ error_number e };

    fn from(e: OctetsError) -> u8 {
        e as u8
    }
}

impl From<codec::Error> for OctetsError {
    ghost from_gives = { λ decoding e. e ≡ codec_error decoding };

    fn from(e: codec::Error) -> OctetsError {
        match e {
            codec::Error::InsufficientSpace => OctetsError::InsufficientSpace,
            codec::Error::InvalidValue => OctetsError::InvalidValue,
        }
    }
}

impl From<InvalidValue> for OctetsError {
    ghost from_gives = { λ _ e. e ≡ InvalidValue };

    fn from(_e: InvalidValue) -> OctetsError {
        OctetsError::InvalidValue
    }
}

impl From<InvalidList> for OctetsError {
    ghost from_gives = { λ _ e. e ≡ InvalidList };

    fn from(_e: InvalidList) -> OctetsError {
        OctetsError::InvalidList
    }
}

// Writes octets over a slice of their length.
pub fn put(octets: &[u8], out: &mut [u8]) -> Result<(), OctetsError>
    ensures { wrote (octets_number result) out.new ≡ writes out.old (accepted octets.now) }
{
    if out.len() != octets.len() {
        return Err(OctetsError::WrongLength);
    }
    out.copy_from_slice(octets);
    Ok(())
}

// N octets, and no more.
#[tactic(auto, unfolding(crate::specs::Values::of_length))]
fn octets_in<const N: usize>(s: &[u8]) -> Result<[u8; N], OctetsError>
    ensures { octets_answer result ≡ of_length N s.now }
{
    <[u8; N]>::try_from(s).map_err(|_| OctetsError::WrongLength)
}

// Seven octets: the kind and the address.
#[tactic(auto, unfolding(crate::specs::Values::address_in))]
pub fn address_in(s: &[u8]) -> Result<Address, OctetsError>
    ensures { octets_answer result ≡ address_in s.now }
{
    let octets = octets_in::<7>(s)?;
    Ok(Address::from(octets))
}

// Sixteen octets.
#[tactic(auto, unfolding(crate::specs::Values::word_in))]
fn word_in(s: &[u8]) -> Result<u128, OctetsError>
    ensures { octets_answer result ≡ word_in s.now }
{
    let octets = octets_in::<16>(s)?;
    Ok(u128::from_octets(octets))
}

// Reads pairing features: of a packet's payload, the six fields, an octet each.
#[tactic(auto, unfolding(crate::specs::Values::read_features_on))]
pub fn read_features(payload: &[u8], fields: &mut [u8]) -> Result<(), OctetsError>
    ensures { wrote (octets_number result) fields.new ≡ read_features_on payload.now fields.old }
{
    let features = PairingFeatures::decode(payload)?;
    put(&features.encode(), fields)
}

// Writes pairing features: of six fields, a packet's payload.
#[tactic(auto, unfolding(crate::specs::Values::write_features_on))]
pub fn write_features(
    io: u8,
    oob: u8,
    auth_req: u8,
    key_size: u8,
    initiator_keys: u8,
    responder_keys: u8,
    payload: &mut [u8],
) -> Result<(), OctetsError>
    ensures { wrote (octets_number result) payload.new
        ≡ write_features_on io oob auth_req key_size initiator_keys responder_keys payload.old }
{
    let octets = [io, oob, auth_req, key_size, initiator_keys, responder_keys];
    let features = PairingFeatures::try_from(octets)?;
    put(&features.encode(), payload)
}

// The confirm value c1: k and r have 16 octets, preq and pres 7 (with their codes), the addresses 7 (kind and address).
#[tactic(auto, unfolding(crate::specs::Values::c1_on))]
pub fn confirm_value(
    k: &[u8],
    r: &[u8],
    preq: &[u8],
    pres: &[u8],
    initiator: &[u8],
    responder: &[u8],
    confirm: &mut [u8],
) -> Result<(), OctetsError>
    ensures { wrote (octets_number result) confirm.new
        ≡ c1_on k.now r.now preq.now pres.now initiator.now responder.now confirm.old }
{
    let key = word_in(k)?;
    let nonce = word_in(r)?;
    let preq = octets_in(preq)?;
    let pres = octets_in(pres)?;
    let initiator = address_in(initiator)?;
    let responder = address_in(responder)?;
    let value = c1(
        key,
        Nonce(nonce),
        preq,
        pres,
        initiator.addr_type(),
        initiator.addr.into_inner(),
        responder.addr_type(),
        responder.addr.into_inner(),
    );
    put(&word_to_octets(value.0), confirm)
}

// The short-term key s1: k, srand and mrand have 16 octets.
#[tactic(auto, unfolding(crate::specs::Values::s1_on))]
pub fn short_term_key(
    k: &[u8],
    srand: &[u8],
    mrand: &[u8],
    key: &mut [u8],
) -> Result<(), OctetsError>
    ensures { wrote (octets_number result) key.new ≡ s1_on k.now srand.now mrand.now key.old }
{
    let tk = word_in(k)?;
    let s = word_in(srand)?;
    let m = word_in(mrand)?;
    let value = s1(tk, Nonce(s), Nonce(m));
    put(&word_to_octets(value.0), key)
}

// The number of calls of a list.
pub fn count_calls(list: &[u8]) -> Result<usize, OctetsError>
    ensures { octets_answer result ≡ count_of list.now }
{
    Ok(host_call_list::count_calls(list)?)
}

// A call of a list: its kind, and the place and the size of its body.
#[derive(Clone, Copy, PartialEq, Eq)]
pub struct Call {
    pub kind: u8,
    pub body: usize,
    pub size: usize,
}

// The call at an index of a list, counted from 0. The clause is for whatever stands behind the references of C's caller.
#[tactic(auto, unfolding(crate::specs::Values::call_on))]
pub fn call_at(list: &[u8], index: usize) -> Result<Call, OctetsError>
    ensures { (kind body size : ℕ) → call_given kind body size (octets_answer result)
        ≡ call_on list.now index kind body size }
{
    let call = host_call_list::call_at(list, index)?.ok_or(OctetsError::NoCall)?;
    Ok(Call {
        kind: call.kind,
        body: call.body,
        size: body_length(call.kind).unwrap_or(0),
    })
}
