// Payloads that both roles read.
ghost use Rattle.std.specs.Prelude.{◌≡◌, ok_or};
ghost use Rattle.smp_types.specs.declared.types.Reason.TheVariants as reason;
ghost use Rattle.bond.specs.declared.Error.TheVariants.{Security, InvalidValue};
ghost use Rattle.protocol.specs.Handlers.{word_in, features_in, identification_in, address_in, reason_in, command_octets};

use bond::{Address, Error};
use octets::{Number, octets_at, read};
use smp_types::{Command, PairingFeatures, Reason};

// Exactly 16 octets.
#[tactic(auto, unfolding(protocol::specs::Handlers::word_in))]
pub fn read_payload_word(payload: &[u8]) -> Option<u128>
    ensures { result ≡ word_in payload.now }
{
    let octets = <[u8; 16]>::try_from(payload).ok()?;
    Some(u128::from_octets(octets))
}

// Six octets and no more.
#[tactic(auto, unfolding(protocol::specs::Handlers::features_in))]
pub fn read_features(payload: &[u8]) -> Result<PairingFeatures, Error>
    ensures { result ≡ ok_or (features_in payload.now) (Security reason.InvalidParameters) }
{
    if payload.len() == 6
        && let Ok(features) = PairingFeatures::decode(payload)
    {
        return Ok(features);
    }
    Err(Error::Security(Reason::InvalidParameters))
}

// Six octets of features behind the code of their command, for c1.
pub fn command_octets(command: Command, features: [u8; 6]) -> [u8; 7]
    ensures { result ≡ command_octets command features }
{
    let [a, b, c, d, e, f] = features;
    [u8::from(command), a, b, c, d, e, f]
}

// EDIV and Rand.
#[tactic(auto, unfolding(protocol::specs::Handlers::identification_in))]
pub fn read_identification(payload: &[u8]) -> Result<(u16, u64), Error>
    ensures { result ≡ ok_or (identification_in payload.now) (Security reason.InvalidParameters) }
{
    if payload.len() < 10 {
        return Err(Error::Security(Reason::InvalidParameters));
    }
    Ok((read::<u16, 2>(payload, 0), read::<u64, 8>(payload, 2)))
}

// Address kind 0 or 1, then six octets.
#[tactic(auto, unfolding(protocol::specs::Handlers::address_in))]
pub fn read_identity_address(payload: &[u8]) -> Result<Address, Error>
    ensures { result ≡ ok_or (address_in payload.now) InvalidValue }
{
    if payload.len() < 7 || 1 < payload[0] {
        return Err(Error::InvalidValue);
    }
    Ok(Address::from(octets_at(payload, 0)))
}

// The reason in PairingFailed.
// Of a payload, so no From of one octet: an empty one has a reason, too.
#[tactic(auto, unfolding(protocol::specs::Handlers::reason_in))]
pub fn read_reason(payload: &[u8]) -> Reason
    ensures { result ≡ reason_in payload.now }
{
    match payload {
        [] => Reason::UnspecifiedReason,
        [reason, ..] => Reason::from(*reason),
    }
}
