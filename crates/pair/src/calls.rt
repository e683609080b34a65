// The call at which a step waits, read from the octets of its list. The numbers are the kinds of calls: `host_calls` has no reader
// of them, since it would be proved for this program alone.
use bond::{BondInformation, Error, read_flag};
use c_values::{OctetsError, address_in};
use crypto::{Confirm, IdentityResolvingKey, LongTermKey, Nonce};
use handler_parts::payload::{read_identification, read_payload_word};
use host_call_list::call_at;
use host_calls::{Call, ConnectionEvent, Draw, Packet, Question};
use smp_types::{Command, PairingFeatures, PassKey, Reason};

fn bond_of(octets: &[u8]) -> Option<BondInformation> {
    let octets = <[u8; 51]>::try_from(octets).ok()?;
    BondInformation::decode(octets)
}

fn packet_of(command: Command, payload: &[u8]) -> Option<Packet> {
    Some(match command {
        Command::PairingResponse => Packet::PairingResponse(PairingFeatures::decode(payload).ok()?),
        Command::PairingConfirm => Packet::PairingConfirm(Confirm(read_payload_word(payload)?)),
        Command::PairingRandom => Packet::PairingRandom(Nonce(read_payload_word(payload)?)),
        Command::EncryptionInformation => {
            Packet::EncryptionInformation(LongTermKey(read_payload_word(payload)?))
        }
        Command::CentralIdentification => {
            let (ediv, rand) = read_identification(payload).ok()?;
            Packet::CentralIdentification { ediv, rand }
        }
        Command::IdentityInformation => {
            Packet::IdentityInformation(IdentityResolvingKey(read_payload_word(payload)?))
        }
        Command::IdentityAddressInformation => {
            Packet::IdentityAddressInformation(address_in(payload).ok()?)
        }
        // no step sends another
        _ => return None,
    })
}

fn error_of(body: &[u8]) -> Option<Error> {
    Some(match *body {
        [1, reason] => Error::Security(Reason::from(reason)),
        [2, _] => Error::InvalidState,
        [3, _] => Error::InvalidValue,
        [4, _] => Error::OutOfMemory,
        [5, verdict] => Error::Host(verdict),
        _ => return None,
    })
}

// Level, bond present 0/1, bond or zeros.
fn complete_of(body: &[u8]) -> Option<ConnectionEvent> {
    let &[security_level, present, ref octets @ ..] = body else {
        return None;
    };
    let bond = if read_flag(present)? {
        Some(bond_of(octets)?)
    } else {
        None
    };
    Some(ConnectionEvent::PairingComplete {
        security_level,
        bond,
    })
}

fn event_of(call: &[u8]) -> Option<ConnectionEvent> {
    Some(match *call {
        [0x20, ref body @ ..] => ConnectionEvent::PairingFailed(error_of(body)?),
        [0x21, ref body @ ..] => complete_of(body)?,
        [0x22, a, b, c, d] => {
            ConnectionEvent::PassKeyDisplay(PassKey(u32::from_le_bytes([a, b, c, d])))
        }
        [0x23] => ConnectionEvent::PassKeyInput,
        [0x24] => ConnectionEvent::BondLost,
        [0x25] => ConnectionEvent::OobRequest,
        _ => return None,
    })
}

// A call of its octets: the kind, then the body.
fn call_of(call: &[u8]) -> Option<Call> {
    Some(match *call {
        [0x20..=0x25, ..] => Call::SendConnectionEvent(event_of(call)?),
        [0x30] => Call::Ask(Question::FindBond),
        [0x31] => Call::Ask(Question::LocalIrk),
        [0x32] => Call::Ask(Question::LocalIdentityAddress),
        [0x33] => Call::Ask(Question::BondingFlag),
        [0x34] => Call::Ask(Question::OobAvailable),
        [0x35] => Call::Draw(Draw::Nonce),
        [0x36] => Call::Draw(Draw::PassKey),
        [0x37] => Call::Draw(Draw::LongTermKey),
        [0x38] => Call::Draw(Draw::Ediv),
        [0x39] => Call::Draw(Draw::Rand),
        [0x3A, ref ltk @ .., security_level, encryption_key_len] => Call::EnableEncryption {
            ltk: LongTermKey(read_payload_word(ltk)?),
            security_level,
            encryption_key_len,
        },
        [0x3B] => Call::EnableBondedEncryption,
        [0x3C, ref bond @ ..] => Call::UpdateBondInformation(bond_of(bond)?),
        [code, ref payload @ ..] => {
            Call::SendPacket(packet_of(Command::try_from(code).ok()?, payload)?)
        }
        [] => return None,
    })
}

// The last call of a list, which stands at this index.
pub(crate) fn last_call(list: &[u8], index: usize) -> Result<Call, OctetsError> {
    let record = call_at(list, index)?.ok_or(OctetsError::NoCall)?;
    // the kind stands before the body
    let call = list.get(record.body.saturating_sub(1)..);
    call.and_then(call_of).ok_or(OctetsError::InvalidList)
}
