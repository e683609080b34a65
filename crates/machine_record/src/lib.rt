// The machine record: a machine of either role as 161 octets, and the machine that is read of them.
#![tactic(auto)]

ghost use Rattle.std.specs.Prelude.{◌≡◌, get_or};
ghost use Rattle.octets.specs.Answer.{answer_of};
ghost use Rattle.octets.specs.Octets.{Written};
ghost use Rattle.machine.specs.Machine.{first_phase};
ghost use Rattle.machine_record.specs.Record.{phase_octets, confirm_in, received_in, method_code, machine_octets};
ghost use Rattle.machine_record.specs.Record.{record_refusal, octets_at, reason_at, error_of, pass_key_of, phase_at, features_at, method_of, option_bond_of};
ghost use Rattle.machine_record.specs.Record.{pairing_data_of, confirm_data_of, canonical, machine_of};

use bond::{Address, BondInformation, Error, encode_option_bond, read_flag};
use crypto::{Confirm, LongTermKey, Nonce};
use machine::{ConfirmPhaseData, Machine, PairingData, Phase, Role};
use octets::{octets_at, read_word, word_to_octets, write};
use smp_types::{PairingFeatures, Reason};
use util::PairingMethod;
use util::PassKeyEntryAction::{Display, Input};

pub const RECORD_SIZE: usize = 161;

// Why octets are not the record of a machine, with the numbers of the refusals.
#[derive(Clone, Copy, PartialEq, Eq)]
pub enum RecordError {
    // There are not 161
    Length = 20,
    // The first four stand for no phase
    Phase = 21,
    // One side's six stand for no features
    Features = 22,
    // Octet 108 stands for no method
    Method = 23,
    // Octet 109 is neither 0 nor 1, or no bond follows it
    Bond = 24,
    // They are not the record of the machine that was read of them
    NotCanonical = 25,
}

impl From<RecordError> for u8 {
    ghost from_gives = { λ e number. number ≡ record_refusal e };

    fn from(e: RecordError) -> u8 {
        e as u8
    }
}

// Octets 0 to 3.
// Four octets in a row for each phase: an enum of their numbers would say each phase twice.
#[tactic(auto, unfolding(crate::specs::Record::phase_octets))]
fn phase_octets(phase: Phase) -> [u8; 4]
    ensures { result ≡ phase_octets phase }
{
    match phase {
        Phase::WaitingPairingRequest | Phase::WaitingPairingResponse => [0, 0, 0, 0],
        Phase::WaitingPassKeyInput { confirm_bytes } => {
            [1, 0, 0, u8::from(confirm_bytes.is_some())]
        }
        Phase::WaitingOobData => [2, 0, 0, 0],
        Phase::WaitingPairingConfirm => [3, 0, 0, 0],
        Phase::WaitingPairingRandom { .. } => [4, 0, 0, 0],
        Phase::WaitingLinkEncrypted => [5, 0, 0, 0],
        Phase::WaitingIdentitityInformation => [6, 0, 0, 0],
        Phase::WaitingIdentitityAddressInformation => [7, 0, 0, 0],
        Phase::ReceivingKeys { phase, .. } => [8, phase, 0, 0],
        Phase::Success => [9, 0, 0, 0],
        Phase::Error(e) => {
            let [kind, detail] = e.failed_body();
            [10, kind, detail, 0]
        }
    }
}

// The confirm value that a phase holds, or zeros.
#[tactic(auto, unfolding(crate::specs::Record::confirm_in))]
fn confirm_in(phase: Phase) -> u128
    ensures { result ≡ confirm_in phase }
{
    match phase {
        Phase::WaitingPassKeyInput {
            confirm_bytes: Some(confirm),
        }
        | Phase::WaitingPairingRandom {
            peer_confirm: confirm,
        } => confirm.0,
        _ => 0,
    }
}

// The received key that a phase holds, or zeros.
#[tactic(auto, unfolding(crate::specs::Record::received_in))]
fn received_in(phase: Phase) -> u128
    ensures { result ≡ received_in phase }
{
    match phase {
        Phase::ReceivingKeys { received_ltk, .. } => received_ltk.0,
        _ => 0,
    }
}

// Octet 108.
// The numbers are the record's own, so no From of util's type.
fn method_code(method: PairingMethod) -> u8
    ensures { result ≡ method_code method }
{
    match method {
        PairingMethod::JustWorks => 0,
        PairingMethod::NumericComparison => 1,
        PairingMethod::PassKeyEntry {
            central: Display,
            peripheral: Input,
        } => 2,
        PairingMethod::PassKeyEntry {
            central: Input,
            peripheral: Display,
        } => 3,
        PairingMethod::PassKeyEntry {
            central: Input,
            peripheral: Input,
        } => 4,
        PairingMethod::OutOfBand => 5,
        PairingMethod::PassKeyEntry {
            central: Display,
            peripheral: Display,
        } => 6,
    }
}

// The record of a machine.
pub fn machine_octets(machine: Machine) -> [u8; RECORD_SIZE]
    ensures { result ≡ machine_octets machine }
{
    let phase = machine.phase;
    let confirm = machine.confirm_data;
    let pairing = machine.pairing_data;
    let method = method_code(pairing.pairing_method);
    let bond = pairing.bond_information;
    let mut octets = [0; RECORD_SIZE];
    write(&mut octets, 0, &phase_octets(phase));
    write(&mut octets, 4, &confirm.preq);
    write(&mut octets, 11, &confirm.pres);
    write(&mut octets, 18, &word_to_octets(confirm.tk));
    write(&mut octets, 34, &word_to_octets(confirm.local_nonce.0));
    write(&mut octets, 50, &word_to_octets(confirm_in(phase)));
    write(&mut octets, 66, &word_to_octets(received_in(phase)));
    write(&mut octets, 82, &pairing.local_address.encode());
    write(&mut octets, 89, &pairing.peer_address.encode());
    write(&mut octets, 96, &pairing.local_features.encode());
    write(&mut octets, 102, &pairing.peer_features.encode());
    write(&mut octets, 108, &[method]);
    write(&mut octets, 109, &encode_option_bond(bond));
    octets
}

// Writes the record over the first 161 octets, and says so; a shorter slice is left as it was, and false.
// A bool: `Written` says by it whether the octets fit.
pub fn write_machine(machine: Machine, record: &mut [u8]) -> bool
    ensures { Written «record».old 0 (machine_octets machine) result «record».new }
{
    write(record, 0, &machine_octets(machine))
}

// The reason of a detail octet, all of them from 0 on.
// Reason's own From takes every octet, as the Rust does; a record holds no other than these.
#[tactic(auto, using(crate::proofs::Back::reason_read))]
fn read_reason(detail: u8) -> Result<Reason, RecordError>
    ensures { answer_of record_refusal result ≡ reason_at detail }
{
    match detail {
        0x00 => Ok(Reason::Success),
        0x01..=0x10 => Ok(Reason::from(detail)),
        _ => Err(RecordError::Phase),
    }
}

// The error of a kind and a detail.
// The kind is an octet of the record, which may hold any.
#[tactic(auto, unfolding(crate::specs::Record::error_of))]
fn read_error(kind: u8, detail: u8) -> Result<Phase, RecordError>
    ensures { answer_of record_refusal result ≡ error_of kind detail }
{
    let error = match kind {
        1 => Error::Security(read_reason(detail)?),
        2 => Error::InvalidState,
        3 => Error::InvalidValue,
        4 => Error::OutOfMemory,
        5 => Error::Host(detail),
        _ => return Err(RecordError::Phase),
    };
    Ok(Phase::Error(error))
}

// WaitingPassKeyInput, by octet 3 without or with the stored confirm value.
#[tactic(auto, unfolding(crate::specs::Record::pass_key_of))]
fn read_pass_key(stored: u8, confirm: Confirm) -> Result<Phase, RecordError>
    ensures { answer_of record_refusal result ≡ pass_key_of stored confirm.0 }
{
    let is_stored = read_flag(stored).ok_or(RecordError::Phase)?;
    Ok(Phase::WaitingPassKeyInput {
        confirm_bytes: is_stored.then_some(confirm),
    })
}

// The state that a role begins in.
fn first_phase(role: Role) -> Phase
    ensures { result ≡ first_phase role }
{
    match role {
        Role::Central => Phase::WaitingPairingResponse,
        Role::Peripheral => Phase::WaitingPairingRequest,
    }
}

// The phase of octets 0 to 3, with the words of octets 50 to 81.
#[tactic(auto, unfolding(crate::specs::Record::phase_at, crate::specs::Record::phase_of))]
fn read_phase(role: Role, record: &[u8; RECORD_SIZE]) -> Result<Phase, RecordError>
    ensures { answer_of record_refusal result ≡ phase_at role «record».now }
{
    let [code, detail, reason, stored] = octets_at::<4>(record, 0);
    let confirm = Confirm(read_word(record, 50));
    match code {
        0 => Ok(first_phase(role)),
        1 => read_pass_key(stored, confirm),
        2 => Ok(Phase::WaitingOobData),
        3 => Ok(Phase::WaitingPairingConfirm),
        4 => Ok(Phase::WaitingPairingRandom {
            peer_confirm: confirm,
        }),
        5 => Ok(Phase::WaitingLinkEncrypted),
        6 => Ok(Phase::WaitingIdentitityInformation),
        7 => Ok(Phase::WaitingIdentitityAddressInformation),
        8 => Ok(Phase::ReceivingKeys {
            phase: detail,
            received_ltk: LongTermKey(read_word(record, 66)),
        }),
        9 => Ok(Phase::Success),
        10 => read_error(detail, reason),
        _ => Err(RecordError::Phase),
    }
}

// Six octets of features, of any key size: `decode` would refuse some.
#[tactic(auto, unfolding(crate::specs::Record::features_at))]
fn read_features(octets: [u8; 6]) -> Result<PairingFeatures, RecordError>
    ensures { answer_of record_refusal result ≡ features_at octets }
{
    PairingFeatures::try_from(octets).map_err(|_| RecordError::Features)
}

// The method of octet 108.
// No TryFrom of util's type, for the same reason as with `method_code`.
fn read_method(code: u8) -> Result<PairingMethod, RecordError>
    ensures { answer_of record_refusal result ≡ method_of code }
{
    Ok(match code {
        0 => PairingMethod::JustWorks,
        1 => PairingMethod::NumericComparison,
        2 => PairingMethod::PassKeyEntry {
            central: Display,
            peripheral: Input,
        },
        3 => PairingMethod::PassKeyEntry {
            central: Input,
            peripheral: Display,
        },
        4 => PairingMethod::PassKeyEntry {
            central: Input,
            peripheral: Input,
        },
        5 => PairingMethod::OutOfBand,
        6 => PairingMethod::PassKeyEntry {
            central: Display,
            peripheral: Display,
        },
        _ => return Err(RecordError::Method),
    })
}

// Octets 109 to 160: a bond is read only where it is present.
#[tactic(auto, using(crate::proofs::Back::present_read))]
fn read_option_bond(record: &[u8; RECORD_SIZE]) -> Result<Option<BondInformation>, RecordError>
    ensures { answer_of record_refusal result
        ≡ option_bond_of (get_or «record».now 109 0) (octets_at 51 110 «record».now) }
{
    let present = read_flag(record[109]).ok_or(RecordError::Bond)?;
    if !present {
        return Ok(None);
    }
    let bond = BondInformation::decode(octets_at(record, 110)).ok_or(RecordError::Bond)?;
    Ok(Some(bond))
}

// Octets 82 to 160.
#[tactic(auto, unfolding(crate::specs::Record::pairing_data_of))]
fn read_pairing_data(record: &[u8; RECORD_SIZE]) -> Result<PairingData, RecordError>
    ensures { answer_of record_refusal result ≡ pairing_data_of «record».now }
{
    let local_features = read_features(octets_at(record, 96))?;
    let peer_features = read_features(octets_at(record, 102))?;
    let pairing_method = read_method(record[108])?;
    let bond_information = read_option_bond(record)?;
    Ok(PairingData {
        local_address: Address::from(octets_at(record, 82)),
        peer_address: Address::from(octets_at(record, 89)),
        local_features,
        peer_features,
        pairing_method,
        bond_information,
    })
}

// Octets 4 to 49: preq, pres, tk and local_nonce.
#[tactic(auto, unfolding(crate::specs::Record::confirm_data_of))]
fn read_confirm_data(record: &[u8; RECORD_SIZE]) -> ConfirmPhaseData
    ensures { result ≡ confirm_data_of «record».now }
{
    ConfirmPhaseData {
        tk: read_word(record, 18),
        preq: octets_at(record, 4),
        pres: octets_at(record, 11),
        local_nonce: Nonce(read_word(record, 34)),
    }
}

// The machine whose record it is, and no other: what the phase does not hold is zero.
#[tactic(auto, unfolding(crate::specs::Record::canonical))]
fn canonical(record: &[u8; RECORD_SIZE], machine: Machine) -> Result<Machine, RecordError>
    ensures { answer_of record_refusal result ≡ canonical «record».now machine }
{
    if machine_octets(machine) == *record {
        Ok(machine)
    } else {
        Err(RecordError::NotCanonical)
    }
}

// The machine of a record.
#[tactic(auto, unfolding(crate::specs::Record::machine_of))]
pub fn read_machine(role: Role, record: &[u8]) -> Result<Machine, RecordError>
    ensures { answer_of record_refusal result ≡ machine_of role «record».now }
{
    let record = <&[u8; RECORD_SIZE]>::try_from(record).map_err(|_| RecordError::Length)?;
    let phase = read_phase(role, record)?;
    let machine = Machine {
        phase,
        confirm_data: read_confirm_data(record).kept_by(phase),
        pairing_data: read_pairing_data(record)?,
    };
    canonical(record, machine)
}
