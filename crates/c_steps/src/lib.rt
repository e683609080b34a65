// Steps, fresh machines and how a machine stands, on octet slices and numbers: a machine is its record of 161 octets. A
// refusal leaves the record and the list as they were.
// Roles and inputs are numbers here, and payload and answers apart, since C gives them so.
#![tactic(auto)]

ghost use Rattle.std.specs.Prelude.{ℕ, ◌≡◌};
ghost use Rattle.c_values.specs.Values.{wrote};
ghost use Rattle.c_steps.specs.declared.StepError.TheVariants as error;
ghost use Rattle.c_steps.specs.Steps.{role_of, with_data, link_result_of, pass_key_input_of, oob_data_received_of, input_of};
ghost use Rattle.c_steps.specs.Steps.{step_on, fresh_machine, new_on, role_answer, input_error_number, input_answer, step_error_number, steps_number, step_told, status_on, status_told};

use bond::{Address, Error, read_flag};
use c_values::{OctetsError, address_in, put};
use machine::{Event, Input, Machine, PairingData, Role};
use machine_record::{RecordError, machine_octets, read_machine};
use octets::Number;
use pairing::{Outcome, Refusal, step};
use smp_types::PairingFeatures;

// Why a number and octets are no input, with the number that C gets.
#[derive(Clone, Copy, PartialEq, Eq)]
pub enum InputError {
    // No input has this number
    NoInput = 27,
    // An event's data have another length or a forbidden value
    EventData = 28,
}

impl From<InputError> for u8 {
    ghost from_gives = { λ e number. number ≡ input_error_number e };

    fn from(e: InputError) -> u8 {
        e as u8
    }
}

// Why a step or a fresh machine is refused, with the number that C gets.
#[derive(Clone, Copy, PartialEq, Eq)]
pub enum StepError {
    // The step itself: 1 to 3
    Step(Refusal),
    // Octets that are no features or have another length: 4, 5 and 29
    Octets(OctetsError),
    // Octets that are no record of a machine: 20 to 25
    Record(RecordError),
    // No input: 27 and 28
    Input(InputError),
    // No role has this number: 26
    NoRole,
}

impl From<StepError> for u8 {
    ghost from_gives = { λ e number. number ≡ step_error_number e };

    fn from(e: StepError) -> u8 {
        match e {
            StepError::Step(refusal) => u8::from(refusal),
            StepError::Octets(e) => u8::from(e),
            StepError::Record(e) => u8::from(e),
            StepError::Input(e) => u8::from(e),
            StepError::NoRole => 26,
        }
    }
}

impl From<OctetsError> for StepError {
    ghost from_gives = { λ octets e. e ≡ error.Octets octets };

    fn from(e: OctetsError) -> StepError {
        StepError::Octets(e)
    }
}

impl From<RecordError> for StepError {
    ghost from_gives = { λ of_record e. e ≡ error.Record of_record };

    fn from(e: RecordError) -> StepError {
        StepError::Record(e)
    }
}

impl From<InputError> for StepError {
    ghost from_gives = { λ of_input e. e ≡ error.Input of_input };

    fn from(e: InputError) -> StepError {
        StepError::Input(e)
    }
}

// 0 the terminal, 1 the head.
// No TryFrom of Role: the numbers are those of the C interface.
#[tactic(auto, unfolding(crate::specs::Steps::role_of))]
fn role_of(role: u8) -> Option<Role>
    ensures { role_answer result ≡ role_of role }
{
    match role {
        0 => Some(Role::Central),
        1 => Some(Role::Peripheral),
        _ => None,
    }
}

// An event without data.
fn without_data(payload: &[u8], event: Event) -> Result<Input, InputError>
    ensures { input_answer result ≡ with_data payload.now 0 event }
{
    if !payload.is_empty() {
        return Err(InputError::EventData);
    }
    Ok(Input::Event(event))
}

// One octet, 0 or 1.
// By map_err, here and below: a From would take the wrong length of anything for that of an event's data.
fn link_result(payload: &[u8]) -> Result<Input, InputError>
    ensures { input_answer result ≡ link_result_of payload.now }
{
    let [octet] = <[u8; 1]>::try_from(payload).map_err(|_| InputError::EventData)?;
    let is_encrypted = read_flag(octet).ok_or(InputError::EventData)?;
    Ok(Input::Event(Event::LinkEncryptedResult(is_encrypted)))
}

// Four octets.
fn pass_key_input(payload: &[u8]) -> Result<Input, InputError>
    ensures { input_answer result ≡ pass_key_input_of payload.now }
{
    let octets = <[u8; 4]>::try_from(payload).map_err(|_| InputError::EventData)?;
    Ok(Input::Event(Event::PassKeyInput(u32::from_le_bytes(octets))))
}

// Sixteen octets.
fn oob_data_received(payload: &[u8]) -> Result<Input, InputError>
    ensures { input_answer result ≡ oob_data_received_of payload.now }
{
    let octets = <[u8; 16]>::try_from(payload).map_err(|_| InputError::EventData)?;
    Ok(Input::Event(Event::OobDataReceived(u128::from_octets(octets))))
}

// A command code, or 0x100 and an event's number. An event has its data in the payload's place.
#[tactic(auto, unfolding(crate::specs::Steps::input_of))]
fn input_of(input: u16, payload: &[u8]) -> Result<Input, InputError>
    ensures { input_answer result ≡ input_of input payload.now }
{
    match input {
        0x000..=0x0FF => Ok(Input::Command(input as u8)),
        0x100 => link_result(payload),
        0x101 => without_data(payload, Event::PassKeyConfirm),
        0x102 => without_data(payload, Event::PassKeyCancel),
        0x103 => pass_key_input(payload),
        0x104 => oob_data_received(payload),
        _ => Err(InputError::NoInput),
    }
}

// How far a step came: it ended, or it wants an answer. A bool and no enum: the counts are the same in both, and C gets a
// number by it.
#[derive(Clone, Copy, PartialEq, Eq)]
pub struct Progress {
    pub is_ended: bool,
    // the octets of answers read, and of the list written
    pub read: usize,
    pub written: usize,
}

// One step of the machine whose record is given, of role 0 (terminal) or 1 (head), on an input, the host's answers so
// far and a call list of at least 164 octets. A step that ended has written the record anew; one that wants has not.
// The clause is for whatever counts C's caller has behind its references.
#[tactic(auto, unfolding(crate::specs::Steps::step_on), using(crate::proofs::Reading::read_length, protocol::proofs::StepLaws::refused_numbers))]
pub fn step_machine(
    role: u8,
    machine: &mut [u8],
    input: u16,
    payload: &[u8],
    answers: &[u8],
    list: &mut [u8],
) -> Result<Progress, StepError>
    ensures { (read written : ℕ) → step_told result machine.new list.new read written
        ≡ step_on role machine.old input payload.now answers.now list.old read written }
{
    let role = role_of(role).ok_or(StepError::NoRole)?;
    let current = read_machine(role, machine)?;
    let input = input_of(input, payload)?;
    let stepped = step(role, current, input, payload, answers, list);
    let is_ended = match stepped.outcome {
        Outcome::Ended => {
            machine.copy_from_slice(&machine_octets(stepped.machine));
            true
        }
        Outcome::Wants => false,
        Outcome::Refused(refusal) => return Err(StepError::Step(refusal)),
    };
    Ok(Progress {
        is_ended,
        read: stepped.read,
        written: stepped.written,
    })
}

// A machine that begins a pairing with these addresses and features.
#[tactic(auto, unfolding(machine::specs::Machine::new_data))]
pub fn fresh_machine(
    role: Role,
    local_address: Address,
    peer_address: Address,
    local_features: PairingFeatures,
) -> Machine
    ensures { result ≡ fresh_machine role local_address peer_address local_features }
{
    let pairing_data = PairingData {
        local_features,
        ..PairingData::new(local_address, peer_address, local_features.io_capabilities)
    };
    match role {
        Role::Central => Machine::from_lesc_switch(pairing_data),
        Role::Peripheral => Machine::new(pairing_data),
    }
}

// Writes the record of a machine that begins a pairing: role 0 the terminal, which has sent a request with these
// features, 1 the head, which waits for one. Addresses have seven octets, features are read as from a packet.
#[tactic(auto, unfolding(crate::specs::Steps::new_on))]
pub fn new_machine(
    role: u8,
    local_address: &[u8],
    peer_address: &[u8],
    features: &[u8],
    machine: &mut [u8],
) -> Result<(), StepError>
    ensures { wrote (steps_number result) machine.new
        ≡ new_on role local_address.now peer_address.now features.now machine.old }
{
    let role = role_of(role).ok_or(StepError::NoRole)?;
    let local = address_in(local_address)?;
    let peer = address_in(peer_address)?;
    let features = PairingFeatures::decode(features).map_err(OctetsError::from)?;
    let fresh = fresh_machine(role, local, peer, features);
    put(&machine_octets(fresh), machine)?;
    Ok(())
}

// How a machine stands: None while the pairing goes on.
#[derive(Clone, Copy, PartialEq, Eq)]
pub struct Status {
    pub result: Option<Result<(), Error>>,
    pub is_encrypted: bool,
    // the bond's level where the link is encrypted, else 0
    pub security_level: u8,
}

// How the machine stands whose record is given, of role 0 (terminal) or 1 (head).
// The clause is for whatever C's caller has behind its references.
#[tactic(auto, unfolding(crate::specs::Steps::status_on, machine::specs::Machine::security_level_of))]
pub fn machine_status(role: u8, machine: &[u8]) -> Result<Status, StepError>
    ensures { (outcome kind detail encrypted level : ℕ) → status_told result outcome kind detail encrypted level
        ≡ status_on role machine.now outcome kind detail encrypted level }
{
    let role = role_of(role).ok_or(StepError::NoRole)?;
    let machine = read_machine(role, machine)?;
    Ok(Status {
        result: machine.result(),
        is_encrypted: machine.phase.is_encrypted(),
        security_level: machine.security_level(),
    })
}
