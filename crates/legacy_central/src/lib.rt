// legacy_central.rs: the initiator's machine. Each function of the Rust has one of its name here or in the crate
// central_helpers. What legacy_peripheral.rs has in the same words stands in the crate handlers: `enter`,
// `store_confirm_bytes`, `handle_encryption_information`, `handle_identity_information`.
#![tactic(auto)]

ghost use Rattle.std.specs.Prelude.{◌≡◌, OnErr};
ghost use Rattle.machine.specs.declared.Phase.TheVariants as phase;
ghost use Rattle.protocol.specs.Handlers.{on_receiving_keys, other_input, handle_encryption_information, names_identity_key};
ghost use Rattle.protocol.specs.LegacyCentral.{await_identity_or_send, handle_link_encrypted_success, handle_peer_confirm, handle_pass_key_input};
ghost use Rattle.protocol.specs.LegacyCentral.{handle_pairing_response, handle_central_identification, handle_identity_address_information};
ghost use Rattle.protocol.specs.LegacyCentral.{transition_from, transition, handle_input};
ghost use Rattle.host_ops.specs.Run.{run};
ghost use Rattle.handler_parts.specs.Outcomes.{ran_machine, ran_entered};

use bond::Error;
use central_helpers::{
    answer_confirm, begin_confirm, begin_method, handle_pairing_random, send_all_keys,
    send_mconfirm,
};
use crypto::{Confirm, LongTermKey, Nonce};
use handler_parts::input::{Received, other_input};
use handler_parts::keys::{EncryptionKeys, with_identity_address, with_keys};
use handler_parts::payload::{
    command_octets, read_features, read_identification, read_identity_address, read_payload_word,
};
use handlers::{handle_encryption_information, settle, store_confirm_bytes, waiting_identity};
use host_answers::Stop;
use host_ops::{Halt, Ops};
use machine::{ConfirmPhaseData, Machine, Phase};
use octets::octets_at;
use smp_types::{Command, Reason};
use util::choose_legacy_pairing_method;

// --- FSM core ---

// One input: the transition, then the calls on entering the state that it gives.
#[tactic(auto, using(host_ops::proofs::Laws::run_bind), unfolding(protocol::specs::LegacyCentral::handle_input))]
pub fn handle_input(
    ops: &mut Ops<'_>,
    machine: &mut Machine,
    received: Received<'_>,
) -> Result<(), Stop>
    ensures ran { ran_entered ops.new.trace machine.new result
        ≡ run ops.old.answers.now
        (handle_input machine.old received.entry.input received.entry.payload.now)
        ops.old.trace }
    ensures answers { ops.new.answers ≡ ops.old.answers }
    ensures kept { OnErr result (machine.new ≡ machine.old) }
{
    let before = *machine;
    let turned = transition(ops, machine, received);
    settle(ops, machine, before, turned)
}

// A row for each state.
#[tactic(auto, unfolding(protocol::specs::LegacyCentral::transition))]
fn transition(ops: &mut Ops<'_>, machine: &mut Machine, received: Received<'_>) -> Result<(), Halt>
    ensures ran { ran_machine ops.new.trace machine.new result
        ≡ run ops.old.answers.now
        (transition machine.old received.entry.input received.entry.payload.now)
        ops.old.trace }
    ensures answers { ops.new.answers ≡ ops.old.answers }
{
    match machine.phase {
        Phase::WaitingPairingResponse => waiting_response(ops, machine, received),
        Phase::WaitingPassKeyInput { confirm_bytes } => {
            waiting_pass_key(ops, machine, confirm_bytes, received)
        }
        Phase::WaitingOobData => waiting_oob_data(ops, machine, received),
        Phase::WaitingPairingConfirm => waiting_confirm(ops, machine, received),
        Phase::WaitingPairingRandom { peer_confirm } => {
            waiting_random(ops, machine, peer_confirm, received)
        }
        Phase::WaitingLinkEncrypted => waiting_encrypted(ops, machine, received),
        Phase::WaitingIdentitityInformation => Ok(waiting_identity(machine, received)?),
        Phase::WaitingIdentitityAddressInformation => { waiting_address(ops, machine, received) }
        Phase::ReceivingKeys {
            phase,
            received_ltk,
        } => receiving_keys(ops, machine, phase, received_ltk, received),
        Phase::Success | Phase::Error(_) | Phase::WaitingPairingRequest => {
            Ok(other_input(machine, received)?)
        }
    }
}

fn waiting_response(
    ops: &mut Ops<'_>,
    machine: &mut Machine,
    received: Received<'_>,
) -> Result<(), Halt>
    ensures ran { ran_machine ops.new.trace machine.new result
        ≡ run ops.old.answers.now
        (transition_from machine.old received.entry.payload.now received.entry.input phase.WaitingPairingResponse)
        ops.old.trace }
    ensures answers { ops.new.answers ≡ ops.old.answers }
{
    if received.is_command(Command::PairingResponse) {
        return handle_pairing_response(ops, machine, received.payload);
    }
    Ok(other_input(machine, received)?)
}

fn waiting_pass_key(
    ops: &mut Ops<'_>,
    machine: &mut Machine,
    confirm_bytes: Option<Confirm>,
    received: Received<'_>,
) -> Result<(), Halt>
    ensures ran { ran_machine ops.new.trace machine.new result
        ≡ run ops.old.answers.now
        (transition_from machine.old received.entry.payload.now received.entry.input
        (phase.WaitingPassKeyInput confirm_bytes))
        ops.old.trace }
    ensures answers { ops.new.answers ≡ ops.old.answers }
{
    if received.is_command(Command::PairingConfirm) {
        return Ok(store_confirm_bytes(machine, received.payload)?);
    }
    if let Some(typed) = received.pass_key_input() {
        return handle_pass_key_input(ops, machine, typed, confirm_bytes);
    }
    if received.is_pass_key_cancel() {
        return Err(Halt::Failed(Error::Security(Reason::PasskeyEntryFailed)));
    }
    Ok(other_input(machine, received)?)
}

// OOB data is the temporary key.
fn waiting_oob_data(
    ops: &mut Ops<'_>,
    machine: &mut Machine,
    received: Received<'_>,
) -> Result<(), Halt>
    ensures ran { ran_machine ops.new.trace machine.new result
        ≡ run ops.old.answers.now
        (transition_from machine.old received.entry.payload.now received.entry.input phase.WaitingOobData)
        ops.old.trace }
    ensures answers { ops.new.answers ≡ ops.old.answers }
{
    if let Some(random) = received.oob_data_received() {
        let preq = machine.confirm_data.preq;
        let pres = machine.confirm_data.pres;
        return begin_confirm(ops, machine, preq, pres, random);
    }
    Ok(other_input(machine, received)?)
}

fn waiting_confirm(
    ops: &mut Ops<'_>,
    machine: &mut Machine,
    received: Received<'_>,
) -> Result<(), Halt>
    ensures ran { ran_machine ops.new.trace machine.new result
        ≡ run ops.old.answers.now
        (transition_from machine.old received.entry.payload.now received.entry.input phase.WaitingPairingConfirm)
        ops.old.trace }
    ensures answers { ops.new.answers ≡ ops.old.answers }
{
    if received.is_command(Command::PairingConfirm) {
        return handle_peer_confirm(ops, machine, received.payload);
    }
    Ok(other_input(machine, received)?)
}

fn waiting_random(
    ops: &mut Ops<'_>,
    machine: &mut Machine,
    peer_confirm: Confirm,
    received: Received<'_>,
) -> Result<(), Halt>
    ensures ran { ran_machine ops.new.trace machine.new result
        ≡ run ops.old.answers.now
        (transition_from machine.old received.entry.payload.now received.entry.input
        (phase.WaitingPairingRandom peer_confirm))
        ops.old.trace }
    ensures answers { ops.new.answers ≡ ops.old.answers }
{
    if received.is_command(Command::PairingRandom) {
        return handle_pairing_random(ops, machine, peer_confirm, received.payload);
    }
    Ok(other_input(machine, received)?)
}

// The host's report on encryption.
fn waiting_encrypted(
    ops: &mut Ops<'_>,
    machine: &mut Machine,
    received: Received<'_>,
) -> Result<(), Halt>
    ensures ran { ran_machine ops.new.trace machine.new result
        ≡ run ops.old.answers.now
        (transition_from machine.old received.entry.payload.now received.entry.input phase.WaitingLinkEncrypted)
        ops.old.trace }
    ensures answers { ops.new.answers ≡ ops.old.answers }
{
    match received.link_encrypted() {
        Some(true) => handle_link_encrypted_success(ops, machine),
        Some(false) => Err(Halt::Failed(Error::Security(Reason::ConfirmValueFailed))),
        None => Ok(other_input(machine, received)?),
    }
}

fn waiting_address(
    ops: &mut Ops<'_>,
    machine: &mut Machine,
    received: Received<'_>,
) -> Result<(), Halt>
    ensures ran { ran_machine ops.new.trace machine.new result
        ≡ run ops.old.answers.now
        (transition_from machine.old received.entry.payload.now received.entry.input
        phase.WaitingIdentitityAddressInformation)
        ops.old.trace }
    ensures answers { ops.new.answers ≡ ops.old.answers }
{
    if received.is_command(Command::IdentityAddressInformation) {
        return handle_identity_address_information(ops, machine, received.payload);
    }
    Ok(other_input(machine, received)?)
}

// The phase says which of the two packets comes next.
// The phase is a number, as in the Rust: a record may hold any octet, and any other awaits nothing.
fn receiving_keys(
    ops: &mut Ops<'_>,
    machine: &mut Machine,
    phase: u8,
    received_ltk: LongTermKey,
    received: Received<'_>,
) -> Result<(), Halt>
    ensures ran { ran_machine ops.new.trace machine.new result
        ≡ run ops.old.answers.now
        (on_receiving_keys phase received.entry.input
        (handle_encryption_information machine.old.pairing_data received.entry.payload.now)
        (handle_central_identification machine.old.pairing_data received_ltk received.entry.payload.now)
        (other_input machine.old received.entry.payload.now received.entry.input))
        ops.old.trace }
    ensures answers { ops.new.answers ≡ ops.old.answers }
{
    if phase == 0 && received.is_command(Command::EncryptionInformation) {
        return Ok(handle_encryption_information(machine, received.payload)?);
    }
    if phase == 1 && received.is_command(Command::CentralIdentification) {
        return handle_central_identification(ops, machine, received_ltk, received.payload);
    }
    Ok(other_input(machine, received)?)
}

// --- Transition helpers ---

#[tactic(auto, unfolding(protocol::specs::LegacyCentral::handle_link_encrypted_success, protocol::specs::LegacyCentral::await_keys))]
fn handle_link_encrypted_success(ops: &mut Ops<'_>, machine: &mut Machine) -> Result<(), Halt>
    ensures ran { ran_machine ops.new.trace machine.new result
        ≡ run ops.old.answers.now (handle_link_encrypted_success machine.old.pairing_data) ops.old.trace }
    ensures answers { ops.new.answers ≡ ops.old.answers }
{
    if !machine.pairing_data.want_bonding() {
        machine.enters(Phase::Success);
        return Ok(());
    }
    // the peripheral's keys come first, then the central sends its own
    let features = machine.pairing_data.peer_features;
    if features.responder_key_distribution.encryption_key() {
        machine.enters(Phase::ReceivingKeys {
            phase: 0,
            received_ltk: LongTermKey(0),
        });
        return Ok(());
    }
    identity_or_own_keys(ops, machine)
}

// The peripheral's identity key is awaited where the response names it; else the central sends its keys.
#[tactic(auto, unfolding(protocol::specs::LegacyCentral::await_identity_or_send))]
fn identity_or_own_keys(ops: &mut Ops<'_>, machine: &mut Machine) -> Result<(), Halt>
    ensures ran { ran_machine ops.new.trace machine.new result
        ≡ run ops.old.answers.now
        (await_identity_or_send machine.old.pairing_data
        (names_identity_key machine.old.pairing_data.peer_features.responder_key_distribution))
        ops.old.trace }
    ensures answers { ops.new.answers ≡ ops.old.answers }
{
    let features = machine.pairing_data.peer_features;
    if features.responder_key_distribution.identity_key() {
        machine.enters(Phase::WaitingIdentitityInformation);
        return Ok(());
    }
    send_all_keys(ops, machine)
}

#[tactic(auto, unfolding(protocol::specs::LegacyCentral::handle_peer_confirm))]
fn handle_peer_confirm(ops: &mut Ops<'_>, machine: &mut Machine, payload: &[u8]) -> Result<(), Halt>
    ensures ran { ran_machine ops.new.trace machine.new result
        ≡ run ops.old.answers.now
        (handle_peer_confirm machine.old.confirm_data machine.old.pairing_data payload.now)
        ops.old.trace }
    ensures answers { ops.new.answers ≡ ops.old.answers }
{
    let word = read_payload_word(payload).ok_or(Error::Security(Reason::InvalidParameters))?;
    answer_confirm(ops, machine, Confirm(word))
}

// The passkey is the temporary key.
#[tactic(auto, unfolding(protocol::specs::LegacyCentral::handle_pass_key_input, protocol::specs::LegacyCentral::send_mconfirm, protocol::specs::LegacyCentral::send_mrand))]
fn handle_pass_key_input(
    ops: &mut Ops<'_>,
    machine: &mut Machine,
    input: u32,
    confirm_bytes: Option<Confirm>,
) -> Result<(), Halt>
    ensures ran { ran_machine ops.new.trace machine.new result
        ≡ run ops.old.answers.now
        (handle_pass_key_input machine.old.confirm_data machine.old.pairing_data input confirm_bytes)
        ops.old.trace }
    ensures answers { ops.new.answers ≡ ops.old.answers }
{
    machine.confirm_data = ConfirmPhaseData {
        tk: u128::from(input),
        local_nonce: Nonce(0),
        ..machine.confirm_data
    };
    machine.confirm_data.local_nonce = send_mconfirm(ops, machine)?;
    match confirm_bytes {
        Some(peer_confirm) => answer_confirm(ops, machine, peer_confirm),
        None => {
            machine.enters(Phase::WaitingPairingConfirm);
            Ok(())
        }
    }
}

// --- Protocol helpers ---

#[tactic(auto, unfolding(protocol::specs::LegacyCentral::handle_pairing_response, protocol::specs::Handlers::features_in))]
fn handle_pairing_response(
    ops: &mut Ops<'_>,
    machine: &mut Machine,
    payload: &[u8],
) -> Result<(), Halt>
    ensures ran { ran_machine ops.new.trace machine.new result
        ≡ run ops.old.answers.now
        (handle_pairing_response machine.old.confirm_data machine.old.pairing_data payload.now)
        ops.old.trace }
    ensures answers { ops.new.answers ≡ ops.old.answers }
{
    let peer_features = read_features(payload)?;
    let preq = machine.confirm_data.preq;
    let pres = command_octets(Command::PairingResponse, octets_at::<6>(payload, 0));
    let local_features = machine.pairing_data.local_features;
    let pairing_method = choose_legacy_pairing_method(local_features, peer_features);
    machine.pairing_data.peer_features = peer_features;
    machine.pairing_data.pairing_method = pairing_method;
    begin_method(ops, machine, preq, pres, pairing_method)
}

// The bond keeps the peripheral's keys.
#[tactic(auto, unfolding(protocol::specs::LegacyCentral::handle_central_identification, protocol::specs::Handlers::with_keys))]
fn handle_central_identification(
    ops: &mut Ops<'_>,
    machine: &mut Machine,
    received_ltk: LongTermKey,
    payload: &[u8],
) -> Result<(), Halt>
    ensures ran { ran_machine ops.new.trace machine.new result
        ≡ run ops.old.answers.now
        (handle_central_identification machine.old.pairing_data received_ltk payload.now)
        ops.old.trace }
    ensures answers { ops.new.answers ≡ ops.old.answers }
{
    let (ediv, rand) = read_identification(payload)?;
    let keys = EncryptionKeys {
        ltk: received_ltk,
        ediv,
        rand,
    };
    machine.pairing_data = with_keys(machine.pairing_data, keys);
    identity_or_own_keys(ops, machine)
}

#[tactic(auto, unfolding(protocol::specs::LegacyCentral::handle_identity_address_information, protocol::specs::Handlers::with_identity_address, machine::specs::Machine::want_bonding))]
fn handle_identity_address_information(
    ops: &mut Ops<'_>,
    machine: &mut Machine,
    payload: &[u8],
) -> Result<(), Halt>
    ensures ran { ran_machine ops.new.trace machine.new result
        ≡ run ops.old.answers.now
        (handle_identity_address_information machine.old.pairing_data payload.now)
        ops.old.trace }
    ensures answers { ops.new.answers ≡ ops.old.answers }
{
    let peer_address = read_identity_address(payload)?;
    machine.pairing_data = with_identity_address(machine.pairing_data, peer_address);
    if machine.pairing_data.want_bonding() {
        return send_all_keys(ops, machine);
    }
    machine.enters(Phase::Success);
    Ok(())
}
