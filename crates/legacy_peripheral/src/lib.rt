// legacy_peripheral.rs: the responder's machine. Each function of the Rust has one of its name here or in the crate
// peripheral_helpers. What legacy_central.rs has in the same words stands in the crate handlers: `enter`,
// `store_confirm_bytes`, `handle_encryption_information`, `handle_identity_information`.
#![tactic(auto)]

ghost use Rattle.std.specs.Prelude.{◌≡◌, Ok, OnErr};
ghost use Rattle.machine.specs.declared.Phase.TheVariants as phase;
ghost use Rattle.protocol.specs.Program.{ret};
ghost use Rattle.protocol.specs.Handlers.{on_receiving_keys, other_input, handle_encryption_information};
ghost use Rattle.protocol.specs.LegacyPeripheral.{identity_named, await_identity_or_succeed, send_all_keys, handle_link_encrypted_success, answer_confirm, handle_peer_confirm, handle_pass_key_input};
ghost use Rattle.protocol.specs.LegacyPeripheral.{handle_central_identification, handle_identity_address_information};
ghost use Rattle.protocol.specs.LegacyPeripheral.{link_encrypted, transition_from, transition, handle_input};
ghost use Rattle.host_ops.specs.Run.{run};
ghost use Rattle.handler_parts.specs.Outcomes.{tried, ran_machine, ran_entered};

use bond::Error;
use crypto::{Confirm, LongTermKey, Nonce};
use handler_parts::input::{Received, other_input};
use handler_parts::keys::{send_identity_keys, with_identity_address};
use handler_parts::payload::{read_identification, read_identity_address, read_payload_word};
use handlers::{handle_encryption_information, settle, store_confirm_bytes, waiting_identity};
use host_answers::Stop;
use host_ops::{Halt, Ops};
use machine::{ConfirmPhaseData, Machine, Phase};
use peripheral_helpers::{
    handle_pairing_random, handle_pairing_request, send_encryption_keys, send_sconfirm,
};
use smp_types::{Command, Reason};

// --- FSM core ---

// One input: the transition, then the calls on entering the state that it gives.
#[tactic(auto, using(host_ops::proofs::Laws::run_bind), unfolding(protocol::specs::LegacyPeripheral::handle_input))]
pub fn handle_input(
    ops: &mut Ops<'_>,
    machine: &mut Machine,
    received: Received<'_>,
) -> Result<(), Stop>
    ensures ran { ran_entered ops.new.trace machine.new result
        ≡ run ops.old.answers.now
        (handle_input machine.old received.entry.input received.entry.payload.now)
        ops.old.trace }
    ensures answers { ops.new.answers ≡ ops.old.answers }
    ensures kept { OnErr result (machine.new ≡ machine.old) }
{
    let before = *machine;
    let turned = transition(ops, machine, received);
    settle(ops, machine, before, turned)
}

// A row for each state.
#[tactic(auto, unfolding(protocol::specs::LegacyPeripheral::transition))]
fn transition(ops: &mut Ops<'_>, machine: &mut Machine, received: Received<'_>) -> Result<(), Halt>
    ensures ran { ran_machine ops.new.trace machine.new result
        ≡ run ops.old.answers.now
        (transition machine.old received.entry.input received.entry.payload.now)
        ops.old.trace }
    ensures answers { ops.new.answers ≡ ops.old.answers }
{
    match machine.phase {
        Phase::WaitingPairingRequest => waiting_request(ops, machine, received),
        Phase::WaitingPassKeyInput { confirm_bytes } => {
            waiting_pass_key(ops, machine, confirm_bytes, received)
        }
        Phase::WaitingOobData => Ok(waiting_oob_data(machine, received)?),
        Phase::WaitingPairingConfirm => waiting_confirm(ops, machine, received),
        Phase::WaitingPairingRandom { peer_confirm } => {
            waiting_random(ops, machine, peer_confirm, received)
        }
        Phase::WaitingLinkEncrypted => waiting_encrypted(ops, machine, received),
        Phase::WaitingIdentitityInformation => Ok(waiting_identity(machine, received)?),
        Phase::WaitingIdentitityAddressInformation => { Ok(waiting_address(machine, received)?) }
        Phase::ReceivingKeys { phase, .. } => Ok(receiving_keys(machine, phase, received)?),
        Phase::Success | Phase::Error(_) | Phase::WaitingPairingResponse => {
            Ok(other_input(machine, received)?)
        }
    }
}

fn waiting_request(
    ops: &mut Ops<'_>,
    machine: &mut Machine,
    received: Received<'_>,
) -> Result<(), Halt>
    ensures ran { ran_machine ops.new.trace machine.new result
        ≡ run ops.old.answers.now
        (transition_from machine.old received.entry.payload.now received.entry.input phase.WaitingPairingRequest)
        ops.old.trace }
    ensures answers { ops.new.answers ≡ ops.old.answers }
{
    if received.is_command(Command::PairingRequest) {
        return handle_pairing_request(ops, machine, received.payload);
    }
    if let Some(encrypted) = received.link_encrypted() {
        return handle_link_encrypted(ops, machine, true, encrypted);
    }
    Ok(other_input(machine, received)?)
}

fn waiting_pass_key(
    ops: &mut Ops<'_>,
    machine: &mut Machine,
    confirm_bytes: Option<Confirm>,
    received: Received<'_>,
) -> Result<(), Halt>
    ensures ran { ran_machine ops.new.trace machine.new result
        ≡ run ops.old.answers.now
        (transition_from machine.old received.entry.payload.now received.entry.input
        (phase.WaitingPassKeyInput confirm_bytes))
        ops.old.trace }
    ensures answers { ops.new.answers ≡ ops.old.answers }
{
    if received.is_command(Command::PairingConfirm) {
        return Ok(store_confirm_bytes(machine, received.payload)?);
    }
    if let Some(typed) = received.pass_key_input() {
        return handle_pass_key_input(ops, machine, typed, confirm_bytes);
    }
    if received.is_pass_key_cancel() {
        return Err(Halt::Failed(Error::Security(Reason::PasskeyEntryFailed)));
    }
    Ok(other_input(machine, received)?)
}

// OOB data is the temporary key.
fn waiting_oob_data(machine: &mut Machine, received: Received<'_>) -> Result<(), Error>
    ensures { ret (tried machine.new result)
        ≡ transition_from machine.old received.entry.payload.now received.entry.input phase.WaitingOobData }
{
    let Some(random) = received.oob_data_received() else {
        return other_input(machine, received);
    };
    machine.confirm_data = ConfirmPhaseData {
        tk: random,
        local_nonce: Nonce(0),
        ..machine.confirm_data
    };
    machine.enters(Phase::WaitingPairingConfirm);
    Ok(())
}

fn waiting_confirm(
    ops: &mut Ops<'_>,
    machine: &mut Machine,
    received: Received<'_>,
) -> Result<(), Halt>
    ensures ran { ran_machine ops.new.trace machine.new result
        ≡ run ops.old.answers.now
        (transition_from machine.old received.entry.payload.now received.entry.input phase.WaitingPairingConfirm)
        ops.old.trace }
    ensures answers { ops.new.answers ≡ ops.old.answers }
{
    if received.is_command(Command::PairingConfirm) {
        return handle_peer_confirm(ops, machine, received.payload);
    }
    Ok(other_input(machine, received)?)
}

fn waiting_random(
    ops: &mut Ops<'_>,
    machine: &mut Machine,
    peer_confirm: Confirm,
    received: Received<'_>,
) -> Result<(), Halt>
    ensures ran { ran_machine ops.new.trace machine.new result
        ≡ run ops.old.answers.now
        (transition_from machine.old received.entry.payload.now received.entry.input
        (phase.WaitingPairingRandom peer_confirm))
        ops.old.trace }
    ensures answers { ops.new.answers ≡ ops.old.answers }
{
    if received.is_command(Command::PairingRandom) {
        return handle_pairing_random(ops, machine, peer_confirm, received.payload);
    }
    Ok(other_input(machine, received)?)
}

fn waiting_encrypted(
    ops: &mut Ops<'_>,
    machine: &mut Machine,
    received: Received<'_>,
) -> Result<(), Halt>
    ensures ran { ran_machine ops.new.trace machine.new result
        ≡ run ops.old.answers.now
        (transition_from machine.old received.entry.payload.now received.entry.input phase.WaitingLinkEncrypted)
        ops.old.trace }
    ensures answers { ops.new.answers ≡ ops.old.answers }
{
    if let Some(encrypted) = received.link_encrypted() {
        return handle_link_encrypted(ops, machine, false, encrypted);
    }
    Ok(other_input(machine, received)?)
}

fn waiting_address(machine: &mut Machine, received: Received<'_>) -> Result<(), Error>
    ensures { ret (tried machine.new result)
        ≡ transition_from machine.old received.entry.payload.now received.entry.input
        phase.WaitingIdentitityAddressInformation }
{
    if received.is_command(Command::IdentityAddressInformation) {
        return handle_identity_address_information(machine, received.payload);
    }
    other_input(machine, received)
}

// The phase says which of the two packets comes next; the LTK that came is not kept.
// The phase is a number, as in the Rust: a record may hold any octet, and any other awaits nothing.
fn receiving_keys(machine: &mut Machine, phase: u8, received: Received<'_>) -> Result<(), Error>
    ensures { ret (tried machine.new result)
        ≡ on_receiving_keys phase received.entry.input
        (handle_encryption_information machine.old.pairing_data received.entry.payload.now)
        (handle_central_identification machine.old.pairing_data received.entry.payload.now)
        (other_input machine.old received.entry.payload.now received.entry.input) }
{
    if phase == 0 && received.is_command(Command::EncryptionInformation) {
        return handle_encryption_information(machine, received.payload);
    }
    if phase == 1 && received.is_command(Command::CentralIdentification) {
        return handle_central_identification(machine, received.payload);
    }
    other_input(machine, received)
}

// The host's report on encryption.
fn handle_link_encrypted(
    ops: &mut Ops<'_>,
    machine: &mut Machine,
    before_request: bool,
    encrypted: bool,
) -> Result<(), Halt>
    ensures ran { ran_machine ops.new.trace machine.new result
        ≡ run ops.old.answers.now
        (link_encrypted machine.old.pairing_data before_request encrypted)
        ops.old.trace }
    ensures answers { ops.new.answers ≡ ops.old.answers }
{
    if !encrypted {
        return Err(Halt::Failed(Error::Security(Reason::KeyRejected)));
    }
    handle_link_encrypted_success(ops, machine, before_request)
}

// --- Transition helpers ---

// `before_request` where the machine still waits for the request: the link is encrypted by an earlier bond.
#[tactic(auto, unfolding(protocol::specs::LegacyPeripheral::handle_link_encrypted_success, protocol::specs::LegacyPeripheral::send_keys_or_await_identity))]
fn handle_link_encrypted_success(
    ops: &mut Ops<'_>,
    machine: &mut Machine,
    before_request: bool,
) -> Result<(), Halt>
    ensures ran { ran_machine ops.new.trace machine.new result
        ≡ run ops.old.answers.now
        (handle_link_encrypted_success machine.old.pairing_data before_request)
        ops.old.trace }
    ensures answers { ops.new.answers ≡ ops.old.answers }
{
    if before_request {
        machine.pairing_data.bond_information = ops.try_enable_bonded_encryption()?;
    } else if machine.pairing_data.want_bonding() {
        // the peripheral sends its keys first, then receives the central's
        return send_all_keys(ops, machine);
    }
    identity_or_success(machine);
    Ok(())
}

// The central's identity key is awaited where the request names it.
#[tactic(auto, unfolding(protocol::specs::LegacyPeripheral::await_identity_or_succeed))]
fn identity_or_success(machine: &mut Machine)
    ensures { ret (tried machine.new (Ok tt))
        ≡ await_identity_or_succeed machine.old.pairing_data (identity_named machine.old.pairing_data) }
{
    let named = machine
        .pairing_data
        .peer_features
        .initiator_key_distribution;
    if named.identity_key() {
        machine.enters(Phase::WaitingIdentitityInformation);
    } else {
        machine.enters(Phase::Success);
    }
}

#[tactic(auto, unfolding(protocol::specs::LegacyPeripheral::handle_peer_confirm))]
fn handle_peer_confirm(ops: &mut Ops<'_>, machine: &mut Machine, payload: &[u8]) -> Result<(), Halt>
    ensures ran { ran_machine ops.new.trace machine.new result
        ≡ run ops.old.answers.now
        (handle_peer_confirm machine.old.confirm_data machine.old.pairing_data payload.now)
        ops.old.trace }
    ensures answers { ops.new.answers ≡ ops.old.answers }
{
    let word = read_payload_word(payload).ok_or(Error::Security(Reason::InvalidParameters))?;
    answer_confirm(ops, machine, Confirm(word))
}

// Sconfirm goes out where Mconfirm and the temporary key are known.
#[tactic(auto, using(host_ops::proofs::Laws::run_bind))]
fn answer_confirm(
    ops: &mut Ops<'_>,
    machine: &mut Machine,
    peer_confirm: Confirm,
) -> Result<(), Halt>
    ensures ran { ran_machine ops.new.trace machine.new result
        ≡ run ops.old.answers.now
        (answer_confirm machine.old.confirm_data machine.old.pairing_data peer_confirm)
        ops.old.trace }
    ensures answers { ops.new.answers ≡ ops.old.answers }
{
    machine.confirm_data.local_nonce = send_sconfirm(ops, machine)?;
    machine.enters(Phase::WaitingPairingRandom { peer_confirm });
    Ok(())
}

// The passkey is the temporary key.
#[tactic(auto, unfolding(protocol::specs::LegacyPeripheral::handle_pass_key_input))]
fn handle_pass_key_input(
    ops: &mut Ops<'_>,
    machine: &mut Machine,
    input: u32,
    confirm_bytes: Option<Confirm>,
) -> Result<(), Halt>
    ensures ran { ran_machine ops.new.trace machine.new result
        ≡ run ops.old.answers.now
        (handle_pass_key_input machine.old.confirm_data machine.old.pairing_data input confirm_bytes)
        ops.old.trace }
    ensures answers { ops.new.answers ≡ ops.old.answers }
{
    machine.confirm_data = ConfirmPhaseData {
        tk: u128::from(input),
        local_nonce: Nonce(0),
        ..machine.confirm_data
    };
    match confirm_bytes {
        Some(peer_confirm) => answer_confirm(ops, machine, peer_confirm),
        None => {
            machine.enters(Phase::WaitingPairingConfirm);
            Ok(())
        }
    }
}

// Sends all of the responder's keys at once.
#[tactic(auto, using(host_ops::proofs::Laws::run_bind), unfolding(protocol::specs::LegacyPeripheral::send_all_keys, protocol::specs::LegacyPeripheral::await_keys))]
fn send_all_keys(ops: &mut Ops<'_>, machine: &mut Machine) -> Result<(), Halt>
    ensures ran { ran_machine ops.new.trace machine.new result
        ≡ run ops.old.answers.now (send_all_keys machine.old.pairing_data) ops.old.trace }
    ensures answers { ops.new.answers ≡ ops.old.answers }
{
    let local = machine.pairing_data.local_features;
    let peer = machine.pairing_data.peer_features;
    let named = local.responder_key_distribution;
    send_encryption_keys(ops, &mut machine.pairing_data, named)?;
    send_identity_keys(ops, named)?;
    // After sending our keys, receive central's keys
    if peer.initiator_key_distribution.encryption_key() {
        machine.enters(Phase::ReceivingKeys {
            phase: 0,
            received_ltk: LongTermKey(0),
        });
    } else {
        identity_or_success(machine);
    }
    Ok(())
}

// --- Protocol helpers ---

// The central's EDIV and Rand are not kept: the bond has the peripheral's own.
#[tactic(auto, unfolding(protocol::specs::LegacyPeripheral::handle_central_identification))]
fn handle_central_identification(machine: &mut Machine, payload: &[u8]) -> Result<(), Error>
    ensures { ret (tried machine.new result)
        ≡ handle_central_identification machine.old.pairing_data payload.now }
{
    read_identification(payload)?;
    identity_or_success(machine);
    Ok(())
}

#[tactic(auto, unfolding(protocol::specs::LegacyPeripheral::handle_identity_address_information))]
fn handle_identity_address_information(machine: &mut Machine, payload: &[u8]) -> Result<(), Error>
    ensures { ret (tried machine.new result)
        ≡ handle_identity_address_information machine.old.pairing_data payload.now }
{
    let address = read_identity_address(payload)?;
    machine.pairing_data = with_identity_address(machine.pairing_data, address);
    machine.enters(Phase::Success);
    Ok(())
}
