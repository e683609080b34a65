// Handlers that both roles have: the functions that legacy_peripheral.rs and legacy_central.rs have in the same words.
#![tactic(auto)]

ghost use Rattle.std.specs.Prelude.{◌≡◌, OnErr};
ghost use Rattle.smp_types.specs.declared.types.Command.TheVariants as command;
ghost use Rattle.protocol.specs.Program.{ret};
ghost use Rattle.protocol.specs.Handlers.{confirm_data, enter, entered, enable_encryption, on_command, other_input, store_confirm_bytes, handle_encryption_information, handle_identity_information};
ghost use Rattle.host_ops.specs.Run.{run, and_then};
ghost use Rattle.handler_parts.specs.Outcomes.{tried, ran_machine, ran_entered};
ghost use Rattle.handlers.specs.Phases.{request_oob_data, request_pass_key, attempt_of};

use bond::Error;
use crypto::{Confirm, IdentityResolvingKey, LongTermKey, Nonce};
use handler_parts::input::{Received, other_input};
use handler_parts::keys::{negotiated_key_size, with_irk};
use handler_parts::payload::read_payload_word;
use host_answers::Stop;
use host_calls::ConnectionEvent;
use host_ops::{Halt, Ops};
use machine::{ConfirmPhaseData, Machine, Phase};
use smp_types::Command;

// A temporary key and the two commands, and no nonce yet.
// preq and pres apart: the definition of this name and c1 take them so.
pub fn confirm_phase_data(tk: u128, preq: [u8; 7], pres: [u8; 7]) -> ConfirmPhaseData
    ensures { result ≡ confirm_data tk preq pres }
{
    ConfirmPhaseData {
        tk,
        preq,
        pres,
        local_nonce: Nonce(0),
    }
}

// A failure that does not matter.
fn attempt(sent: Result<(), Halt>) -> Result<(), Stop>
    ensures { result ≡ attempt_of sent }
{
    match sent {
        Err(Halt::Stop(stop)) => Err(stop),
        _ => Ok(()),
    }
}

// The calls on entering a state: PairingFailed in Error; in Success, where there is a bond, its update where both want to
// bond, then PairingComplete. Failures to send do not matter.
#[tactic(auto, unfolding(protocol::specs::Handlers::enter))]
pub fn enter(ops: &mut Ops<'_>, machine: &Machine) -> Result<(), Stop>
    ensures ran { ran_entered ops.new.trace machine.now result
        ≡ run ops.old.answers.now (enter machine.now) ops.old.trace }
    ensures answers { ops.new.answers ≡ ops.old.answers }
{
    match machine.phase {
        Phase::Error(error) => {
            attempt(ops.try_send_connection_event(ConnectionEvent::PairingFailed(error)))
        }
        Phase::Success => {
            let Some(information) = machine.pairing_data.bond_information else {
                return Ok(());
            };
            let security_level = information.security_level;
            let bond = machine.pairing_data.want_bonding().then_some(information);
            if let Some(information) = bond {
                attempt(ops.try_update_bond_information(information))?;
            }
            attempt(ops.try_send_connection_event(ConnectionEvent::PairingComplete {
                security_level,
                bond,
            }))
        }
        _ => Ok(()),
    }
}

// `unwrap_or_else(Self::Error)`, then `enter`; where an answer was missing, the machine before is given back.
pub fn settle(
    ops: &mut Ops<'_>,
    machine: &mut Machine,
    before: Machine,
    turned: Result<(), Halt>,
) -> Result<(), Stop>
    ensures ran { ran_entered ops.new.trace machine.new result
        ≡ and_then
        (ran_machine ops.old.trace machine.old turned)
        (λ x u. run ops.old.answers.now (entered x) u) }
    ensures answers { ops.new.answers ≡ ops.old.answers }
    ensures kept { OnErr result (machine.new ≡ before) }
{
    match turned {
        Ok(()) => {}
        Err(Halt::Failed(error)) => machine.enters(Phase::Error(error)),
        Err(Halt::Stop(stop)) => {
            *machine = before;
            return Err(stop);
        }
    }
    let ran = enter(ops, machine);
    if ran.is_err() {
        *machine = before;
    }
    ran
}

// A confirm value that comes while the passkey is typed.
#[tactic(auto, unfolding(protocol::specs::Handlers::store_confirm_bytes))]
pub fn store_confirm_bytes(machine: &mut Machine, payload: &[u8]) -> Result<(), Error>
    ensures ran { ret (tried machine.new result)
        ≡ store_confirm_bytes machine.old.confirm_data machine.old.pairing_data payload.now }
    ensures kept { OnErr result (machine.new ≡ machine.old) }
{
    let word = read_payload_word(payload).ok_or(Error::InvalidValue)?;
    let confirm_bytes = Some(Confirm(word));
    machine.enters(Phase::WaitingPassKeyInput { confirm_bytes });
    Ok(())
}

// preq and pres apart: the definition of this name and c1 take them so.
// Two functions on purpose: each asks the host for another value, and awaits it in another state.
pub fn request_oob_data(
    ops: &mut Ops<'_>,
    machine: &mut Machine,
    preq: [u8; 7],
    pres: [u8; 7],
) -> Result<(), Halt>
    ensures ran { ran_machine ops.new.trace machine.new result
        ≡ run ops.old.answers.now (request_oob_data preq pres machine.old.pairing_data) ops.old.trace }
    ensures answers { ops.new.answers ≡ ops.old.answers }
    ensures kept { OnErr result (machine.new ≡ machine.old) }
{
    ops.try_send_connection_event(ConnectionEvent::OobRequest)?;
    machine.confirm_data = confirm_phase_data(0, preq, pres);
    machine.enters(Phase::WaitingOobData);
    Ok(())
}

// preq and pres apart: the definition of this name and c1 take them so.
pub fn request_pass_key(
    ops: &mut Ops<'_>,
    machine: &mut Machine,
    preq: [u8; 7],
    pres: [u8; 7],
) -> Result<(), Halt>
    ensures ran { ran_machine ops.new.trace machine.new result
        ≡ run ops.old.answers.now (request_pass_key preq pres machine.old.pairing_data) ops.old.trace }
    ensures answers { ops.new.answers ≡ ops.old.answers }
    ensures kept { OnErr result (machine.new ≡ machine.old) }
{
    ops.try_send_connection_event(ConnectionEvent::PassKeyInput)?;
    machine.confirm_data = confirm_phase_data(0, preq, pres);
    machine.enters(Phase::WaitingPassKeyInput {
        confirm_bytes: None,
    });
    Ok(())
}

// Encryption with the STK, cut to the negotiated size; the LTK comes with the keys.
#[tactic(auto, unfolding(protocol::specs::Handlers::enable_encryption))]
pub fn enable_encryption(
    ops: &mut Ops<'_>,
    machine: &mut Machine,
    stk: LongTermKey,
) -> Result<(), Halt>
    ensures ran { ran_machine ops.new.trace machine.new result
        ≡ run ops.old.answers.now (enable_encryption machine.old.pairing_data stk) ops.old.trace }
    ensures answers { ops.new.answers ≡ ops.old.answers }
    ensures kept { OnErr result (machine.new ≡ machine.old) }
{
    let size = negotiated_key_size(machine.pairing_data);
    let level = u8::from(machine.pairing_data.pairing_method.security_level());
    let information = ops.try_enable_encryption(stk.masked(size), level, size)?;
    machine.pairing_data.bond_information = Some(information);
    machine.enters(Phase::WaitingLinkEncrypted);
    Ok(())
}

#[tactic(auto, unfolding(protocol::specs::Handlers::handle_encryption_information))]
pub fn handle_encryption_information(machine: &mut Machine, payload: &[u8]) -> Result<(), Error>
    ensures ran { ret (tried machine.new result)
        ≡ handle_encryption_information machine.old.pairing_data payload.now }
    ensures kept { OnErr result (machine.new ≡ machine.old) }
{
    let word = read_payload_word(payload).ok_or(Error::InvalidValue)?;
    machine.enters(Phase::ReceivingKeys {
        phase: 1,
        received_ltk: LongTermKey(word),
    });
    Ok(())
}

#[tactic(auto, unfolding(protocol::specs::Handlers::handle_identity_information))]
fn handle_identity_information(machine: &mut Machine, payload: &[u8]) -> Result<(), Error>
    ensures ran { ret (tried machine.new result)
        ≡ handle_identity_information machine.old.pairing_data payload.now }
    ensures kept { OnErr result (machine.new ≡ machine.old) }
{
    let word = read_payload_word(payload).ok_or(Error::InvalidValue)?;
    machine.pairing_data = with_irk(machine.pairing_data, IdentityResolvingKey(word));
    machine.enters(Phase::WaitingIdentitityAddressInformation);
    Ok(())
}

// The state that awaits the peer's identity key.
pub fn waiting_identity(machine: &mut Machine, received: Received<'_>) -> Result<(), Error>
    ensures ran { ret (tried machine.new result)
        ≡ on_command command.IdentityInformation received.entry.input
        (handle_identity_information machine.old.pairing_data received.entry.payload.now)
        (other_input machine.old received.entry.payload.now received.entry.input) }
    ensures kept { OnErr result (machine.new ≡ machine.old) }
{
    if received.is_command(Command::IdentityInformation) {
        return handle_identity_information(machine, received.payload);
    }
    other_input(machine, received)
}
