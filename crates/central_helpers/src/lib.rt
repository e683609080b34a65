// legacy_central.rs, its lower part: the confirm value, the method that begins, Mrand, and the keys that are sent.
#![tactic(auto)]

ghost use Rattle.std.specs.Prelude.{◌≡◌, OnErr};
ghost use Rattle.machine.specs.declared.PairingData.{PairingData};
ghost use Rattle.protocol.specs.Handlers.{names_encryption_key, send_encryption_key};
ghost use Rattle.protocol.specs.LegacyCentral.{confirm_value, send_all_keys, send_mconfirm, send_mrand, answer_confirm};
ghost use Rattle.protocol.specs.LegacyCentral.{begin_confirm, begin_method, handle_pairing_random};
ghost use Rattle.host_ops.specs.Run.{run};
ghost use Rattle.handler_parts.specs.Outcomes.{ran_data, ran_machine, ran_nonce, ran_try};
ghost use Rattle.central_helpers.specs.Responses.{display_pass_key};

use bond::Error;
use crypto::{Confirm, Nonce, c1, s1};
use handler_parts::keys::{draw_keys, send_identity_keys};
use handler_parts::packet::{
    make_central_identification_packet, make_confirm_packet, make_encryption_information_packet,
    make_pairing_random,
};
use handler_parts::payload::read_payload_word;
use handlers::{confirm_phase_data, enable_encryption, request_oob_data, request_pass_key};
use host_calls::ConnectionEvent;
use host_ops::{Halt, Ops};
use machine::{Machine, Phase};
use smp_types::{KeyDistributionFlags, Reason};
use util::{PairingMethod, PassKeyEntryAction};

// c1 of a nonce: this end is the initiator.
// In each role's own file, as in the Rust.
#[tactic(auto, unfolding(protocol::specs::LegacyCentral::confirm_value))]
fn confirm_value(machine: &Machine, nonce: Nonce) -> Confirm
    ensures { result ≡ confirm_value machine.now.confirm_data machine.now.pairing_data nonce }
{
    let tk = machine.confirm_data.tk;
    let preq = machine.confirm_data.preq;
    let pres = machine.confirm_data.pres;
    let initiator = machine.pairing_data.local_address;
    let responder = machine.pairing_data.peer_address;
    let ia = initiator.addr.into_inner();
    let ra = responder.addr.into_inner();
    c1(
        tk,
        nonce,
        preq,
        pres,
        initiator.addr_type(),
        ia,
        responder.addr_type(),
        ra,
    )
}

// Mrand goes out where Sconfirm is known.
#[tactic(auto, unfolding(protocol::specs::LegacyCentral::send_mrand))]
pub fn answer_confirm(
    ops: &mut Ops<'_>,
    machine: &mut Machine,
    peer_confirm: Confirm,
) -> Result<(), Halt>
    ensures ran { ran_machine ops.new.trace machine.new result
        ≡ run ops.old.answers.now
        (answer_confirm machine.old.confirm_data machine.old.pairing_data peer_confirm)
        ops.old.trace }
    ensures answers { ops.new.answers ≡ ops.old.answers }
    ensures kept { OnErr result (machine.new ≡ machine.old) }
{
    send_mrand(ops, machine)?;
    machine.enters(Phase::WaitingPairingRandom { peer_confirm });
    Ok(())
}

// Sends all of the initiator's keys at once: those that the response names.
#[tactic(auto, using(host_ops::proofs::Laws::run_bind), unfolding(protocol::specs::LegacyCentral::send_all_keys))]
pub fn send_all_keys(ops: &mut Ops<'_>, machine: &mut Machine) -> Result<(), Halt>
    ensures ran { ran_machine ops.new.trace machine.new result
        ≡ run ops.old.answers.now (send_all_keys machine.old.pairing_data) ops.old.trace }
    ensures answers { ops.new.answers ≡ ops.old.answers }
    ensures kept { OnErr result (machine.new ≡ machine.old) }
{
    let features = machine.pairing_data.peer_features;
    let named = features.initiator_key_distribution;
    send_encryption_keys(ops, named)?;
    send_identity_keys(ops, named)?;
    machine.enters(Phase::Success);
    Ok(())
}

// LTK, EDIV and Rand, where they were agreed; none of them is kept.
#[tactic(auto, unfolding(protocol::specs::Handlers::send_encryption_key))]
fn send_encryption_keys(ops: &mut Ops<'_>, named: KeyDistributionFlags) -> Result<(), Halt>
    ensures ran { (d : PairingData) → ran_data ops.new.trace d result
        ≡ run ops.old.answers.now
        (send_encryption_key d (λ ltk ediv rand. d) (names_encryption_key named))
        ops.old.trace }
    ensures answers { ops.new.answers ≡ ops.old.answers }
{
    if !named.encryption_key() {
        return Ok(());
    }
    let keys = draw_keys(ops)?;
    ops.try_send_packet(make_encryption_information_packet(keys.ltk))?;
    ops.try_send_packet(make_central_identification_packet(keys.ediv, keys.rand))
}

// The method that was chosen begins.
// preq and pres apart: the definition of this name and c1 take them so.
#[tactic(auto, unfolding(protocol::specs::LegacyCentral::begin_method))]
pub fn begin_method(
    ops: &mut Ops<'_>,
    machine: &mut Machine,
    preq: [u8; 7],
    pres: [u8; 7],
    method: PairingMethod,
) -> Result<(), Halt>
    ensures ran { ran_machine ops.new.trace machine.new result
        ≡ run ops.old.answers.now (begin_method preq pres machine.old.pairing_data method) ops.old.trace }
    ensures answers { ops.new.answers ≡ ops.old.answers }
    ensures kept { OnErr result (machine.new ≡ machine.old) }
{
    match method {
        PairingMethod::OutOfBand => request_oob_data(ops, machine, preq, pres),
        PairingMethod::PassKeyEntry {
            central: PassKeyEntryAction::Display,
            ..
        } => display_pass_key(ops, machine, preq, pres),
        PairingMethod::PassKeyEntry {
            central: PassKeyEntryAction::Input,
            ..
        } => request_pass_key(ops, machine, preq, pres),
        PairingMethod::JustWorks => begin_confirm(ops, machine, preq, pres, 0),
        // never chosen in legacy pairing
        PairingMethod::NumericComparison => {
            Err(Halt::Failed(Error::Security(Reason::AuthenticationRequirements)))
        }
    }
}

// A passkey is drawn and shown, and is the temporary key.
// preq and pres apart: the definition of this name and c1 take them so.
fn display_pass_key(
    ops: &mut Ops<'_>,
    machine: &mut Machine,
    preq: [u8; 7],
    pres: [u8; 7],
) -> Result<(), Halt>
    ensures ran { ran_machine ops.new.trace machine.new result
        ≡ run ops.old.answers.now (display_pass_key preq pres machine.old.pairing_data) ops.old.trace }
    ensures answers { ops.new.answers ≡ ops.old.answers }
    ensures kept { OnErr result (machine.new ≡ machine.old) }
{
    let passkey = ops.draw_passkey()?;
    ops.try_send_connection_event(ConnectionEvent::PassKeyDisplay(passkey))?;
    begin_confirm(ops, machine, preq, pres, u128::from(passkey.value()))
}

// Mconfirm goes out where the temporary key is known, and Sconfirm is awaited.
// preq and pres apart: the definition of this name and c1 take them so.
#[tactic(auto, unfolding(protocol::specs::LegacyCentral::begin_confirm, protocol::specs::LegacyCentral::send_mconfirm))]
pub fn begin_confirm(
    ops: &mut Ops<'_>,
    machine: &mut Machine,
    preq: [u8; 7],
    pres: [u8; 7],
    tk: u128,
) -> Result<(), Halt>
    ensures ran { ran_machine ops.new.trace machine.new result
        ≡ run ops.old.answers.now (begin_confirm preq pres machine.old.pairing_data tk) ops.old.trace }
    ensures answers { ops.new.answers ≡ ops.old.answers }
    ensures kept { OnErr result (machine.new ≡ machine.old) }
{
    let mut next = *machine;
    next.confirm_data = confirm_phase_data(tk, preq, pres);
    next.confirm_data.local_nonce = send_mconfirm(ops, &next)?;
    next.enters(Phase::WaitingPairingConfirm);
    *machine = next;
    Ok(())
}

// Mconfirm = c1(TK, Mrand, preq, pres, iat, ia, rat, ra) of a fresh Mrand. Gives Mrand.
#[tactic(auto, unfolding(protocol::specs::LegacyCentral::send_mconfirm))]
pub fn send_mconfirm(ops: &mut Ops<'_>, machine: &Machine) -> Result<Nonce, Halt>
    ensures ran { ran_nonce ops.new.trace machine.now.pairing_data machine.now.confirm_data result
        ≡ run ops.old.answers.now
        (send_mconfirm machine.now.confirm_data machine.now.pairing_data)
        ops.old.trace }
    ensures answers { ops.new.answers ≡ ops.old.answers }
{
    let local_nonce = ops.draw_nonce()?;
    let mconfirm = confirm_value(machine, local_nonce);
    ops.try_send_packet(make_confirm_packet(mconfirm))?;
    Ok(local_nonce)
}

#[tactic(auto, unfolding(protocol::specs::LegacyCentral::send_mrand))]
fn send_mrand(ops: &mut Ops<'_>, machine: &Machine) -> Result<(), Halt>
    ensures ran { ran_try ops.new.trace machine.now.pairing_data result
        ≡ run ops.old.answers.now (send_mrand machine.now.confirm_data machine.now.pairing_data) ops.old.trace }
    ensures answers { ops.new.answers ≡ ops.old.answers }
{
    ops.try_send_packet(make_pairing_random(machine.confirm_data.local_nonce))
}

// Srand is checked against Sconfirm.
#[tactic(auto, unfolding(protocol::specs::LegacyCentral::handle_pairing_random))]
pub fn handle_pairing_random(
    ops: &mut Ops<'_>,
    machine: &mut Machine,
    peer_confirm: Confirm,
    payload: &[u8],
) -> Result<(), Halt>
    ensures ran { ran_machine ops.new.trace machine.new result
        ≡ run ops.old.answers.now
        (handle_pairing_random machine.old.confirm_data machine.old.pairing_data peer_confirm payload.now)
        ops.old.trace }
    ensures answers { ops.new.answers ≡ ops.old.answers }
    ensures kept { OnErr result (machine.new ≡ machine.old) }
{
    let word = read_payload_word(payload).ok_or(Error::Security(Reason::InvalidParameters))?;
    let peer_nonce = Nonce(word);
    let expected_sconfirm = confirm_value(machine, peer_nonce);
    if expected_sconfirm != peer_confirm {
        return Err(Halt::Failed(Error::Security(Reason::ConfirmValueFailed)));
    }
    let confirm_data = machine.confirm_data;
    let stk = s1(confirm_data.tk, peer_nonce, confirm_data.local_nonce);
    enable_encryption(ops, machine, stk)
}
