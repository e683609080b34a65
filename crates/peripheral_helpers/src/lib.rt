// legacy_peripheral.rs, its lower part: the confirm value, the request and the method that begins, Srand, and the keys
// that are sent.
#![tactic(auto)]

ghost use Rattle.std.specs.Prelude.{◌≡◌, IfErr, OnErr};
ghost use Rattle.protocol.specs.Handlers.{names_encryption_key, send_encryption_key, with_keys};
ghost use Rattle.protocol.specs.LegacyPeripheral.{confirm_value, send_sconfirm, handle_pairing_random};
ghost use Rattle.protocol.specs.LegacyPeripheral.{responder_keys, with_mitm, new_legacy, response_features, begin_method, handle_pairing_request};
ghost use Rattle.host_ops.specs.Run.{run};
ghost use Rattle.handler_parts.specs.Outcomes.{ran_machine, left_by, ran_data, ran_nonce};

use bond::Error;
use crypto::{Confirm, Nonce, c1, s1};
use handler_parts::keys::{draw_keys, with_keys};
use handler_parts::packet::{
    make_central_identification_packet, make_confirm_packet, make_encryption_information_packet,
    make_pairing_random,
};
use handler_parts::payload::{command_octets, read_features, read_payload_word};
use handlers::{confirm_phase_data, enable_encryption, request_oob_data, request_pass_key};
use host_calls::{ConnectionEvent, Packet};
use host_ops::{Halt, Ops};
use machine::{Machine, PairingData, Phase};
use smp_types::{
    AuthReq, BondingFlag, Command, IoCapabilities, KeyDistributionFlags, PairingFeatures, Reason,
    UseOutOfBand,
};
use util::{PairingMethod, PassKeyEntryAction, choose_legacy_pairing_method};

// c1 of a nonce: the peer is the initiator.
// In each role's own file, as in the Rust.
#[tactic(auto, unfolding(protocol::specs::LegacyPeripheral::confirm_value))]
fn confirm_value(machine: &Machine, nonce: Nonce) -> Confirm
    ensures { result ≡ confirm_value machine.now.confirm_data machine.now.pairing_data nonce }
{
    let preq = machine.confirm_data.preq;
    let pres = machine.confirm_data.pres;
    let initiator = machine.pairing_data.peer_address;
    let responder = machine.pairing_data.local_address;
    c1(
        machine.confirm_data.tk,
        nonce,
        preq,
        pres,
        initiator.addr_type(),
        initiator.addr.into_inner(),
        responder.addr_type(),
        responder.addr.into_inner(),
    )
}

// LTK, EDIV and Rand, where they were agreed; the bond keeps them.
#[tactic(auto, unfolding(protocol::specs::Handlers::send_encryption_key))]
pub fn send_encryption_keys(
    ops: &mut Ops<'_>,
    pairing_data: &mut PairingData,
    named: KeyDistributionFlags,
) -> Result<(), Halt>
    ensures ran { ran_data ops.new.trace pairing_data.new result
        ≡ run ops.old.answers.now
        (send_encryption_key pairing_data.old
        (λ ltk ediv rand. with_keys ltk ediv rand pairing_data.old)
        (names_encryption_key named))
        ops.old.trace }
    ensures answers { ops.new.answers ≡ ops.old.answers }
    ensures kept { OnErr result (pairing_data.new ≡ pairing_data.old) }
{
    if !named.encryption_key() {
        return Ok(());
    }
    let keys = draw_keys(ops)?;
    ops.try_send_packet(make_encryption_information_packet(keys.ltk))?;
    ops.try_send_packet(make_central_identification_packet(keys.ediv, keys.rand))?;
    *pairing_data = with_keys(*pairing_data, keys);
    Ok(())
}

// --- Protocol helpers ---

#[tactic(auto, unfolding(protocol::specs::LegacyPeripheral::handle_pairing_request, protocol::specs::Handlers::features_in))]
pub fn handle_pairing_request(
    ops: &mut Ops<'_>,
    machine: &mut Machine,
    payload: &[u8],
) -> Result<(), Halt>
    ensures ran { ran_machine ops.new.trace machine.new result
        ≡ run ops.old.answers.now (handle_pairing_request machine.old.pairing_data payload.now) ops.old.trace }
    ensures answers { ops.new.answers ≡ ops.old.answers }
    ensures kept { IfErr result (λ h. machine.new ≡ left_by machine.old machine.new.pairing_data h) }
{
    // A failure to send the event does not matter. By a match of its own: with `attempt` of `handlers` the proof did not close.
    if ops.find_bond()?
        && let Err(Halt::Stop(stop)) = ops.try_send_connection_event(ConnectionEvent::BondLost)
    {
        return Err(Halt::Stop(stop));
    }
    let peer_features = read_features(payload)?;
    // By a copy: with `octets_at` the proof did not close.
    let mut request = [0; 6];
    request.copy_from_slice(payload);
    let preq = command_octets(Command::PairingRequest, request);
    // Without a local IRK, identity key distribution is declined.
    let offered = peer_features.responder_key_distribution.identity_key()
        && ops.local_irk()?.0 != 0;
    let bonding = ops.bonding_flag()?;
    let available = ops.oob_available()?;
    let before = machine.pairing_data;
    let local = before.local_features;
    let local_features = response_features(local, peer_features, offered, bonding, available);
    machine.pairing_data.local_features = local_features;
    machine.pairing_data.peer_features = peer_features;
    let method = choose_legacy_pairing_method(peer_features, local_features);
    machine.pairing_data.pairing_method = method;
    let pres = command_octets(Command::PairingResponse, local_features.encode());
    let begun = match ops.try_send_packet(Packet::PairingResponse(local_features)) {
        Ok(()) => begin_method(ops, machine, preq, pres),
        Err(halt) => Err(halt),
    };
    // Where an answer is missing, the machine is left as it was.
    if let Err(Halt::Stop(_)) = begun {
        machine.pairing_data = before;
    }
    begun
}

// What the request names is added to what the local features name, the identity key where `identity`.
#[tactic(auto, unfolding(protocol::specs::LegacyPeripheral::responder_keys))]
fn agreed_keys(
    local: KeyDistributionFlags,
    peer: KeyDistributionFlags,
    identity: bool,
) -> KeyDistributionFlags
    ensures { result ≡ responder_keys local peer identity }
{
    let mut keys = local;
    if identity {
        keys = keys.set_identity_key();
    }
    if peer.encryption_key() {
        keys = keys.set_encryption_key();
    }
    keys
}

// Protection against a man in the middle, where there is any input or output.
fn authentication(bonding: bool, io: IoCapabilities) -> AuthReq
    ensures { result ≡ with_mitm (new_legacy bonding) io }
{
    let auth_req = AuthReq::new_legacy(BondingFlag::from(bonding));
    match io {
        IoCapabilities::NoInputNoOutput => auth_req,
        _ => auth_req.with_mitm(),
    }
}

// The local features as the response has them.
#[tactic(auto, unfolding(protocol::specs::LegacyPeripheral::response_features, protocol::specs::LegacyPeripheral::initiator_keys, protocol::specs::LegacyPeripheral::responder_keys))]
fn response_features(
    local: PairingFeatures,
    peer: PairingFeatures,
    offered: bool,
    bonding: bool,
    available: bool,
) -> PairingFeatures
    ensures { result ≡ response_features local peer offered bonding available }
{
    PairingFeatures {
        use_oob: if available {
            UseOutOfBand::Present
        } else {
            local.use_oob
        },
        security_properties: authentication(bonding, local.io_capabilities),
        initiator_key_distribution: agreed_keys(
            local.initiator_key_distribution,
            peer.initiator_key_distribution,
            peer.initiator_key_distribution.identity_key(),
        ),
        responder_key_distribution: agreed_keys(
            local.responder_key_distribution,
            peer.responder_key_distribution,
            offered,
        ),
        ..local
    }
}

// The method that was chosen begins.
// preq and pres apart: the definition of this name and c1 take them so.
#[tactic(auto, unfolding(protocol::specs::LegacyPeripheral::begin_method))]
fn begin_method(
    ops: &mut Ops<'_>,
    machine: &mut Machine,
    preq: [u8; 7],
    pres: [u8; 7],
) -> Result<(), Halt>
    ensures ran { ran_machine ops.new.trace machine.new result
        ≡ run ops.old.answers.now
        (begin_method preq pres machine.old.pairing_data machine.old.pairing_data.pairing_method)
        ops.old.trace }
    ensures answers { ops.new.answers ≡ ops.old.answers }
    ensures kept { OnErr result (machine.new ≡ machine.old) }
{
    match machine.pairing_data.pairing_method {
        PairingMethod::OutOfBand => request_oob_data(ops, machine, preq, pres),
        PairingMethod::PassKeyEntry {
            peripheral: PassKeyEntryAction::Display,
            ..
        } => {
            let passkey = ops.draw_passkey()?;
            ops.try_send_connection_event(ConnectionEvent::PassKeyDisplay(passkey))?;
            let tk = u128::from(passkey.value());
            machine.confirm_data = confirm_phase_data(tk, preq, pres);
            machine.enters(Phase::WaitingPairingConfirm);
            Ok(())
        }
        PairingMethod::PassKeyEntry {
            peripheral: PassKeyEntryAction::Input,
            ..
        } => request_pass_key(ops, machine, preq, pres),
        PairingMethod::JustWorks => {
            machine.confirm_data = confirm_phase_data(0, preq, pres);
            machine.enters(Phase::WaitingPairingConfirm);
            Ok(())
        }
        // Should not happen in legacy pairing
        PairingMethod::NumericComparison => Err(Halt::Failed(Error::Security(
            Reason::AuthenticationRequirements,
        ))),
    }
}

// Sconfirm = c1(TK, Srand, preq, pres, iat, ia, rat, ra) of a fresh Srand, which the caller keeps.
#[tactic(auto, unfolding(protocol::specs::LegacyPeripheral::send_sconfirm))]
pub fn send_sconfirm(ops: &mut Ops<'_>, machine: &Machine) -> Result<Nonce, Halt>
    ensures ran { ran_nonce ops.new.trace machine.now.pairing_data machine.now.confirm_data result
        ≡ run ops.old.answers.now
        (send_sconfirm machine.now.confirm_data machine.now.pairing_data)
        ops.old.trace }
    ensures answers { ops.new.answers ≡ ops.old.answers }
{
    let srand = ops.draw_nonce()?;
    let sconfirm = confirm_value(machine, srand);
    ops.try_send_packet(make_confirm_packet(sconfirm))?;
    Ok(srand)
}

// Mrand is checked against Mconfirm before Srand goes out; then encryption with the STK.
#[tactic(auto, unfolding(protocol::specs::LegacyPeripheral::handle_pairing_random))]
pub fn handle_pairing_random(
    ops: &mut Ops<'_>,
    machine: &mut Machine,
    peer_confirm: Confirm,
    payload: &[u8],
) -> Result<(), Halt>
    ensures ran { ran_machine ops.new.trace machine.new result
        ≡ run ops.old.answers.now
        (handle_pairing_random machine.old.confirm_data machine.old.pairing_data peer_confirm payload.now)
        ops.old.trace }
    ensures answers { ops.new.answers ≡ ops.old.answers }
    ensures kept { OnErr result (machine.new ≡ machine.old) }
{
    let word = read_payload_word(payload).ok_or(Error::Security(Reason::InvalidParameters))?;
    let peer_nonce = Nonce(word);
    let expected_mconfirm = confirm_value(machine, peer_nonce);
    if expected_mconfirm != peer_confirm {
        return Err(Halt::Failed(Error::Security(Reason::ConfirmValueFailed)));
    }
    let local_nonce = machine.confirm_data.local_nonce;
    ops.try_send_packet(make_pairing_random(local_nonce))?;
    let stk = s1(machine.confirm_data.tk, local_nonce, peer_nonce);
    enable_encryption(ops, machine, stk)
}
