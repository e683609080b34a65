// The functions of the static library: C names for c_steps and c_values. include/legacy_pairing.h declares them
// for C, bindings/rust is a safe crate over them. Octet strings run least significant octet first, as on the air.
// Numbers for roles, inputs and results, a slice for each string of octets, and references for what else is given back,
// are what C can take.
#![tactic(auto)]

ghost use Rattle.std.specs.Prelude.{◌≡◌, ◌∷◌};
ghost use Rattle.std.specs.Result.{MatchResult};
ghost use Rattle.c_values.specs.Values.{version, wrote, read_features_on, write_features_on, c1_on, s1_on, counted, count_on, call_left, call_on};
ghost use Rattle.c_steps.specs.Steps.{step_left, step_on, new_on, status_left, status_on, result_number, error_octets};

use bond::Error;
use c_steps::StepError;

// Major, minor and patch, an octet each.
const VERSION: u32 = 0x000200;

// What a function returns that has done all; the numbers of the errors are theirs.
const DONE: u8 = 0;

// What a step returns that wants an answer.
const WANTS: u8 = 255;

// How a pairing stands.
const PENDING: u8 = 0;

const SUCCEEDED: u8 = 1;

const FAILED: u8 = 2;

// The number of a result: 0, or that of its error.
fn code<E: Into<u8>>(given: Result<(), E>) -> u8
    ensures { MatchResult given (λ _. result ≡ 0) (λ e. E.converts e result) }
{
    match given {
        Ok(()) => DONE,
        Err(e) => e.into(),
    }
}

// The version of this library, for a host to hold against the header that it was compiled with.
#[unsafe(no_mangle)]
pub extern "C" fn legacy_pairing_version() -> u32
    ensures { result ≡ version }
{
    VERSION
}

// One step of the machine whose record is given, of role 0 (terminal) or 1 (head), on an input, the host's answers so
// far and a call list of at least 164 octets. A step that ended has written the record anew; one that wants has not.
// Of the two counts, a step refused by 1 to 3 sets both to 0; any other refusal leaves them.
#[unsafe(no_mangle)]
pub extern "C" fn legacy_pairing_step(
    role: u8,
    machine: &mut [u8],
    input: u16,
    payload: &[u8],
    answers: &[u8],
    list: &mut [u8],
    read: &mut usize,
    written: &mut usize,
) -> u8
    ensures { step_left result machine.new list.new read.new written.new
        ≡ step_on role machine.old input payload.now answers.now list.old read.old written.old }
{
    match c_steps::step_machine(role, machine, input, payload, answers, list) {
        Ok(progress) => {
            *read = progress.read;
            *written = progress.written;
            if progress.is_ended { DONE } else { WANTS }
        }
        Err(e) => {
            if let StepError::Step(_) = e {
                *read = 0;
                *written = 0;
            }
            u8::from(e)
        }
    }
}

// Writes the record of a machine that begins a pairing: role 0 the terminal, which has sent a request with these
// features, 1 the head, which waits for one. Addresses have seven octets, features are read as from a packet.
#[unsafe(no_mangle)]
pub extern "C" fn legacy_pairing_new(
    role: u8,
    local_address: &[u8],
    peer_address: &[u8],
    features: &[u8],
    machine: &mut [u8],
) -> u8
    ensures { wrote result machine.new
        ≡ new_on role local_address.now peer_address.now features.now machine.old }
{
    code(c_steps::new_machine(role, local_address, peer_address, features, machine))
}

// What a result is in numbers, while a pairing goes on, when it has succeeded and when it has failed, with the two octets
// of document 01's failed body, zeros unless it has failed.
#[tactic(auto, unfolding(c_steps::specs::Steps::status_on))]
fn result_octets(given: Option<Result<(), Error>>) -> [u8; 3]
    ensures { result ≡ result_number given ∷ error_octets given }
{
    match given {
        None => [PENDING, 0, 0],
        Some(Ok(())) => [SUCCEEDED, 0, 0],
        Some(Err(e)) => {
            let [kind, detail] = e.failed_body();
            [FAILED, kind, detail]
        }
    }
}

// How the machine stands whose record is given: its result, with the kind and the detail of its error; whether the link is
// encrypted, 0 or 1; and the security level.
#[unsafe(no_mangle)]
pub extern "C" fn legacy_pairing_result(
    role: u8,
    machine: &[u8],
    outcome: &mut u8,
    kind: &mut u8,
    detail: &mut u8,
    encrypted: &mut u8,
    level: &mut u8,
) -> u8
    ensures { status_left result outcome.new kind.new detail.new encrypted.new level.new
        ≡ status_on role machine.now outcome.old kind.old detail.old encrypted.old level.old }
{
    match c_steps::machine_status(role, machine) {
        Ok(status) => {
            [*outcome, *kind, *detail] = result_octets(status.result);
            *encrypted = u8::from(status.is_encrypted);
            *level = status.security_level;
            DONE
        }
        Err(e) => u8::from(e),
    }
}

// Reads pairing features: of a packet's payload, the six fields, an octet each.
#[unsafe(no_mangle)]
pub extern "C" fn legacy_pairing_read_features(payload: &[u8], fields: &mut [u8]) -> u8
    ensures { wrote result fields.new ≡ read_features_on payload.now fields.old }
{
    code(c_values::read_features(payload, fields))
}

// Writes pairing features: of six fields, a packet's payload.
#[unsafe(no_mangle)]
pub extern "C" fn legacy_pairing_write_features(
    io: u8,
    oob: u8,
    auth_req: u8,
    key_size: u8,
    initiator_keys: u8,
    responder_keys: u8,
    payload: &mut [u8],
) -> u8
    ensures { wrote result payload.new
        ≡ write_features_on io oob auth_req key_size initiator_keys responder_keys payload.old }
{
    code(c_values::write_features(
        io,
        oob,
        auth_req,
        key_size,
        initiator_keys,
        responder_keys,
        payload,
    ))
}

// The confirm value c1: k and r have 16 octets, preq and pres 7 (with their codes), the addresses 7 (kind and address).
#[unsafe(no_mangle)]
pub extern "C" fn legacy_pairing_c1(
    k: &[u8],
    r: &[u8],
    preq: &[u8],
    pres: &[u8],
    initiator: &[u8],
    responder: &[u8],
    confirm: &mut [u8],
) -> u8
    ensures { wrote result confirm.new
        ≡ c1_on k.now r.now preq.now pres.now initiator.now responder.now confirm.old }
{
    code(c_values::confirm_value(k, r, preq, pres, initiator, responder, confirm))
}

// The short-term key s1: k, srand and mrand have 16 octets.
#[unsafe(no_mangle)]
pub extern "C" fn legacy_pairing_s1(k: &[u8], srand: &[u8], mrand: &[u8], key: &mut [u8]) -> u8
    ensures { wrote result key.new ≡ s1_on k.now srand.now mrand.now key.old }
{
    code(c_values::short_term_key(k, srand, mrand, key))
}

// The number of calls of a list.
#[tactic(auto, unfolding(c_values::specs::Values::count_on))]
#[unsafe(no_mangle)]
pub extern "C" fn legacy_pairing_count_calls(list: &[u8], count: &mut usize) -> u8
    ensures { counted result count.new ≡ count_on list.now count.old }
{
    match c_values::count_calls(list) {
        Ok(calls) => {
            *count = calls;
            DONE
        }
        Err(e) => u8::from(e),
    }
}

// The call at an index of a list, counted from 0: its kind, and the place and the size of its body.
#[unsafe(no_mangle)]
pub extern "C" fn legacy_pairing_call_at(
    list: &[u8],
    index: usize,
    kind: &mut u8,
    body: &mut usize,
    size: &mut usize,
) -> u8
    ensures { call_left result kind.new body.new size.new
        ≡ call_on list.now index kind.old body.old size.old }
{
    match c_values::call_at(list, index) {
        Ok(call) => {
            *kind = call.kind;
            *body = call.body;
            *size = call.size;
            DONE
        }
        Err(e) => u8::from(e),
    }
}
