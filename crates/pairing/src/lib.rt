// pairing/mod.rs: dispatch. One step of a machine of either role, on answers and a list that are lent.
#![tactic(auto)]

ghost use Rattle.std.specs.Prelude.{◌≡◌, OnErr};
ghost use Rattle.protocol.specs.declared.Outcome.TheVariants as outcome;
ghost use Rattle.protocol.specs.Step.{step, step_of, handle_input_by_role, is_known};
ghost use Rattle.host_ops.specs.Run.{run};
ghost use Rattle.handler_parts.specs.Outcomes.{ran_entered};
ghost use Rattle.pairing.specs.Report.{reported};

use handler_parts::input::Received;
use host_answers::Stop;
use host_calls::{LONGEST, Trace};
use host_ops::Ops;
use machine::{Input, Machine, Role};
pub use protocol::{Outcome, Refusal, Stepped};
use smp_types::Command;

// The machine given back as it was, and counts 0.
fn refused(machine: Machine, refusal: Refusal) -> Stepped
    ensures { result
        ≡ record { outcome = outcome.Refused refusal; machine = machine; read = 0; written = 0 } }
{
    Stepped {
        outcome: Outcome::Refused(refusal),
        machine,
        read: 0,
        written: 0,
    }
}

// Whether an input is an event or has a command code of the protocol.
fn is_known(input: Input) -> bool
    ensures { result ≡ is_known input }
{
    match input {
        Input::Command(code) => Command::try_from(code).is_ok(),
        Input::Event(_) => true,
    }
}

fn handle_input(
    role: Role,
    ops: &mut Ops<'_>,
    machine: &mut Machine,
    input: Input,
    payload: &[u8],
) -> Result<(), Stop>
    ensures ran { ran_entered ops.new.trace machine.new result
        ≡ run ops.old.answers.now (handle_input_by_role role machine.old input payload.now) ops.old.trace }
    ensures answers { ops.new.answers ≡ ops.old.answers }
    ensures kept { OnErr result (machine.new ≡ machine.old) }
{
    let received = Received { input, payload };
    match role {
        Role::Central => legacy_central::handle_input(ops, machine, received),
        Role::Peripheral => legacy_peripheral::handle_input(ops, machine, received),
    }
}

// What an input gave, for the caller. A step that is refused or wants gives the machine back as it was; a refused one
// leaves the list as it was.
// current beside next: the clause speaks of the machine that was given, whatever came of the run.
fn report(
    trace: &Trace,
    next: Machine,
    ran: Result<(), Stop>,
    current: Machine,
    list: &mut [u8],
) -> Stepped
    ensures { step_of result list.new ≡ reported current list.old (ran_entered trace.now next ran) }
{
    let (outcome, after) = match ran {
        Ok(()) => (Outcome::Ended, next),
        Err(Stop::Wanted) => (Outcome::Wants, current),
        Err(Stop::Refused) => return refused(current, Refusal::ForbiddenAnswer),
    };
    trace.write(list);
    Stepped {
        outcome,
        machine: after,
        read: trace.read,
        written: trace.size(),
    }
}

// Payload and answers apart, as document 01's step has them.
// Refused by 1, ShortList: the list is shorter than the longest step's calls; by 2, UnknownCommand: no command has this
// code; by 3, ForbiddenAnswer: an answer reached is none to its call.
#[tactic(auto, using(protocol::proofs::StepLaws::refused_short, protocol::proofs::StepLaws::refused_code, crate::proofs::Stepping::reported_step))]
pub fn step(
    role: Role,
    machine: Machine,
    input: Input,
    payload: &[u8],
    answers: &[u8],
    list: &mut [u8],
) -> Stepped
    ensures { step_of result list.new ≡ step role machine input payload.now answers.now list.old }
{
    if list.len() < LONGEST {
        return refused(machine, Refusal::ShortList);
    }
    if !is_known(input) {
        return refused(machine, Refusal::UnknownCommand);
    }
    let mut ops = Ops::new(answers);
    let mut next = machine;
    let ran = handle_input(role, &mut ops, &mut next, input, payload);
    report(&ops.trace, next, ran, machine, list)
}
