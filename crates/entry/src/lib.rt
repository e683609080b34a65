// The thin entry of document 01: the head's firmware lends its machine by reference.
#![tactic(auto)]

ghost use Rattle.std.specs.Prelude.{◌≡◌};
ghost use Rattle.protocol.specs.Outcome.{step_outcome};
ghost use Rattle.protocol.specs.Step.{step, step_of};
ghost use Rattle.entry.specs.Entry.{stepped, Keeps};

use machine::{Input, Machine, Role};
pub use pairing::Outcome;
use pairing::{Stepped, step};

// What a step came to, beside the machine: how it came out, and the octets of answers read and of the list written.
// Not Stepped, which has the machine: here it stands behind the reference, so that it is in one place.
#[derive(Clone, Copy)]
pub struct StepResult {
    pub outcome: Outcome,
    pub read: usize,
    pub written: usize,
}

// One step of the machine behind the reference. A step that is refused or wants leaves it as it was.
// Payload and answers are lent apart, as document 01's entry has them: each has a length of its own.
pub fn step_in_place(
    machine: &mut Machine,
    role: Role,
    input: Input,
    payload: &[u8],
    answers: &[u8],
    list: &mut [u8],
) -> StepResult
    ensures { (stepped result machine.new list.new
        ≡ step role machine.old input payload.now answers.now list.old)
        × Keeps (step_outcome result.outcome) machine.old machine.new }
{
    let stepped = step(role, *machine, input, payload, answers, list);
    *machine = stepped.machine;
    StepResult {
        outcome: stepped.outcome,
        read: stepped.read,
        written: stepped.written,
    }
}

// The same for a caller that holds its machine by value: a local machine is lent to the entry and handed back.
// Payload and answers as above.
pub fn step_local(
    machine: Machine,
    role: Role,
    input: Input,
    payload: &[u8],
    answers: &[u8],
    list: &mut [u8],
) -> Stepped
    ensures { step_of result list.new ≡ step role machine input payload.now answers.now list.old }
{
    let mut held = machine;
    let result = step_in_place(&mut held, role, input, payload, answers, list);
    Stepped {
        outcome: result.outcome,
        machine: held,
        read: result.read,
        written: result.written,
    }
}
