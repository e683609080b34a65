// pairing/mod.rs: what a step comes to. The definitions of both roles, of a step and of the fair link stand in specs/,
// their laws in proofs/.
#![tactic(auto)]

ghost use Rattle.std.specs.Prelude.{◌≡◌};
ghost use Rattle.protocol.specs.Outcome.{refusal_number};

use machine::Machine;

// Why a step is refused, with document 01's number.
#[derive(Clone, Copy, PartialEq, Eq)]
pub enum Refusal {
    // the list is shorter than the calls of the longest step
    ShortList = 1,
    // no command has this code
    UnknownCommand = 2,
    // an answer that was reached has another kind, a cut body or a forbidden value
    ForbiddenAnswer = 3,
}

impl From<Refusal> for u8 {
    ghost from_gives = { λ refusal number. number ≡ refusal_number refusal };

    fn from(refusal: Refusal) -> u8 {
        refusal as u8
    }
}

// How a step came out.
#[derive(Clone, Copy, PartialEq, Eq)]
pub enum Outcome {
    Ended,
    // an answer is wanted: the last call listed has none
    Wants,
    Refused(Refusal),
}

// No Result: a refused step gives the machine and both counts, too.
#[derive(Clone, Copy, PartialEq, Eq)]
pub struct Stepped {
    pub outcome: Outcome,
    pub machine: Machine,
    // the octets of answers read, and of the list written
    pub read: usize,
    pub written: usize,
}
