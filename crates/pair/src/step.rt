// A whole step of a machine: it is run again, with one answer more each time, until it ends. A call counts once, when
// it is first listed.
use crate::calls::last_call;
use crate::end::{End, Given};
use crate::hosts::Answers;
use crate::trace::Trace;
use c_steps::StepError;
use c_values::OctetsError;
use entry::{Outcome, step_in_place};
use host_calls::{Call, LONGEST};
use std::io;

// The calls of the longest step, and its end.
const TURNS: usize = 12;

impl End {
    // Runs a step with the answers so far: the call at which it waits for one more, or none where it has ended.
    fn next_call(
        &mut self,
        given: Given,
        answers: &[u8],
        index: usize,
    ) -> Result<Option<Call>, StepError> {
        let payload = given.payload();
        let mut list = [0; LONGEST];
        let result = step_in_place(
            &mut self.machine,
            self.role,
            given.input(),
            &payload,
            answers,
            &mut list,
        );
        match result.outcome {
            Outcome::Ended => Ok(None),
            Outcome::Wants => {
                let calls = list.get(..result.written).ok_or(OctetsError::InvalidList)?;
                Ok(Some(last_call(calls, index)?))
            }
            Outcome::Refused(refusal) => Err(StepError::Step(refusal)),
        }
    }

    // A call that is listed for the first time: it counts, and the host answers it.
    fn take_call(
        &mut self,
        trace: &impl Trace,
        call: Call,
        answers: &mut Answers,
    ) -> io::Result<()> {
        self.called(call);
        let answer = self.host.answer(call);
        answer.write(call, answers)?;
        trace.call(call, answer)
    }

    // A whole step.
    pub(crate) fn step(&mut self, trace: &impl Trace, given: Given) -> io::Result<()> {
        let mut answers = Answers::new();
        // the list is written anew in each turn, and has the turn's call at this index
        for index in 0..TURNS {
            match self.next_call(given, &answers, index) {
                Ok(Some(call)) => self.take_call(trace, call, &mut answers)?,
                Ok(None) => return Ok(()),
                Err(e) => return trace.refused(e),
            }
        }
        Ok(())
    }
}
