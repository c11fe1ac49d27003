// What steps, draws and runs answer, of either kind of net.
ghost use Rattle.std.specs.Prelude.{◌≡◌};
ghost use Rattle.schedule.specs.Outcome.{run_number_of};
ghost use Rattle.capi.specs.Answers.{packed};
ghost use Rattle.capi.specs.Steps.{run_of};
ghost use Rattle.capi.specs.Internal.Values.{answer_numbers};

use refusal::Refusal;
use schedule::{Ran, Step};

// C's `struct tally_run`: what a run answers: its number, with 1 where the net reached is quiescent (01: at rest), and the steps made.
#[repr(C)]
#[derive(Clone, Copy)]
pub struct Run {
    pub answer: u64,
    pub steps: u64,
}

// The number of a step's or a draw's answer, with the step made.
pub(crate) fn number(answer: Result<Step, Refusal>) -> u64
    ensures { result ≡ packed (answer_numbers answer) }
{
    match answer {
        Ok(step) => u64::from_le_bytes([0, step.kind, step.sender, step.receiver, 0, 0, 0, 0]),
        Err(why) => refusal::number(why) as u64,
    }
}

fn run_number(answer: Result<(), Refusal>) -> u8
    ensures { result ≡ run_number_of answer }
{
    match answer {
        Ok(()) => 0,
        Err(why) => refusal::number(why),
    }
}

pub(crate) fn run_answer(ran: Ran) -> Run
    ensures { result ≡ run_of (run_number_of ran.answer) ran.steps ran.at_rest }
{
    Run {
        answer: crate::map::with_value(run_number(ran.answer), u32::from(ran.at_rest)),
        steps: ran.steps as u64,
    }
}
