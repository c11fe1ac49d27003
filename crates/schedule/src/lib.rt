// What the calls of every kind of net share: a step, which a single step or a draw gives where it makes one, and what a run gives. Listing, draws,
// runs and lists of calls are in specs/.
#![tactic(auto)]

ghost use Rattle.std.specs.Prelude.{◌≡◌, false};
ghost use Rattle.refusal.specs.declared.Refusal.TheVariants.{OutOfForm};

use refusal::Refusal;

pub mod calls;
pub mod rows;

// A step of a net: its kind, counted from 1, its sender and its receiver.
#[derive(Clone, Copy)]
pub struct Step {
    pub kind: u8,
    pub sender: u8,
    pub receiver: u8,
}

// What a run gives beside the net: why it was refused, if it was, the steps made, and whether the net reached is quiescent (01: at rest).
// `at_rest` is no value of the Ok: `stop` and `stop_outside`, which README names, promise this record.
#[derive(Clone, Copy)]
pub struct Ran {
    pub answer: Result<(), Refusal>,
    pub steps: usize,
    pub at_rest: bool,
}

// What a run gives that stops in form.
pub fn stop(steps: usize, rest: bool) -> Ran
    ensures { result ≡ record { answer = Ok tt; steps = steps; at_rest = rest } }
{
    Ran {
        answer: Ok(()),
        steps,
        at_rest: rest,
    }
}

// What a run gives that starts outside the form, or has left it.
pub fn stop_outside(steps: usize) -> Ran
    ensures { result ≡ record { answer = Err OutOfForm; steps = steps; at_rest = false } }
{
    Ran {
        answer: Err(Refusal::OutOfForm),
        steps,
        at_rest: false,
    }
}
