// The calls of every kind of net: a single step, a draw and a run (document 01, "Stations that meet" and "Stations with mail").
ghost use Rattle.std.specs.Prelude.{◌≡◌, true, List, ℕ};
ghost use Rattle.schedule.specs.Rules.{Rules, in_range, allowed};
ghost use Rattle.schedule.specs.Outcome.{step_outcome_of, run_outcome_of};
ghost use Rattle.schedule.specs.Draws.{picked, step_on, draw_on, run_on};
ghost use Rattle.schedule.specs.Listing.{listed};

use crate::{Ran, Step};
use refusal::Refusal;

// What a kind of net brings to its calls. What its functions require, the calls below prove: they are for these alone.
pub trait Kind {
    // What is lent beside the words of the stations.
    type Beside;

    // What is kept of a net whose steps are listed.
    type Listing: Copy;

    ghost Net: { Type 0 };

    ghost rules: { Rules Net };

    // The net in what is lent, and what of the words no net has.
    ghost view: { List ℕ → Self.Beside → Net };

    ghost rest: { List ℕ → List ℕ };

    // The listing is that of the net.
    ghost Lists: { Net → Self.Listing → Type 0 };

    fn is_well_formed(line: &[u64; 705], beside: &Self::Beside) -> bool
        ensures { result ≡ rules.well_formed (view line.now beside.now) };

    fn is_in_range(line: &[u64; 705], beside: &Self::Beside, step: Step) -> bool
        ensures { result ≡ in_range rules (view line.now beside.now) step };

    fn is_allowed(line: &[u64; 705], beside: &Self::Beside, step: Step) -> bool
        requires formed { rules.well_formed (view line.now beside.now) ≡ true }
        requires ranged { in_range rules (view line.now beside.now) step ≡ true }
        ensures { result ≡ rules.guard (view line.now beside.now) step };

    // An allowed step, made.
    fn make(line: &mut [u64; 705], beside: &mut Self::Beside, step: Step)
        requires formed { rules.well_formed (view line.old beside.old) ≡ true }
        requires may { allowed rules (view line.old beside.old) step ≡ true }
        ensures made { view line.new beside.new ≡ rules.apply (view line.old beside.old) step }
        ensures rest { rest line.new ≡ rest line.old };

    // A listing to fill. It is lent to be filled, as one that is handed back is copied: a run must not take that much stack.
    fn blank() -> Self::Listing;

    // Lists the steps that the net allows, and answers whether it is in form.
    fn list(line: &[u64; 705], beside: &Self::Beside, listing: &mut Self::Listing) -> bool
        ensures formed { result ≡ rules.well_formed (view line.now beside.now) }
        ensures lists { result ≡ true → Lists (view line.now beside.now) listing.new };

    // The step that a draw picks of those listed.
    fn pick(
        line: &[u64; 705],
        beside: &Self::Beside,
        listing: &Self::Listing,
        d: u16,
    ) -> Option<Step>
        requires formed { rules.well_formed (view line.now beside.now) ≡ true }
        requires lists { Lists (view line.now beside.now) listing.now }
        ensures { result ≡ picked (listed rules (view line.now beside.now)) d };

    // An allowed step, made, the listing with it, and whether the net is in form still.
    fn advance(
        line: &mut [u64; 705],
        beside: &mut Self::Beside,
        listing: &mut Self::Listing,
        step: Step,
    ) -> bool
        requires formed { rules.well_formed (view line.old beside.old) ≡ true }
        requires lists { Lists (view line.old beside.old) listing.old }
        requires may { allowed rules (view line.old beside.old) step ≡ true }
        ensures made { view line.new beside.new ≡ rules.apply (view line.old beside.old) step }
        ensures formed { result ≡ rules.well_formed (view line.new beside.new) }
        ensures lists { result ≡ true → Lists (view line.new beside.new) listing.new }
        ensures rest { rest line.new ≡ rest line.old };
}

// One step: refused by 11, 12 or 13, or made.
pub fn step<K: Kind>(
    line: &mut [u64; 705],
    beside: &mut K::Beside,
    step: Step,
) -> Result<Step, Refusal>
    ensures outcome { step_outcome_of result (K.view line.new beside.new) ≡ step_on K.rules (K.view line.old beside.old) step }
    ensures rest { K.rest line.new ≡ K.rest line.old }
{
    if !K::is_well_formed(line, beside) {
        return Err(Refusal::OutOfForm);
    }
    if !K::is_in_range(line, beside, step) {
        return Err(Refusal::OutOfRange);
    }
    if !K::is_allowed(line, beside, step) {
        return Err(Refusal::NotAllowed);
    }
    K::make(line, beside, step);
    Ok(step)
}

// The step that a draw picks, made: refused by 11, or by 14 where no step is allowed.
pub fn draw<K: Kind>(line: &mut [u64; 705], beside: &mut K::Beside, d: u16) -> Result<Step, Refusal>
    ensures outcome { step_outcome_of result (K.view line.new beside.new) ≡ draw_on K.rules (K.view line.old beside.old) d }
    ensures rest { K.rest line.new ≡ K.rest line.old }
{
    let mut listing = K::blank();
    if !K::list(line, beside, &mut listing) {
        return Err(Refusal::OutOfForm);
    }
    let step = K::pick(line, beside, &listing, d).ok_or(Refusal::NothingAllowed)?;
    K::make(line, beside, step);
    Ok(step)
}

// The steps that the draws pick, one after the other, until they are used up, one is refused, or the form is left. A draw's place among them is
// the number of steps made before it.
pub fn run<K: Kind>(line: &mut [u64; 705], beside: &mut K::Beside, draws: &[u16]) -> Ran
    ensures outcome { run_outcome_of result (K.view line.new beside.new) ≡ run_on K.rules (K.view line.old beside.old) draws.now }
    ensures rest { K.rest line.new ≡ K.rest line.old }
{
    let mut listing = K::blank();
    if !K::list(line, beside, &mut listing) {
        return crate::stop_outside(0);
    }
    for (made, d) in draws.iter().enumerate() {
        let Some(step) = K::pick(line, beside, &listing, *d) else {
            return crate::stop(made, true);
        };
        if !K::advance(line, beside, &mut listing, step) {
            return crate::stop_outside(made + 1);
        }
    }
    let at_rest = K::pick(line, beside, &listing, 0).is_none();
    crate::stop(draws.len(), at_rest)
}
