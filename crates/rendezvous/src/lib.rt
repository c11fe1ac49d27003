// Stations that meet (document 01, "Stations that meet"): a start or an answer is sent and taken in one step.
#![tactic(auto)]

ghost use Rattle.std.specs.Prelude.{◌≡◌};
ghost use Rattle.linemap.specs.Openings.{opening_of};
ghost use Rattle.schedule.specs.Outcome.{step_outcome_of, run_outcome_of};
ghost use Rattle.schedule.specs.Draws.{step_on, draw_on, run_on};
ghost use Rattle.rendezvous.specs.Net.{net_in, beside_in};
ghost use Rattle.rendezvous.specs.Rules.{rules};
ghost use Rattle.rendezvous.specs.Opening.{rendezvous_opening};

use kind::Meeting;
use linemap::{FreshFault, Map};
use refusal::Refusal;
use schedule::{Ran, Step, calls};

mod figure;
mod form;
mod kind;
mod listing;
mod telling;

pub use form::is_well_formed;

// The kinds of step, TELL where totals are carried back: bytes, as C hands them over, since any byte may be and one that is no kind gets 12.
pub const WAKE: u8 = 1;

pub const PASS: u8 = 2;

pub const ANSWER: u8 = 3;

pub const REPORT: u8 = 4;

pub const TELL: u8 = 5;

// The flag of a net that carries totals back, a byte of the lent words: any other than this and 0 is out of form.
const CARRYING: u8 = 1;

// The state of a station that was told the total, a byte as the others are.
pub const TOLD: u8 = 3;

// The fresh net of an accepted map, opened for carrying back or not, to join counts the way; any other map and any other way opens none. The other
// kind of net has a call of its own too: both call `open`, `config` and `stations::put_fresh`, and share nothing after these.
pub fn fresh(
    m: Map,
    way: u8,
    carrying: bool,
    net: &mut [u64; 705],
    totals: &mut [u64; 576],
) -> Result<(), FreshFault>
    ensures opening { opening_of result (net_in net.new totals.new) ≡ rendezvous_opening carrying way m (net_in net.old totals.old) }
    ensures beside { beside_in net.new ≡ beside_in net.old }
{
    linemap::open(m, way)?;
    let t = linemap::config(m, way);
    stations::put_fresh(net, t, m.counts, m.neighbours);
    form::put_carrying(net, carrying);
    stations::clear_kept(totals);
    Ok(())
}

// The calls by name, as README has them: what they do stands once, in `schedule::calls`.

// One step: refused by 11, 12 or 13, or made.
pub fn step(net: &mut [u64; 705], totals: &mut [u64; 576], step: Step) -> Result<Step, Refusal>
    ensures outcome { step_outcome_of result (net_in net.new totals.new) ≡ step_on rules (net_in net.old totals.old) step }
    ensures beside { beside_in net.new ≡ beside_in net.old }
{
    calls::step::<Meeting>(net, totals, step)
}

// The step that a draw picks, made: refused by 11, or by 14 where no step is allowed.
pub fn draw(net: &mut [u64; 705], totals: &mut [u64; 576], d: u16) -> Result<Step, Refusal>
    ensures outcome { step_outcome_of result (net_in net.new totals.new) ≡ draw_on rules (net_in net.old totals.old) d }
    ensures beside { beside_in net.new ≡ beside_in net.old }
{
    calls::draw::<Meeting>(net, totals, d)
}

// The steps that the draws pick, one after the other, until they are used up, one is refused, or the form is left.
pub fn run(net: &mut [u64; 705], totals: &mut [u64; 576], draws: &[u16]) -> Ran
    ensures outcome { run_outcome_of result (net_in net.new totals.new) ≡ run_on rules (net_in net.old totals.old) draws.now }
    ensures beside { beside_in net.new ≡ beside_in net.old }
{
    calls::run::<Meeting>(net, totals, draws)
}
