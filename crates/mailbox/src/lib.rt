// Stations with mail (document 01, "Stations with mail"): a message waits in a mailbox until it is delivered. The words of stations and
// mailboxes are lent, and no call copies them.
#![tactic(auto)]

ghost use Rattle.std.specs.Prelude.{◌≡◌, true, ◌<◌, ◌≤◌};
ghost use Rattle.aggregate.specs.Aggregate.{root_of, bounded};
ghost use Rattle.linemap.specs.Openings.{opening_of};
ghost use Rattle.schedule.specs.Outcome.{step_outcome_of, run_outcome_of};
ghost use Rattle.schedule.specs.Draws.{step_on, draw_on, run_on};
ghost use Rattle.mail.specs.Mail.{mailbox_bounded, box_at, brought_at};
ghost use Rattle.stations.specs.Words.{spare_in};
ghost use Rattle.mailbox.specs.Net.{net_of, station, row_bounded, are_bounded, well_formed, fresh_net};
ghost use Rattle.mailbox.specs.Rules.{delivery, rules};
ghost use Rattle.mailbox.specs.Opening.{mailbox_opening};
ghost use Rattle.mailbox.specs.Internal.Receivers.{Made};

use aggregate::Config;
use kind::Mailing;
use linemap::{FreshFault, Map};
use refusal::Refusal;
use schedule::{Ran, Step, calls};
use station::Station;

mod delivery;
mod kind;
mod listing;

// The kinds of step; they are numbered 1 to KINDS. They are bytes, as C hands them over: one that is no kind gets 12.
pub const DELIVERY: u8 = 1;

pub const REPORT: u8 = 2;

const KINDS: u8 = 2;

// The net before the first step: a start from the root in each neighbour's mailbox.
fn put_fresh(
    line: &mut [u64; 705],
    boxes: &mut [u64; 36992],
    t: Config,
    counts: [u32; 512],
    neighbours: [u64; 64],
)
    requires { root_of t < 64 }
    ensures net { net_of line.new boxes.new ≡ fresh_net t counts neighbours }
    ensures spare { spare_in line.new ≡ spare_in line.old }
{
    let root = aggregate::root(t);
    stations::put_fresh(line, t, counts, neighbours);
    mail::clear(boxes);
    mail::post_starts(boxes, root, neighbours[root as usize]);
}

// The fresh net of an accepted map, to join counts the way; any other map and any other way opens none.
pub fn fresh(
    m: Map,
    way: u8,
    line: &mut [u64; 705],
    boxes: &mut [u64; 36992],
) -> Result<(), FreshFault>
    ensures opening { opening_of result (net_of line.new boxes.new) ≡ mailbox_opening way m (net_of line.old boxes.old) }
    ensures spare { spare_in line.new ≡ spare_in line.old }
{
    linemap::open(m, way)?;
    let t = linemap::config(m, way);
    put_fresh(line, boxes, t, m.counts, m.neighbours);
    Ok(())
}

// Whether the posted sums of a sender are bounded. Most senders have posted none; eight receivers to whom no answer waits are passed by one test,
// a step that no `for` takes.
fn is_row_bounded(t: Config, boxes: &[u64; 36992], s: u8) -> bool
    requires { (t.k ≤ 64) × (s < 64) }
    ensures { result ≡ row_bounded t boxes.now s }
{
    let answers = boxes[64 + (s as usize)];
    if answers == 0 {
        return true;
    }
    let mut r: u8 = 0;
    while r < t.k {
        if (answers >> r) % 256 == 0 {
            r += 8;
        } else {
            if (s != r) & !mail::is_box_bounded(t, boxes, s, r) {
                return false;
            }
            r += 1;
        }
    }
    true
}

// Whether the posted sums between different stations are bounded.
fn are_bounded(t: Config, boxes: &[u64; 36992]) -> bool
    requires { t.k ≤ 64 }
    ensures { result ≡ are_bounded t boxes.now }
{
    (0..t.k).all(|s| is_row_bounded(t, boxes, s))
}

fn is_well_formed(line: &[u64; 705], boxes: &[u64; 36992]) -> bool
    ensures { result ≡ well_formed (net_of line.now boxes.now) }
{
    if !stations::are_well_formed(line) {
        return false;
    }
    let t = stations::config_in(line);
    are_bounded(t, boxes)
}

// A step that is allowed, made: its receiver after it.
fn make(line: &mut [u64; 705], boxes: &mut [u64; 36992], t: Config, step: Step) -> Station
    requires config { t ≡ (net_of line.old boxes.old).config }
    requires places { (step.sender < 64) × ((step.receiver < 64) × ((station (net_of line.old boxes.old) step.receiver).parent < 64)) }
    requires sums { (bounded (net_of line.old boxes.old).config (station (net_of line.old boxes.old) step.receiver).held ≡ true)
        × (step.kind ≡ delivery
        → mailbox_bounded (net_of line.old boxes.old).config (box_at boxes.old step.sender step.receiver)
        (brought_at (net_of line.old boxes.old).config boxes.old step.sender step.receiver) ≡ true) }
    ensures made { Made (net_of line.old boxes.old) step result (net_of line.new boxes.new) }
    ensures spare { spare_in line.new ≡ spare_in line.old }
{
    let receiver = stations::load(line, step.receiver);
    let next = delivery::receive(t, boxes, step, receiver);
    stations::store(line, step.receiver, next);
    next
}

// The calls by name, as README has them: what they do stands once, in `schedule::calls`.

// One step: refused by 11, 12 or 13, or made.
pub fn step(line: &mut [u64; 705], boxes: &mut [u64; 36992], step: Step) -> Result<Step, Refusal>
    ensures outcome { step_outcome_of result (net_of line.new boxes.new) ≡ step_on rules (net_of line.old boxes.old) step }
    ensures spare { spare_in line.new ≡ spare_in line.old }
{
    calls::step::<Mailing>(line, boxes, step)
}

// The step that a draw picks, made: refused by 11, or by 14 where no step is allowed.
pub fn draw(line: &mut [u64; 705], boxes: &mut [u64; 36992], d: u16) -> Result<Step, Refusal>
    ensures outcome { step_outcome_of result (net_of line.new boxes.new) ≡ draw_on rules (net_of line.old boxes.old) d }
    ensures spare { spare_in line.new ≡ spare_in line.old }
{
    calls::draw::<Mailing>(line, boxes, d)
}

// The steps that the draws pick, one after the other, until they are used up, one is refused, or the form is left.
pub fn run(line: &mut [u64; 705], boxes: &mut [u64; 36992], draws: &[u16]) -> Ran
    ensures outcome { run_outcome_of result (net_of line.new boxes.new) ≡ run_on rules (net_of line.old boxes.old) draws.now }
    ensures spare { spare_in line.new ≡ spare_in line.old }
{
    calls::run::<Mailing>(line, boxes, draws)
}
