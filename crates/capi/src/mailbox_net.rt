// Stations with mail: the words of the stations and those of the mailboxes are lent to each call, which alters them there. C has no generic calls, so
// each kind of net has its four.
ghost use Rattle.std.specs.Prelude.{◌≡◌};
ghost use Rattle.schedule.specs.Listing;
ghost use Rattle.schedule.specs.Draws.{step_on, draw_on, run_on};
ghost use Rattle.stations.specs.Words.{spare_in};
ghost use Rattle.mailbox.specs.Net.{net_of};
ghost use Rattle.mailbox.specs.Rules.{rules};
ghost use Rattle.mailbox.specs.Opening.{mailbox_opening};
ghost use Rattle.capi.specs.Answers.{called};
ghost use Rattle.capi.specs.Steps.{fresh_call, step_call, run_call};

use crate::steps::Run;
use linemap::Map;
use schedule::Step;

// The fresh net of an accepted map, to join counts the way.
#[unsafe(no_mangle)]
pub extern "C" fn tally_mailbox_fresh(
    line: &mut [u64; 705],
    boxes: &mut [u64; 36992],
    map: Map,
    way: u8,
) -> u64
    ensures call { called result (net_of line.new boxes.new) ≡ fresh_call (mailbox_opening way map (net_of line.old boxes.old)) }
    ensures spare { spare_in line.new ≡ spare_in line.old }
{
    crate::map::opened(mailbox::fresh(map, way, line, boxes))
}

// One step.
#[unsafe(no_mangle)]
pub extern "C" fn tally_mailbox_step(
    line: &mut [u64; 705],
    boxes: &mut [u64; 36992],
    kind: u8,
    sender: u8,
    receiver: u8,
) -> u64
    ensures call { called result (net_of line.new boxes.new) ≡ step_call (step_on rules (net_of line.old boxes.old) (Listing.step kind sender receiver)) }
    ensures spare { spare_in line.new ≡ spare_in line.old }
{
    let step = Step {
        kind,
        sender,
        receiver,
    };
    crate::steps::number(mailbox::step(line, boxes, step))
}

// The step that a draw picks.
#[unsafe(no_mangle)]
pub extern "C" fn tally_mailbox_draw(line: &mut [u64; 705], boxes: &mut [u64; 36992], d: u16) -> u64
    ensures call { called result (net_of line.new boxes.new) ≡ step_call (draw_on rules (net_of line.old boxes.old) d) }
    ensures spare { spare_in line.new ≡ spare_in line.old }
{
    crate::steps::number(mailbox::draw(line, boxes, d))
}

// The steps that a list of draws picks.
#[unsafe(no_mangle)]
pub extern "C" fn tally_mailbox_run(
    line: &mut [u64; 705],
    boxes: &mut [u64; 36992],
    draws: &[u16],
) -> Run
    ensures call { called result (net_of line.new boxes.new) ≡ run_call (run_on rules (net_of line.old boxes.old) draws.now) }
    ensures spare { spare_in line.new ≡ spare_in line.old }
{
    crate::steps::run_answer(mailbox::run(line, boxes, draws))
}
