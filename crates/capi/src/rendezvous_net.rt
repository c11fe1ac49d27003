// Stations that meet: the words of a net, and those of the totals that its stations keep, are lent to each call, which alters them there. C has no
// generic calls, so each kind of net has its four.
ghost use Rattle.std.specs.Prelude.{◌≡◌, not, eqb};
ghost use Rattle.schedule.specs.Listing;
ghost use Rattle.schedule.specs.Draws.{step_on, draw_on, run_on};
ghost use Rattle.rendezvous.specs.Net.{net_in, beside_in};
ghost use Rattle.rendezvous.specs.Rules.{rules};
ghost use Rattle.rendezvous.specs.Opening.{rendezvous_opening};
ghost use Rattle.capi.specs.Answers.{called};
ghost use Rattle.capi.specs.Steps.{fresh_call, step_call, run_call};

use crate::steps::Run;
use linemap::Map;
use schedule::Step;

// The fresh net of an accepted map, to join counts the way, opened for carrying totals back unless the last number is 0.
#[unsafe(no_mangle)]
pub extern "C" fn tally_rendezvous_fresh(
    net: &mut [u64; 705],
    kept: &mut [u64; 576],
    map: Map,
    way: u8,
    carrying: u8,
) -> u64
    ensures call { called result (net_in net.new kept.new) ≡ fresh_call (rendezvous_opening (not (eqb carrying 0)) way map (net_in net.old kept.old)) }
    ensures beside { beside_in net.new ≡ beside_in net.old }
{
    crate::map::opened(rendezvous::fresh(map, way, carrying != 0, net, kept))
}

// One step.
#[unsafe(no_mangle)]
pub extern "C" fn tally_rendezvous_step(
    net: &mut [u64; 705],
    kept: &mut [u64; 576],
    kind: u8,
    sender: u8,
    receiver: u8,
) -> u64
    ensures call { called result (net_in net.new kept.new) ≡ step_call (step_on rules (net_in net.old kept.old) (Listing.step kind sender receiver)) }
    ensures beside { beside_in net.new ≡ beside_in net.old }
{
    let step = Step {
        kind,
        sender,
        receiver,
    };
    crate::steps::number(rendezvous::step(net, kept, step))
}

// The step that a draw picks.
#[unsafe(no_mangle)]
pub extern "C" fn tally_rendezvous_draw(net: &mut [u64; 705], kept: &mut [u64; 576], d: u16) -> u64
    ensures call { called result (net_in net.new kept.new) ≡ step_call (draw_on rules (net_in net.old kept.old) d) }
    ensures beside { beside_in net.new ≡ beside_in net.old }
{
    crate::steps::number(rendezvous::draw(net, kept, d))
}

// The steps that a list of draws picks.
#[unsafe(no_mangle)]
pub extern "C" fn tally_rendezvous_run(
    net: &mut [u64; 705],
    kept: &mut [u64; 576],
    draws: &[u16],
) -> Run
    ensures call { called result (net_in net.new kept.new) ≡ run_call (run_on rules (net_in net.old kept.old) draws.now) }
    ensures beside { beside_in net.new ≡ beside_in net.old }
{
    crate::steps::run_answer(rendezvous::run(net, kept, draws))
}
