// One station (document 01), lent to each event, which alters it there: `station`'s lent events, the number of their replies, and what an answer
// or a report gives.
ghost use Rattle.std.specs.Prelude.{◌≡◌, ◌∷◌};
ghost use Rattle.station.specs.Process as Rules;
ghost use Rattle.capi.specs.Answers.{packed, called};
ghost use Rattle.capi.specs.Process.{event_call, giving_call};
ghost use Rattle.capi.specs.Internal.Values.{reply_given};

use aggregate::Aggregate;
use station::{Process, Reply};

// C's `struct tally_given`: what an answer or a report answers, as one number, and what it gives: nothing where it is refused.
#[repr(C)]
#[derive(Clone, Copy)]
pub struct Given {
    pub answer: u64,
    pub held: Aggregate,
}

// The number of a reply, and the parent where a sum is given.
fn number(reply: Reply) -> u64
    ensures { result ≡ packed ((Rules.number_and_values reply).0 ∷ (Rules.number_and_values reply).1) }
{
    match reply {
        Ok(None) => 0,
        Ok(Some(gives)) => crate::map::with_value(0, gives.parent as u32),
        Err(why) => refusal::number(why) as u64,
    }
}

// The number of a reply, and what is given with it.
fn give(reply: Reply) -> Given
    ensures { result ≡ reply_given reply }
{
    let held = match reply {
        Ok(Some(gives)) => gives.held,
        _ => aggregate::empty(),
    };
    Given {
        answer: number(reply),
        held,
    }
}

#[unsafe(no_mangle)]
pub extern "C" fn tally_process_take_start(p: &mut Process, from: u8) -> u64
    ensures { called result p.new ≡ event_call (Rules.take_start from p.old) }
{
    number(station::take_start_in_place(p, from))
}

#[unsafe(no_mangle)]
pub extern "C" fn tally_process_send_start(p: &mut Process, to: u8) -> u64
    ensures { called result p.new ≡ event_call (Rules.send_start to p.old) }
{
    number(station::send_start_in_place(p, to))
}

#[unsafe(no_mangle)]
pub extern "C" fn tally_process_take_answer(p: &mut Process, v: Aggregate) -> u64
    ensures { called result p.new ≡ event_call (Rules.take_answer v p.old) }
{
    number(station::take_answer_in_place(p, v))
}

#[unsafe(no_mangle)]
pub extern "C" fn tally_process_send_answer(p: &mut Process) -> Given
    ensures { called result p.new ≡ giving_call (Rules.send_answer p.old) }
{
    give(station::send_answer_in_place(p))
}

#[unsafe(no_mangle)]
pub extern "C" fn tally_process_report(p: &mut Process) -> Given
    ensures { called result p.new ≡ giving_call (Rules.report p.old) }
{
    give(station::report_in_place(p))
}
