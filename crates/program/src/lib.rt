// The program (document 01, "The program"): draws and a map from standard input, a line a step to standard output. `put_output` gives the
// bytes for an input, and `run` reads an input and writes them.
#![tactic(auto)]

mod streams;

ghost use Rattle.std.specs.Prelude.{◌≡◌, List, ℕ, ◌+◌, ◌<◌, ◌≤◌, length};
ghost use Rattle.topology.specs.Answer.{accepted};
ghost use Rattle.linemap.specs.Maps.{acceptance, link_count};
ghost use Rattle.rendezvous.specs.Net.{net_in};
ghost use Rattle.finite.specs.Stores.{over};
ghost use Rattle.finite.specs.Internal.Putting.{Put};
ghost use Rattle.text.specs.Text.{text_of, line_room};
ghost use Rattle.program.specs.Output.{step_line, closing_line, output_room, output_in};
ghost use Rattle.program.specs.Internal.Filling.{Opens, Roomy, StepsPut, Filled};

use linemap::Map;
use opening::Opening;
use schedule::Step;
pub use streams::run;
use text::Line;

// Room for every output: 64 stations all linked take 4,033 steps, and a closing line.
pub const OUTPUT_ROOM: usize = 4034 * text::LINE_ROOM;

// How many steps were made, and the place after their lines.
#[derive(Clone, Copy)]
struct Steps {
    made: u16,
    end: usize,
}

// Puts a line from `at` on, and answers the place after it.
fn put_line_at(out: &mut [u8], at: usize, line: Line) -> usize
    requires { at + line_room ≤ length out.old }
    ensures { Put out.old at (text_of line) out.new result }
{
    at + text::put_line(&mut out[at..], line)
}

// The line of a step in this net: an answer and a report carry what their sender holds.
fn step_line(net: &[u64; 705], step: Step) -> Line
    requires { step.sender < 64 }
    ensures { (kept : List ℕ) → result ≡ step_line (net_in net.now kept) step }
{
    let config = stations::config_in(net);
    let sender = stations::load(net, step.sender);
    let held = sender.held;
    match step.kind {
        rendezvous::WAKE => Line::Wake {
            sender: step.sender,
            receiver: step.receiver,
        },
        rendezvous::PASS => Line::Pass {
            sender: step.sender,
            receiver: step.receiver,
        },
        rendezvous::ANSWER => Line::Answer {
            sender: step.sender,
            receiver: step.receiver,
            config,
            held,
        },
        _ => Line::Report {
            root: step.sender,
            config,
            held,
        },
    }
}

// The number of links of an accepted map.
fn count_links(m: Map) -> u32
    requires { acceptance m ≡ accepted }
    ensures { result ≡ link_count m }
{
    linemap::links(m).unwrap()
}

// The closing line of an accepted map's run.
fn closing_line(m: Map, steps: u16) -> Line
    requires { acceptance m ≡ accepted }
    ensures { result ≡ closing_line m steps }
{
    Line::Closing {
        lot: m.lot,
        steps: steps as u64,
        links: count_links(m),
    }
}

// Puts the lines of the steps, until the draws are used up or the net is quiescent (01: at rest).
fn put_steps(input: &[u8], opened: Opening, out: &mut [u8]) -> Steps
    requires opens { Opens input.now opened }
    requires roomy { Roomy input.now out.old }
    ensures { StepsPut input.now out.old result.made result.end out.new }
{
    let mut net = [0u64; 705];
    let mut totals = [0u64; 576];
    let _ = rendezvous::fresh(opened.map, aggregate::SUMMING, false, &mut net, &mut totals);
    let mut end: usize = 0;
    for made in 0..opened.draws {
        let here = net;
        let answer = rendezvous::draw(&mut net, &mut totals, opening::draw_at(input, made));
        let Ok(step) = answer else {
            return Steps { made, end };
        };
        end = put_line_at(out, end, step_line(&here, step));
    }
    Steps {
        made: opened.draws,
        end,
    }
}

// Puts the lines of a map's run, and answers the place after them.
fn put_lot(input: &[u8], opened: Opening, out: &mut [u8]) -> usize
    requires opens { Opens input.now opened }
    requires output_room_in_bounds { output_room ≤ length out.old }
    ensures { Filled input.now out.old out.new result }
{
    let steps = put_steps(input, opened, out);
    put_line_at(out, steps.end, closing_line(opened.map, steps.made))
}

// Puts the output for this input at the start of out, and answers its length. An out of under OUTPUT_ROOM bytes is left as it was, and
// the answer is 0.
pub fn put_output(input: &[u8], out: &mut [u8]) -> usize
    ensures count { result ≡ length (output_in (length out.old) input.now) }
    ensures bytes { out.new ≡ over (output_in (length out.old) input.now) out.old }
{
    if out.len() < OUTPUT_ROOM {
        return 0;
    }
    match opening::open(input) {
        Ok(opened) => put_lot(input, opened, out),
        Err(fault) => put_line_at(out, 0, opening::refusal_line(fault)),
    }
}
