// What each station may send, kept while a run goes on, and the rows of the allowed steps: for each sender and kind, the receivers, as a set.
ghost use Rattle.std.specs.Prelude.{◌≡◌, List, ℕ, ◌≤◌, ◌<◌};
ghost use Rattle.schedule.specs.Listing.{listed};
ghost use Rattle.schedule.specs.Draws.{picked};
ghost use Rattle.schedule.specs.Internal.Rows.{AreFour, Others, Filled};
ghost use Rattle.stations.specs.Stations.{station_at};
ghost use Rattle.stations.specs.Words.{stations_in};
ghost use Rattle.rendezvous.specs.Net.{net_in, carrying_in};
ghost use Rattle.rendezvous.specs.Rules.{rules};
ghost use Rattle.rendezvous.specs.Internal.Receivers.{restated, sends_of, kept_at};
ghost use Rattle.rendezvous.specs.Internal.Receivers.{Agree, Renewed, Surveyed, takers_in, HoldTakers, HoldSome};

use crate::telling::Opened;
use crate::{CARRYING, form};
use aggregate::Config;
use bitset::bit_if;
use schedule::rows::{Four, Sizes};
use schedule::{Step, rows};
use station::Station;

// The stations that can take a start, and of these the ones that can take an answer.
#[derive(Clone, Copy, PartialEq, Eq)]
pub(crate) struct States {
    pub(crate) asleep: u64,
    pub(crate) active: u64,
}

// The states, where station i has come to one.
fn restate(states: States, i: u8, state: u8) -> States
    ensures { result ≡ restated i state states }
{
    States {
        asleep: bitset::put(states.asleep, i, state == station::ASLEEP),
        active: bitset::put(states.active, i, state == station::ACTIVE),
    }
}

// What a station may send, in whichever state the receivers are: to whom a start, its parent if it may answer it, itself if it may report.
#[derive(Clone, Copy)]
pub(crate) struct Sends {
    pub(crate) starts: u64,
    pub(crate) home: u64,
    pub(crate) report: u64,
}

pub(crate) const NO_SENDS: Sends = Sends {
    starts: 0,
    home: 0,
    report: 0,
};

// What station j may send. Only an active station sends.
fn find_sends(t: Config, j: u8, s: Station) -> Sends
    ensures { result ≡ sends_of t j s }
{
    if s.state == station::ACTIVE {
        let parent = s.parent;
        return Sends {
            starts: bitset::without(s.unstarted, j),
            home: bit_if(s.may_answer(t, j) & !(j == parent), parent),
            report: bit_if(s.may_report(t, j), j),
        };
    }
    NO_SENDS
}

// What is kept of a net, where station j has become another: what it may send, and the states.
pub(crate) fn renew(
    kept: &mut [Sends; 64],
    states: States,
    net: &[u64; 705],
    t: Config,
    j: u8,
) -> States
    requires { j < 64 }
    ensures { Renewed t j (station_at (stations_in net.now) j) kept.old states kept.new result }
{
    let s = form::read(net, j);
    let sends = find_sends(t, j, s);
    kept[j as usize] = sends;
    restate(states, j, s.state)
}

// One pass over all stations: the form is tested, the states are found, and what each may send is kept. A net that is not well-formed has
// nothing else that is asked for. A function of its own: put into `list`, it leaves too few registers for either, and a draw of 64 stations at rest takes
// a fifth longer.
#[inline(never)]
pub(crate) fn survey(
    net: &[u64; 705],
    totals: &[u64; 576],
    kept: &mut [Sends; 64],
) -> Option<States>
    ensures { Surveyed (net_in net.now totals.now) result kept.new }
{
    let carrying = form::carrying_in(net);
    if CARRYING < carrying {
        return None;
    }
    let t = stations::config_in(net);
    if !aggregate::is_valid(t) {
        return None;
    }
    let k = t.k;
    let mut asleep: u64 = 0;
    let mut active: u64 = 0;
    for j in 0..k {
        let s = form::read(net, j);
        let placed = if carrying == CARRYING {
            form::is_carrying_place(t, j, s, totals)
        } else {
            s.is_well_formed(t, j)
        };
        if !placed {
            return None;
        }
        asleep += bit_if(s.state == station::ASLEEP, j);
        active += bit_if(s.state == station::ACTIVE, j);
        let sends = find_sends(t, j, s);
        kept[j as usize] = sends;
    }
    Some(States { asleep, active })
}

// Below so many stations, all rows are found anew sooner than those are found that a change of states changes.
const FEW: u8 = 16;

// What k stations may send, and the states of those that can take it.
#[derive(Drop)]
pub(crate) struct Takable<'a> {
    pub(crate) k: u8,
    pub(crate) kept: &'a [Sends; 64],
    pub(crate) states: States,
    pub(crate) ghost few: { k ≤ 64 },
}

impl Takable<'_> {
    // The rows of a sender: of what it may send, what stations in these states can take.
    #[tactic(auto, unfolding(crate::specs::Internal::Receivers::takers_in))]
    fn find_four(&self, sender: u8) -> Four
        requires { sender < self.now.k }
        ensures { AreFour (λ kind. takers_in kind (kept_at self.now.kept.now sender) self.now.states) result }
    {
        let sends = self.kept[sender as usize];
        Four {
            first: sends.starts & self.states.asleep,
            second: sends.starts & self.states.active,
            third: sends.home & self.states.active,
            fourth: sends.report,
        }
    }

    // The rows, stored, and their sizes. These are two values, no struct: the search takes them as two, and its promise, which README names, would
    // name both fields all the same.
    pub(crate) fn fill(&self, rows: &mut [u64; 256]) -> Sizes
        ensures { HoldTakers self.now.k self.now.states (kept_at self.now.kept.now) rows.new result }
    {
        let mut sizes = rows::no_sizes();
        for sender in 0..self.k {
            sizes = rows::store(rows, sizes, sender, self.find_four(sender));
        }
        sizes
    }

    // The rows after a step, where they held those before it. Of the senders that are not in the step, only those need theirs anew that may send
    // to one of its two stations, and none where it has left the states as they were.
    pub(crate) fn follow(
        &self,
        rows: &mut [u64; 256],
        sizes: Sizes,
        old: States,
        step: Step,
    ) -> Sizes
        requires places { (step.sender < self.now.k) × (step.receiver < self.now.k) }
        requires states { Agree step old self.now.states }
        requires rows { HoldSome (Others step) self.now.k old (kept_at self.now.kept.now) rows.old sizes }
        ensures { HoldTakers self.now.k self.now.states (kept_at self.now.kept.now) rows.new result }
    {
        let same = self.states == old;
        if !same & (self.k < FEW) {
            return self.fill(rows);
        }
        let sent = self.find_four(step.sender);
        let one = rows::replace(rows, sizes, step.sender, sent);
        let received = self.find_four(step.receiver);
        let mut all = rows::replace(rows, one, step.receiver, received);
        if same {
            return all;
        }
        let both = bitset::union(bit_if(true, step.sender), bit_if(true, step.receiver));
        for x in 0..self.k {
            let sends = self.kept[x as usize];
            let met = bitset::union(sends.starts, sends.home) & both;
            if met != 0 {
                all = rows::replace(rows, all, x, self.find_four(x));
            }
        }
        all
    }
}

// The step that a draw picks where totals are carried back: of those that the rows list, and of the tells after them. A function of its own: put into
// `choose`, it has every draw save registers and take its room on the stack.
#[inline(never)]
fn choose_beside(opened: &Opened<'_>, rows: &[u64; 256], sizes: Sizes, d: u16) -> Option<Step>
    requires { carrying_in opened.now.net.now ≡ 1 }
    ensures { (kept : List ℕ) → Filled rules (net_in opened.now.net.now kept) rows.now sizes
        → result ≡ picked (listed rules (net_in opened.now.net.now kept)) d }
{
    let mut tells = [0u64; 260];
    opened.fill_tells(&mut tells);
    rows::pick_beside(rows, sizes, &tells, opened.t.k, d)
}

// The step that a draw picks.
pub(crate) fn choose(opened: &Opened<'_>, rows: &[u64; 256], sizes: Sizes, d: u16) -> Option<Step>
    ensures { (kept : List ℕ) → Filled rules (net_in opened.now.net.now kept) rows.now sizes
        → result ≡ picked (listed rules (net_in opened.now.net.now kept)) d }
{
    if form::carrying_in(opened.net) == CARRYING {
        return choose_beside(opened, rows, sizes, d);
    }
    rows::pick(rows, sizes, opened.t.k, d)
}
