// The rows of the allowed steps: for each sender and kind, the receivers, as a set.
ghost use Rattle.std.specs.Prelude.{◌≡◌, ◌≤◌, ◌<◌};
ghost use Rattle.aggregate.specs.Aggregate.{root_of};
ghost use Rattle.stations.specs.Words.{stations_in};
ghost use Rattle.schedule.specs.Internal.Rows.{AreFour, Others};
ghost use Rattle.mailbox.specs.Internal.Receivers as Rules;

use crate::delivery::may_report;
use aggregate::Config;
use bitset::bit_if;
use schedule::rows::{Four, Sizes};
use schedule::{Step, rows};
use station::Station;

// The stations that take a start, and those that take an answer.
#[derive(Clone, Copy, PartialEq, Eq)]
pub(crate) struct Takers {
    pub(crate) starts: u64,
    pub(crate) answers: u64,
}

pub(crate) fn takes_start(s: Station) -> bool
    ensures { result ≡ Rules.takes_start s }
{
    (s.state == station::ASLEEP) | (s.state == station::ACTIVE)
}

pub(crate) fn takes_answer(s: Station) -> bool
    ensures { result ≡ Rules.takes_answer s }
{
    s.state == station::ACTIVE
}

pub(crate) fn find_takers(line: &[u64; 705], k: u8) -> Takers
    requires { k ≤ 64 }
    ensures { result ≡ Rules.takers_of k (stations_in line.now) }
{
    let mut starts: u64 = 0;
    let mut answers: u64 = 0;
    for i in 0..k {
        let s = stations::load(line, i);
        starts += bit_if(takes_start(s), i);
        answers += bit_if(takes_answer(s), i);
    }
    Takers { starts, answers }
}

// The same, where station j has become s.
pub(crate) fn retake(takers: Takers, j: u8, s: Station) -> Takers
    ensures { result ≡ Rules.retaken j s takers }
{
    Takers {
        starts: bitset::put(takers.starts, j, takes_start(s)),
        answers: bitset::put(takers.answers, j, takes_answer(s)),
    }
}

// The receivers to which what waits from the sender can be delivered.
fn find_deliverable(sender: u8, starts: u64, answers: u64, takers: Takers) -> u64
    ensures { result ≡ Rules.deliverable sender starts answers takers }
{
    let all = bitset::union(starts & takers.starts, answers & takers.answers);
    bitset::without(all, sender)
}

// What waits in the mailboxes, who takes it, and whether the root may report: the rows are found from these.
#[derive(Drop)]
pub(crate) struct Waiting<'a> {
    pub(crate) t: Config,
    pub(crate) takers: Takers,
    pub(crate) reports: bool,
    pub(crate) boxes: &'a [u64; 36992],
    ghost few: { t.k ≤ 64 },
}

impl Waiting<'_> {
    // The rows of a sender: who can take what its mailboxes hold, and the report. Two stay empty. Rows and sizes are two values, no struct: the
    // search takes them as two, and its promise, which README names, would name both fields all the same.
    #[tactic(auto, unfolding(crate::specs::Internal::Receivers::receivers_of))]
    fn four(&self, sender: u8) -> Four
        requires { sender < self.now.t.k }
        ensures { AreFour (λ kind. Rules.receivers_of (root_of self.now.t) self.now.takers self.now.reports self.now.boxes.now kind sender) result }
    {
        let s = sender as usize;
        let starts = self.boxes[s];
        let answers = self.boxes[64 + s];
        let first = find_deliverable(sender, starts, answers, self.takers);
        let second = bit_if((sender == aggregate::root(self.t)) & self.reports, sender);
        Four {
            first,
            second,
            third: 0,
            fourth: 0,
        }
    }

    // The rows of every sender, stored, and their sizes.
    pub(crate) fn fill(&self, rows: &mut [u64; 256]) -> Sizes
        ensures { Rules.HoldReceivers Rules.AnySender self.now.t self.now.takers self.now.reports self.now.boxes.now rows.new result }
    {
        let mut sizes = rows::no_sizes();
        for sender in 0..self.t.k {
            sizes = rows::store(rows, sizes, sender, self.four(sender));
        }
        sizes
    }

    // The rows after a step, where they held those before it. Where the step changed who takes a message, every sender's are found anew; else
    // only those of its two stations.
    pub(crate) fn follow(
        &self,
        rows: &mut [u64; 256],
        sizes: Sizes,
        old: Takers,
        step: Step,
    ) -> Sizes
        requires places { (step.sender < self.now.t.k) × (step.receiver < self.now.t.k) }
        requires rows { Rules.HoldReceivers (Others step) self.now.t old self.now.reports self.now.boxes.now rows.old sizes }
        ensures { Rules.HoldReceivers Rules.AnySender self.now.t self.now.takers self.now.reports self.now.boxes.now rows.new result }
    {
        if self.takers == old {
            let one = rows::replace(rows, sizes, step.sender, self.four(step.sender));
            return rows::replace(rows, one, step.receiver, self.four(step.receiver));
        }
        self.fill(rows)
    }
}

// Whether the root may report.
pub(crate) fn root_reports(line: &[u64; 705], t: Config) -> bool
    requires { root_of t < 64 }
    ensures { result ≡ Rules.root_reports t (stations_in line.now) }
{
    let root = stations::load(line, aggregate::root(t));
    may_report(root)
}
