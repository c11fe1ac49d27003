// Totals carried back to the heads (document 02, request 8): kind 5, and what is kept by it.
ghost use Rattle.std.specs.Prelude.{◌≡◌, true, cond, List, [], ℕ, ◌<◌, replicate, set, eqb};
ghost use Rattle.aggregate.specs.Aggregate.{root_of, clipped};
ghost use Rattle.station.specs.Events.{finished};
ghost use Rattle.stations.specs.Kept.{kept_in, kept_read};
ghost use Rattle.rendezvous.specs.Net.{net_in, settled};
ghost use Rattle.rendezvous.specs.Telling as Rules;
ghost use Rattle.rendezvous.specs.Internal.Receivers.{may_tell_of, Read, Teller, AreTells};

use crate::{TELL, TOLD, form};
use aggregate::Config;
use schedule::Step;
use station::{FINISHED, Station};

// A told station taken as finished.
pub(crate) fn settle(s: Station) -> Station
    ensures { result ≡ settled s }
{
    if s.state == TOLD {
        return s.ended();
    }
    s
}

// A station that heard the total.
pub(crate) fn hear_total(s: Station) -> Station
    ensures { result ≡ Rules.hears_total s }
{
    Station { state: TOLD, ..s }
}

// Whether the desk, the step's sender s and its receiver r let a tell be made.
pub(crate) fn may_tell(t: Config, step: Step, desk: Station, s: Station, r: Station) -> bool
    ensures { result ≡ may_tell_of t step.sender step.receiver (eqb desk.state finished) s r }
{
    let root = aggregate::root(t);
    let reported = desk.state == FINISHED;
    let knows = if step.sender == root {
        reported
    } else {
        s.state == TOLD
    };
    reported & knows & (r.state == FINISHED) & (step.receiver != root) & (r.parent == step.sender)
}

// The receiver of a tell from s keeps what that one knows: the desk what it holds, another what it keeps.
pub(crate) fn keep_total(totals: &mut [u64; 576], t: Config, step: Step, s: Station)
    requires { step.sender < 64 }
    ensures { kept_in totals.new ≡ cond (eqb step.kind Rules.tell)
        (set (kept_in totals.old) step.receiver (clipped t (cond (eqb step.sender (root_of t)) s.held (kept_read totals.old step.sender))))
        (kept_in totals.old) }
{
    if step.kind == TELL {
        let known = if step.sender == aggregate::root(t) {
            s.held
        } else {
            stations::load_kept(totals, step.sender)
        };
        let given = aggregate::clip(t, known);
        stations::store_kept(totals, step.receiver, given);
    }
}

// A net in form, and what it was opened with.
#[derive(Drop)]
pub(crate) struct Opened<'a> {
    pub(crate) net: &'a [u64; 705],
    pub(crate) t: Config,
    pub(crate) ghost read: { Read net.now t },
}

impl Opened<'_> {
    // The station that may tell i, once the desk has reported.
    fn find_teller(&self, i: u8) -> Option<u8>
        requires low { i < 64 }
        requires reported { Rules.is_reported (net_in self.now.net.now []) ≡ true }
        ensures { (kept : List ℕ) → Teller (net_in self.now.net.now kept) i result }
    {
        let root = aggregate::root(self.t);
        let s = form::read(self.net, i);
        let parent = s.parent;
        if (i == root) | (s.state != FINISHED) | (self.t.k <= parent) {
            return None;
        }
        if parent == root {
            return Some(parent);
        }
        let p = form::read(self.net, parent);
        if p.state == TOLD { Some(parent) } else { None }
    }

    // The rows of the tells, a set of receivers for each sender.
    pub(crate) fn fill_tells(&self, tells: &mut [u64; 260])
        requires { tells.old ≡ replicate 260 0 }
        ensures { (kept : List ℕ) → AreTells (net_in self.now.net.now kept) self.now.t.k tells.new }
    {
        let desk = form::read(self.net, aggregate::root(self.t));
        if desk.state == FINISHED {
            for i in 0..self.t.k {
                if let Some(p) = self.find_teller(i) {
                    let at = 4 * (p as usize) + 4;
                    tells[at] += bitset::bit_if(true, i);
                }
            }
        }
    }
}
