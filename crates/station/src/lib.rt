// One station (document 01, "One station"; document 001, Definition 3.1): what a net holds of it, and the station by itself.
#![tactic(auto)]

ghost use Rattle.std.specs.Prelude.{◌≡◌, true, cond, ◌-◌, IfOk, IfErr};
ghost use Rattle.aggregate.specs.Aggregate.{joinable};
ghost use Rattle.station.specs.Events;
ghost use Rattle.station.specs.Form.{well_formed, process_config, well_formed_process};
ghost use Rattle.station.specs.Process as Rules;

use aggregate::{Aggregate, Config};
use refusal::Refusal;

// The states: bytes, as the C interface has them, since any byte may be lent and one that is no state is out of form.
pub const ASLEEP: u8 = 0;

pub const ACTIVE: u8 = 1;

pub const FINISHED: u8 = 2;

// What a net holds of a station.
#[repr(C)]
#[derive(Clone, Copy)]
pub struct Station {
    // What it has gathered (01: its sum).
    pub held: Aggregate,
    // The neighbours still to be started.
    pub unstarted: u64,
    pub parent: u8,
    // How many messages it waits for.
    pub waits: u8,
    pub state: u8,
}

// A station by itself: the process of Definition 3.1.
#[repr(C)]
#[derive(Clone, Copy)]
pub struct Process {
    pub own: u8,
    pub classes: u8,
    pub desk: u8,
    pub way: u8,
    pub station: Station,
}

// What a station gives at the end of its part: its sum, to its parent.
#[derive(Clone, Copy)]
pub struct Gives {
    pub parent: u8,
    pub held: Aggregate,
}

// What an event answers: what is given, where something is, or why it is refused.
pub type Reply = Result<Option<Gives>, Refusal>;

// A reply, and the process after the event.
#[derive(Clone, Copy)]
pub struct Event {
    pub reply: Reply,
    pub process: Process,
}

// The lines of Definition 3.1, and the form.
impl Station {
    // Line 1: a start from j wakes it.
    pub fn woken(self, j: u8) -> Station
        ensures { result ≡ Events.woken j self }
    {
        let size = bitset::size(self.unstarted);
        Station {
            held: self.held,
            unstarted: bitset::without(self.unstarted, j),
            parent: j,
            waits: size.saturating_sub(1),
            state: ACTIVE,
        }
    }

    // Line 2: whether a start may go to j.
    pub fn may_send_start(self, j: u8) -> bool
        ensures { result ≡ Events.may_send_start j self }
    {
        (self.state == ACTIVE) & bitset::contains(self.unstarted, j)
    }

    // Line 2: a start was sent to j. Not by `..self`, here and below: the events linked alone take 700 bytes more with it.
    pub fn start_sent(self, j: u8) -> Station
        ensures { result ≡ Events.start_sent j self }
    {
        let mut next = self;
        next.unstarted = bitset::without(self.unstarted, j);
        next
    }

    // Line 3: what is held was joined with an answer, a wait less.
    fn holding(self, held: Aggregate) -> Station
        ensures { result ≡ record { held = held; unstarted = self.unstarted; parent = self.parent; waits = self.waits - 1; state = self.state } }
    {
        let mut next = self.start_taken();
        next.held = held;
        next
    }

    // Line 3: an answer v was taken; the station as it was where what it holds or v is not bounded.
    pub fn answer_taken(self, t: Config, v: Aggregate) -> Station
        ensures { result ≡ cond (joinable t self.held v) (Events.answer_taken t v self) self }
    {
        match aggregate::join(t, self.held, v) {
            Ok(both) => self.holding(both),
            Err(_) => self,
        }
    }

    // Line 4: a start was taken when active.
    pub fn start_taken(self) -> Station
        ensures { result ≡ Events.start_taken self }
    {
        let mut next = self;
        next.waits = self.waits.saturating_sub(1);
        next
    }

    // Lines 1 and 4: a start from j was taken.
    pub fn started_by(self, j: u8) -> Station
        ensures { result ≡ Events.started_by j self }
    {
        if self.state == ASLEEP {
            return self.woken(j);
        }
        self.start_taken()
    }

    // Lines 5 and 6: whether nothing is left to send or to wait for.
    pub fn is_ready(self) -> bool
        ensures { result ≡ Events.ready self }
    {
        (self.state == ACTIVE) & (self.unstarted == 0) & (self.waits == 0)
    }

    // Line 5: whether it may report as the station of this number.
    pub fn may_report(self, t: Config, own: u8) -> bool
        ensures { result ≡ Events.may_report t own self }
    {
        (own == aggregate::root(t)) & self.is_ready()
    }

    // Line 6: whether it may answer as the station of this number.
    pub fn may_answer(self, t: Config, own: u8) -> bool
        ensures { result ≡ Events.may_answer t own self }
    {
        (own != aggregate::root(t)) & self.is_ready()
    }

    // Lines 5 and 6: it gave its sum.
    pub fn ended(self) -> Station
        ensures { result ≡ Events.ended self }
    {
        let mut next = self;
        next.state = FINISHED;
        next
    }

    // Whether it is well-formed as the station of this number (01: in form). One test that fails is enough: in most nets all pass, which a
    // processor foresees, so that testing one by one costs less than joining them.
    pub fn is_well_formed(self, t: Config, own: u8) -> bool
        ensures { result ≡ well_formed t own self }
    {
        if FINISHED < self.state {
            return false;
        }
        if t.k <= self.parent {
            return false;
        }
        if !bitset::is_within(self.unstarted, t.k) {
            return false;
        }
        if 64 < self.waits {
            return false;
        }
        if !aggregate::is_bounded(t, self.held) {
            return false;
        }
        if bitset::contains(self.unstarted, own) {
            return false;
        }
        (own == aggregate::root(t)) | (self.parent != own)
    }
}

// The events of document 01, each a method by value that hands the process back.
impl Process {
    // What it is tested and joined by.
    fn config(self) -> Config
        ensures { result ≡ process_config self }
    {
        Config {
            k: 64,
            classes: self.classes,
            desk: self.desk,
            way: self.way,
        }
    }

    pub fn is_well_formed(self) -> bool
        ensures { result ≡ well_formed_process self }
    {
        let t = self.config();
        aggregate::is_valid(t) & (self.own < t.k) & self.station.is_well_formed(t, self.own)
    }

    // The process after an event at its station.
    fn after(self, station: Station) -> Process
        ensures { result ≡ Rules.after self station }
    {
        let mut next = self;
        next.station = station;
        next
    }

    // Nothing is given.
    fn done(self, station: Station) -> Event
        ensures { Rules.event_outcome_of result.reply result.process ≡ Rules.done (Rules.after self station) }
    {
        Event {
            reply: Ok(None),
            process: self.after(station),
        }
    }

    // The end of its part: its parent and what it has gathered are given.
    fn gives(self) -> Event
        ensures { Rules.event_outcome_of result.reply result.process ≡ Rules.gives self }
    {
        let s = self.station;
        let gives = Gives {
            parent: s.parent,
            held: aggregate::clip(self.config(), s.held),
        };
        Event {
            reply: Ok(Some(gives)),
            process: self.after(s.ended()),
        }
    }

    fn refused(self, why: Refusal) -> Event
        ensures { Rules.event_outcome_of result.reply result.process ≡ Rules.event_refused why self }
    {
        Event {
            reply: Err(why),
            process: self,
        }
    }

    // The refusals in their order, which come before an event is made.
    fn decide(self, range: bool, allowed: bool) -> Result<(), Refusal>
        ensures accepted { IfOk result (λ _. (o : Rules.EventOutcome) → Rules.decide (well_formed_process self) range allowed self o ≡ o) }
        ensures refused { IfErr result (λ why. (o : Rules.EventOutcome) → Rules.decide (well_formed_process self) range allowed self o ≡ Rules.event_refused why self) }
    {
        if !self.is_well_formed() {
            return Err(Refusal::OutOfForm);
        }
        if !range {
            return Err(Refusal::OutOfRange);
        }
        if !allowed {
            return Err(Refusal::NotAllowed);
        }
        Ok(())
    }

    // The end of its part, where it is allowed: one function for both ends, which keeps the code small.
    #[inline(never)]
    fn finish(self, allowed: bool) -> Event
        ensures { Rules.event_outcome_of result.reply result.process ≡ Rules.decide (well_formed_process self) true allowed self (Rules.gives self) }
    {
        match self.decide(true, allowed) {
            Ok(()) => self.gives(),
            Err(why) => self.refused(why),
        }
    }

    // Take a start from a neighbour: it wakes a sleeping station and leaves an active one a wait less.
    pub fn take_start(self, from: u8) -> Event
        ensures { Rules.event_outcome_of result.reply result.process ≡ Rules.take_start from self }
    {
        let s = self.station;
        let allowed = (s.state == ASLEEP) | (s.state == ACTIVE);
        match self.decide(from < self.config().k, allowed) {
            Ok(()) => self.done(s.started_by(from)),
            Err(why) => self.refused(why),
        }
    }

    // Send a start to a neighbour, which leaves the set.
    pub fn send_start(self, to: u8) -> Event
        ensures { Rules.event_outcome_of result.reply result.process ≡ Rules.send_start to self }
    {
        let s = self.station;
        match self.decide(to < self.config().k, s.may_send_start(to)) {
            Ok(()) => self.done(s.start_sent(to)),
            Err(why) => self.refused(why),
        }
    }

    // Take an answer: v is joined to the sum. In form what is held is bounded, so the join's own test is that of the range.
    pub fn take_answer(self, v: Aggregate) -> Event
        ensures { Rules.event_outcome_of result.reply result.process ≡ Rules.take_answer v self }
    {
        if !self.is_well_formed() {
            return self.refused(Refusal::OutOfForm);
        }
        let s = self.station;
        let Ok(both) = aggregate::join(self.config(), s.held, v) else {
            return self.refused(Refusal::OutOfRange);
        };
        if s.state != ACTIVE {
            return self.refused(Refusal::NotAllowed);
        }
        self.done(s.holding(both))
    }

    // Send the sum to the parent, which the root never does.
    pub fn send_answer(self) -> Event
        ensures { Rules.event_outcome_of result.reply result.process ≡ Rules.send_answer self }
    {
        self.finish(self.station.may_answer(self.config(), self.own))
    }

    // Report the sum, which only the root does.
    pub fn report(self) -> Event
        ensures { Rules.event_outcome_of result.reply result.process ≡ Rules.report self }
    {
        self.finish(self.station.may_report(self.config(), self.own))
    }
}

// The events on a process that a controller lends: the event by value, and its process stored back. By value above, lent here: README names both,
// and C calls these. Each in the shape that the law of `lent` walks, so without a closure.

// Take a start from a neighbour.
pub fn take_start_in_place(p: &mut Process, from: u8) -> Reply
    ensures { Rules.event_outcome_of result p.new ≡ Rules.take_start from p.old }
{
    let before = *p;
    let event = before.take_start(from);
    *p = event.process;
    event.reply
}

// Send a start to a neighbour.
pub fn send_start_in_place(p: &mut Process, to: u8) -> Reply
    ensures { Rules.event_outcome_of result p.new ≡ Rules.send_start to p.old }
{
    let before = *p;
    let event = before.send_start(to);
    *p = event.process;
    event.reply
}

// Take an answer.
pub fn take_answer_in_place(p: &mut Process, v: Aggregate) -> Reply
    ensures { Rules.event_outcome_of result p.new ≡ Rules.take_answer v p.old }
{
    let before = *p;
    let event = before.take_answer(v);
    *p = event.process;
    event.reply
}

// Send the sum to the parent.
pub fn send_answer_in_place(p: &mut Process) -> Reply
    ensures { Rules.event_outcome_of result p.new ≡ Rules.send_answer p.old }
{
    let before = *p;
    let event = before.send_answer();
    *p = event.process;
    event.reply
}

// Report the sum.
pub fn report_in_place(p: &mut Process) -> Reply
    ensures { Rules.event_outcome_of result p.new ≡ Rules.report p.old }
{
    let before = *p;
    let event = before.report();
    *p = event.process;
    event.reply
}
