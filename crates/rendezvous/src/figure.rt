// A step of stations that meet: whether it is in range and allowed, and its two stations after it, by the events of its two stations (document 001,
// Figure 2).
ghost use Rattle.std.specs.Prelude.{◌≡◌, true, cond, List, ℕ, ◌<◌, eqb};
ghost use Rattle.aggregate.specs.Aggregate.{root_of, joinable};
ghost use Rattle.schedule.specs.Rules.{step_in_range};
ghost use Rattle.stations.specs.Stations.{station_at};
ghost use Rattle.stations.specs.Words.{config_in, stations_in, spare_in};
ghost use Rattle.rendezvous.specs.Net.{net_in};
ghost use Rattle.rendezvous.specs.Figure.{report, may_step};
ghost use Rattle.rendezvous.specs.Telling.{tell};
ghost use Rattle.rendezvous.specs.Rules.{guard};
ghost use Rattle.rendezvous.specs.Internal.Receivers.{sent_by, received_by, made_of};

use crate::{ANSWER, CARRYING, PASS, REPORT, TELL, WAKE, form, telling};
use aggregate::Config;
use schedule::Step;
use station::Station;

// Whether a step is in range, in a net that carries back (1) or not.
pub(crate) fn is_in_range(t: Config, carrying: u8, step: Step) -> bool
    ensures { result ≡ step_in_range (cond (eqb carrying 1) tell report) report t.k (root_of t) step }
{
    let kinds = if carrying == CARRYING { TELL } else { REPORT };
    stations::is_in_range(kinds, REPORT, t.k, aggregate::root(t), step)
}

// Whether the step's sender s and its receiver r let it be made.
pub(crate) fn may_step(t: Config, step: Step, s: Station, r: Station) -> bool
    ensures { result ≡ may_step t step.kind step.sender step.receiver s r }
{
    match step.kind {
        WAKE => match r.state {
            station::ASLEEP => s.may_send_start(step.receiver) & (step.receiver != step.sender),
            _ => false,
        },
        PASS => match r.state {
            station::ACTIVE => s.may_send_start(step.receiver) & (step.receiver != step.sender),
            _ => false,
        },
        ANSWER => match r.state {
            station::ACTIVE => s.may_answer(t, step.sender)
                & (step.sender != step.receiver)
                & (s.parent == step.receiver),
            _ => false,
        },
        REPORT => s.is_ready(),
        0 | 5..=255 => false,
    }
}

// Whether the step is allowed, by its kind.
pub(crate) fn is_allowed(net: &[u64; 705], t: Config, step: Step) -> bool
    requires places { (step.sender < 64) × (step.receiver < 64) × (root_of t < 64) }
    requires config { t ≡ config_in net.now }
    ensures { (kept : List ℕ) → result ≡ guard (net_in net.now kept) step }
{
    let s = form::read(net, step.sender);
    let r = form::read(net, step.receiver);
    if step.kind == TELL {
        let desk = form::read(net, aggregate::root(t));
        return telling::may_tell(t, step, desk, s, r);
    }
    may_step(t, step, s, r)
}

// The sender after a step.
pub(crate) fn send(step: Step, s: Station) -> Station
    ensures { result ≡ sent_by step.kind step.receiver s }
{
    match step.kind {
        WAKE | PASS => s.start_sent(step.receiver),
        TELL => s,
        _ => s.ended(),
    }
}

// The receiver r after a step from s.
pub(crate) fn receive(t: Config, step: Step, s: Station, r: Station) -> Station
    requires { joinable t r.held s.held ≡ true }
    ensures { result ≡ received_by t step.kind step.sender s r }
{
    match step.kind {
        WAKE => r.woken(step.sender),
        PASS => r.start_taken(),
        ANSWER => r.answer_taken(t, s.held),
        TELL => telling::hear_total(r),
        _ => r.ended(),
    }
}

// A step that is allowed, made. Who needs its two stations afterwards reads of them what he needs.
pub(crate) fn make(net: &mut [u64; 705], totals: &mut [u64; 576], t: Config, step: Step)
    requires places { (step.sender < 64) × (step.receiver < 64) }
    requires config { t ≡ config_in net.old }
    requires joins { joinable (config_in net.old) (station_at (stations_in net.old) step.receiver).held (station_at (stations_in net.old) step.sender).held ≡ true }
    ensures made { net_in net.new totals.new ≡ made_of (net_in net.old totals.old) step }
    ensures spare { spare_in net.new ≡ spare_in net.old }
{
    let from = form::place(step.sender);
    let to = form::place(step.receiver);
    let sender = form::read(net, step.sender);
    let receiver = form::read(net, step.receiver);
    let s = send(step, sender);
    let r = receive(t, step, sender, receiver);
    stations::store(net, from, s);
    stations::store(net, to, r);
    telling::keep_total(totals, t, step, sender);
}
