// A step of stations with mail: whether it is in range and allowed, and the net after it (document 01, "Stations with mail").
ghost use Rattle.std.specs.Prelude.{◌≡◌, true, ◌<◌};
ghost use Rattle.aggregate.specs.Aggregate.{root_of, bounded};
ghost use Rattle.schedule.specs.Rules.{step_in_range};
ghost use Rattle.mail.specs.Mail.{mailbox_bounded, box_at, brought_at};
ghost use Rattle.mailbox.specs.Delivery.{takes_from, may_deliver, may_report, awakened, taken, must_answer, receiver_after, boxes_delivered};
ghost use Rattle.mailbox.specs.Rules.{delivery, report, may_step};
ghost use Rattle.mailbox.specs.Internal.Receivers.{receiver_made, boxes_made};

use crate::{DELIVERY, KINDS, REPORT, listing};
use aggregate::Config;
use mail::{Mailbox, Message};
use schedule::Step;
use station::Station;

pub(crate) fn is_in_range(t: Config, step: Step) -> bool
    ensures { result ≡ step_in_range 2 report t.k (root_of t) step }
{
    stations::is_in_range(KINDS, REPORT, t.k, aggregate::root(t), step)
}

// Whether the receiver takes what the mailbox holds.
fn takes(receiver: Station, content: Mailbox) -> bool
    ensures { result ≡ takes_from receiver content }
{
    match content {
        Mailbox::Empty => false,
        Mailbox::Full(Message::Start) => listing::takes_start(receiver),
        Mailbox::Full(Message::Answer) => listing::takes_answer(receiver),
    }
}

// Whether what is in the mailbox between two stations may be delivered.
pub(crate) fn may_deliver(from: u8, to: u8, receiver: Station, content: Mailbox) -> bool
    ensures { result ≡ may_deliver from to receiver content }
{
    (from != to) & takes(receiver, content)
}

// Whether the root may report.
pub(crate) fn may_report(root: Station) -> bool
    ensures { result ≡ may_report root }
{
    (root.state == station::ACTIVE) & (root.waits == 0)
}

// Whether the step's receiver, and what is in the mailbox to it, let the step be made.
#[tactic(auto, unfolding(crate::specs::Rules::may_step))]
pub(crate) fn may_step(step: Step, receiver: Station, content: Mailbox) -> bool
    ensures { result ≡ may_step step receiver content }
{
    match step.kind {
        DELIVERY => may_deliver(step.sender, step.receiver, receiver, content),
        REPORT => may_report(receiver),
        0 | 3..=255 => false,
    }
}

// The receiver, woken by a start from a neighbour: its set stays.
fn awaken(receiver: Station, from: u8) -> Station
    ensures { result ≡ awakened from receiver }
{
    Station {
        unstarted: receiver.unstarted,
        ..receiver.woken(from)
    }
}

// The receiver after it took what the mailbox between two stations holds: the words of an answer are read only where there is one.
// No struct holds `places` and `sums`, here and below: the sums are in words that are lent, and a step's numbers have no bounds. `mail::place::Place`
// is `mail`'s own, because `box_at` and `put_box` take any numbers.
fn take(t: Config, boxes: &[u64; 36992], from: u8, to: u8, receiver: Station) -> Station
    requires places { (from < 64) × (to < 64) }
    requires sums { (bounded t receiver.held ≡ true) × (mailbox_bounded t (box_at boxes.now from to) (brought_at t boxes.now from to) ≡ true) }
    ensures { result ≡ taken t from (box_at boxes.now from to) (brought_at t boxes.now from to) receiver }
{
    let asleep = receiver.state == station::ASLEEP;
    match mail::box_at(boxes, from, to) {
        Mailbox::Empty => receiver,
        Mailbox::Full(Message::Start) if asleep => awaken(receiver, from),
        Mailbox::Full(Message::Start) => receiver.start_taken(),
        Mailbox::Full(Message::Answer) => {
            receiver.answer_taken(t, mail::brought_at(t, boxes, from, to))
        }
    }
}

// Whether a receiver, after it took a message, has nothing left to wait for, and is not the root.
fn must_answer(t: Config, to: u8, s: Station) -> bool
    ensures { result ≡ must_answer t to s }
{
    (to != aggregate::root(t)) & (s.waits == 0)
}

// A delivery, in place: the mailbox is emptied, and the receiver takes the message. One that was asleep posts its starts; one with nothing
// left to wait for posts its sum to its parent and is finished. It answers the receiver after that; no other station changes.
pub(crate) fn deliver(
    t: Config,
    boxes: &mut [u64; 36992],
    from: u8,
    to: u8,
    receiver: Station,
) -> Station
    requires places { (from < 64) × ((to < 64) × (receiver.parent < 64)) }
    requires sums { (bounded t receiver.held ≡ true) × (mailbox_bounded t (box_at boxes.old from to) (brought_at t boxes.old from to) ≡ true) }
    ensures receiver { result ≡ receiver_after t boxes.old from to receiver }
    ensures boxes { boxes.new ≡ boxes_delivered t boxes.old from to receiver }
{
    let s = take(t, boxes, from, to, receiver);
    mail::put_box(boxes, from, to, Mailbox::Empty, aggregate::empty());
    if receiver.state == station::ASLEEP {
        let others = bitset::without(receiver.unstarted, from);
        mail::post_starts(boxes, to, others);
    }
    if must_answer(t, to, s) {
        let given = aggregate::clip(t, s.held);
        mail::put_box(boxes, to, s.parent, Mailbox::Full(Message::Answer), given);
        return s.ended();
    }
    s
}

// An allowed step, in place: what it makes of its receiver.
pub(crate) fn receive(t: Config, boxes: &mut [u64; 36992], step: Step, receiver: Station) -> Station
    requires places { (step.sender < 64) × ((step.receiver < 64) × (receiver.parent < 64)) }
    requires sums { (bounded t receiver.held ≡ true)
        × (step.kind ≡ delivery
        → mailbox_bounded t (box_at boxes.old step.sender step.receiver) (brought_at t boxes.old step.sender step.receiver) ≡ true) }
    ensures receiver { result ≡ receiver_made t boxes.old step receiver }
    ensures boxes { boxes.new ≡ boxes_made t boxes.old step receiver }
{
    match step.kind {
        DELIVERY => deliver(t, boxes, step.sender, step.receiver, receiver),
        _ => receiver.ended(),
    }
}
