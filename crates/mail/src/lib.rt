// The mailboxes of a net with mail (document 01, "Stations with mail"), in 36,992 words that the caller lends: for each sender the set of the
// receivers to which a start waits (words 0 to 63), the set of those to which an answer waits (64 to 127), then the missing numbers of the
// answers, a byte a class (those from s to r at 128 + s × 64 + r), then their sums, class by class (of class j at 4224 + 4096 × j + s × 64 + r).
// A mailbox itself is an enum: what is read from one place and written to one. What an answer brings stands beside it: `box_at` tells what
// waits without a config, as it promises, and how many words of an answer are read is told by one.
#![tactic(auto)]

ghost use Rattle.std.specs.Prelude.{◌≡◌, ◌<◌};
ghost use Rattle.mail.specs.Mail;
ghost use Rattle.mail.specs.Writing;

use aggregate::{Aggregate, Config};
use place::{ANSWERS, Place};

mod place;

// What a station sends another.
#[derive(Clone, Copy)]
pub enum Message {
    Start,
    Answer,
}

// 01: a box. No Option: document 01 asks for this enum, and `box_at`, which README names, answers it.
#[derive(Clone, Copy)]
pub enum Mailbox {
    Empty,
    Full(Message),
}

// Where both wait, the mailbox holds the start.
#[tactic(auto, unfolding(crate::specs::Mail::box_at))]
fn look(boxes: &[u64; 36992], p: Place) -> Mailbox
    ensures { result ≡ Mail.box_at boxes.now p.from p.to }
{
    let at = p.from as usize;
    let starts = boxes[at];
    let answers = boxes[ANSWERS + at];
    if bitset::contains(starts, p.to) {
        return Mailbox::Full(Message::Start);
    }
    if bitset::contains(answers, p.to) {
        return Mailbox::Full(Message::Answer);
    }
    Mailbox::Empty
}

// What the mailbox from one station to another holds; other numbers have none.
pub fn box_at(boxes: &[u64; 36992], from: u8, to: u8) -> Mailbox
    ensures { result ≡ Writing.box_read boxes.now from to }
{
    match Place::between(from, to) {
        Some(p) => look(boxes, p),
        None => Mailbox::Empty,
    }
}

// What an answer brings: only the words of the classes in use are read.
fn load(t: Config, boxes: &[u64; 36992], p: Place) -> Aggregate
    ensures { result ≡ Mail.brought_at t boxes.now p.from p.to }
{
    let mut sums = [0u64; 8];
    for j in 0..aggregate::count_used(t) {
        sums[j] = boxes[p.sum(j)];
    }
    aggregate::from_words(t, sums, boxes[p.missing()])
}

// What an answer from one station to another brings; other numbers have no mailboxes.
pub fn brought_at(t: Config, boxes: &[u64; 36992], from: u8, to: u8) -> Aggregate
    ensures { result ≡ Writing.brought_read t boxes.now from to }
{
    match Place::between(from, to) {
        Some(p) => load(t, boxes, p),
        None => aggregate::empty(),
    }
}

// Whether a well-formed net may hold what the mailbox from one station to another holds.
pub fn is_box_bounded(t: Config, boxes: &[u64; 36992], from: u8, to: u8) -> bool
    ensures { result ≡ Mail.mailbox_bounded t (Writing.box_read boxes.now from to) (Writing.brought_read t boxes.now from to) }
{
    match box_at(boxes, from, to) {
        Mailbox::Empty | Mailbox::Full(Message::Start) => true,
        Mailbox::Full(Message::Answer) => aggregate::is_bounded(t, brought_at(t, boxes, from, to)),
    }
}

// No mail. An array of zeros to assign would be built on the stack.
pub fn clear(boxes: &mut [u64; 36992])
    ensures { boxes.new ≡ Mail.no_mail }
{
    boxes.fill(0);
}

// Other sets for a sender.
fn put_sets(boxes: &mut [u64; 36992], from: u8, starts: u64, answers: u64)
    requires { from < 64 }
    ensures { boxes.new ≡ Mail.with_sets boxes.old from starts answers }
{
    let at = from as usize;
    boxes[at] = starts;
    boxes[ANSWERS + at] = answers;
}

// Whether a start waits, and whether an answer does.
#[tactic(auto, unfolding(crate::specs::Mail::with_waiting))]
fn put_waiting(boxes: &mut [u64; 36992], p: Place, start: bool, answer: bool)
    ensures { boxes.new ≡ Mail.with_waiting boxes.old p.from p.to start answer }
{
    let at = p.from as usize;
    let starts = bitset::put(boxes[at], p.to, start);
    let answers = bitset::put(boxes[ANSWERS + at], p.to, answer);
    put_sets(boxes, p.from, starts, answers);
}

// The sums that an answer brings: all eight, so that those past the classes in use are not left from another answer.
#[tactic(auto, unfolding(crate::specs::Mail::with_sums))]
fn store_sums(boxes: &mut [u64; 36992], p: Place, v: Aggregate)
    ensures { boxes.new ≡ Mail.with_sums boxes.old p.from p.to v 8 }
{
    for j in 0..8 {
        boxes[p.sum(j)] = aggregate::class_of(v, j).sum;
    }
}

// An answer with what it brings.
#[tactic(auto, unfolding(crate::specs::Mail::with_answer))]
fn store_answer(boxes: &mut [u64; 36992], p: Place, v: Aggregate)
    ensures { boxes.new ≡ Mail.with_answer boxes.old p.from p.to v }
{
    put_waiting(boxes, p, false, true);
    boxes[p.missing()] = aggregate::missing_word(v);
    store_sums(boxes, p, v);
}

#[tactic(auto, unfolding(crate::specs::Mail::with_box, crate::specs::Mail::with_message))]
fn store(boxes: &mut [u64; 36992], p: Place, b: Mailbox, v: Aggregate)
    ensures { boxes.new ≡ Mail.with_box boxes.old p.from p.to b v }
{
    match b {
        Mailbox::Empty => put_waiting(boxes, p, false, false),
        Mailbox::Full(Message::Start) => put_waiting(boxes, p, true, false),
        Mailbox::Full(Message::Answer) => store_answer(boxes, p, v),
    }
}

// What the mailbox from one station to another shall hold, and v for what it brings if that is an answer; other numbers have no mailboxes.
pub fn put_box(boxes: &mut [u64; 36992], from: u8, to: u8, b: Mailbox, v: Aggregate)
    ensures { boxes.new ≡ Writing.box_written boxes.old from to b v }
{
    if let Some(p) = Place::between(from, to) {
        store(boxes, p, b, v);
    }
}

#[tactic(auto, unfolding(crate::specs::Mail::starts_posted))]
fn store_starts(boxes: &mut [u64; 36992], from: u8, stations: u64)
    requires { from < 64 }
    ensures { boxes.new ≡ Mail.starts_posted boxes.old from stations }
{
    let at = from as usize;
    let starts = bitset::union(boxes[at], stations);
    let answers = bitset::minus(boxes[ANSWERS + at], stations);
    put_sets(boxes, from, starts, answers);
}

// A start, posted from a station to every one in the set; other numbers have no mailboxes.
pub fn post_starts(boxes: &mut [u64; 36992], from: u8, stations: u64)
    ensures { boxes.new ≡ Writing.starts_written boxes.old from stations }
{
    if from < 64 {
        store_starts(boxes, from, stations);
    }
}
