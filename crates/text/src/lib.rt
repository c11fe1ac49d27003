// The lines of the program's output, as bytes (document 01, "The program").
#![tactic(auto)]

ghost use Rattle.std.specs.Prelude.{◌≡◌, ◌<◌, ◌++◌, length};
ghost use Rattle.text.specs.Text.{digit, digits, padded, item, cell_text, aggregate_text, words_of, text_in};
ghost use Rattle.text.specs.Internal.Writing.{Fits, Puts};
ghost use Rattle.finite.specs.Stores.{over, laid, laid_end};

use aggregate::{Aggregate, Cell, Config};

// A line, with all that it shows. An answer and a report carry what the sender holds, of the classes in use under `config`.
#[derive(Clone, Copy)]
pub enum Line {
    Wake {
        sender: u8,
        receiver: u8,
    },
    Pass {
        sender: u8,
        receiver: u8,
    },
    Answer {
        sender: u8,
        receiver: u8,
        config: Config,
        held: Aggregate,
    },
    // The root (01: the desk).
    Report {
        root: u8,
        config: Config,
        held: Aggregate,
    },
    Closing {
        lot: u64,
        steps: u64,
        links: u32,
    },
    // A station is a second case, no Option: `words_of` has the two.
    Refused(u8),
    RefusedStation(u8, u8),
}

// Room for every line.
pub const LINE_ROOM: usize = 400;

const MOST_DIGITS: u8 = 20;

// A lent buffer, and the place that the next byte goes to. Each method asks for room: what it asks speaks of what it puts, so no invariant of the
// Writer says it.
#[derive(Drop)]
struct Writer<'a> {
    buf: &'a mut [u8],
    at: usize,
}

impl Writer<'_> {
    fn put_word(&mut self, word: &[u8])
        requires { Fits self.old word.now }
        ensures { Puts self.old word.now self.new }
    {
        let end = self.at + word.len();
        self.buf[self.at..end].copy_from_slice(word);
        self.at = end;
    }

    fn put_digit(&mut self, d: u8)
        requires room { Fits self.old (digit d) }
        requires below { d < 10 }
        ensures { Puts self.old (digit d) self.new }
    {
        self.buf[self.at] = b'0' + d;
        self.at += 1;
    }

    // n in decimal, by at most `most` digits. By hand: std's Display goes through a Formatter, and `put_line` promises each byte by `digits`.
    fn put_number(&mut self, n: u64, most: u8)
        requires { Fits self.old (digits most n) }
        ensures { Puts self.old (digits most n) self.new }
    {
        if most == 0 {
            return;
        }
        if n < 10 {
            self.put_digit(n as u8);
            return;
        }
        self.put_number(n / 10, most - 1);
        self.put_digit((n % 10) as u8);
    }

    // A word, then a number.
    fn put_item(&mut self, word: &[u8], n: u64)
        requires { Fits self.old (item word.now n) }
        ensures { Puts self.old (item word.now n) self.new }
    {
        self.put_word(word);
        self.put_number(n, MOST_DIGITS);
    }

    // Two words, each with a number.
    fn put_two(&mut self, a: &[u8], x: u64, b: &[u8], y: u64)
        requires { Fits self.old (item a.now x ++ item b.now y) }
        ensures { Puts self.old (item a.now x ++ item b.now y) self.new }
    {
        self.put_item(a, x);
        self.put_item(b, y);
    }

    // One class: its sum, then its missing number.
    #[tactic(auto, unfolding(crate::specs::Text::cell_text))]
    fn put_cell(&mut self, x: Cell)
        requires { Fits self.old (cell_text x) }
        ensures { Puts self.old (cell_text x) self.new }
    {
        self.put_two(b" ", x.sum, b" ", x.missing as u64);
    }

    // What an answer or a report carries: each class in use, in turn.
    fn put_aggregate(&mut self, t: Config, v: Aggregate)
        requires { Fits self.old (aggregate_text t v) }
        ensures { Puts self.old (aggregate_text t v) self.new }
    {
        for class in 0..aggregate::count_used(t) {
            self.put_cell(aggregate::class_of(v, class));
        }
    }

    // The line, but for its line feed.
    fn put_words(&mut self, line: Line)
        requires { Fits self.old (words_of line) }
        ensures { Puts self.old (words_of line) self.new }
    {
        match line {
            Line::Wake { sender, receiver } => {
                self.put_two(b"wake ", sender as u64, b" ", receiver as u64)
            }
            Line::Pass { sender, receiver } => {
                self.put_two(b"pass ", sender as u64, b" ", receiver as u64)
            }
            Line::Answer {
                sender,
                receiver,
                config,
                held,
            } => {
                self.put_two(b"answer ", sender as u64, b" ", receiver as u64);
                self.put_aggregate(config, held)
            }
            Line::Report { root, config, held } => {
                self.put_item(b"report ", root as u64);
                self.put_aggregate(config, held)
            }
            Line::Closing { lot, steps, links } => {
                self.put_two(b"lot ", lot, b" steps ", steps);
                self.put_item(b" links ", links as u64)
            }
            Line::Refused(number) => self.put_item(b"refused ", number as u64),
            Line::RefusedStation(number, station) => self.put_two(
                b"refused ",
                number as u64,
                b" station ",
                station as u64,
            ),
        }
    }
}

// Puts the line at the start of buf and answers its length. A buf of under 400 bytes is left as it was, and the answer is 0.
pub fn put_line(buf: &mut [u8], line: Line) -> usize
    ensures count { result ≡ length (text_in (length buf.old) line) }
    ensures bytes { buf.new ≡ over (text_in (length buf.old) line) buf.old }
{
    if buf.len() < LINE_ROOM {
        return 0;
    }
    let mut writer = Writer { buf, at: 0 };
    writer.put_words(line);
    writer.put_word(b"\n");
    writer.at
}

// Puts the bytes of word from `at` on, and answers the place after them. A buf without room for them is left as it was, and the answer is `at`.
pub fn put_bytes(buf: &mut [u8], at: usize, word: &[u8]) -> usize
    ensures end { result ≡ laid_end buf.old at word.now }
    ensures bytes { buf.new ≡ laid buf.old at word.now }
{
    if buf.len() < at || buf.len() - at < word.len() {
        return at;
    }
    let mut writer = Writer { buf, at };
    writer.put_word(word);
    writer.at
}

// n in decimal, right-aligned in 20 columns.
pub fn align(n: u64) -> [u8; 20]
    ensures { result ≡ padded 20 (digits 20 n) }
{
    let mut left = [b' '; 20];
    let mut writer = Writer {
        buf: &mut left,
        at: 0,
    };
    writer.put_number(n, MOST_DIGITS);
    let count = writer.at;
    let mut columns = [b' '; 20];
    columns[20 - count..].copy_from_slice(&left[..count]);
    columns
}
