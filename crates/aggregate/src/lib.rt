// What a station has gathered, class by class, and how two of these are joined. The crates above read these records where they store, test or
// show them, and leave the joining to this one.
#![tactic(auto)]

ghost use Rattle.std.specs.Prelude.{◌≡◌, true, cond, Ok, Err, ℕ, ◌<◌, max, min, eqb, get_or};
ghost use Rattle.finite.specs.Numbers.{bytes};
ghost use Rattle.aggregate.specs.Ways.{greatest, is_way, has_none, chosen_of, sum_joined, empty_sum};
ghost use Rattle.aggregate.specs.Aggregate.{root_of, is_class_count, valid, used, cell, sum_bounded, cell_bounded, bounded, nothing, cell_gathered, gathered};
ghost use Rattle.aggregate.specs.Aggregate.{joined, joinable, clipped, missing_word, from_words, of_words};

// What a net is opened with: the number of its stations, and of the classes that are counted, its desk, and its way of joining counts. The way is a
// byte, as the C interface has it: any byte may be lent, and one that is no way is out of form.
#[repr(C)]
#[derive(Clone, Copy, PartialEq, Eq)]
pub struct Config {
    pub k: u8,
    pub classes: u8,
    pub desk: u8,
    pub way: u8,
}

// What a station counted, class by class; the largest count stands for no reading, as in the map that C lends.
#[derive(Clone, Copy)]
pub struct Reading {
    pub counts: [u32; 8],
}

// What is gathered of one class: counts, and how many had no reading.
#[derive(Clone, Copy)]
pub struct Cell {
    pub sum: u64,
    pub missing: u8,
}

// What a station has gathered, of itself and of the stations that answered it: sums and missing numbers apart, as the C interface has them.
#[repr(C)]
#[derive(Clone, Copy)]
pub struct Aggregate {
    pub sums: [u64; 8],
    pub missing: [u8; 8],
}

const MOST_CLASSES: usize = 8;

// The count of a head without a reading.
pub const NO_READING: u32 = u32::MAX;

// The ways of joining counts.
pub const SUMMING: u8 = 0;

const GREATEST: u8 = 1;

const LEAST: u8 = 2;

const COUNTING: u8 = 3;

// The greatest or the least of no readings: a number, as the C interface has it.
const NONE: u64 = u64::MAX;

// Sums of well-formed stations are below this, but for none.
const SUM_LIMIT: u64 = 1 << 62;

// Their missing numbers are at most this.
const MOST_MISSING: u8 = 64;

// The root, which starts the wave and reports (01: the desk).
pub fn root(t: Config) -> u8
    ensures { result ≡ root_of t }
{
    t.desk
}

// Whether there may be so many classes.
pub fn is_class_count(c: u64) -> bool
    ensures { result ≡ is_class_count c }
{
    (0 < c) & (c <= MOST_CLASSES as u64)
}

// Whether counts may be joined so.
pub fn is_way(way: u8) -> bool
    ensures { result ≡ is_way way }
{
    way <= COUNTING
}

// Whether a value stands for no readings, the way.
fn has_none(way: u8) -> bool
    ensures { result ≡ has_none way }
{
    (way == GREATEST) | (way == LEAST)
}

// Whether a net may be opened so.
pub fn is_valid(t: Config) -> bool
    ensures { result ≡ valid t }
{
    bitset::is_station_count(t.k as u64)
        & is_class_count(t.classes as u64)
        & (root(t) < t.k)
        & is_way(t.way)
}

// How many classes are in use: loops over them end there.
pub fn count_used(t: Config) -> usize
    ensures { result ≡ used t }
{
    (t.classes as usize).min(MOST_CLASSES)
}

// One of the eight classes, counted from 0.
fn place(a: &Aggregate, i: usize) -> Cell
    requires { i < 8 }
    ensures { result ≡ cell a.now i }
{
    Cell {
        sum: a.sums[i],
        missing: a.missing[i],
    }
}

// One class, counted from 0; past the eighth, nothing.
pub fn class_of(a: Aggregate, i: usize) -> Cell
    ensures { result ≡ cell a i }
{
    if i < MOST_CLASSES {
        return place(&a, i);
    }
    Cell { sum: 0, missing: 0 }
}

// Whether a class is one that a well-formed station may hold. A form is tested often, and nearly all sums are small: the way is asked for the others
// alone.
fn is_cell_bounded(way: u8, x: Cell) -> bool
    ensures { result ≡ cell_bounded way x }
{
    if MOST_MISSING < x.missing {
        return false;
    }
    if x.sum < SUM_LIMIT {
        return true;
    }
    has_none(way) & (x.sum == NONE)
}

// Whether a is one that a well-formed station may hold.
pub fn is_bounded(t: Config, a: Aggregate) -> bool
    ensures { result ≡ bounded t a }
{
    for class in 0..count_used(t) {
        if !is_cell_bounded(t.way, place(&a, class)) {
            return false;
        }
    }
    true
}

// Zero in every class.
pub fn empty() -> Aggregate
    ensures { result ≡ nothing }
{
    Aggregate {
        sums: [0u64; 8],
        missing: [0u8; 8],
    }
}

// The joining of no counts.
fn empty_sum(way: u8) -> u64
    ensures { result ≡ empty_sum way }
{
    if has_none(way) { NONE } else { 0 }
}

// What one count gives.
fn gather_cell(way: u8, count: u32) -> Cell
    ensures { result ≡ cell_gathered way count }
{
    if count == NO_READING {
        return Cell {
            sum: empty_sum(way),
            missing: 1,
        };
    }
    if way == COUNTING {
        return Cell { sum: 1, missing: 0 };
    }
    Cell {
        sum: count as u64,
        missing: 0,
    }
}

// One of two sums, the greater or the lesser; none gives way to a count.
fn choose(way: u8, x: u64, y: u64) -> u64
    ensures { result ≡ chosen_of (cond (eqb way greatest) max min) x y }
{
    if x == NONE {
        return y;
    }
    if y == NONE {
        return x;
    }
    if way == GREATEST { x.max(y) } else { x.min(y) }
}

// Two sums, joined the way.
fn join_sums(way: u8, x: u64, y: u64) -> u64
    requires { (sum_bounded way x ≡ true) × (sum_bounded way y ≡ true) }
    ensures { result ≡ sum_joined way x y }
{
    if has_none(way) {
        return choose(way, x, y);
    }
    x + y
}

// What a station's own reading gives.
pub fn gather(t: Config, r: Reading) -> Aggregate
    ensures { result ≡ gathered t r }
{
    let mut sums = [0u64; 8];
    let mut missing = [0u8; 8];
    for class in 0..count_used(t) {
        let x = gather_cell(t.way, r.counts[class]);
        sums[class] = x.sum;
        missing[class] = x.missing;
    }
    Aggregate { sums, missing }
}

// Both together, in the classes in use; where one of them is not bounded, a as it was.
pub fn join(t: Config, a: Aggregate, b: Aggregate) -> Result<Aggregate, Aggregate>
    ensures { result ≡ cond (joinable t a b) (Ok (joined t a b)) (Err a) }
{
    let way = t.way;
    let mut both = a;
    for class in 0..count_used(t) {
        let x = place(&a, class);
        let y = place(&b, class);
        if !(is_cell_bounded(way, x) & is_cell_bounded(way, y)) {
            return Err(a);
        }
        both.sums[class] = join_sums(way, x.sum, y.sum);
        both.missing[class] = x.missing + y.missing;
    }
    Ok(both)
}

// What a station gives of a: zero in the places past the classes in use.
pub fn clip(t: Config, a: Aggregate) -> Aggregate
    ensures { result ≡ clipped t a }
{
    let mut sums = [0u64; 8];
    let mut missing = [0u8; 8];
    for class in 0..count_used(t) {
        sums[class] = a.sums[class];
        missing[class] = a.missing[class];
    }
    Aggregate { sums, missing }
}

// The missing numbers in one word, a byte each, class 0 lowest, from which they are read again.
pub fn missing_word(a: Aggregate) -> u64
    ensures word { result ≡ missing_word a }
    ensures again { bytes 8 result ≡ a.missing }
{
    u64::from_le_bytes(a.missing)
}

// What eight sums and a word of missing numbers hold, in every place.
pub fn of_words(sums: [u64; 8], word: u64) -> Aggregate
    ensures { result ≡ of_words sums word }
{
    Aggregate {
        sums,
        missing: word.to_le_bytes(),
    }
}

// What the sums of the classes in use and a word of missing numbers hold.
pub fn from_words(t: Config, words: [u64; 8], word: u64) -> Aggregate
    ensures { result ≡ from_words t (λ (i : ℕ). get_or words i 0) word }
{
    clip(t, of_words(words, word))
}
