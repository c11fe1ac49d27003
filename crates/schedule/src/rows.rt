// The list of allowed steps, held as rows: for each sender and kind, the set of the receivers. A kind of net brings its rows; the search
// for a step by its number is the same for all.
ghost use Rattle.std.specs.Prelude.{◌≡◌, ◌<◌, ◌≤◌, slice_index};
ghost use Rattle.bitset.specs.Set.{size};
ghost use Rattle.schedule.specs.Rows;

use crate::Step;
use bitset::contains;

// How many steps rows list, by kind: a sender has four rows, of kinds 1 to 4. A net that has a fifth kind has its rows beside them.
#[derive(Clone, Copy)]
pub struct Sizes {
    pub first: u32,
    pub second: u32,
    pub third: u32,
    pub fourth: u32,
}

// The four rows of a sender: to whom it may send, by kind.
#[derive(Clone, Copy)]
pub struct Four {
    pub first: u64,
    pub second: u64,
    pub third: u64,
    pub fourth: u64,
}

// The row at a place; past the rows there is none.
fn row_at(rows: &[u64], at: usize) -> u64
    ensures { result ≡ slice_index rows.now at }
{
    if at < rows.len() { rows[at] } else { 0 }
}

// How many steps a row lists. Most rows are empty, and a test is cheaper than a count.
fn row_size(row: u64) -> u32
    ensures { result ≡ size row }
{
    if row == 0 {
        0
    } else {
        bitset::size(row) as u32
    }
}

// Entry `index`, counted from 0, of the steps of one kind, or how many entries are still to pass where the list is too short. The scan over
// senders and receivers is left by its label once the entry is met, which is document 01's form. A row that ends before it is passed by its
// size, and eight receivers of whom none is in the row by one test: a `for`, which goes one by one, has no such step.
fn find_of_kind(rows: &[u64], kind: u8, k: u8, index: u32) -> Result<Step, u32>
    requires { 1 ≤ kind }
    ensures { result ≡ Rows.entry_of_kind rows.now k kind index }
{
    let mut left = index;
    let mut sender: u8 = 0;
    let mut receiver: u8 = 0;
    'scan: while sender < k {
        let set = row_at(rows, 4 * (sender as usize) + (kind as usize) - 1);
        let members = row_size(set);
        receiver = 0;
        if members <= left {
            left -= members;
            receiver = 64;
        }
        while receiver < 64 {
            if (set >> receiver) % 256 == 0 {
                receiver += 8;
            } else {
                if contains(set, receiver) {
                    if left == 0 {
                        break 'scan;
                    }
                    left -= 1;
                }
                receiver += 1;
            }
        }
        sender += 1;
    }
    if sender < k {
        return Ok(Step {
            kind,
            sender,
            receiver,
        });
    }
    Err(left)
}

// No steps.
pub fn no_sizes() -> Sizes
    ensures { result ≡ Rows.none }
{
    Sizes {
        first: 0,
        second: 0,
        third: 0,
        fourth: 0,
    }
}

// The sizes with the rows of one more sender. Most senders have none.
pub fn add(sizes: Sizes, a: u64, b: u64, c: u64, d: u64) -> Sizes
    ensures { result ≡ Rows.added sizes a b c d }
{
    if (a == 0) & (b == 0) & (c == 0) & (d == 0) {
        return sizes;
    }
    Sizes {
        first: sizes.first.wrapping_add(row_size(a)),
        second: sizes.second.wrapping_add(row_size(b)),
        third: sizes.third.wrapping_add(row_size(c)),
        fourth: sizes.fourth.wrapping_add(row_size(d)),
    }
}

// The sizes without the rows of one sender.
#[tactic(auto, unfolding(crate::specs::Rows::removed))]
pub fn remove(sizes: Sizes, a: u64, b: u64, c: u64, d: u64) -> Sizes
    ensures { result ≡ Rows.removed sizes a b c d }
{
    Sizes {
        first: sizes.first.wrapping_sub(row_size(a)),
        second: sizes.second.wrapping_sub(row_size(b)),
        third: sizes.third.wrapping_sub(row_size(c)),
        fourth: sizes.fourth.wrapping_sub(row_size(d)),
    }
}

// The four rows of a sender, stored where it has none, and the sizes with them. There are 64 senders: past them nothing is stored or counted.
pub fn store(rows: &mut [u64; 256], sizes: Sizes, sender: u8, four: Four) -> Sizes
    ensures rows { rows.new ≡ Rows.with_four rows.old sender four }
    ensures sizes { result ≡ Rows.sizes_stored sizes sender four }
{
    if 64 <= sender {
        return sizes;
    }
    let at = 4 * (sender as usize);
    rows[at] = four.first;
    rows[at + 1] = four.second;
    rows[at + 2] = four.third;
    rows[at + 3] = four.fourth;
    add(sizes, four.first, four.second, four.third, four.fourth)
}

// The same, where the sender has rows: they are counted off.
pub fn replace(rows: &mut [u64; 256], sizes: Sizes, sender: u8, four: Four) -> Sizes
    ensures rows { rows.new ≡ Rows.with_four rows.old sender four }
    ensures sizes { result ≡ Rows.sizes_replaced rows.old sizes sender four }
{
    if 64 <= sender {
        return sizes;
    }
    let at = 4 * (sender as usize);
    let rest = remove(sizes, rows[at], rows[at + 1], rows[at + 2], rows[at + 3]);
    store(rows, rest, sender, four)
}

// How many steps of all kinds there are.
#[tactic(auto, unfolding(crate::specs::Rows::total_of))]
pub fn total(sizes: Sizes) -> u32
    ensures { result ≡ Rows.total_of sizes }
{
    sizes
        .first
        .wrapping_add(sizes.second)
        .wrapping_add(sizes.third)
        .wrapping_add(sizes.fourth)
}

// Entry `index`, counted from 0, of all steps: a kind that ends before it is passed by its size.
fn find(rows: &[u64], sizes: Sizes, k: u8, index: u32) -> Result<Step, u32>
    ensures { result ≡ Rows.entry_by_size rows.now sizes k index }
{
    if index < sizes.first {
        return find_of_kind(rows, 1, k, index);
    }
    let second = index - sizes.first;
    if second < sizes.second {
        return find_of_kind(rows, 2, k, second);
    }
    let third = second - sizes.second;
    if third < sizes.third {
        return find_of_kind(rows, 3, k, third);
    }
    find_of_kind(rows, 4, k, third - sizes.third)
}

// Entry d mod c, counted from 0, of the c steps that the sizes add up to, if there are any.
pub fn pick(rows: &[u64], sizes: Sizes, k: u8, d: u16) -> Option<Step>
    ensures { result ≡ Rows.picked_by_size rows.now sizes k d }
{
    let c = total(sizes);
    if c == 0 {
        return None;
    }
    // None is found only where the sizes are not those of the rows.
    find(rows, sizes, k, d as u32 % c).ok()
}

// How many steps of a kind the rows list.
fn count_of_kind(rows: &[u64], kind: u8, k: u8) -> u32
    requires { 1 ≤ kind }
    ensures { result ≡ Rows.size_of rows.now k kind }
{
    let mut count = 0;
    for sender in 0..k {
        count += row_size(row_at(rows, 4 * (sender as usize) + (kind as usize) - 1));
    }
    count
}

// The step that is entry `index`, counted from 0, of all steps, those of the fifth kind after the others. Of the others it is what a draw of `index`
// picks, which is below their total: so `find` has one caller, and the compiler makes it part of that.
fn find_beside(rows: &[u64], sizes: Sizes, more: &[u64], k: u8, index: u32) -> Option<Step>
    requires { index < 65536 }
    ensures { result ≡ Rows.step_found (Rows.entry_beside rows.now sizes more.now k index) }
{
    let before = total(sizes);
    if index < before {
        return pick(rows, sizes, k, index as u16);
    }
    // None is found only where the sizes are not those of the rows.
    find_of_kind(more, 5, k, index - before).ok()
}

// Entry d mod c, counted from 0, of the c steps of five kinds: of the four that the sizes add up to, and of the fifth, which has rows of its own.
// A net without a fifth kind draws by `pick`, which has none to count.
pub fn pick_beside(rows: &[u64], sizes: Sizes, more: &[u64], k: u8, d: u16) -> Option<Step>
    ensures { result ≡ Rows.picked_beside rows.now sizes more.now k d }
{
    let c = total(sizes).wrapping_add(count_of_kind(more, 5, k));
    if c == 0 {
        return None;
    }
    find_beside(rows, sizes, more, k, d as u32 % c)
}
