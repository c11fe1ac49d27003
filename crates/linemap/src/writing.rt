// The parts of writing: rows, trailer and check word, laid one after the other.
ghost use Rattle.std.specs.Prelude.{◌≡◌, ◌+◌, ◌*◌, ◌<◌, ◌≤◌, ◌++◌, length};
ghost use Rattle.finite.specs.Below.{each};
ghost use Rattle.finite.specs.Numbers.{bytes};
ghost use Rattle.linemap.specs.Stored.{row_length, trailer_length, stored_length, row_bytes, trailer_bytes, check_word, stored_of};
ghost use Rattle.linemap.specs.Internal.Stages;

use crate::Map;
use crate::numbers::{put, sum_words};

// The counts of a row, from `at`.
fn put_counts(buf: &mut [u8], at: usize, counts: &[u32])
    requires { at + 4 * length counts.now ≤ length buf.old }
    ensures { buf.new ≡ Stages.put buf.old at (Stages.bytes_of_counts counts.now) }
{
    for (j, count) in counts.iter().enumerate() {
        put(buf, at + crate::COUNT_LENGTH * j, 4, *count as u64);
    }
}

fn put_row(buf: &mut [u8], at: usize, counts: &[u32], set: u64)
    requires { at + row_length (length counts.now) ≤ length buf.old }
    ensures { buf.new ≡ Stages.put buf.old at (Stages.bytes_of_counts counts.now ++ bytes 8 set) }
{
    put_counts(buf, at, counts);
    put(buf, at + crate::COUNT_LENGTH * counts.len(), 8, set);
}

fn put_rows(m: Map, buf: &mut [u8])
    requires { (m.classes ≤ 8) × (m.k ≤ 64) × (row_length m.classes * m.k ≤ length buf.old) }
    ensures { buf.new ≡ Stages.put buf.old 0 (each (row_bytes m.classes m.counts m.neighbours) m.k) }
{
    let k = m.k as usize;
    let classes = m.classes as usize;
    let width = crate::row_length(m.classes);
    for i in 0..k {
        let first = crate::PLACES * i;
        put_row(
            buf,
            width * i,
            &m.counts[first..first + classes],
            m.neighbours[i],
        );
    }
}

// The trailer, but for the check word.
fn put_trailer(buf: &mut [u8], width: usize, k: usize, desk: u8, lot: u64)
    requires { width * k + trailer_length ≤ length buf.old }
    ensures { buf.new ≡ Stages.put buf.old (width * k) (trailer_bytes width k desk lot) }
{
    let t = width * k;
    put(buf, t, 1, k as u64);
    put(buf, t + 1, 1, desk as u64);
    put(buf, t + 2, 2, width as u64);
    put(buf, t + 4, 2, t as u64);
    put(buf, t + 6, 2, lot / crate::LOWER_LIMIT);
    put(buf, t + 8, 4, lot % crate::LOWER_LIMIT);
}

// What takes a sum to zero.
fn check_word(sum: u32) -> u64
    ensures { result ≡ check_word sum }
{
    sum.wrapping_neg() as u64
}

// The stored form of m, from the first byte of buf.
pub(crate) fn put_map(m: Map, buf: &mut [u8])
    requires { (m.classes ≤ 8) × (m.k ≤ 64) × (stored_length m.classes m.k ≤ length buf.old) }
    ensures { buf.new ≡ Stages.put buf.old 0 (stored_of m) }
{
    let k = m.k as usize;
    let width = crate::row_length(m.classes);
    put_rows(m, buf);
    put_trailer(buf, width, k, m.desk, m.lot);
    let need = crate::stored_length(m.classes, m.k);
    let sum = sum_words(buf, 0, need / 4 - 1);
    put(buf, need - 4, 4, check_word(sum));
}
