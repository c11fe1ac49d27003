// The parts of reading: the trailer, its rules, a row, the rows. Each answers by an enum or passes a refusal on.
ghost use Rattle.std.specs.Prelude.{◌≡◌, ◌+◌, ◌*◌, ◌<◌, ◌≤◌, true, length};
ghost use Rattle.finite.specs.Below.{tabulate};
ghost use Rattle.linemap.specs.Reading;
ghost use Rattle.linemap.specs.Internal.Stages;

use crate::numbers::{get, sum_words};
use crate::{Map, ReadFault};
use topology::Fault;

#[derive(Clone, Copy)]
pub(crate) struct Trailer {
    pub(crate) stations: u64,
    pub(crate) desk: u64,
    pub(crate) row_length: u64,
    pub(crate) distance: u64,
    pub(crate) lot: u64,
}

// The counts of a row are read from the place of its first byte.
#[derive(Clone, Copy)]
pub(crate) struct Row {
    at: usize,
    set: u64,
}

// The trailer is the last 16 bytes, where there are so many.
pub(crate) fn read_trailer(s: &[u8]) -> Option<Trailer>
    ensures { result ≡ Stages.trailer_of s.now }
{
    let n = s.len();
    if n < crate::TRAILER_LENGTH {
        return None;
    }
    let t = n - crate::TRAILER_LENGTH;
    Some(Trailer {
        stations: get(s, t, 1),
        desk: get(s, t + 1, 1),
        row_length: get(s, t + 2, 2),
        distance: get(s, t + 4, 2),
        lot: get(s, t + 8, 4) + crate::LOWER_LIMIT * get(s, t + 6, 2),
    })
}

// One of 12, 16, .. 40.
fn is_row_length(row_length: u64) -> bool
    ensures { result ≡ Reading.is_row_length row_length }
{
    (row_length % 4 == 0) & (12 <= row_length) & (row_length <= 40)
}

impl Trailer {
    // The rules 2, 3, 19 and 4.
    pub(crate) fn judge(self) -> Result<(), ReadFault>
        ensures { result ≡ Stages.trailer_answer self }
    {
        if !is_row_length(self.row_length) {
            return Err(ReadFault::Unfit(Fault::Classes));
        }
        if !bitset::is_station_count(self.stations) {
            return Err(ReadFault::Unfit(Fault::Stations));
        }
        if self.stations <= self.desk {
            return Err(ReadFault::Unfit(Fault::Desk));
        }
        if self.distance != self.row_length * self.stations {
            return Err(ReadFault::Distance);
        }
        Ok(())
    }

    // How many counts a row has.
    pub(crate) fn classes(self) -> u8
        requires { Reading.is_row_length self.row_length ≡ true }
        ensures { result ≡ Reading.classes_of self.row_length }
    {
        ((self.row_length - 8) / 4) as u8
    }
}

// The row of so many bytes whose first stands so far before the end; none where that is before the lent bytes.
fn read_row(s: &[u8], width: usize, back: usize) -> Option<Row>
    requires { (12 ≤ width) × (width ≤ back) }
    ensures { result ≡ Stages.row_of s.now width back }
{
    let n = s.len();
    if n < back {
        return None;
    }
    let at = n - back;
    Some(Row {
        at,
        set: get(s, at + (width - crate::SET_LENGTH), 8),
    })
}

// The counts of the row that starts at `at`, into their places.
fn read_counts(s: &[u8], at: usize, counts: &mut [u32])
    requires { at + 4 * length counts.old ≤ length s.now }
    ensures { counts.new ≡ tabulate (length counts.old) (Reading.count_in s.now at) }
{
    for (j, count) in counts.iter_mut().enumerate() {
        *count = get(s, at + crate::COUNT_LENGTH * j, 4) as u32;
    }
}

// The map, if the rules 7 to 10 accept it.
fn judge(m: Map) -> Result<Map, ReadFault>
    ensures { Reading.read_outcome_of result ≡ Reading.judged m }
{
    crate::accept(m)?;
    Ok(m)
}

// The map of the k rows before the trailer: the rules 5 to 10.
pub(crate) fn read_rows(s: &[u8], classes: u8, k: u8, desk: u8, lot: u64) -> Result<Map, ReadFault>
    requires { (1 ≤ classes) × (classes ≤ 8) × (0 < k) × (k ≤ 64) }
    ensures { Reading.read_outcome_of result ≡ Stages.rows_outcome s.now classes k desk lot }
{
    let need = crate::stored_length(classes, k);
    let width = crate::row_length(classes);
    let mut counts = [0u32; 512];
    let mut neighbours = [0u64; 64];
    for i in 0..k as usize {
        let Some(Row { at, set }) = read_row(s, width, need - width * i) else {
            return Err(ReadFault::Rows);
        };
        let first = crate::PLACES * i;
        read_counts(s, at, &mut counts[first..first + classes as usize]);
        neighbours[i] = set;
    }
    let start = s.len() - need;
    if sum_words(s, start, need / 4) != 0 {
        return Err(ReadFault::CheckWord);
    }
    judge(Map {
        k,
        classes,
        desk,
        lot,
        counts,
        neighbours,
    })
}
