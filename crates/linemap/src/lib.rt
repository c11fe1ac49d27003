// The line map and its stored form (document 01, "The line map"): read, accept, count links, write.
#![tactic(auto)]

ghost use Rattle.std.specs.Prelude.{◌≡◌, ◌≤◌, length, slice_index, slice_get};
ghost use Rattle.topology.specs.Acceptance;
ghost use Rattle.linemap.specs.Maps;
ghost use Rattle.linemap.specs.Stored;
ghost use Rattle.linemap.specs.Reading;
ghost use Rattle.linemap.specs.Writing;
ghost use Rattle.linemap.specs.Openings;
ghost use Rattle.linemap.specs.declared.ReadFault.{ReadFault};
ghost use Rattle.linemap.specs.declared.WriteFault.{WriteFault};
ghost use Rattle.linemap.specs.declared.FreshFault.{FreshFault};

use aggregate::Config;
use topology::Fault;

mod numbers;
mod reading;
mod writing;

// The bytes of a count, and of a set, in a row.
const COUNT_LENGTH: usize = 4;

const SET_LENGTH: usize = 8;

const TRAILER_LENGTH: usize = 16;

// A stored lot has 48 bits, so it is below this.
const LOT_LIMIT: u64 = 1 << 48;

// It is stored in two parts: the lower is below this.
const LOWER_LIMIT: u64 = 1 << 32;

// The places that a station has among the counts.
const PLACES: usize = 8;

// A line map by value: the desk, the lot number, and each station's counts, one a class, and set of neighbours. The count of station i and class j
// stands at place 8 × i + j. Places of stations past k and of classes past the class count hold zero after reading.
#[repr(C)]
#[derive(Clone, Copy)]
pub struct Map {
    pub k: u8,
    pub classes: u8,
    pub desk: u8,
    pub lot: u64,
    pub counts: [u32; 512],
    pub neighbours: [u64; 64],
}

// Why no map is read.
#[derive(Clone, Copy, Debug, PartialEq, Eq)]
pub enum ReadFault {
    // Fewer bytes than a trailer has.
    Short,
    Distance,
    // The rows start before the lent bytes.
    Rows,
    // The words do not add to zero.
    CheckWord,
    // The map is not accepted.
    Unfit(Fault),
}

impl ReadFault {
    // Its number in document 01's table ("Causes and numbers").
    pub fn number(self) -> u8
        ensures { result ≡ slice_index (Reading.read_fault_numbers self) 0 }
    {
        match self {
            ReadFault::Short => 1,
            ReadFault::Distance => 4,
            ReadFault::Rows => 5,
            ReadFault::CheckWord => 6,
            ReadFault::Unfit(fault) => fault.number(),
        }
    }

    // The station that comes with the number, where one does.
    pub fn station(self) -> Option<u8>
        ensures { result ≡ slice_get (Reading.read_fault_numbers self) 1 }
    {
        match self {
            ReadFault::Short | ReadFault::Distance | ReadFault::Rows | ReadFault::CheckWord => None,
            ReadFault::Unfit(fault) => fault.station(),
        }
    }
}

impl From<Fault> for ReadFault {
    ghost from_gives = { λ fault r. r ≡ ReadFault.Unfit fault };

    fn from(fault: Fault) -> ReadFault {
        ReadFault::Unfit(fault)
    }
}

// Why no map is written.
#[derive(Clone, Copy, Debug, PartialEq, Eq)]
pub enum WriteFault {
    Unfit(Fault),
    // The lot is too long for its bytes.
    Lot,
    // The buffer is too short: the length needed.
    Buffer(usize),
}

impl From<Fault> for WriteFault {
    ghost from_gives = { λ fault r. r ≡ WriteFault.Unfit fault };

    fn from(fault: Fault) -> WriteFault {
        WriteFault::Unfit(fault)
    }
}

// Why no net is opened on a map.
#[derive(Clone, Copy, Debug, PartialEq, Eq)]
pub enum FreshFault {
    // The map is not accepted.
    Unfit(Fault),
    // There is no such way of joining counts.
    Way,
}

impl From<Fault> for FreshFault {
    ghost from_gives = { λ fault r. r ≡ FreshFault.Unfit fault };

    fn from(fault: Fault) -> FreshFault {
        FreshFault::Unfit(fault)
    }
}

// The map of no stations (`empty_map`).
pub fn empty() -> Map
    ensures { result ≡ Reading.empty_map }
{
    Map {
        k: 0,
        classes: 0,
        desk: 0,
        lot: 0,
        counts: [0u32; 512],
        neighbours: [0u64; 64],
    }
}

// The bytes of a row with so many counts.
fn row_length(classes: u8) -> usize
    ensures { (result ≡ Stored.row_length classes) × (result ≤ 1028) }
{
    SET_LENGTH + COUNT_LENGTH * (classes as usize)
}

// The bytes that a map of k stations fills.
pub fn stored_length(classes: u8, k: u8) -> usize
    ensures { result ≡ Stored.stored_length classes k }
{
    row_length(classes) * (k as usize) + TRAILER_LENGTH
}

// What a net on this map is opened with, to join counts the way.
pub fn config(m: Map, way: u8) -> Config
    ensures { result ≡ Maps.config_of way m }
{
    Config {
        k: m.k,
        classes: m.classes,
        desk: m.desk,
        way,
    }
}

// The rules on a map handed over: 2, 3, 19, then 7 to 10.
pub fn accept(m: Map) -> Result<(), Fault>
    ensures { Acceptance.verdict_numbers result ≡ Maps.acceptance m }
{
    if !aggregate::is_class_count(m.classes as u64) {
        return Err(Fault::Classes);
    }
    // A reference into the map would have all of it copied.
    let neighbours = m.neighbours;
    topology::accept(m.desk, m.k, &neighbours)
}

// Whether a net is opened on a map, to join counts the way: the map's numbers, then 12.
pub fn open(m: Map, way: u8) -> Result<(), FreshFault>
    ensures { Openings.fresh_numbers result ≡ Openings.openable way m }
{
    accept(m)?;
    if !aggregate::is_way(way) {
        return Err(FreshFault::Way);
    }
    Ok(())
}

// The number of links of an accepted map.
pub fn links(m: Map) -> Result<u32, Fault>
    ensures { Acceptance.links_numbers result ≡ Maps.links_in m }
{
    if !aggregate::is_class_count(m.classes as u64) {
        return Err(Fault::Classes);
    }
    // As in `accept`.
    let neighbours = m.neighbours;
    topology::links(m.desk, m.k, &neighbours)
}

// Whether a lot fits its 48 bits.
pub fn is_storable(lot: u64) -> bool
    ensures { result ≡ Writing.is_storable lot }
{
    lot < LOT_LIMIT
}

// The last map in s.
pub fn read(s: &[u8]) -> Result<Map, ReadFault>
    ensures { Reading.read_outcome_of result ≡ Reading.reading s.now }
{
    let Some(trailer) = reading::read_trailer(s) else {
        return Err(ReadFault::Short);
    };
    trailer.judge()?;
    reading::read_rows(
        s,
        trailer.classes(),
        trailer.stations as u8,
        trailer.desk as u8,
        trailer.lot,
    )
}

// The stored form of m, from the first byte of buf.
pub fn write(m: Map, buf: &mut [u8]) -> Result<usize, WriteFault>
    ensures answer { Writing.write_numbers result ≡ Writing.writing m (length buf.old) }
    ensures bytes { buf.new ≡ Writing.written m buf.old }
{
    accept(m)?;
    if !is_storable(m.lot) {
        return Err(WriteFault::Lot);
    }
    let need = stored_length(m.classes, m.k);
    if buf.len() < need {
        return Err(WriteFault::Buffer(need));
    }
    writing::put_map(m, buf);
    Ok(need)
}
