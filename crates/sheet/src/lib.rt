// The grower sheet (document 02, request 7): lines of 40 bytes for one reported lot, of its map and its net of stations that meet. It stands
// above the library and uses its public calls alone.
#![tactic(auto)]

ghost use Rattle.std.specs.Prelude.{◌≡◌, ◌<◌};
ghost use Rattle.finite.specs.Below.{each};
ghost use Rattle.rendezvous.specs.Net.{net_in};
ghost use Rattle.sheet.specs.Layout.{column, spaced, lot_line, count_column, count_line, total_line, station_lines, total_lines, sheet_of};
ghost use Rattle.sheet.specs.Sheet.{sheet_outcome_of, agrees, are_narrow, is_reported, sheet_length, sheet_on};
ghost use Rattle.sheet.specs.declared.SheetFault.{SheetFault};
ghost use Rattle.sheet.specs.Internal.Laying.{Puts, Narrow, NarrowCell, NarrowSheet, FitStation, FitStations};

use aggregate::{Aggregate, Cell, Config};
use linemap::Map;
use station::Station;
use topology::Fault;

// The columns that `text::align` fills.
const COLUMNS: usize = 20;

// A line, with its line feed.
const LINE_LENGTH: usize = 41;

// A total of more than 12 digits is at least this.
const TOTAL_LIMIT: u64 = 1_000_000_000_000;

// Why no sheet is laid out.
#[derive(Clone, Copy, Debug, PartialEq, Eq)]
pub enum SheetFault {
    // The map is not accepted.
    Unfit(Fault),
    // The map's lot is too long to be written.
    Lot,
    // The net is out of form.
    OutOfForm,
    // The net was opened with another number of stations or classes, or another desk.
    Differs,
    // The desk is not finished, or a total is too long for its columns.
    Unreported,
    // The buffer is too short: the length needed.
    Buffer(usize),
}

impl From<Fault> for SheetFault {
    ghost from_gives = { λ fault r. r ≡ SheetFault.Unfit fault };

    fn from(fault: Fault) -> SheetFault {
        SheetFault::Unfit(fault)
    }
}

// A lent buffer, and the place that the next byte goes to. `text` has one of its own, whose methods ask for room; here a public call of `text` puts
// what there is room for, and room is asked for once, in `put_sheet`.
#[derive(Drop)]
struct Writer<'a> {
    buf: &'a mut [u8],
    at: usize,
}

impl Writer<'_> {
    fn put(&mut self, word: &[u8])
        ensures { Puts self.old word.now self.new }
    {
        self.at = text::put_bytes(self.buf, self.at, word);
    }

    // n in so many columns.
    fn put_number(&mut self, width: usize, n: u64)
        requires { Narrow width n }
        ensures { Puts self.old (column width n) self.new }
    {
        let columns = text::align(n);
        self.put(&columns[COLUMNS - width..]);
    }

    // n in so many columns, and a blank.
    fn put_spaced(&mut self, width: usize, n: u64)
        requires { Narrow width n }
        ensures { Puts self.old (spaced width n) self.new }
    {
        self.put_number(width, n);
        self.put(b" ");
    }

    fn put_lot(&mut self, lot: u64)
        requires { Narrow 15 lot }
        ensures { Puts self.old (lot_line lot) self.new }
    {
        self.put_number(15, lot);
        self.put(b"                         \n");
    }

    // A count, or ten hyphens where there was no reading.
    fn put_count(&mut self, count: u32)
        ensures { Puts self.old (count_column count) self.new }
    {
        if count == aggregate::NO_READING {
            self.put(b"----------");
        } else {
            self.put_number(10, count as u64);
        }
    }

    // The line of station i and class j.
    fn put_count_line(&mut self, i: u8, j: u8, count: u32)
        requires { (i < 64) × (j < 8) }
        ensures lays { Puts self.old (count_line i j count) self.new }
        ensures fits { count < 4294967296 }
    {
        self.put_spaced(2, i as u64);
        self.put_spaced(1, j as u64 + 1);
        self.put_count(count);
        self.put(b"                         \n");
    }

    // The last line of class j.
    fn put_total_line(&mut self, j: u8, x: Cell)
        requires j_bound { j < 8 }
        requires narrow_cell { NarrowCell x }
        ensures { Puts self.old (total_line j x) self.new }
    {
        self.put(b"T  ");
        self.put_spaced(1, j as u64 + 1);
        self.put_spaced(12, x.sum);
        self.put_number(2, x.missing as u64);
        self.put(b"                    \n");
    }
}

// A map and its totals, whose numbers fit their columns. With the totals by value all of the map would be copied.
#[derive(Drop)]
struct Sheet<'a> {
    map: &'a Map,
    held: &'a Aggregate,
    ghost narrow: { NarrowSheet map.now held.now },
}

impl Sheet<'_> {
    // How many bytes it fills.
    fn length(&self) -> usize
        ensures { result ≡ sheet_length self.now.map.now }
    {
        let classes = self.map.classes as usize;
        LINE_LENGTH * (1 + self.map.k as usize * classes + classes)
    }

    // The lines of station i, one a class.
    fn put_station(&self, writer: &mut Writer, i: u8)
        requires { i < 64 }
        ensures lays { Puts writer.old (station_lines self.now.map.now i) writer.new }
        ensures fits { FitStation self.now.map.now.counts i self.now.map.now.classes }
    {
        let first = 8 * i as usize;
        for j in 0..self.map.classes {
            writer.put_count_line(i, j, self.map.counts[first + j as usize]);
        }
    }

    // The lines of all stations.
    fn put_stations(&self, writer: &mut Writer)
        ensures lays { Puts writer.old (each (station_lines self.now.map.now) self.now.map.now.k) writer.new }
        ensures fits { FitStations self.now.map.now.counts self.now.map.now.classes self.now.map.now.k }
    {
        for i in 0..self.map.k {
            self.put_station(writer, i);
        }
    }

    // The last lines, one a class.
    fn put_totals(&self, writer: &mut Writer)
        ensures { Puts writer.old (total_lines self.now.map.now.classes self.now.held.now) writer.new }
    {
        for j in 0..self.map.classes {
            writer.put_total_line(j, aggregate::class_of(*self.held, j as usize));
        }
    }

    // The whole sheet.
    fn put_lines(&self, writer: &mut Writer)
        ensures lays { Puts writer.old (sheet_of self.now.map.now self.now.held.now) writer.new }
        ensures fits { FitStations self.now.map.now.counts self.now.map.now.classes self.now.map.now.k }
    {
        writer.put_lot(self.map.lot);
        self.put_stations(writer);
        self.put_totals(writer);
    }
}

// Whether two nets are opened alike.
fn agrees(s: Config, t: Config) -> bool
    ensures { result ≡ agrees s t }
{
    s == t
}

// Whether each of so many totals fits its columns.
fn are_narrow(classes: u8, s: Station) -> bool
    ensures { result ≡ are_narrow classes s }
{
    (0..classes).all(|j| aggregate::class_of(s.held, j as usize).sum < TOTAL_LIMIT)
}

// Whether a desk has reported, and its totals fit their columns.
fn is_reported(classes: u8, desk: Station) -> bool
    ensures { result ≡ is_reported classes desk }
{
    (desk.state == station::FINISHED) & are_narrow(classes, desk)
}

// The sheet of a map and its net, from the first byte of out, and how many bytes it fills: 2, 3, 19, 7 to 10 and 18 for the map, 11 for the net,
// then 20, 21 and 15.
pub fn put_sheet(
    m: Map,
    net: &[u64; 705],
    totals: &[u64; 576],
    out: &mut [u8],
) -> Result<usize, SheetFault>
    ensures { sheet_outcome_of result out.new ≡ sheet_on m (net_in net.now totals.now) out.old }
{
    linemap::accept(m)?;
    if !linemap::is_storable(m.lot) {
        return Err(SheetFault::Lot);
    }
    if !rendezvous::is_well_formed(net, totals) {
        return Err(SheetFault::OutOfForm);
    }
    let t = stations::config_in(net);
    if !agrees(linemap::config(m, aggregate::SUMMING), t) {
        return Err(SheetFault::Differs);
    }
    let desk = stations::load(net, aggregate::root(t));
    if !is_reported(m.classes, desk) {
        return Err(SheetFault::Unreported);
    }
    let sheet = Sheet {
        map: &m,
        held: &desk.held,
    };
    let need = sheet.length();
    if out.len() < need {
        return Err(SheetFault::Buffer(need));
    }
    let mut writer = Writer { buf: out, at: 0 };
    sheet.put_lines(&mut writer);
    Ok(need)
}
