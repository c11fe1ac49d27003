// Acceptance of a line map's sets of neighbours, and the number of its links (document 01, "The line map").
#![tactic(auto)]

ghost use Rattle.std.specs.Prelude.{◌≡◌, true, ◌<◌, ◌≤◌, slice_index, slice_get};
ghost use Rattle.finite.specs.Links;
ghost use Rattle.bitset.specs.Set;
ghost use Rattle.topology.specs.Acceptance;
ghost use Rattle.topology.specs.Internal.Matrix;
ghost use Rattle.topology.specs.Internal.Parts;

use bitset::{bit_if, contains, is_within, size};

mod matrix;

// Why a map is refused; a case holds the lowest offender.
#[derive(Clone, Copy, Debug, PartialEq, Eq)]
pub enum Fault {
    // A line map's class count is not 1 to 8. No set shows it: the answers here have no such case.
    Classes,
    // No station, or more than 64.
    Stations,
    // The root (01: the desk) is none of the stations.
    Desk,
    // Its set names a station of k or more.
    Beyond(u8),
    Itself(u8),
    // It names a station that does not name it.
    OneWay(u8),
    // No chain of links joins it to the root.
    Apart(u8),
}

impl Fault {
    // Its number in document 01's table ("Causes and numbers").
    pub fn number(self) -> u8
        ensures { result ≡ slice_index (Acceptance.fault_numbers self) 0 }
    {
        match self {
            Fault::Classes => 2,
            Fault::Stations => 3,
            Fault::Desk => 19,
            Fault::Beyond(_) => 7,
            Fault::Itself(_) => 8,
            Fault::OneWay(_) => 9,
            Fault::Apart(_) => 10,
        }
    }

    // The station that comes with the number, where one does.
    pub fn station(self) -> Option<u8>
        ensures { result ≡ slice_get (Acceptance.fault_numbers self) 1 }
    {
        match self {
            Fault::Classes | Fault::Stations | Fault::Desk => None,
            Fault::Beyond(i) | Fault::Itself(i) | Fault::OneWay(i) | Fault::Apart(i) => Some(i),
        }
    }
}

// A rule over all stations: the lowest that breaks it is refused.
fn over_all<B: Fn(u8) -> bool, F: Fn(u8) -> Fault>(k: u8, breaks: B, fault: F) -> Result<(), Fault>
    requires { ((i : _) → i < k → B.pre breaks i) × F.IsAlwaysCallable fault }
    ensures { (rule : _) (cause : _) → ((i : _) (b : _) → i < k → B.post breaks i b → b ≡ rule i)
        → ((i : _) (f : _) → i < k → F.post fault i f → f ≡ cause i)
        → result ≡ Parts.judged_all k rule cause }
{
    for i in 0..k {
        if breaks(i) {
            return Err(fault(i));
        }
    }
    Ok(())
}

// Whether i is the root, or has a neighbour that is reached.
fn is_near(root: u8, set: u64, reached: u64, i: u8) -> bool
    ensures { result ≡ Parts.near_by root set reached i }
{
    (i == root) | !((reached & set) == 0)
}

// How many stations below i are in the set.
fn count_below(set: u64, i: u8) -> u32
    requires { i < 64 }
    ensures { result ≡ Parts.count_below i set }
{
    let low = set % (1u64 << i);
    size(low) as u32
}

// k stations with their sets of neighbours, and a root among them.
#[derive(Drop)]
struct Stations<'a> {
    root: u8,
    k: u8,
    sets: &'a [u64; 64],
    ghost few: { k ≤ 64 },
    ghost rooted: { root < k },
}

impl Stations<'_> {
    // The root, and the stations with a neighbour that is reached.
    fn round(&self, reached: u64) -> u64
        ensures { result ≡ Parts.round_of self.now.root self.now.k self.now.sets.now reached }
    {
        let mut out: u64 = 0;
        for i in 0..self.k {
            let near = is_near(self.root, self.sets[i as usize], reached, i);
            out += bit_if(near, i);
        }
        out
    }

    // The stations that a chain of links joins to the root; no round finds more after one that finds none.
    fn reach(&self) -> u64
        ensures { result ≡ Parts.reached_of self.now.root self.now.k self.now.sets.now }
    {
        let mut reached: u64 = 0;
        for _ in 0..self.k {
            let next = self.round(reached);
            if next == reached {
                return reached;
            }
            reached = next;
        }
        reached
    }

    // The rules over all stations: the first that is broken, and by whom. The namers of a station are those that name it.
    fn judge(&self) -> Result<(), Fault>
        ensures { Acceptance.verdict_numbers result ≡ Acceptance.verdict_of self.now.root self.now.k self.now.sets.now }
    {
        let k = self.k;
        let sets = self.sets;
        let namers = matrix::transpose(sets);
        over_all(k, |i| !is_within(sets[i as usize], k), Fault::Beyond)?;
        over_all(k, |i| contains(sets[i as usize], i), Fault::Itself)?;
        over_all(
            k,
            |i| sets[i as usize] & namers[i as usize] != sets[i as usize],
            Fault::OneWay,
        )?;
        let reached = self.reach();
        over_all(k, |i| !contains(reached, i), Fault::Apart)
    }

    // The pairs of a station and a lower one that it names.
    fn count_links(&self) -> u32
        ensures { result ≡ Links.links self.now.k (Acceptance.linked self.now.k self.now.sets.now) }
    {
        let mut total: u32 = 0;
        for i in 0..self.k {
            total += count_below(self.sets[i as usize], i);
        }
        total
    }
}

// The first rule that is broken, and by whom.
pub fn accept(root: u8, k: u8, sets: &[u64; 64]) -> Result<(), Fault>
    ensures { Acceptance.verdict_numbers result ≡ Acceptance.verdict_of root k sets.now }
{
    if !bitset::is_station_count(k as u64) {
        return Err(Fault::Stations);
    }
    if k <= root {
        return Err(Fault::Desk);
    }
    Stations { root, k, sets }.judge()
}

// The number of links of an accepted map; any other is refused as `accept` refuses it.
pub fn links(root: u8, k: u8, sets: &[u64; 64]) -> Result<u32, Fault>
    ensures { Acceptance.links_numbers result ≡ Acceptance.links_of root k sets.now }
{
    accept(root, k, sets)?;
    Ok(Stations { root, k, sets }.count_links())
}
