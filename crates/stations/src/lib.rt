// The stations of a net of either kind (document 01, "Stations that meet"): 64 places, of which those below k are used.
#![tactic(auto)]

ghost use Rattle.std.specs.Prelude.{◌≡◌, ◌+◌, ◌<◌, ◌≤◌, length, set, replicate};
ghost use Rattle.aggregate.specs.Aggregate.{nothing};
ghost use Rattle.schedule.specs.Rules.{step_in_range};
ghost use Rattle.stations.specs.Stations as Rules;
ghost use Rattle.stations.specs.Words;
ghost use Rattle.stations.specs.Kept;
ghost use Rattle.stations.specs.Internal.Fitting.{FitsHeld, Fits};

use aggregate::{Aggregate, Config, Reading};
use schedule::Step;
use station::Station;

// What stands in a place past k.
pub fn blank() -> Station
    ensures { result ≡ Rules.blank }
{
    Station {
        held: aggregate::empty(),
        unstarted: 0,
        parent: 0,
        waits: 0,
        state: station::ASLEEP,
    }
}

// The counts of station i, of a map's counts: eight places a station, of which those of the classes in use are read.
#[tactic(auto, using(crate::proofs::Counts::before_zeros), unfolding(crate::specs::Stations::reading_at))]
fn reading_at(t: Config, counts: &[u32; 512], i: u8) -> Reading
    requires { i < 64 }
    ensures { result ≡ Rules.reading_at t counts.now i }
{
    let c = aggregate::count_used(t);
    let at = 8 * (i as usize);
    let mut own = [0u32; 8];
    own[..c].copy_from_slice(&counts[at..at + c]);
    Reading { counts: own }
}

// Station i before the first step, of its counts and its neighbours.
#[tactic(auto, unfolding(crate::specs::Stations::fresh_station))]
fn fresh_station(t: Config, reading: Reading, neighbours: u64, i: u8) -> Station
    ensures { result ≡ Rules.fresh_station t reading neighbours i }
{
    if t.k <= i {
        return blank();
    }
    let root = aggregate::root(t);
    let held = aggregate::gather(t, reading);
    let state = if i == root {
        station::ACTIVE
    } else {
        station::ASLEEP
    };
    Station {
        held,
        unstarted: neighbours,
        parent: root,
        waits: bitset::size(neighbours),
        state,
    }
}

// Whether the kind and the stations of a step are in range, in a net with so many kinds of step and stations.
pub fn is_in_range(kinds: u8, reports: u8, k: u8, root: u8, step: Step) -> bool
    ensures { result ≡ step_in_range kinds reports k root step }
{
    (1 <= step.kind)
        & (step.kind <= kinds)
        & (step.sender < k)
        & (step.receiver < k)
        & (!(step.kind == reports) | (step.sender == root) & (step.receiver == root))
}

// What the net in the words was opened with.
#[tactic(auto, unfolding(crate::specs::Words::config_in))]
pub fn config_in(words: &[u64; 705]) -> Config
    ensures { result ≡ Words.config_in words.now }
{
    let [k, classes, desk, way, ..] = words[0].to_le_bytes();
    Config {
        k,
        classes,
        desk,
        way,
    }
}

// A first word with other fields.
fn config_word(w: u64, t: Config) -> u64
    ensures { result ≡ Words.config_word w t }
{
    let [_, _, _, _, a, b, c, d] = w.to_le_bytes();
    u64::from_le_bytes([t.k, t.classes, t.desk, t.way, a, b, c, d])
}

// The words of a net opened with t.
#[tactic(auto, using(crate::proofs::Words::config_laws), unfolding(crate::specs::Words::with_config))]
pub fn put_config(words: &mut [u64; 705], t: Config)
    ensures words { words.new ≡ Words.with_config words.old t }
    ensures config { Words.config_in words.new ≡ t }
    ensures stations { Words.stations_in words.new ≡ Words.stations_in words.old }
    ensures spare { Words.spare_in words.new ≡ Words.spare_in words.old }
{
    words[0] = config_word(words[0], t);
}

// Nine words of a net's or of what is kept: no type holds both, so this and `store_aggregate` ask for the room. A loop: by `copy_from_slice`, here
// and there, a run of stations that meet takes longer than its bar.
fn load_aggregate(words: &[u64], at: usize) -> Aggregate
    requires { at + 9 ≤ length words.now }
    ensures { result ≡ Words.aggregate_from words.now at }
{
    let mut sums = [0u64; 8];
    for j in 0..8 {
        sums[j] = words[at + j];
    }
    aggregate::of_words(sums, words[at + 8])
}

// Station i; other numbers than 0 to 63 have no place.
#[tactic(auto, unfolding(crate::specs::Words::station_from))]
pub fn load(words: &[u64; 705], i: u8) -> Station
    ensures { result ≡ Words.station_read words.now i }
{
    if i < 64 {
        let at = 1 + 11 * (i as usize);
        let held = load_aggregate(words, at);
        let unstarted = words[at + 9];
        let [parent, waits, state, ..] = words[at + 10].to_le_bytes();
        Station {
            held,
            unstarted,
            parent,
            waits,
            state,
        }
    } else {
        blank()
    }
}

#[tactic(auto, unfolding(crate::specs::Words::with_sums))]
fn store_aggregate(words: &mut [u64], at: usize, v: Aggregate)
    requires { at + 9 ≤ length words.old }
    ensures words { words.new ≡ Words.with_aggregate words.old at v }
    ensures fits { FitsHeld v }
{
    for j in 0..8 {
        words[at + j] = v.sums[j];
    }
    words[at + 8] = aggregate::missing_word(v);
}

// A station's last word with other fields.
fn fields_word(w: u64, s: Station) -> u64
    ensures { result ≡ Words.fields_word w s }
{
    let [_, _, _, a, b, c, d, e] = w.to_le_bytes();
    u64::from_le_bytes([s.parent, s.waits, s.state, a, b, c, d, e])
}

// Station i becomes s; other numbers than 0 to 63 have no place.
#[tactic(auto, unfolding(crate::specs::Words::with_station))]
pub fn store(words: &mut [u64; 705], i: u8, s: Station)
    ensures words { words.new ≡ Words.station_written words.old i s }
    ensures stations { Words.stations_in words.new ≡ set (Words.stations_in words.old) i s }
    ensures config { Words.config_in words.new ≡ Words.config_in words.old }
    ensures spare { Words.spare_in words.new ≡ Words.spare_in words.old }
{
    if i < 64 {
        let at = 1 + 11 * (i as usize);
        let w = fields_word(words[at + 10], s);
        store_aggregate(words, at, s.held);
        words[at + 9] = s.unstarted;
        words[at + 10] = w;
    }
}

// What station i keeps beside its own; other numbers than 0 to 63 have no place.
pub fn load_kept(words: &[u64; 576], i: u8) -> Aggregate
    ensures { result ≡ Kept.kept_read words.now i }
{
    if i < 64 {
        load_aggregate(words, 9 * (i as usize))
    } else {
        aggregate::empty()
    }
}

// Station i keeps v; other numbers than 0 to 63 have no place.
pub fn store_kept(words: &mut [u64; 576], i: u8, v: Aggregate)
    ensures words { words.new ≡ Kept.kept_written words.old i v }
    ensures kept { Kept.kept_in words.new ≡ set (Kept.kept_in words.old) i v }
{
    if i < 64 {
        store_aggregate(words, 9 * (i as usize), v);
    }
}

// Nobody keeps anything.
pub fn clear_kept(words: &mut [u64; 576])
    ensures { Kept.kept_in words.new ≡ replicate 64 nothing }
{
    words.fill(0);
}

// The net opened with t, all its stations before the first step.
pub fn put_fresh(words: &mut [u64; 705], t: Config, counts: [u32; 512], neighbours: [u64; 64])
    ensures config { Words.config_in words.new ≡ t }
    ensures stations { Words.stations_in words.new ≡ Rules.fresh_stations t counts neighbours }
    ensures spare { Words.spare_in words.new ≡ Words.spare_in words.old }
{
    put_config(words, t);
    for i in 0..64 {
        let reading = reading_at(t, &counts, i);
        let s = fresh_station(t, reading, neighbours[i as usize], i);
        store(words, i, s);
    }
}

// Whether k, c and the desk are in their bounds and every station below k is well-formed.
pub fn are_well_formed(words: &[u64; 705]) -> bool
    ensures { result ≡ Rules.are_well_formed (Words.config_in words.now) (Words.stations_in words.now) }
{
    let t = config_in(words);
    aggregate::is_valid(t) && (0..t.k).all(|i| load(words, i).is_well_formed(t, i))
}
