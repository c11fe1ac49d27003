// Sets of stations 0 to 63, held in 64 bits: bit j, worth 2^j, is station j.
#![tactic(auto)]

ghost use Rattle.std.specs.Prelude.{◌≡◌};
ghost use Rattle.bitset.specs.Set;

const MOST_STATIONS: u64 = 64;

// Whether a line may have k stations.
pub fn is_station_count(k: u64) -> bool
    ensures { result ≡ Set.is_station_count k }
{
    (0 < k) & (k <= MOST_STATIONS)
}

// The size of a set: how many bits of its word are one.
pub fn size(set: u64) -> u8
    ensures { result ≡ Set.size set }
{
    set.count_ones() as u8
}

// Whether station j is in the set.
pub fn contains(set: u64, j: u8) -> bool
    ensures { result ≡ Set.member j set }
{
    if 64 <= j {
        return false;
    }
    (set >> j) % 2 == 1
}

// The set without station j.
pub fn without(set: u64, j: u8) -> u64
    ensures { result ≡ Set.without j set }
{
    if contains(set, j) {
        set - (1u64 << j)
    } else {
        set
    }
}

// Whether every station in the set is below k.
pub fn is_within(set: u64, k: u8) -> bool
    ensures { result ≡ Set.within k set }
{
    if 64 <= k {
        return true;
    }
    (set >> k) == 0
}

// What station j is worth in a set, if it passes a test.
pub fn bit_if(b: bool, j: u8) -> u64
    ensures { result ≡ Set.bit_if b j }
{
    if 64 <= j {
        return 0;
    }
    if b { 1u64 << j } else { 0 }
}

// The stations of either set.
pub fn union(a: u64, b: u64) -> u64
    ensures { result ≡ Set.union a b }
{
    a | b
}

// The stations of the first set that are not in the second.
pub fn minus(a: u64, b: u64) -> u64
    ensures { result ≡ Set.minus a b }
{
    a - (a & b)
}

// The set in which station j stands just where b says so; every other station as before.
pub fn put(set: u64, j: u8, b: bool) -> u64
    ensures { result ≡ Set.put j b set }
{
    union(without(set, j), bit_if(b, j))
}
