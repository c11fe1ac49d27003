// Line maps: read into a lent map, written, accepted and counted.
ghost use Rattle.std.specs.Prelude.{◌≡◌, [], ◌∷◌, ◌<◌, option_to_list};
ghost use Rattle.topology.specs.Acceptance.{fault_numbers};
ghost use Rattle.linemap.specs.Maps.{acceptance, links_in};
ghost use Rattle.linemap.specs.Openings.{fresh_fault_numbers, fresh_numbers};
ghost use Rattle.linemap.specs.Reading.{read_fault_numbers};
ghost use Rattle.linemap.specs.Writing.{write_fault_numbers};
ghost use Rattle.capi.specs.Answers.{packed, called};
ghost use Rattle.capi.specs.Map.{read_call, write_call};
ghost use Rattle.capi.specs.Internal.Values.{value_of};

use linemap::{FreshFault, Map, ReadFault, WriteFault};
use refusal::Refusal;
use topology::Fault;

// What a call on a lent map answers, as one number, and the map after it.
#[derive(Clone, Copy)]
pub struct Answered {
    pub answer: u64,
    pub map: Map,
}

// A number and its value.
pub(crate) fn with_value(number: u8, value: u32) -> u64
    ensures { result ≡ packed (number ∷ value ∷ []) }
{
    number as u64 + 256 * (value as u64)
}

// A number, and its station where it has one.
fn numbered(number: u8, station: Option<u8>) -> u64
    ensures { result ≡ packed (number ∷ option_to_list station) }
{
    match station {
        None => number as u64,
        Some(i) => with_value(number, i as u32),
    }
}

pub(crate) fn fault(why: Fault) -> u64
    ensures { result ≡ packed (fault_numbers why) }
{
    numbered(why.number(), why.station())
}

fn fresh_fault(why: FreshFault) -> u64
    ensures { result ≡ packed (fresh_fault_numbers why) }
{
    match why {
        FreshFault::Unfit(why) => fault(why),
        FreshFault::Way => refusal::number(Refusal::OutOfRange) as u64,
    }
}

// Whether a net was opened.
pub(crate) fn opened(answer: Result<(), FreshFault>) -> u64
    ensures { result ≡ packed (fresh_numbers answer) }
{
    match answer {
        Ok(()) => 0,
        Err(why) => fresh_fault(why),
    }
}

fn read_fault(why: ReadFault) -> u64
    ensures { result ≡ packed (read_fault_numbers why) }
{
    numbered(why.number(), why.station())
}

// What only C is told by a number has it here, and in `crate::sheets`.
fn write_fault(why: WriteFault) -> u64
    requires { value_of (write_fault_numbers why) < 4294967296 }
    ensures { result ≡ packed (write_fault_numbers why) }
{
    match why {
        WriteFault::Unfit(why) => fault(why),
        WriteFault::Lot => 18,
        WriteFault::Buffer(need) => with_value(15, need as u32),
    }
}

// By value, so that the lent call has the shape that the law of `lent` walks: a refusal hands back the map that it was given. Refusals first: one match
// copies a map once more, which a read of few stations takes a quarter longer for.
fn read(before: Map, bytes: &[u8]) -> Answered
    ensures { called result.answer result.map ≡ read_call bytes.now before }
{
    let found = linemap::read(bytes);
    if let Err(why) = found {
        return Answered {
            answer: read_fault(why),
            map: before,
        };
    }
    Answered {
        answer: 0,
        map: found.unwrap_or(before),
    }
}

// The last map in the bytes.
#[unsafe(no_mangle)]
pub extern "C" fn tally_map_read(map: &mut Map, bytes: &[u8]) -> u64
    ensures { called result map.new ≡ read_call bytes.now map.old }
{
    let before = *map;
    let after = read(before, bytes);
    *map = after.map;
    after.answer
}

// The stored form of a map, from the first byte.
#[unsafe(no_mangle)]
pub extern "C" fn tally_map_write(map: Map, bytes: &mut [u8]) -> u64
    ensures { called result bytes.new ≡ write_call map bytes.old }
{
    match linemap::write(map, bytes) {
        Ok(need) => with_value(0, need as u32),
        Err(why) => write_fault(why),
    }
}

// The rules on a map.
#[unsafe(no_mangle)]
pub extern "C" fn tally_map_accept(map: Map) -> u64
    ensures { result ≡ packed (acceptance map) }
{
    match linemap::accept(map) {
        Ok(()) => 0,
        Err(why) => fault(why),
    }
}

// The number of links of an accepted map.
#[unsafe(no_mangle)]
pub extern "C" fn tally_map_links(map: Map) -> u64
    ensures { result ≡ packed (links_in map) }
{
    match linemap::links(map) {
        Ok(count) => with_value(0, count),
        Err(why) => fault(why),
    }
}
