// What the program's input opens: draws, then a map (document 01, "The program").
#![tactic(auto)]

ghost use Rattle.std.specs.Prelude.{◌≡◌, ◌∷◌, ◌<◌, get_or, option_to_list};
ghost use Rattle.linemap.specs.Reading.{read_fault_numbers};
ghost use Rattle.opening.specs.Opening as rules;
ghost use Rattle.opening.specs.Refusals.{refusal_line};
ghost use Rattle.opening.specs.declared.OpenFault.{OpenFault};

use linemap::{Map, ReadFault};
use text::Line;

// The most bytes that the program takes.
pub const MOST_BYTES: usize = 65536;

// Why nothing is opened.
#[derive(Clone, Copy, Debug, PartialEq, Eq)]
pub enum OpenFault {
    // More bytes than the program takes.
    TooLong,
    Unread(ReadFault),
    // An odd number of bytes stands before the map.
    Odd,
}

impl From<ReadFault> for OpenFault {
    ghost from_gives = { λ fault r. r ≡ OpenFault.Unread fault };

    fn from(fault: ReadFault) -> OpenFault {
        OpenFault::Unread(fault)
    }
}

// The map, and the number of draws before it.
#[derive(Clone, Copy)]
pub struct Opening {
    pub draws: u16,
    pub map: Map,
}

// The map at the end of the input and the draws before it: the rules 17, 1 to 10 with 19 after 3, 16.
pub fn open(input: &[u8]) -> Result<Opening, OpenFault>
    ensures { rules.open_outcome_of result ≡ rules.input_opening input.now }
{
    if MOST_BYTES < input.len() {
        return Err(OpenFault::TooLong);
    }
    let map = linemap::read(input)?;
    let before = input.len() - linemap::stored_length(map.classes, map.k);
    if before % 2 != 0 {
        return Err(OpenFault::Odd);
    }
    Ok(Opening {
        draws: (before / 2) as u16,
        map,
    })
}

// A byte of s; 0 past its end.
fn byte_at(s: &[u8], at: usize) -> u8
    ensures { result ≡ get_or s.now at 0 }
{
    s.get(at).copied().unwrap_or(0)
}

// Draw i of the input, counted from 0. A byte past the input's end counts 0.
pub fn draw_at(input: &[u8], i: u16) -> u16
    ensures { result ≡ rules.draw_at input.now i }
{
    let at = 2 * (i as usize);
    u16::from_le_bytes([byte_at(input, at), byte_at(input, at + 1)])
}

// The line of a number, and of its station where it has one.
fn numbered(number: u8, station: Option<u8>) -> Line
    ensures { result ≡ refusal_line (number ∷ option_to_list station) }
{
    match station {
        None => Line::Refused(number),
        Some(i) => Line::RefusedStation(number, i),
    }
}

fn read_fault_line(fault: ReadFault) -> Line
    ensures { result ≡ refusal_line (read_fault_numbers fault) }
{
    numbered(fault.number(), fault.station())
}

// The line of a refusal.
pub fn refusal_line(fault: OpenFault) -> Line
    ensures { result ≡ refusal_line (rules.open_fault_numbers fault) }
{
    match fault {
        OpenFault::TooLong => Line::Refused(17),
        OpenFault::Unread(read_fault) => read_fault_line(read_fault),
        OpenFault::Odd => Line::Refused(16),
    }
}
