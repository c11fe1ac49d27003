// The grower sheet: laid out in lent bytes, of a map and the words of its net and of what that keeps.
ghost use Rattle.std.specs.Prelude.{◌≡◌, ◌<◌};
ghost use Rattle.rendezvous.specs.Net.{net_in};
ghost use Rattle.sheet.specs.Sheet.{sheet_fault_numbers, sheet_numbers, sheet_on};
ghost use Rattle.capi.specs.Answers.{packed, called};
ghost use Rattle.capi.specs.Map.{sheet_call};
ghost use Rattle.capi.specs.Internal.Values.{value_of};

use linemap::Map;
use refusal::Refusal;
use sheet::SheetFault;

fn sheet_fault(why: SheetFault) -> u64
    requires { value_of (sheet_fault_numbers why) < 4294967296 }
    ensures { result ≡ packed (sheet_fault_numbers why) }
{
    match why {
        SheetFault::Unfit(why) => crate::map::fault(why),
        SheetFault::Lot => 18,
        SheetFault::OutOfForm => refusal::number(Refusal::OutOfForm) as u64,
        SheetFault::Differs => 20,
        SheetFault::Unreported => 21,
        SheetFault::Buffer(need) => crate::map::with_value(15, need as u32),
    }
}

fn laid(answer: Result<usize, SheetFault>) -> u64
    requires { value_of (sheet_numbers answer) < 4294967296 }
    ensures { result ≡ packed (sheet_numbers answer) }
{
    match answer {
        Ok(need) => crate::map::with_value(0, need as u32),
        Err(why) => sheet_fault(why),
    }
}

// The sheet of a map and its net, from the first byte.
#[unsafe(no_mangle)]
pub extern "C" fn tally_sheet(
    map: Map,
    net: &[u64; 705],
    kept: &[u64; 576],
    bytes: &mut [u8],
) -> u64
    ensures { called result bytes.new ≡ sheet_call (sheet_on map (net_in net.now kept.now) bytes.old) }
{
    laid(sheet::put_sheet(map, net, kept, bytes))
}
