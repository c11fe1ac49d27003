// The form of a net (document 01, "Causes and numbers"; document 02, request 8): whether it carries back, and what is asked of each place.
ghost use Rattle.std.specs.Prelude.{◌≡◌, cond, ◌+◌, ◌*◌, ◌/◌, ◌%◌, ◌^◌, ◌<◌};
ghost use Rattle.stations.specs.Stations.{station_at};
ghost use Rattle.stations.specs.Words.{config_in, stations_in};
ghost use Rattle.stations.specs.Kept.{kept_read};
ghost use Rattle.rendezvous.specs.Net.{net_in, carrying_in, beside_in, told_well, well_formed};
ghost use Rattle.rendezvous.specs.Internal.Receivers.{keeps_form, place_formed};

use crate::{CARRYING, TELL, TOLD, telling};
use aggregate::Config;
use schedule::Step;
use station::Station;

// Whether totals are carried back in the net: 0 without, 1 with.
#[tactic(auto, unfolding(stations::specs::Words::spare_in))]
pub(crate) fn carrying_in(net: &[u64; 705]) -> u8
    ensures { result ≡ carrying_in net.now }
{
    let [_, _, _, _, flag, ..] = net[0].to_le_bytes();
    flag
}

// A first word with another flag.
fn flag_word(w: u64, carrying: bool) -> u64
    ensures { result ≡ (w / 2 ^ 40 * 2 ^ 8 + cond carrying 1 0) * 2 ^ 32 + w % 2 ^ 32 }
{
    let mut bytes = w.to_le_bytes();
    bytes[4] = u8::from(carrying);
    u64::from_le_bytes(bytes)
}

// The net opened for carrying back, or not.
pub(crate) fn put_carrying(net: &mut [u64; 705], carrying: bool)
    ensures flag { carrying_in net.new ≡ cond carrying 1 0 }
    ensures config { config_in net.new ≡ config_in net.old }
    ensures stations { stations_in net.new ≡ stations_in net.old }
    ensures beside { beside_in net.new ≡ beside_in net.old }
{
    let w = flag_word(net[0], carrying);
    net[0] = w;
}

// Whether station i is no told desk, and waits for nothing where it is told.
fn is_told_well(t: Config, i: u8, s: Station) -> bool
    ensures { result ≡ told_well t i s }
{
    !(s.state == TOLD) | !(i == aggregate::root(t)) & (s.waits == 0)
}

// Whether place i is well-formed where totals are carried back.
pub(crate) fn is_carrying_place(t: Config, i: u8, s: Station, totals: &[u64; 576]) -> bool
    ensures { result ≡ place_formed 1 t i s (kept_read totals.now i) }
{
    let kept = stations::load_kept(totals, i);
    let settled = telling::settle(s);
    let station = settled.is_well_formed(t, i);
    station & (is_told_well(t, i, s) & aggregate::is_bounded(t, kept))
}

// The place of a station, which a compiler sees to be one: so it tests nothing where the station is read and stored. Two contracts here ask that
// i is below 64: a type for a place would be made of a number at each call, and prove the same there.
pub(crate) fn place(i: u8) -> u8
    requires { i < 64 }
    ensures { result ≡ i }
{
    i % 64
}

// The station of a place.
pub(crate) fn read(net: &[u64; 705], i: u8) -> Station
    requires { i < 64 }
    ensures { result ≡ station_at (stations_in net.now) i }
{
    stations::load(net, place(i))
}

// Whether the net is well-formed (01: in form). This loop and that of `survey` ask for the flag themselves: one function for a place in either
// opening copied the station, and a draw of 64 stations took a fifth longer.
pub fn is_well_formed(net: &[u64; 705], totals: &[u64; 576]) -> bool
    ensures { result ≡ well_formed (net_in net.now totals.now) }
{
    let carrying = carrying_in(net);
    if CARRYING < carrying {
        return false;
    }
    let t = stations::config_in(net);
    if !aggregate::is_valid(t) {
        return false;
    }
    let k = t.k;
    for i in 0..k {
        let s = read(net, i);
        let placed = if carrying == CARRYING {
            is_carrying_place(t, i, s, totals)
        } else {
            s.is_well_formed(t, i)
        };
        if !placed {
            return false;
        }
    }
    true
}

// Whether a step has kept the form, of its receiver.
pub(crate) fn keeps_form(net: &[u64; 705], t: Config, step: Step) -> bool
    requires { step.receiver < 64 }
    ensures { result ≡ keeps_form t step.kind (station_at (stations_in net.now) step.receiver) }
{
    let r = stations::load(net, step.receiver);
    if step.kind == TELL {
        return r.waits == 0;
    }
    let held = r.held;
    aggregate::is_bounded(t, held)
}
