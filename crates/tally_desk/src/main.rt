// The lot tally (document 01, "The program"). This file stands in each of the crates `tally`, `tally_*`: a stored run is a crate.
#![tactic(auto)]

fn main(rt: HostRuntime) {
    program::run(&rt);
}
