// The library for C and for Rust (`rt lib` here): every call on numbers, slices and records that the caller lends. include/tally.h
// says what each takes, answers and leaves.
#![tactic(auto)]

mod mailbox_net;
mod map;
mod process;
mod rendezvous_net;
mod sheets;
mod steps;
