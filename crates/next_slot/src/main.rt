//! `next_slot`, the program of the next morning: it reads the slots' files in the current folder,
//! runs the days that `parcours replay` runs with the same words, and writes one slot of the
//! morning after them to standard output: `schools`, `state`, `ceilings` or `answers`. All other
//! slots are the same on that morning as before.
//!
//! `next_slot state replay --days 3 --picker last`
#![tactic(auto)]

mod program;

use crate::program::NextSlot;
use replay_cli::{Ended, started};
use slot_io::{DirShelf, StdSink};
use std::env;

/// Runs the program, with what it was given, over the real devices.
fn main(rt: HostRuntime) -> Ended {
    started::<NextSlot, _, _>(
        rt.alloc(),
        env::args(&rt),
        &mut DirShelf::new(rt),
        &mut StdSink::new(rt),
    )
}
