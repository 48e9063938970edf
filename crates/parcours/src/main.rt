//! `parcours`, the admission engine's program: it reads the slots' files in the current folder,
//! writes one text to standard output, and says by its status how the run ended.
//!
//! `parcours replay --days 3 --picker last`
#![tactic(auto)]

mod program;

use crate::program::Parcours;
use replay_cli::{Ended, started};
use slot_io::{DirShelf, StdSink};
use std::env;

/// Runs the program, with what it was given, over the real devices.
fn main(rt: HostRuntime) -> Ended {
    started::<Parcours, _, _>(
        rt.alloc(),
        env::args(&rt),
        &mut DirShelf::new(rt),
        &mut StdSink::new(rt),
    )
}
