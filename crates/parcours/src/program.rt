//! What one run of the program does.
ghost use Rattle.replay_cli.specs.Run.{IsRun};

use replay_cli::{Exit, Pickers, Program, run};
use slot_io::{Shelf, Sink};
use std::alloc::Global;

/// The program of the modes.
pub(crate) struct Parcours;

impl Program for Parcours {
    ghost is_run = { IsRun };

    fn run<S: Shelf, K: Sink>(
        alloc: Global,
        words: &[String],
        shelf: &mut S,
        sink: &mut K,
        pickers: &mut Pickers,
    ) -> Exit {
        run(alloc, words, shelf, sink, pickers)
    }
}
