//! What one run of the program does.
ghost use Rattle.morning_cli.specs.Run.{IsSlotRun};

use morning_cli::run;
use replay_cli::{Exit, Pickers, Program};
use slot_io::{Shelf, Sink};
use std::alloc::Global;

/// The program of the next morning.
pub(crate) struct NextSlot;

impl Program for NextSlot {
    ghost is_run = { IsSlotRun };

    fn run<S: Shelf, K: Sink>(
        alloc: Global,
        words: &[String],
        shelf: &mut S,
        sink: &mut K,
        pickers: &mut Pickers,
    ) -> Exit {
        run(alloc, words, shelf, sink, pickers)
    }
}
