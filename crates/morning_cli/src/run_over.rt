//! One run of the program, over any shelf and any sink.
ghost use Rattle.std.specs.Prelude.{map, string_bytes};
ghost use Rattle.intake.specs.Shelves.{on_shelf};
ghost use Rattle.played.specs.Lent.{AreThere, standing};
ghost use Rattle.replay_cli.specs.Run.{HidesNone, at_sink};
ghost use Rattle.morning_cli.specs.Run.{IsSlotRun};

use crate::answer::answer;
use modes::Exit;
use played::Pickers;
use replay_cli::deliver;
use slot_io::{Shelf, Sink};
use std::alloc::Global;

/// Runs the program: reads the words and the slots, runs the days that are asked for, each with its
/// picker, and then writes the slot of the morning after them, or what a run of `replay` ends with
/// where an answer does not fit, or the line of what ended the run before.
pub fn run<S: Shelf, K: Sink>(
    alloc: Global,
    words: &[String],
    shelf: &mut S,
    sink: &mut K,
    pickers: &mut Pickers,
) -> Exit
    requires { AreThere pickers.old }
    ensures there { AreThere pickers.new }
    ensures is_run { IsSlotRun (map string_bytes words.now)
        (record {
          shelf = on_shelf S.left S.taken S.faults shelf.old;
          sink = at_sink K.held K.faults sink.old;
          pickers = standing told choice pickers.old;
        })
        (record {
          shelf = on_shelf S.left S.taken S.faults shelf.new;
          sink = at_sink K.held K.faults sink.new;
          pickers = standing told choice pickers.new;
        })
        result }
    ensures hides { HidesNone K.may_lack
        (on_shelf S.left S.taken S.faults shelf.old) (on_shelf S.left S.taken S.faults shelf.new)
        (at_sink K.held K.faults sink.old) (at_sink K.held K.faults sink.new) result }
{
    deliver(answer(alloc, words, shelf, pickers), sink)
}
