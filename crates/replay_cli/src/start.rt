//! The one run of a program, with new pickers.
ghost use Rattle.std.specs.Prelude.{◌≡◌, ℕ, List, IfOk, IsErr, IsErrAnd, OnErr, map, string_bytes};
ghost use Rattle.std.specs.Process.{exit_status};
ghost use Rattle.intake.specs.Shelves.{on_shelf};
ghost use Rattle.modes.specs.declared.exit.Exit.{Exit};
ghost use Rattle.played.specs.Lent.{AreThere, standing};
ghost use Rattle.replay_cli.specs.Run.{Around, HidesNone, at_sink};
ghost use Rattle.replay_cli.specs.Start.{AreNew, IsNewRun, IsUntouched, LacksMemory, Starts};
ghost use Rattle.replay_cli.specs.Words.{IsLack, words_in};

use crate::words::words_of;
use bar_fixpoint::{FirstPicker, LastPicker, TurnPicker};
use modes::{Exit, exit_number};
use played::Pickers;
use slot_io::{Shelf, Sink};
use std::alloc::{AllocError, Global};
use std::env::Args;
use std::io;
use std::process::{ExitCode, Termination};

/// A program, by what one run of it does.
pub trait Program {
    /// A run with these words, from what stood around it before to what stands after it.
    ghost is_run: { List (List ℕ) → Around → Around → Exit → Type 0 };

    /// Runs the program once, with the words after its name.
    fn run<S: Shelf, K: Sink>(
        alloc: Global,
        words: &[String],
        shelf: &mut S,
        sink: &mut K,
        pickers: &mut Pickers,
    ) -> Exit
        requires { AreThere pickers.old }
        ensures runs { is_run (map string_bytes words.now)
            (record {
              shelf = on_shelf S.left S.taken S.faults shelf.old;
              sink = at_sink K.held K.faults sink.old;
              pickers = standing told choice pickers.old;
            })
            (record {
              shelf = on_shelf S.left S.taken S.faults shelf.new;
              sink = at_sink K.held K.faults sink.new;
              pickers = standing told choice pickers.new;
            })
            result }
        ensures hides { HidesNone K.may_lack
            (on_shelf S.left S.taken S.faults shelf.old)
            (on_shelf S.left S.taken S.faults shelf.new)
            (at_sink K.held K.faults sink.old) (at_sink K.held K.faults sink.new) result };
}

/// The number that a program ends with. `started` alone makes one, and it can be neither copied
/// nor let go: so `main` ends with the number of a run. A call of `report` would use it up, and
/// leave room for a second run: no source has one.
pub struct Ended {
    number: u8,
}

impl Termination for Ended {
    fn report<R: Eprint>(self, _rt: &R) -> ExitCode
        ensures { exit_status result ≡ self.number }
    {
        let Ended { number } = self;
        ExitCode::from(number)
    }
}

/// Runs the program with these pickers, which are new, each in its place.
fn run_with_new<P: Program, S: Shelf, K: Sink>(
    alloc: Global,
    words: &[String],
    shelf: &mut S,
    sink: &mut K,
    pickers: &mut Pickers,
) -> Exit
    requires there { AreThere pickers.old }
    requires new { AreNew (standing told choice pickers.old) }
    ensures { IsNewRun (P.is_run (map string_bytes words.now)) K.may_lack
        (on_shelf S.left S.taken S.faults shelf.old) (on_shelf S.left S.taken S.faults shelf.new)
        (at_sink K.held K.faults sink.old) (at_sink K.held K.faults sink.new) result }
{
    P::run(alloc, words, shelf, sink, pickers)
}

/// Runs the program with three new pickers, each in its place.
fn run_new<P: Program, S: Shelf, K: Sink>(
    alloc: Global,
    words: &[String],
    shelf: &mut S,
    sink: &mut K,
) -> Result<Exit, AllocError>
    ensures ran { IfOk result (IsNewRun (P.is_run (map string_bytes words.now)) K.may_lack
        (on_shelf S.left S.taken S.faults shelf.old) (on_shelf S.left S.taken S.faults shelf.new)
        (at_sink K.held K.faults sink.old) (at_sink K.held K.faults sink.new)) }
    ensures lacked { OnErr result (IsUntouched
        (on_shelf S.left S.taken S.faults shelf.old) (on_shelf S.left S.taken S.faults shelf.new)
        (at_sink K.held K.faults sink.old) (at_sink K.held K.faults sink.new)) }
{
    let mut pickers = Pickers {
        first: Some(Box::new(alloc, FirstPicker::new(alloc))?),
        last: Some(Box::new(alloc, LastPicker::new(alloc))?),
        turn: Some(Box::new(alloc, TurnPicker::new(alloc))?),
    };
    Ok(run_with_new::<P, S, K>(alloc, words, shelf, sink, &mut pickers))
}

/// Runs the program with what it was given.
fn run_given<P: Program, S: Shelf, K: Sink>(
    alloc: Global,
    args: io::Result<Args>,
    shelf: &mut S,
    sink: &mut K,
) -> Result<Exit, AllocError>
    ensures ran { IfOk result (IsNewRun (P.is_run (map string_bytes (words_in args)))
        K.may_lack
        (on_shelf S.left S.taken S.faults shelf.old) (on_shelf S.left S.taken S.faults shelf.new)
        (at_sink K.held K.faults sink.old) (at_sink K.held K.faults sink.new)) }
    ensures lacked { OnErr result (IsUntouched
        (on_shelf S.left S.taken S.faults shelf.old) (on_shelf S.left S.taken S.faults shelf.new)
        (at_sink K.held K.faults sink.old) (at_sink K.held K.faults sink.new)) }
    ensures told { IsErrAnd args IsLack → IsErr result }
{
    let words = words_of(alloc, args)?;
    run_new::<P, S, K>(alloc, &words, shelf, sink)
}

/// Runs the program once, with what it was given, and ends with the number of the exit. Where there
/// was no memory for the words or the pickers, nothing is read and nothing written.
pub fn started<P: Program, S: Shelf, K: Sink>(
    alloc: Global,
    args: io::Result<Args>,
    shelf: &mut S,
    sink: &mut K,
) -> Ended
    ensures starts { Starts (P.is_run (map string_bytes (words_in args)))
        K.may_lack
        (on_shelf S.left S.taken S.faults shelf.old) (on_shelf S.left S.taken S.faults shelf.new)
        (at_sink K.held K.faults sink.old) (at_sink K.held K.faults sink.new) result.number }
    ensures told { IsErrAnd args IsLack → LacksMemory
        (on_shelf S.left S.taken S.faults shelf.old) (on_shelf S.left S.taken S.faults shelf.new)
        (at_sink K.held K.faults sink.old) (at_sink K.held K.faults sink.new) result.number }
{
    let exit = run_given::<P, S, K>(alloc, args, shelf, sink).unwrap_or(Exit::NoMemory);
    Ended {
        number: exit_number(exit),
    }
}
