//! One run of the program, over any shelf and any sink.
ghost use Rattle.std.specs.Prelude.{◌≡◌, ◌≤◌, IfOk, map, string_bytes};
ghost use Rattle.intake.specs.Shelves.{on_shelf};
ghost use Rattle.played.specs.Lent.{AreThere, standing};
ghost use Rattle.replay_cli.specs.Delivering as Delivering;
ghost use Rattle.replay_cli.specs.Delivering.{Delivers};
ghost use Rattle.replay_cli.specs.Run.{HidesNone, IsRun, at_sink};

use crate::answer::answer;
use admit_core::OutOfMemory;
use modes::{Exit, Reply};
use played::Pickers;
use slot_io::{IoRefusal, Shelf, Sink, write_all};
use std::alloc::Global;

/// How a run ends, by why its text was not written whole and by the exit of its reply.
fn exit_after(refusal: Option<IoRefusal>, exit: Exit) -> Exit
    ensures { result ≡ Delivering.exit_after refusal exit }
{
    match refusal {
        None => exit,
        Some(IoRefusal::Failed) => Exit::WriteFault,
        Some(IoRefusal::OutOfMemory) => Exit::NoMemory,
    }
}

/// Writes the text of a reply, and ends with the reply's exit where it was written whole.
pub fn deliver<K: Sink>(reply: Result<Reply, OutOfMemory>, sink: &mut K) -> Exit
    ensures delivers { Delivers reply (at_sink K.held K.faults sink.old)
        (at_sink K.held K.faults sink.new) result }
    ensures counts { K.faults sink.old ≤ K.faults sink.new }
    ensures memory { ¬ K.may_lack → result ≡ Exit.NoMemory
        → IfOk reply (λ reply. reply.exit ≡ Exit.NoMemory) }
{
    let Ok(reply) = reply else {
        return Exit::NoMemory;
    };
    exit_after(write_all(sink, &reply.text).err(), reply.exit)
}

/// Runs the program: reads the words and the slots, runs the days that are asked for, each with its
/// picker, and then writes the report, or the line of what ended the run before.
pub fn run<S: Shelf, K: Sink>(
    alloc: Global,
    words: &[String],
    shelf: &mut S,
    sink: &mut K,
    pickers: &mut Pickers,
) -> Exit
    requires { AreThere pickers.old }
    ensures there { AreThere pickers.new }
    ensures is_run { IsRun (map string_bytes words.now)
        (record {
          shelf = on_shelf S.left S.taken S.faults shelf.old;
          sink = at_sink K.held K.faults sink.old;
          pickers = standing told choice pickers.old;
        })
        (record {
          shelf = on_shelf S.left S.taken S.faults shelf.new;
          sink = at_sink K.held K.faults sink.new;
          pickers = standing told choice pickers.new;
        })
        result }
    ensures hides { HidesNone K.may_lack
        (on_shelf S.left S.taken S.faults shelf.old) (on_shelf S.left S.taken S.faults shelf.new)
        (at_sink K.held K.faults sink.old) (at_sink K.held K.faults sink.new) result }
{
    deliver(answer(alloc, words, shelf, pickers), sink)
}
