//! The reply of a run: its exit and its text.
ghost use Rattle.std.specs.Prelude.{◌≡◌, IfOk, OnErr, length};
ghost use Rattle.modes.specs.CheckedDays.{NamesSchool};
ghost use Rattle.modes.specs.Checking.{TellsRefused};
ghost use Rattle.modes.specs.Stopping.{HasNoLine, IsStoppedBy};

use crate::exit::{Exit, exit_of};
use crate::unproved::Why;
use admit_core::{Dossier, OutOfMemory};
use intake::Stop;
use std::alloc::Global;
use std::marker::Model;

/// The reply of a run: how it ends, and the whole text that it writes.
#[derive(Drop)]
pub struct Reply {
    pub exit: Exit,
    pub text: Vec<u8>,
}

/// A run that is done with its whole text.
pub(crate) fn done(text: Vec<u8>) -> Reply
    ensures exit { result.exit ≡ Exit.Done }
    ensures text { result.text.items ≡ text.items }
{
    Reply {
        exit: Exit::Done,
        text,
    }
}

/// An empty text with room for the line of any stop. It is taken before anything is read, so that
/// no stop is told as want of memory for its line.
#[derive(Drop)]
pub struct StopLine {
    text: String,
}

impl Model for StopLine {
    ghost use Rattle.modes.specs.Stopping.{HasLineRoom};

    ghost Value = { Unit {0} };

    ghost view = { λ _. record {} };

    ghost invariant = { λ line. HasLineRoom line.text };
}

impl StopLine {
    /// Takes the room of a line.
    pub fn new(alloc: Global) -> Result<StopLine, OutOfMemory> {
        Ok(StopLine {
            text: String::with_capacity(alloc, 128)?,
        })
    }
}

/// Replies with the line of what stopped a run before its days, in the room that was taken for it.
pub fn stopped(line: StopLine, stop: Stop) -> Result<Reply, OutOfMemory>
    ensures line { IfOk result (λ reply. IsStoppedBy stop reply.exit reply.text.items) }
    ensures memory { OnErr result (HasNoLine stop) }
{
    let StopLine { text } = line;
    let exit = exit_of(stop)?;
    let mut text = text;
    stop.push_onto(&mut text)?;
    Ok(Reply {
        exit,
        text: text.into_bytes(),
    })
}

/// Replies to a chain that is refused: its line, in the room that was taken for it.
pub(crate) fn tell_refused(
    line: StopLine,
    dossier: &Dossier,
    why: Why,
) -> Result<Reply, OutOfMemory>
    requires { NamesSchool (length dossier.now.schools) why }
    ensures { TellsRefused dossier.now why result }
{
    let StopLine { text } = line;
    let exit = why.exit();
    let mut text = text;
    why.push_onto(&mut text, dossier)?;
    Ok(Reply {
        exit,
        text: text.into_bytes(),
    })
}
