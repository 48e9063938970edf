//! How a run ends.
ghost use Rattle.std.specs.Prelude.{◌≡◌, ◌≢◌, IfOk, OnErr};
ghost use Rattle.modes.specs.Exits as Exits;

use admit_core::OutOfMemory;
use intake::Stop;

/// How a run ends; the number of a variant, from 0 on, is the program's status.
#[derive(Clone, Copy, Debug, PartialEq, Eq)]
pub enum Exit {
    /// The mode's whole text was written.
    Done,
    /// The input, or an answer on a day that is run, is refused.
    Refused,
    /// The words after the program's name name no run.
    BadWords,
    /// A slot's device failed.
    ReadFault,
    /// The sink's device failed.
    WriteFault,
    /// There was no memory for what had to be kept.
    NoMemory,
    /// The chain slot holds no chain, or one that does not prove its days.
    NotProved,
    /// The named wish or school is not in the dossier.
    NoSuchWish,
}

/// The program's status.
pub fn exit_number(exit: Exit) -> u8
    ensures { result ≡ Exits.exit_number exit }
{
    match exit {
        Exit::Done => 0,
        Exit::Refused => 1,
        Exit::BadWords => 2,
        Exit::ReadFault => 3,
        Exit::WriteFault => 4,
        Exit::NoMemory => 5,
        Exit::NotProved => 6,
        Exit::NoSuchWish => 7,
    }
}

/// How a run ends that stops before its days; running out of memory has no line.
pub(crate) fn exit_of(stop: Stop) -> Result<Exit, OutOfMemory>
    ensures exit { IfOk result (λ exit. (exit ≡ Exits.exit_of stop) × (stop ≢ Stop.OutOfMemory)) }
    ensures memory { OnErr result (stop ≡ Stop.OutOfMemory) }
{
    match stop {
        Stop::BadWords => Ok(Exit::BadWords),
        Stop::Refused(_) => Ok(Exit::Refused),
        Stop::ReadFault(_) => Ok(Exit::ReadFault),
        Stop::NoSuch(_) => Ok(Exit::NoSuchWish),
        Stop::OutOfMemory => Err(OutOfMemory),
    }
}
