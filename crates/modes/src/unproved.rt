//! Why a chain that is handed in is refused.
ghost use Rattle.std.specs.Prelude.{◌≡◌, ◌++◌, OnErr, OnOk, length, string_bytes};
ghost use Rattle.admit_core.specs.Texts.{LacksRoom};
ghost use Rattle.modes.specs.Checking.{exit_by, why_line};
ghost use Rattle.modes.specs.CheckedDays.{NamesSchool};

use crate::exit::Exit;
use admit_core::{ChainFault, Dossier, OutOfMemory, Refusal};
use certificate::{CheckStop, Rejection, push_verdict};
use desk_day::DayRefusal;
use std::alloc::AllocError;

/// Why a chain that is handed in is refused.
#[derive(Clone, Copy)]
pub(crate) enum Why {
    /// Its text is no chain.
    NoChain(ChainFault),
    /// An answer of a day does not fit.
    Unfit(Refusal),
    /// The chain of a day is not valid.
    Rejected(Rejection),
}

impl Why {
    /// How the run ends.
    pub(crate) fn exit(self) -> Exit
        ensures { result ≡ exit_by self }
    {
        match self {
            Why::NoChain(_) => Exit::NotProved,
            Why::Unfit(_) => Exit::Refused,
            Why::Rejected(_) => Exit::NotProved,
        }
    }

    /// Adds its line.
    pub(crate) fn push_onto(self, text: &mut String, dossier: &Dossier) -> Result<(), AllocError>
        requires { NamesSchool (length dossier.now.schools) self }
        ensures all { OnOk result
            (string_bytes text.new ≡ string_bytes text.old ++ why_line dossier.now self) }
        ensures full { OnErr result (LacksRoom text.old (why_line dossier.now self)) }
    {
        match self {
            Why::NoChain(fault) => {
                fault.push_onto(text)?;
                text.push_str("\n")
            }
            Why::Unfit(refusal) => {
                refusal.push_onto(text)?;
                text.push_str("\n")
            }
            Why::Rejected(found) => push_verdict(text, dossier, found.row, found.reason),
        }
    }
}

/// Why the days of a chain are not all proved.
#[derive(Clone, Copy)]
pub(crate) enum Unproved {
    /// The chain is refused.
    Refused(Why),
    /// There was no memory.
    OutOfMemory,
}

impl From<OutOfMemory> for Unproved {
    ghost use Rattle.std.specs.Prelude.{◌≡◌};
    ghost use Rattle.modes.specs.declared.unproved.Unproved.TheVariants as unproved;

    ghost from_gives = { λ _ why. why ≡ unproved.OutOfMemory };

    fn from(_error: OutOfMemory) -> Unproved {
        Unproved::OutOfMemory
    }
}

impl From<DayRefusal> for Unproved {
    ghost use Rattle.std.specs.Prelude.{◌≡◌};
    ghost use Rattle.modes.specs.CheckedDays.{why_of};

    ghost from_gives = { λ refusal why. why ≡ why_of refusal };

    fn from(refusal: DayRefusal) -> Unproved {
        match refusal {
            DayRefusal::Unfit(refusal) => Unproved::Refused(Why::Unfit(refusal)),
            DayRefusal::OutOfMemory => Unproved::OutOfMemory,
        }
    }
}

impl From<CheckStop> for Unproved {
    ghost use Rattle.std.specs.Prelude.{◌≡◌};
    ghost use Rattle.modes.specs.CheckedDays.{why_stopped};

    ghost from_gives = { λ stop why. why ≡ why_stopped stop };

    fn from(stop: CheckStop) -> Unproved {
        match stop {
            CheckStop::Rejected(found) => Unproved::Refused(Why::Rejected(found)),
            CheckStop::OutOfMemory => Unproved::OutOfMemory,
        }
    }
}
