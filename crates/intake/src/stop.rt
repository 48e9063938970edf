//! Why a run stops.

use admit_core::{InFault, OutOfMemory, Refusal, Slot};
use request::{Name, WordsRefusal};
use std::alloc::AllocError;

/// Why a run stops before its days.
#[derive(Clone, Copy)]
pub enum Stop {
    BadWords,
    Refused(Refusal),
    ReadFault(Slot),
    /// The mode names a wish or a school that the dossier does not have.
    NoSuch(Name),
    OutOfMemory,
}

impl From<WordsRefusal> for Stop {
    ghost use Rattle.std.specs.Prelude.{◌≡◌};
    ghost use Rattle.intake.specs.Stops.{words_stop};

    ghost from_gives = { λ refusal stop. stop ≡ words_stop refusal };

    fn from(refusal: WordsRefusal) -> Stop {
        match refusal {
            WordsRefusal::Bad => Stop::BadWords,
            WordsRefusal::OutOfMemory => Stop::OutOfMemory,
        }
    }
}

impl From<InFault> for Stop {
    ghost use Rattle.std.specs.Prelude.{◌≡◌};
    ghost use Rattle.intake.specs.Stops.{stop_of};

    ghost from_gives = { λ fault stop. stop ≡ stop_of fault };

    fn from(fault: InFault) -> Stop {
        match fault {
            InFault::Refused(refusal) => Stop::Refused(refusal),
            InFault::OutOfMemory => Stop::OutOfMemory,
        }
    }
}

impl From<OutOfMemory> for Stop {
    ghost use Rattle.std.specs.Prelude.{◌≡◌};
    ghost use Rattle.intake.specs.declared.stop.Stop.TheVariants as stops;

    ghost from_gives = { λ _ stop. stop ≡ stops.OutOfMemory };

    fn from(_error: OutOfMemory) -> Stop {
        Stop::OutOfMemory
    }
}

impl From<AllocError> for Stop {
    ghost use Rattle.std.specs.Prelude.{◌≡◌};
    ghost use Rattle.intake.specs.declared.stop.Stop.TheVariants as stops;

    ghost from_gives = { λ _ stop. stop ≡ stops.OutOfMemory };

    fn from(_error: AllocError) -> Stop {
        Stop::OutOfMemory
    }
}

/// The dossier does not have what a mode names.
#[derive(Clone, Copy)]
pub(crate) struct Missing {
    pub(crate) name: Name,
}

impl From<Missing> for Stop {
    ghost use Rattle.std.specs.Prelude.{◌≡◌};
    ghost use Rattle.intake.specs.declared.stop.Stop.TheVariants as stops;

    ghost from_gives = { λ missing stop. stop ≡ stops.NoSuch missing.name };

    fn from(missing: Missing) -> Stop {
        Stop::NoSuch(missing.name)
    }
}

impl Stop {
    ghost use Rattle.std.specs.Prelude.{◌≡◌, ◌++◌, OnErr, OnOk, string_bytes};
    ghost use Rattle.admit_core.specs.Texts.{KeepsRoom, LacksRoom};
    ghost use Rattle.intake.specs.Stops.{stop_text};

    /// Adds the line that is written; running out of memory has none.
    pub fn push_onto(&self, text: &mut String) -> Result<(), AllocError>
        ensures all { OnOk result
            (string_bytes text.new ≡ string_bytes text.old ++ stop_text self.now) }
        ensures full { OnErr result (LacksRoom text.old (stop_text self.now)) }
        ensures room { KeepsRoom text.old text.new }
    {
        match self {
            Stop::BadWords => text.push_str("bad words\n"),
            Stop::Refused(refusal) => {
                refusal.push_onto(text)?;
                text.push_str("\n")
            }
            Stop::ReadFault(slot) => {
                text.push_str("read fault ")?;
                text.push_str(slot.name())?;
                text.push_str("\n")
            }
            Stop::NoSuch(name) => {
                text.push_str("no such ")?;
                name.push_onto(text)?;
                text.push_str("\n")
            }
            Stop::OutOfMemory => Ok(()),
        }
    }
}
