//! Why an input is refused.

use crate::slot::Slot;
use crate::state::Status;
use std::alloc::{AllocError, AllocFailed};

/// There was no memory for what a call had to keep.
#[derive(Clone, Copy, Debug, PartialEq, Eq)]
pub struct OutOfMemory;

impl From<AllocError> for OutOfMemory {
    fn from(_error: AllocError) -> OutOfMemory {
        OutOfMemory
    }
}

/// A value that was not stored is dropped.
impl<T: Drop> From<AllocFailed<T>> for OutOfMemory {
    fn from(_error: AllocFailed<T>) -> OutOfMemory {
        OutOfMemory
    }
}

/// Why a row is refused.
///
/// Fields are counted from 1, and rows from 1 with the header as row 1. `FieldCount` keeps the
/// number of fields found; `NotNumber`, `OutOfRange`, `NotFlag`, `NotWord`, `NotDate` and `Unknown`
/// keep the field; `Repeat`, `RankTaken`, `PreferenceMixed`, `PreferenceTaken` and `TwoAccepted`
/// keep the earlier row; `UnfitAnswer` keeps the status found.
#[derive(Clone, Copy)]
pub enum Reason {
    Header,
    FieldCount(u64),
    NotNumber(u32),
    OutOfRange(u32),
    NotFlag(u32),
    NotWord(u32),
    TooManyRows,
    TooLarge,
    Repeat(u64),
    Unknown(u32),
    RankTaken(u64),
    Unranked,
    NoBoardingRank,
    PreferenceMixed(u64),
    PreferenceTaken(u64),
    TwoAccepted(u64),
    DayFalls,
    UnfitAnswer(Status),
    NotDate(u32),
}

/// The row that is refused, and why. A slot that is refused as a whole has row 0.
#[derive(Clone, Copy)]
pub struct Refusal {
    pub slot: Slot,
    pub row: u64,
    pub reason: Reason,
}

/// Why no rows came of the input.
#[derive(Clone, Copy)]
pub enum InFault {
    Refused(Refusal),
    OutOfMemory,
}

impl From<AllocError> for InFault {
    ghost use Rattle.std.specs.Prelude.{◌≡◌};
    ghost use Rattle.admit_core.specs.declared.refusal.InFault.TheVariants.{OutOfMemory};

    ghost from_gives = { λ _ fault. fault ≡ OutOfMemory };

    fn from(_error: AllocError) -> InFault {
        InFault::OutOfMemory
    }
}

impl<T: Drop> From<AllocFailed<T>> for InFault {
    ghost use Rattle.std.specs.Prelude.{◌≡◌};
    ghost use Rattle.admit_core.specs.declared.refusal.InFault.TheVariants.{OutOfMemory};

    ghost from_gives = { λ _ fault. fault ≡ OutOfMemory };

    fn from(_error: AllocFailed<T>) -> InFault {
        InFault::OutOfMemory
    }
}

impl From<OutOfMemory> for InFault {
    ghost use Rattle.std.specs.Prelude.{◌≡◌};
    ghost use Rattle.admit_core.specs.declared.refusal.InFault.TheVariants as fault_variants;

    ghost from_gives = { λ _ fault. fault ≡ fault_variants.OutOfMemory };

    fn from(_error: OutOfMemory) -> InFault {
        InFault::OutOfMemory
    }
}

impl From<Refusal> for InFault {
    ghost use Rattle.std.specs.Prelude.{◌≡◌};
    ghost use Rattle.admit_core.specs.declared.refusal.InFault.TheVariants.{Refused};

    ghost from_gives = { λ refusal fault. fault ≡ Refused refusal };

    fn from(refusal: Refusal) -> InFault {
        InFault::Refused(refusal)
    }
}
