//! Why a check ends early.
ghost use Rattle.std.specs.Prelude.{◌≡◌};
ghost use Rattle.certificate.specs.declared.stop.CheckStop.TheVariants as stop;

use admit_core::{CheckReason, OutOfMemory};
use std::alloc::AllocError;

/// The first fault of a day's chain.
#[derive(Clone, Copy)]
pub struct Rejection {
    /// The row of the chain where it stands.
    pub row: u64,
    pub reason: CheckReason,
}

/// Why a check ends early.
#[derive(Clone, Copy)]
pub enum CheckStop {
    /// The chain is not valid.
    Rejected(Rejection),
    /// There was no memory.
    OutOfMemory,
}

/// The stop of a check whose first fault stands at a row.
pub(crate) fn rejected_at(row: u64, reason: CheckReason) -> CheckStop
    ensures { result ≡ stop.Rejected (record { row = row; reason = reason }) }
{
    CheckStop::Rejected(Rejection { row, reason })
}

impl From<AllocError> for CheckStop {
    ghost from_gives = { λ _ found. found ≡ stop.OutOfMemory };

    fn from(_error: AllocError) -> CheckStop {
        CheckStop::OutOfMemory
    }
}

impl From<OutOfMemory> for CheckStop {
    ghost from_gives = { λ _ found. found ≡ stop.OutOfMemory };

    fn from(_error: OutOfMemory) -> CheckStop {
        CheckStop::OutOfMemory
    }
}
