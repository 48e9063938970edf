//! Why no chain came of a text.
use admit_core::{ChainFault, OutOfMemory};
use std::alloc::{AllocError, AllocFailed};

/// Why no chain came of a text.
#[derive(Clone, Copy)]
pub enum ChainRefusal {
    Fault(ChainFault),
    OutOfMemory,
}

impl From<AllocError> for ChainRefusal {
    ghost use Rattle.std.specs.Prelude.{◌≡◌};
    ghost use Rattle.certificate.specs.declared.refusal.ChainRefusal.TheVariants as refused;

    ghost from_gives = { λ _ refusal. refusal ≡ refused.OutOfMemory };

    fn from(_error: AllocError) -> ChainRefusal {
        ChainRefusal::OutOfMemory
    }
}

/// A value that was not stored is dropped.
impl<T: Drop> From<AllocFailed<T>> for ChainRefusal {
    ghost use Rattle.std.specs.Prelude.{◌≡◌};
    ghost use Rattle.certificate.specs.declared.refusal.ChainRefusal.TheVariants as refused;

    ghost from_gives = { λ _ refusal. refusal ≡ refused.OutOfMemory };

    fn from(_error: AllocFailed<T>) -> ChainRefusal {
        ChainRefusal::OutOfMemory
    }
}

impl From<OutOfMemory> for ChainRefusal {
    ghost use Rattle.std.specs.Prelude.{◌≡◌};
    ghost use Rattle.certificate.specs.declared.refusal.ChainRefusal.TheVariants as refused;

    ghost from_gives = { λ _ refusal. refusal ≡ refused.OutOfMemory };

    fn from(_error: OutOfMemory) -> ChainRefusal {
        ChainRefusal::OutOfMemory
    }
}
