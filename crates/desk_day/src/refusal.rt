//! Why a day does not come about.

use admit_core::{OutOfMemory, Refusal};

/// Why a day does not come about.
#[derive(Clone, Copy)]
pub enum DayRefusal {
    /// An answer of the day does not fit; the row is that of the first one.
    Unfit(Refusal),
    /// There was no memory.
    OutOfMemory,
}

impl From<OutOfMemory> for DayRefusal {
    ghost use Rattle.std.specs.Prelude.{◌≡◌};
    ghost use Rattle.desk_day.specs.declared.refusal.DayRefusal.TheVariants as refusals;

    ghost from_gives = { λ _ refusal. refusal ≡ refusals.OutOfMemory };

    fn from(_error: OutOfMemory) -> DayRefusal {
        DayRefusal::OutOfMemory
    }
}
