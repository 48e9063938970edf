//! Why rows are no market.

use admit_core::OutOfMemory;

/// Why rows are no market.
#[derive(Clone, Copy, Debug, PartialEq, Eq)]
pub enum MarketFault {
    /// There are not as many seats as orders.
    BadCount,
    /// A list names a programme out of range, or one twice. This is the least such candidate.
    BadList { candidate: u32 },
    /// An order misses a candidate whose list names the programme, or has another, or one twice.
    /// This is the least such programme.
    BadOrder { programme: u32 },
    /// There was no memory.
    OutOfMemory,
}

impl From<OutOfMemory> for MarketFault {
    ghost use Rattle.std.specs.Prelude.{◌≡◌};
    ghost use Rattle.markets.specs.declared.fault.MarketFault.TheVariants as faults;

    ghost from_gives = { λ _ fault. fault ≡ faults.OutOfMemory };

    fn from(_error: OutOfMemory) -> MarketFault {
        MarketFault::OutOfMemory
    }
}
