//! How many candidates have a place in each programme.
ghost use Rattle.std.specs.Prelude.{ℕ, ◌≡◌, ◌<◌, ◌≤◌, ◌+◌, length, Some, IfOk, slice_index};
ghost use Rattle.markets.specs.Matchings.{place_of};
ghost use Rattle.markets.specs.Rounds.{AreCounts};
ghost use Rattle.markets.specs.Fillings.{counted_in};

use crate::market::Market;
use admit_core::OutOfMemory;
use std::alloc::Global;

/// The number of candidates who have a place in each programme.
pub fn counts_of(
    alloc: Global,
    market: &Market,
    places: &[Option<u32>],
) -> Result<Vec<u32>, OutOfMemory>
    requires few { length places.now ≤ 16000000 }
    requires within { (x p : ℕ) → place_of places.now x ≡ Some p → p < length market.now.orders }
    ensures { IfOk result (λ counts. AreCounts (length market.now.orders) places.now counts.items) }
{
    let mut counts = vec![in alloc; 0; market.programmes() as usize]?;
    for place in places {
        count_in(&mut counts, *place);
    }
    Ok(counts)
}

/// Counts one more where a place is.
fn count_in(counts: &mut Vec<u32>, place: Option<u32>)
    requires within { (p : ℕ) → place ≡ Some p → p < length counts.old.items }
    requires few { (p : ℕ) → place ≡ Some p → slice_index counts.old.items p ≤ 16000000 }
    ensures { counts.new.items ≡ counted_in counts.old.items place }
{
    if let Some(programme) = place {
        counts[programme as usize] += 1;
    }
}
