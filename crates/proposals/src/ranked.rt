//! Items that have a rank, put in order by it.
ghost use Rattle.std.specs.Prelude.{◌≡◌, ◌≤◌, ℕ, IsOk, OnErr, OnOk, length};
ghost use Rattle.std.specs.List.Sorted.{IsPermutation, IsNonDecreasingBy, IsStableByKey};
ghost use Rattle.std.specs.Ordering.{nat_cmp};

use std::alloc::AllocError;

/// An item that has a rank.
pub trait Ranked: Drop {
    ghost rank_of: { Self → ℕ };

    /// Its rank.
    fn rank(&self) -> u32
        ensures { result ≡ rank_of self.now };
}

/// Puts items in order by rank; those of one rank keep their order. Up to 20 items take no memory.
pub fn sort_by_rank<T: Ranked>(items: &mut Vec<T>) -> Result<(), AllocError>
    ensures moved { IsPermutation items.old.items items.new.items }
    ensures rises { OnOk result (IsNonDecreasingBy T.rank_of items.new.items) }
    ensures same { OnErr result (items.new.items ≡ items.old.items) }
    ensures always { length items.old.items ≤ 20 → IsOk result }
    ensures stable { OnOk result (IsStableByKey T.rank_of nat_cmp items.old.items items.new.items) }
{
    items.sort_by_key(|item| item.rank())?;
    Ok(())
}
