//! Counts by place.
ghost use Rattle.std.specs.Prelude.{◌≡◌, ◌<◌, ◌≤◌, ◌+◌, ◌^◌, length, slice_index, IfOk, replicate};
ghost use Rattle.std.specs.Option.{ForSome};
ghost use Rattle.day_state.specs.Kept.{one_if, recount, recount_some};

use crate::mark::counted;
use admit_core::OutOfMemory;
use std::alloc::Global;

pub fn zeros(alloc: Global, count: usize) -> Result<Vec<u32>, OutOfMemory>
    ensures { IfOk result (λ v. v.items ≡ replicate count 0) }
{
    Ok(vec![in alloc; 0u32; count]?)
}

pub fn copy_counts(counts: &mut Vec<u32>, from: &Vec<u32>)
    requires { length counts.old.items ≡ length from.now.items }
    ensures { counts.new.items ≡ from.now.items }
{
    counts.as_mut_slice().copy_from_slice(from.as_slice());
}

/// Counts anew at a place, where one was counted, or wasn't, and is counted, or isn't.
pub fn recount(counts: &mut Vec<u32>, place: u32, had: bool, has: bool)
    requires place { place < length counts.old.items }
    requires comes { slice_index counts.old.items place + one_if has < 2 ^ 32 }
    requires goes { one_if had ≤ slice_index counts.old.items place + one_if has }
    ensures { counts.new.items ≡ recount counts.old.items place had has }
{
    counts[place as usize] = counted(counts[place as usize], had, has);
}

/// The same at a place that may be none.
pub fn recount_some(counts: &mut Vec<u32>, place: Option<u32>, had: bool, has: bool)
    requires place { ForSome place (λ k. k < length counts.old.items) }
    requires comes { ForSome place (λ k. slice_index counts.old.items k + one_if has < 2 ^ 32) }
    requires goes { ForSome place (λ k. one_if had ≤ slice_index counts.old.items k + one_if has) }
    ensures { counts.new.items ≡ recount_some counts.old.items place had has }
{
    if let Some(place) = place {
        recount(counts, place, had, has);
    }
}
