//! How many boarders of each school rank at most at a bar.
ghost use Rattle.std.specs.Prelude.{◌≡◌, ◌<◌, length, IfOk};
ghost use Rattle.std.specs.List.Sorted.{IsNonDecreasingBy};
ghost use Rattle.linked_demand.specs.Rows.{AreByRankEach, AreEnds, AreEndsAt, AreFirst, IsEnd};

use crate::rows::RowWish;
use admit_core::OutOfMemory;
use std::alloc::Global;

/// How many boarders of a school rank at most at a bar.
pub fn end_of(boarders: &[RowWish], bar: u32) -> usize
    requires { IsNonDecreasingBy (λ x. x.rank) boarders.now }
    ensures { IsEnd bar boarders.now result }
{
    boarders.partition_point(|item| item.rank <= bar)
}

/// The same of all schools, each at its bar.
pub fn ends_of(
    alloc: Global,
    boarders: &[Vec<RowWish>],
    bars: &[u32],
) -> Result<Vec<usize>, OutOfMemory>
    requires boarders { AreByRankEach boarders.now }
    requires bars { length bars.now ≡ length boarders.now }
    ensures { IfOk result (λ v. AreEndsAt bars.now boarders.now v.items) }
{
    let mut ends = Vec::with_capacity(alloc, bars.len())?;
    for school in 0..bars.len() {
        ends.push(end_of(&boarders[school], bars[school]))?;
    }
    Ok(ends)
}

/// The first boarders of a school, as many as rank at most at its bar.
pub fn front_in<'a>(boarders: &'a [Vec<RowWish>], ends: &[usize], school: usize) -> &'a [RowWish]
    requires ends { AreEnds boarders.now ends.now }
    requires school { school < length boarders.now }
    ensures { AreFirst boarders.now ends.now school result.now }
{
    let own = boarders[school].as_slice();
    &own[..ends[school]]
}
