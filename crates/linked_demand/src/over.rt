//! The demanded ranks that a row tells.
ghost use Rattle.std.specs.Prelude.{◌≡◌, IfOk};
ghost use Rattle.linked_demand.specs.Rows.{row_in, AreOpenFirst, IsFront};
ghost use Rattle.linked_demand.specs.Demand.{is_proposed_at, firsts};

use crate::links::SeatLinks;
use crate::rows::RowWish;
use admit_core::OutOfMemory;
use proposals::Demand;
use std::alloc::Global;

/// The first wishes of a row: up to the last one that ranks at most at a number.
pub fn front_of(row: &[RowWish], upto: u32) -> &[RowWish]
    ensures { IsFront upto row.now result.now }
{
    let mut end = 0;
    while end < row.len() && row[end].rank <= upto {
        end += 1;
    }
    &row[..end]
}

/// The demanded ranks of the first boarders of a school with their names, from the least rank.
pub fn demands_in(
    alloc: Global,
    links: &SeatLinks<'_, '_>,
    front: &[RowWish],
) -> Result<Vec<Demand>, OutOfMemory>
    requires { AreOpenFirst links.now front.now }
    ensures { IfOk result (λ v. v.items ≡ firsts (is_proposed_at links.now) 0
        (row_in links.now.state front.now)) }
{
    let mut demands = Vec::new(alloc);
    let mut named = 0;
    for item in front {
        if named < item.rank && links.demands(item) {
            demands.push(Demand {
                rank: item.rank,
                wish: item.wish,
            })?;
            named = item.rank;
        }
    }
    Ok(demands)
}
