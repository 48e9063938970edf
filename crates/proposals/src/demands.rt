//! A demanded rank, with a wish that demands it.
ghost use Rattle.std.specs.Prelude.{◌≡◌, [], map, filter, nat_le, IfOk, IsOk};

use crate::ranked::Ranked;
use admit_core::OutOfMemory;
use std::alloc::Global;

/// A demanded rank, and the least place of a wish that demands it.
#[derive(Clone, Copy)]
pub struct Demand {
    pub rank: u32,
    pub wish: u32,
}

impl Ranked for Demand {
    ghost rank_of = { λ demand. demand.rank };

    fn rank(&self) -> u32 {
        self.rank
    }
}

/// The wishes of the demands whose rank is at most another.
pub fn names_up_to(alloc: Global, demands: &[Demand], upto: u32) -> Result<Vec<u32>, OutOfMemory>
    ensures names { IfOk result (λ v.
        v.items ≡ map (λ x. x.wish) (filter (λ x. nat_le x.rank upto) demands.now)) }
    ensures always { filter (λ x. nat_le x.rank upto) demands.now ≡ [] → IsOk result }
{
    let mut names = Vec::new(alloc);
    for demand in demands {
        if demand.rank <= upto {
            names.push(demand.wish)?;
        }
    }
    Ok(names)
}
