//! The demanded ranks of a school, with the wishes that demand them.
ghost use Rattle.std.specs.Prelude.{◌≡◌, ℕ, ◌<◌, [], length, List, All, IfOk, IsOk};
ghost use Rattle.std.specs.List.{dedup};
ghost use Rattle.admit_core.specs.declared.ranking.CallOrder.{CallOrder};
ghost use Rattle.admit_core.specs.Proposals.{proposed};
ghost use Rattle.proposals.specs.Demands.{demands_of};
ghost use Rattle.demand.specs.Needs.{needs_bed, demand_in, demands_in, firsts_by_rank, same_rank};

use admit_core::OutOfMemory;
use day_state::DayState;
use proposals::{Demand, sort_by_rank, wish_at};
use std::alloc::Global;

/// Whether the wish at a place has a school in which its candidate has a rank and no bed.
fn needs_bed(state: &DayState<'_>, school: u32, place: u32) -> bool
    requires { place < length state.now.dossier.wishes }
    ensures { result ≡ needs_bed state.now school place }
{
    let wish = wish_at(state, place);
    wish.school == Some(school) && wish.board_rank > 0 && !state.is_live_in_its_school(place)
}

/// The rank of the wish at a place, with the place.
fn demand_at(state: &DayState<'_>, place: u32) -> Demand
    requires { place < length state.now.dossier.wishes }
    ensures { result ≡ demand_in state.now.dossier.wishes place }
{
    Demand {
        rank: wish_at(state, place).board_rank,
        wish: place,
    }
}

/// The demands of those of these wishes that need a bed of a school, in their order.
fn demands_by_place(
    alloc: Global,
    state: &DayState<'_>,
    places: &[u32],
    school: u32,
) -> Result<Vec<Demand>, OutOfMemory>
    requires { All (λ k. k < length state.now.dossier.wishes) places.now }
    ensures demands { IfOk result (λ v. v.items ≡ demands_in state.now places.now school) }
    ensures always { demands_in state.now places.now school ≡ [] → IsOk result }
{
    let mut demands = Vec::new(alloc);
    for place in places {
        if needs_bed(state, school, *place) {
            demands.push(demand_at(state, *place))?;
        }
    }
    Ok(demands)
}

/// Keeps the first of each run of demands of one rank.
fn keep_firsts(demands: &mut Vec<Demand>)
    ensures { demands.new.items ≡ dedup same_rank demands.old.items }
{
    demands.dedup_by_key(|demand| demand.rank);
}

/// The ranks that wishes among these demand of a school, from the least, each with the first place
/// that demands it. Of the places of the proposed wishes these are the demanded ranks with their
/// names.
pub fn demands_of(
    alloc: Global,
    state: &DayState<'_>,
    places: &[u32],
    school: u32,
) -> Result<Vec<Demand>, OutOfMemory>
    requires { All (λ k. k < length state.now.dossier.wishes) places.now }
    ensures firsts { IfOk result (λ v.
        v.items ≡ firsts_by_rank (demands_in state.now places.now school)) }
    ensures proposed { IfOk result (λ v. (orders : List CallOrder) (bars : List ℕ)
        → places.now ≡ proposed state.now orders bars
        → v.items ≡ demands_of state.now orders bars school) }
    ensures always { demands_in state.now places.now school ≡ [] → IsOk result }
{
    let _ = state.marks(); // one for each wish
    let mut demands = demands_by_place(alloc, state, places, school)?;
    sort_by_rank(&mut demands)?;
    keep_firsts(&mut demands);
    Ok(demands)
}
