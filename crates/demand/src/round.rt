//! The boarding schools of a state as a system of falling bars.
ghost use Rattle.std.specs.Prelude.{◌≡◌, ◌<◌, length, map, slice_get, All, IfOk};
ghost use Rattle.admit_core.specs.CallOrder.{AreCallOrders};
ghost use Rattle.admit_core.specs.Proposals.{proposed};
ghost use Rattle.admit_core.specs.Boarding.{boarding};
ghost use Rattle.bar_fixpoint.specs.Overfilled.{rank_over};
ghost use Rattle.proposals.specs.Called.{AreCalled};

use crate::demands::demands_of;
use crate::walk::proposed_places;
use admit_core::{CallOrders, OutOfMemory, Steps};
use bar_fixpoint::Falling;
use day_state::{DayState, beds_left};
use proposals::{Demand, call_everyone, names_up_to};
use std::alloc::Global;
use std::sync::ledger::Ledger;

/// The boarding schools (*internats*) of a state, with their ceilings and their present bars.
#[derive(Drop)]
pub struct PlainRound<'a, 'd> {
    state: &'a DayState<'d>,
    orders: &'a CallOrders,
    ceilings: Vec<u32>,
    bars: Vec<u32>,
    ghost one_bar_each: { length bars.items ≡ length ceilings.items },
    ghost one_ceiling_each: { length ceilings.items ≡ length state.now.dossier.schools },
    ghost called: { AreCalled state.now.dossier orders.now.orders },
}

impl<'a, 'd> PlainRound<'a, 'd> {
    /// The schools of a state, with their bars at the ceilings.
    pub fn build(
        alloc: Global,
        state: &'a DayState<'d>,
        orders: &'a CallOrders,
        ceilings: &[u32],
    ) -> Result<PlainRound<'a, 'd>, OutOfMemory>
        requires orders { AreCallOrders state.now.dossier.groups orders.now.orders }
        requires ceilings { length ceilings.now ≡ length state.now.dossier.schools }
        ensures system { IfOk result (λ round. ⟦<PlainRound<'a, 'd> as Falling>⟧.system round
            ≡ boarding state.now orders.now.orders ceilings.now) }
        ensures bars { IfOk result (λ round.
            ⟦<PlainRound<'a, 'd> as Falling>⟧.bars round ≡ ceilings.now) }
        ensures offers { IfOk result (λ round. ⟦<PlainRound<'a, 'd> as Falling>⟧.offers round
            ≡ proposed state.now orders.now.orders) }
    {
        call_everyone(state, orders);
        let bars = ceilings.to_vec(alloc)?;
        let ceilings = ceilings.to_vec(alloc)?;
        Ok(PlainRound {
            state,
            orders,
            ceilings,
            bars,
        })
    }

    /// The places of the wishes that are proposed under the present bars, ascending.
    fn proposed(&self, alloc: Global) -> Result<Vec<u32>, OutOfMemory>
        ensures places { IfOk result (λ v. v.items
            ≡ proposed self.now.state.now self.now.orders.now.orders self.now.bars.items) }
        ensures within { IfOk result (λ v.
            All (λ k. k < length self.now.state.now.dossier.wishes) v.items) }
    {
        let _ = self.state.marks(); // one for each wish
        let places = proposed_places(alloc, self.state, self.orders, &self.bars)?;
        Ok(places)
    }

    /// The least demanded rank of a school that finds no bed, where these are the places of the
    /// proposed wishes.
    fn over_among(
        &self,
        alloc: Global,
        places: &[u32],
        school: u32,
    ) -> Result<Option<u32>, OutOfMemory>
        requires places { places.now
            ≡ proposed self.now.state.now self.now.orders.now.orders self.now.bars.items }
        requires within { All (λ k. k < length self.now.state.now.dossier.wishes) places.now }
        requires school { school < length self.now.ceilings.items }
        ensures { IfOk result (λ over.
            over ≡ rank_over (boarding self.now.state.now self.now.orders.now.orders
            self.now.ceilings.items) self.now.bars.items school) }
    {
        let demands = demands_of(alloc, self.state, places, school)?;
        Ok(rank_at(&demands, beds_left(self.state, school)))
    }
}

impl Falling for PlainRound<'_, '_> {
    ghost use Rattle.admit_core.specs.Boarding.{boarding};
    ghost use Rattle.admit_core.specs.Proposals.{proposed};
    ghost use Rattle.admit_core.proofs.DemandLaws.{boarding_is_lawful};

    ghost system = { λ r. boarding r.state.now r.orders.now.orders r.ceilings.items };

    ghost bars = { λ r. r.bars.items };

    ghost offers = { λ r. proposed r.state.now r.orders.now.orders };

    ghost cost = { λ _ _ _. 0 };

    ghost lawful = { λ r. boarding_is_lawful r.state.now r.orders.now.orders r.ceilings.items };

    ghost one_bar_each = { λ r. r.one_bar_each };

    fn count(&self) -> u32 {
        self.state.dossier().schools.len() as u32
    }

    fn bar(&self, i: u32) -> u32 {
        self.bars[i as usize]
    }

    fn over(&self, alloc: Global, i: u32) -> Result<Option<u32>, OutOfMemory> {
        let places = self.proposed(alloc)?;
        self.over_among(alloc, &places, i)
    }

    fn listed(&self) -> Option<&[u32]> {
        None
    }

    fn names(&self, alloc: Global, i: u32, upto: u32) -> Result<Vec<u32>, OutOfMemory> {
        let places = self.proposed(alloc)?;
        let demands = demands_of(alloc, self.state, &places, i)?;
        names_up_to(alloc, &demands, upto)
    }

    fn lower<L: Ledger>(&mut self, i: u32, to: u32, _steps: &mut Steps<L>) {
        self.bars[i as usize] = to;
    }
}

/// The rank of the demand at a place, if there is one.
fn rank_at(demands: &[Demand], place: u32) -> Option<u32>
    ensures { result ≡ slice_get (map (λ x. x.rank) demands.now) place }
{
    demands.get(place as usize).map(|demand| demand.rank)
}
