//! What does not change during a run: a dossier, its call orders, and who wishes for each
//! programme in their order.
ghost use Rattle.std.specs.Prelude.{◌≡◌, IfOk, length};
ghost use Rattle.admit_core.specs.Boarding.{boarding};
ghost use Rattle.admit_core.specs.CallOrder.{AreCallOrders};
ghost use Rattle.admit_core.specs.Proposals.{proposed};
ghost use Rattle.linked_demand.specs.Lent.{lent};

use crate::lineup::Lineup;
use crate::round::LinkedRound;
use admit_core::{CallOrders, Dossier, OutOfMemory};
use bar_fixpoint::Falling;
use day_state::DayState;
use std::alloc::Global;
use std::marker::Model;

/// A dossier with its call orders (*ordres d'appel*) and their lineup, made once a run, which all
/// days, states and ceilings of it share: it depends on no status, seat, bed or ceiling.
pub struct Roster<'a, 'd> {
    dossier: &'d Dossier,
    orders: &'a CallOrders,
    pub(crate) lineup: Lineup,
}

// Not derived: so a roster is dropped in one step where it is held, and not part by part.
impl Drop for Roster<'_, '_> {
    fn drop(self) {
        let Roster {
            dossier: _,
            orders: _,
            lineup: _,
        } = self;
    }
}

impl<'a, 'd> Model for Roster<'a, 'd> {
    ghost use Rattle.linked_demand.specs.Rosters.{Setting, IsRosterOf};

    ghost Value = { Setting };

    ghost view = { λ r. record { dossier = r.dossier.now; orders = r.orders.now.orders } };

    ghost invariant = { λ r. IsRosterOf r.dossier.now r.orders.now.orders r.lineup };
}

impl<'a, 'd> Roster<'a, 'd> {
    /// The roster of the dossier of a state, whichever of its states that is. It costs a walk along
    /// the call order of each group.
    pub fn build(
        alloc: Global,
        state: &DayState<'d>,
        orders: &'a CallOrders,
    ) -> Result<Roster<'a, 'd>, OutOfMemory>
        requires { AreCallOrders state.now.dossier.groups orders.now.orders }
        ensures { IfOk result (λ r. r ≡ record {
          dossier = state.now.dossier;
          orders = orders.now.orders;
        }) }
    {
        let lineup = Lineup::build(alloc, state, orders)?;
        Ok(Roster {
            dossier: state.dossier(),
            orders,
            lineup,
        })
    }

    /// The dossier.
    pub fn dossier(&self) -> &'d Dossier
        ensures { result.now ≡ self.now.dossier }
    {
        self.dossier
    }

    /// The call orders, one a group, which are those of the dossier.
    pub fn orders(&self) -> &'a CallOrders
        ensures orders { result.now.orders ≡ self.now.orders }
        ensures right { AreCallOrders self.now.dossier.groups self.now.orders }
    {
        self.orders
    }

    /// The boarding schools (*internats*) of a state of the dossier with their own beds, and with
    /// their bars at the ceilings. It costs about the number of wishes.
    pub fn begin_round<'b, 'e>(
        &'b self,
        alloc: Global,
        state: &'b DayState<'e>,
        ceilings: &[u32],
    ) -> Result<LinkedRound<'b, 'e>, OutOfMemory>
        requires same { self.now.dossier ≡ state.now.dossier }
        requires ceilings { length ceilings.now ≡ length state.now.dossier.schools }
        ensures round { IfOk result (λ round. round ≡ record {
          state = state.now;
          orders = self.now.orders;
          ceilings = ceilings.now;
          bars = ceilings.now;
        }) }
        ensures system { IfOk result (λ round. ⟦<LinkedRound<'b, 'e> as Falling>⟧.system round
            ≡ boarding state.now self.now.orders ceilings.now) }
        ensures bars { IfOk result (λ round. ⟦<LinkedRound<'b, 'e> as Falling>⟧.bars round
            ≡ ceilings.now) }
        ensures offers { IfOk result (λ round. ⟦<LinkedRound<'b, 'e> as Falling>⟧.offers round
            ≡ proposed state.now self.now.orders) }
    {
        let _ = self.dossier; // learns the invariant
        LinkedRound::build(alloc, state, self.orders, &self.lineup, ceilings)
    }

    /// The same with these beds in place of the dossier's own, one number a school.
    pub fn begin_round_with<'b, 'e>(
        &'b self,
        alloc: Global,
        state: &'b DayState<'e>,
        beds: &[u32],
        ceilings: &[u32],
    ) -> Result<LinkedRound<'b, 'e>, OutOfMemory>
        requires same { self.now.dossier ≡ state.now.dossier }
        requires beds { length beds.now ≡ length state.now.dossier.schools }
        requires ceilings { length ceilings.now ≡ length state.now.dossier.schools }
        ensures round { IfOk result (λ round. round ≡ record {
          state = lent state.now beds.now;
          orders = self.now.orders;
          ceilings = ceilings.now;
          bars = ceilings.now;
        }) }
        ensures system { IfOk result (λ round. ⟦<LinkedRound<'b, 'e> as Falling>⟧.system round
            ≡ boarding (lent state.now beds.now) self.now.orders ceilings.now) }
        ensures bars { IfOk result (λ round. ⟦<LinkedRound<'b, 'e> as Falling>⟧.bars round
            ≡ ceilings.now) }
    {
        let _ = self.dossier; // learns the invariant
        let own = beds.to_vec(alloc)?;
        LinkedRound::build_with(alloc, state, self.orders, &self.lineup, own, ceilings)
    }
}
