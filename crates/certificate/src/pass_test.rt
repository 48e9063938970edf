//! A pass of a day while its falls are tested.
ghost use Rattle.std.specs.Prelude.{◌≡◌, ◌<◌, IfOk, length, slice_index, slice_set};
ghost use Rattle.admit_core.specs.Boarding.{boarding};
ghost use Rattle.admit_core.specs.Chains.{first_overfilled};
ghost use Rattle.admit_core.specs.Proposals.{proposed};

use crate::grounds::Grounds;
use admit_core::{OutOfMemory, Steps};
use bar_fixpoint::Falling;
use day_state::DayState;
use dossier_check::Index;
use linked_demand::LinkedRound;
use std::alloc::Global;
use std::marker::Model;
use std::sync::ledger::Ledger;

/// The state in which a pass begins, the ids of its dossier, and its boarding schools at the
/// present bars, which fall from the ceilings line by line.
pub(crate) struct PassTest<'a, 'd> {
    pub(crate) round: LinkedRound<'a, 'd>,
    pub(crate) state: &'a DayState<'d>,
    pub(crate) index: &'a Index,
}

// Not derived: so it is dropped in one step where it is held, and not part by part.
impl Drop for PassTest<'_, '_> {
    fn drop(self) {
        let PassTest {
            round: _,
            state: _,
            index: _,
        } = self;
    }
}

impl<'a, 'd> Model for PassTest<'a, 'd> {
    ghost use Rattle.linked_demand.specs.Rounds.{Round};
    ghost use Rattle.certificate.specs.PassTests.{IsPassTest, round_of};

    ghost Value = { Round };

    ghost view = { λ t. round_of t.state.now t.round };

    ghost invariant = { λ t. IsPassTest t.round t.state.now t.index.now };
}

impl<'a, 'd> PassTest<'a, 'd> {
    /// The pass that begins in a state under ceilings, with its bars there.
    pub(crate) fn begin(
        alloc: Global,
        grounds: &'a Grounds<'a, '_>,
        state: &'a DayState<'d>,
        ceilings: &[u32],
    ) -> Result<PassTest<'a, 'd>, OutOfMemory>
        requires same { grounds.now.dossier ≡ state.now.dossier }
        requires ceilings { length ceilings.now ≡ length state.now.dossier.schools }
        ensures { IfOk result (λ test. test ≡ record {
          state = state.now;
          orders = grounds.now.orders;
          ceilings = ceilings.now;
          bars = ceilings.now;
        }) }
    {
        let round = grounds.roster.begin_round(alloc, state, ceilings)?;
        Ok(PassTest {
            round,
            state,
            index: grounds.index,
        })
    }

    /// Lowers the bar of a school.
    pub(crate) fn lower<L: Ledger>(&mut self, school: u32, to: u32, steps: &mut Steps<L>)
        requires within { school < length self.old.ceilings }
        requires lower { to < slice_index self.old.bars school }
        ensures { self.new ≡ record self.old { bars = slice_set self.old.bars school to } }
    {
        self.round.lower(school, to, steps);
    }

    /// The overfilled school of least place.
    pub(crate) fn first_overfilled(&self) -> Option<u32>
        ensures { result ≡ first_overfilled
            (boarding self.now.state self.now.orders self.now.ceilings) self.now.bars }
    {
        first_overfilled(&self.round)
    }

    /// The places of the wishes that are proposed at the present bars, ascending.
    pub(crate) fn proposed(&self, alloc: Global) -> Result<Vec<u32>, OutOfMemory>
        ensures { IfOk result (λ places. places.items
            ≡ proposed self.now.state self.now.orders self.now.bars) }
    {
        self.round.proposed(alloc)
    }
}

/// The overfilled school of least place of a round.
fn first_overfilled(round: &LinkedRound<'_, '_>) -> Option<u32>
    requires bars { length round.now.bars ≡ length round.now.ceilings }
    ensures { result ≡ first_overfilled
        (boarding round.now.state round.now.orders round.now.ceilings) round.now.bars }
{
    for school in 0..round.count() {
        if round.first_over(school).is_some() {
            return Some(school);
        }
    }
    None
}
