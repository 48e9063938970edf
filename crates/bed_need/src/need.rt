//! How many beds a school needs.
ghost use Rattle.std.specs.Prelude.{◌≡◌, ◌+◌, ◌<◌, ◌≤◌, length, IfOk};
ghost use Rattle.admit_core.specs.CallOrder.{AreCallOrders};
ghost use Rattle.admit_core.specs.Falls.{IsAtMost};
ghost use Rattle.admit_core.specs.LeastBeds.{IsLeastBeds};
ghost use Rattle.admit_core.specs.Proposals.{demanded_ranks};
ghost use Rattle.bed_need.specs.Growing.{with_n_beds};
ghost use Rattle.bed_need.specs.Needing.{need_of};
ghost use Rattle.bed_need.specs.Telling.{IsAsked};

use crate::questions::BedQuestions;
use crate::settled::settled;
use admit_core::{CallOrders, MAX_NUMBER, OutOfMemory};
use bar_fixpoint::{Falling, Picker};
use day_state::DayState;
use linked_demand::{LinkedRound, Roster, own_beds};
use std::alloc::Global;

/// The beds that a school needs, by how many live there and how many come: none where nobody comes.
fn need_of(live: u32, coming: u32) -> u32
    requires { live + coming ≤ 16000000 }
    ensures { result ≡ need_of live (live + coming) }
{
    if coming == 0 { 0 } else { live + coming }
}

/// How many candidates demand a bed of a school at the present bars.
fn demands_in<'a, 'd>(
    alloc: Global,
    round: &LinkedRound<'_, '_>,
    school: u32,
) -> Result<usize, OutOfMemory>
    requires school { school < length round.now.ceilings }
    requires bars { IsAtMost (⟦<LinkedRound<'a, 'd> as Falling>⟧.bars round.now)
        round.now.ceilings }
    ensures { IfOk result (λ n. n ≡ length (demanded_ranks round.now.state round.now.orders
        (⟦<LinkedRound<'a, 'd> as Falling>⟧.bars round.now) school)) }
{
    let names = round.names(alloc, school, round.bar(school))?;
    Ok(names.len())
}

impl BedQuestions<'_, '_> {
    /// The least number of beds with which the bar of a school stays at its ceiling: with so many,
    /// nobody who is called and ranks within the ceiling lacks a bed.
    ///
    /// The greatest bars of a school with 2,000,000,000 beds tell who comes. The picker chooses the
    /// order of its falls, and nothing of the answer.
    pub fn least_beds(
        &self,
        alloc: Global,
        ceilings: &[u32],
        school: u32,
        picker: &mut dyn Picker,
    ) -> Result<u32, OutOfMemory>
        requires ceilings { length ceilings.now ≡ length self.now.state.dossier.schools }
        requires school { school < length self.now.state.dossier.schools }

        ensures need { IfOk result (IsLeastBeds self.now.state self.now.orders ceilings.now
            school) }
        ensures few { IfOk result (λ need. need ≤ 16000000) }
        ensures asked { IsAsked
            (with_n_beds self.now.state self.now.orders ceilings.now school 2000000000) result
            (choice picker.old) (choice picker.new) (told picker.old) (told picker.new) }
    {
        let state = self.state();
        let dossier = state.dossier();
        let _ = &dossier.wishes; // learns that the dossier is valid
        let mut beds = own_beds(alloc, state)?;
        beds[school as usize] = MAX_NUMBER;
        let round = settled(alloc, self, &beds, ceilings, picker)?;
        let coming = demands_in(alloc, &round, school)?;
        Ok(need_of(state.live_in_school(school), coming as u32))
    }
}

/// Finds the least beds of a school, as [`BedQuestions::least_beds`] does, along a roster that is
/// made for it.
pub fn least_beds(
    alloc: Global,
    state: &DayState<'_>,
    orders: &CallOrders,
    ceilings: &[u32],
    school: u32,
    picker: &mut dyn Picker,
) -> Result<u32, OutOfMemory>
    requires orders { AreCallOrders state.now.dossier.groups orders.now.orders }
    requires ceilings { length ceilings.now ≡ length state.now.dossier.schools }
    requires school { school < length state.now.dossier.schools }

    ensures need { IfOk result (IsLeastBeds state.now orders.now.orders ceilings.now school) }
    ensures few { IfOk result (λ need. need ≤ 16000000) }
    ensures asked { IsAsked
        (with_n_beds state.now orders.now.orders ceilings.now school 2000000000) result
        (choice picker.old) (choice picker.new) (told picker.old) (told picker.new) }
{
    let roster = Roster::build(alloc, state, orders)?;
    let questions = BedQuestions::along(state, &roster);
    questions.least_beds(alloc, ceilings, school, picker)
}
