//! How the bars stand with more beds.
ghost use Rattle.std.specs.Prelude.{◌≡◌, ◌+◌, ◌<◌, ◌≤◌, length, IfOk};
ghost use Rattle.admit_core.specs.Boarding.{boarding};
ghost use Rattle.admit_core.specs.CallOrder.{AreCallOrders};
ghost use Rattle.admit_core.specs.DossierRows.{beds_of};
ghost use Rattle.admit_core.specs.Falls.{IsAtMost};
ghost use Rattle.bed_need.specs.Growing.{IsGrowth, with_more_beds};
ghost use Rattle.bed_need.specs.Telling.{IsAskedTwice};

use crate::questions::BedQuestions;
use crate::settled::bars_with;
use admit_core::{CallOrders, OutOfMemory};
use bar_fixpoint::Picker;
use day_state::DayState;
use linked_demand::{Roster, own_beds};
use std::alloc::Global;

/// The greatest bars of all schools, by place: with the present beds, and with more in one school.
#[derive(Drop)]
pub struct Growth {
    pub before: Vec<u32>,
    pub after: Vec<u32>,
}

/// Beds that one school gets.
#[derive(Clone, Copy)]
pub struct MoreBeds {
    /// The school, by place.
    pub school: u32,
    /// How many.
    pub beds: u32,
}

impl BedQuestions<'_, '_> {
    /// The greatest bars under the low ceilings with the present beds, and those under the high
    /// ones with more beds in one school: no bar of the latter is below that of the former.
    pub fn grown_bars(
        &self,
        alloc: Global,
        low: &[u32],
        high: &[u32],
        given: MoreBeds,
        picker: &mut dyn Picker,
    ) -> Result<Growth, OutOfMemory>
        requires ceilings { length low.now ≡ length self.now.state.dossier.schools }
        requires rise { IsAtMost low.now high.now }
        requires school { given.school < length self.now.state.dossier.schools }
        requires beds { beds_of self.now.state.dossier given.school + given.beds ≤ 2000000000 }

        ensures growth { IfOk result (λ growth.
            IsGrowth (boarding self.now.state self.now.orders low.now)
            (with_more_beds self.now.state self.now.orders high.now given.school given.beds)
            growth.before.items growth.after.items) }
        ensures asked { IsAskedTwice (boarding self.now.state self.now.orders low.now)
            (with_more_beds self.now.state self.now.orders high.now given.school given.beds)
            result (choice picker.old) (choice picker.new) (told picker.old) (told picker.new) }
    {
        let MoreBeds { school, beds: more } = given;
        let mut beds = own_beds(alloc, self.state())?;
        let before = bars_with(alloc, self, &beds, low, picker)?;
        beds[school as usize] += more;
        let after = bars_with(alloc, self, &beds, high, picker)?;
        Ok(Growth { before, after })
    }
}

/// Finds the bars before and after more beds, as [`BedQuestions::grown_bars`] does, along a roster
/// that is made for it.
pub fn grown_bars(
    alloc: Global,
    state: &DayState<'_>,
    orders: &CallOrders,
    low: &[u32],
    high: &[u32],
    given: MoreBeds,
    picker: &mut dyn Picker,
) -> Result<Growth, OutOfMemory>
    requires orders { AreCallOrders state.now.dossier.groups orders.now.orders }
    requires ceilings { length low.now ≡ length state.now.dossier.schools }
    requires rise { IsAtMost low.now high.now }
    requires school { given.school < length state.now.dossier.schools }
    requires beds { beds_of state.now.dossier given.school + given.beds ≤ 2000000000 }

    ensures growth { IfOk result (λ growth. IsGrowth (boarding state.now orders.now.orders low.now)
        (with_more_beds state.now orders.now.orders high.now given.school given.beds)
        growth.before.items growth.after.items) }
    ensures asked { IsAskedTwice (boarding state.now orders.now.orders low.now)
        (with_more_beds state.now orders.now.orders high.now given.school given.beds)
        result (choice picker.old) (choice picker.new) (told picker.old) (told picker.new) }
{
    let roster = Roster::build(alloc, state, orders)?;
    let questions = BedQuestions::along(state, &roster);
    questions.grown_bars(alloc, low, high, given, picker)
}
