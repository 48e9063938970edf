//! The passes of a day.
ghost use Rattle.std.specs.Prelude.{◌≡◌, length, map, true, IfOk, OnErr, OnOk};
ghost use Rattle.admit_core.specs.AutoAnswer.{auto_all};
ghost use Rattle.admit_core.specs.Boarding.{boarding};
ghost use Rattle.admit_core.specs.Days.{frees_nothing};
ghost use Rattle.bar_fixpoint.specs.Chosen.{TellsOfFalls};
ghost use Rattle.desk_day.specs.Changes.{answered_changes};
ghost use Rattle.desk_day.specs.DayPasses.{TellsOfPasses, offered_along};
ghost use Rattle.desk_day.specs.KeptDays.{ArePassesPicked, IsPassPicked, kept_end};
ghost use Rattle.desk_day.specs.Running.{opening_after};
ghost use Rattle.desk_day.specs.Unanswered.{AsksAfter};
ghost use Rattle.desk_day.specs.Who.{ChangesOnly, Moves};
ghost use Rattle.round.specs.KeptFalls.{IsKeptOf, are_kept};

use crate::changes::{answered_changes, changes_beside};
use crate::plan::DayPlan;
use crate::running::Running;
use crate::who::{Who, answer_for};
use admit_core::{Change, Freed, OutOfMemory, PassEnd, Sequence, Stamp};
use bar_fixpoint::Picker;
use day_state::DayState;
use linked_demand::Roster;
use std::alloc::Global;

impl Running<'_> {
    /// Makes passes from the present state on, up to the first whose automatic answers free
    /// nothing. Those whom they move are added to `moved`.
    ///
    /// After each pass but the last a live wish is given up, and none comes back to life. So there
    /// is at most one pass more than there are wishes.
    pub(crate) fn make_passes(
        &mut self,
        alloc: Global,
        roster: &Roster<'_, '_>,
        plan: DayPlan<'_>,
        picker: &mut dyn Picker,
        moved: &mut Who,
    ) -> Result<Vec<PassEnd>, OutOfMemory>
        requires roster { roster.now.dossier ≡ self.old.present.dossier }
        requires ceilings { length plan.ceilings.now ≡ length self.old.present.dossier.schools }

        ensures made { IfOk result (λ ends. IsKeptOf (map (kept_end (are_kept plan.entry.falls)))
            (ArePassesPicked roster.now.orders plan.entry.ceilings.now plan.entry.day
            self.old.present (record {
              before = told picker.old;
              after = told picker.new;
              choice = choice picker.old;
            }) self.new) ends.items) }
        ensures told_by_then { OnErr result (TellsOfPasses roster.now.orders plan.entry.ceilings.now
            plan.entry.day self.old.present (choice picker.old) (told picker.old)
            (told picker.new)) }
        ensures choice { choice picker.new ≡ choice picker.old }
        ensures moved { OnOk result (Moves self.old.present self.new.present moved.old moved.new) }
        ensures dossier { self.new.present.dossier ≡ self.old.present.dossier }
    {
        let state = self.now();
        let _ = state.marks(); // one for each wish
        let _ = state.dossier().wishes.len(); // at most 16,000,000
        self.open();
        let mut ends = Vec::new(alloc);
        let mut number = 1;
        'passes: loop {
            let stamp = Stamp {
                day: plan.day,
                pass: number,
            };
            let end = self.make_pass(alloc, roster, plan, stamp, picker, moved)?;
            let is_last = frees_nothing(end.freed);
            ends.push(end)?;
            if is_last {
                return Ok(ends);
            }
            number += 1;
        }
    }

    /// Makes a pass and the automatic answers that follow it. Then the opening is that of the next
    /// pass, where one follows. Those whom it moves are added to `moved`.
    fn make_pass(
        &mut self,
        alloc: Global,
        roster: &Roster<'_, '_>,
        plan: DayPlan<'_>,
        stamp: Stamp,
        picker: &mut dyn Picker,
        moved: &mut Who,
    ) -> Result<PassEnd, OutOfMemory>
        requires opened { self.old.opening ≡ self.old.present }
        requires roster { roster.now.dossier ≡ self.old.present.dossier }
        requires ceilings { length plan.ceilings.now ≡ length self.old.present.dossier.schools }

        ensures made { IfOk result (IsKeptOf (kept_end (are_kept plan.entry.falls))
            (IsPassPicked roster.now.orders plan.entry.ceilings.now stamp self.old.present
            (record {
              before = told picker.old;
              after = told picker.new;
              choice = choice picker.old;
            }) self.new)) }
        ensures told_by_then { OnErr result (TellsOfFalls
            (boarding self.old.present roster.now.orders plan.entry.ceilings.now)
            (choice picker.old) (told picker.old) (told picker.new)) }
        ensures choice { choice picker.new ≡ choice picker.old }
        ensures moved { OnOk result (Moves self.old.present self.new.present moved.old moved.new) }
        ensures dossier { self.new.present.dossier ≡ self.old.present.dossier }
    {
        let _ = self.now().marks(); // one for each wish
        self.moved = Who::Anyone;
        let (pass, asked) = self.present.make_pass(alloc, roster, plan, stamp, picker)?;
        let freed = self.present.answer(alloc, &asked, stamp);
        let closing = self.present.now();
        let autos = changes_after(alloc, &self.opening, closing, &asked)?;
        let offers = pass.offers.as_slice();
        follow(&mut self.opening, closing, freed, offers, &asked, stamp);
        moved.add(&asked);
        self.moved = asked;
        Ok(PassEnd {
            pass,
            autos: Sequence::from_vec(autos),
            freed,
        })
    }
}

/// Brings the opening of a pass that freed something up to its closing, with which the next pass
/// opens. Where those who were asked are known, it repeats the steps of the pass, and so looks at
/// few wishes.
fn follow<'d>(
    opening: &mut DayState<'d>,
    closing: &DayState<'d>,
    freed: Freed,
    offers: &[u32],
    asked: &Who,
    stamp: Stamp,
)
    requires closing { closing.now
        ≡ auto_all (offered_along offers.now stamp opening.old) stamp }
    requires asked { AsksAfter opening.old offers.now stamp asked.now }
    ensures { opening.new ≡ opening_after freed opening.old closing.now }
{
    if frees_nothing(freed) {
        return;
    }
    match asked {
        Who::Anyone => opening.set_from(closing),
        Who::CandidatesOf(_) => {
            opening.offer_all(offers, stamp);
            answer_for(opening, asked, stamp);
        }
    }
}

/// Whether nothing was freed.
pub fn frees_nothing(freed: Freed) -> bool
    ensures { result ≡ frees_nothing freed }
{
    freed.seats == 0 && freed.beds == 0
}

/// What the automatic answers after a pass changed. Where those who were asked are known, only
/// their wishes are looked at.
fn changes_after(
    alloc: Global,
    opening: &DayState<'_>,
    closing: &DayState<'_>,
    asked: &Who,
) -> Result<Vec<Change>, OutOfMemory>
    requires same { closing.now.dossier ≡ opening.now.dossier }
    requires asked { ChangesOnly asked.now opening.now closing.now }
    ensures { IfOk result (λ v. v.items ≡ answered_changes opening.now closing.now) }
{
    match asked {
        Who::Anyone => answered_changes(alloc, opening, closing),
        Who::CandidatesOf(places) => changes_beside(alloc, opening, closing, places.as_slice()),
    }
}
