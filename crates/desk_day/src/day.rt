//! A day on a desk: its morning, its passes and its record, and the way back after a refusal.
ghost use Rattle.std.specs.Prelude.{◌≡◌, length, IfOk, IfErr, OnOk};
ghost use Rattle.std.specs.Option.{option_copied};
ghost use Rattle.admit_core.specs.Ranges.{IsDay as IsDayNumber};
ghost use Rattle.admit_core.specs.Days.{unfit_on};
ghost use Rattle.admit_core.specs.Lapses.{AreTermsFor};
ghost use Rattle.desk_day.specs.AnswersOn.{IsUnfitOf};
ghost use Rattle.desk_day.specs.KeptDays.{kept_result};
ghost use Rattle.desk_day.specs.RunDay.{EndsDay};
ghost use Rattle.desk_day.specs.Running.{IsBegun, IsPlayed, moment_on};
ghost use Rattle.desk_day.specs.Who.{Moves};
ghost use Rattle.round.specs.KeptFalls.{IsKeptOf, are_kept};

use crate::desk::Desk;
use crate::evening::record_day;
use crate::plan::DayPlan;
use crate::refusal::DayRefusal;
use crate::running::Running;
use crate::who::{Who, take_over};
use admit_core::{DayRecord, Lapse, Terms};
use bar_fixpoint::Picker;
use linked_demand::Roster;
use round::Falls;
use std::alloc::Global;
use std::mem;

/// Runs a day, with its lapse where terms are given, along a roster of the desk's dossier, which
/// many days may share. After a refusal the state is that of the evening before.
pub fn run_day_along(
    alloc: Global,
    desk: &mut Desk<'_>,
    roster: &Roster<'_, '_>,
    ceilings: &[u32],
    terms: Option<&Terms>,
    day: u32,
    picker: &mut dyn Picker,
) -> Result<DayRecord, DayRefusal>
    requires roster { roster.now.dossier ≡ desk.old.present.dossier }
    requires ceilings { length ceilings.now ≡ length desk.old.present.dossier.schools }
    requires before { AreTermsFor desk.old.present.dossier (option_copied terms) }
    requires day { IsDayNumber day }

    ensures { EndsDay (option_copied terms.entry) roster.now.orders ceilings.now day
        (record { desk = desk.old; told = told picker.old; choice = choice picker.old })
        (record { desk = desk.new; told = told picker.new; choice = choice picker.new }) result }
{
    let plan = DayPlan {
        ceilings,
        terms,
        day,
        falls: Falls::Kept,
    };
    run_day_by(alloc, desk, roster, plan, picker)
}

/// Runs a day as [`run_day_along`] does, by a plan, which also says what the record keeps of falls.
pub fn run_day_by(
    alloc: Global,
    desk: &mut Desk<'_>,
    roster: &Roster<'_, '_>,
    plan: DayPlan<'_>,
    picker: &mut dyn Picker,
) -> Result<DayRecord, DayRefusal>
    requires roster { roster.now.dossier ≡ desk.old.present.dossier }
    requires ceilings { length plan.ceilings.now ≡ length desk.old.present.dossier.schools }
    requires before { AreTermsFor desk.old.present.dossier (option_copied plan.terms) }
    requires day { IsDayNumber plan.day }

    ensures { IsKeptOf (kept_result (are_kept plan.entry.falls)) (EndsDay
        (option_copied plan.entry.terms) roster.now.orders plan.entry.ceilings.now plan.entry.day
        (record { desk = desk.old; told = told picker.old; choice = choice picker.old })
        (record { desk = desk.new; told = told picker.new; choice = choice picker.new })) result }
{
    let _ = desk.now().marks(); // one for each wish
    take_over(&mut desk.evening, desk.running.now(), &desk.moved);
    desk.moved = Who::nobody(alloc);
    let outcome = desk
        .running
        .play(alloc, roster, plan, picker, &mut desk.moved);
    match outcome {
        Ok(done) => Ok(done),
        Err(refusal) => {
            desk.running.restore(&desk.evening);
            desk.moved = Who::nobody(alloc);
            Err(refusal)
        }
    }
}

impl Running<'_> {
    /// Plays a day: its morning and its passes. After a refusal the states may be in its midst.
    /// Those whose wishes it may change are added to `moved`.
    fn play(
        &mut self,
        alloc: Global,
        roster: &Roster<'_, '_>,
        plan: DayPlan<'_>,
        picker: &mut dyn Picker,
        moved: &mut Who,
    ) -> Result<DayRecord, DayRefusal>
        requires roster { roster.now.dossier ≡ self.old.present.dossier }
        requires ceilings { length plan.ceilings.now ≡ length self.old.present.dossier.schools }
        requires before { AreTermsFor self.old.present.dossier (option_copied plan.terms) }
        requires day { IsDayNumber plan.day }

        ensures played { IsKeptOf (kept_result (are_kept plan.entry.falls)) (IsPlayed
            (option_copied plan.entry.terms) roster.now.orders plan.entry.ceilings.now
            plan.entry.day
            (moment_on self.old self.old.present (told picker.old) (choice picker.old))
            (moment_on self.new self.old.present (told picker.new) (choice picker.new))) result }
        ensures choice { choice picker.new ≡ choice picker.old }
        ensures moved { OnOk result (Moves self.old.present self.new.present moved.old moved.new) }
        ensures dossier { self.new.present.dossier ≡ self.old.present.dossier }
    {
        let state = self.now();
        let _ = state.dossier().wishes.len(); // learns that the dossier is valid
        let _ = roster.orders(); // these are the dossier's
        let lapsed = self.begin_day(alloc, plan.terms, plan.day, moved)?;
        let passes = self.make_passes(alloc, roster, plan, picker, moved)?;
        let done = record_day(alloc, self.now(), plan.day, passes, lapsed)?;
        Ok(done)
    }

    /// Makes the morning of a day, and returns the offers that lapsed. Where an answer does not
    /// fit, those before it have been applied. Those whom the morning touches are added to `moved`.
    fn begin_day(
        &mut self,
        alloc: Global,
        terms: Option<&Terms>,
        day: u32,
        moved: &mut Who,
    ) -> Result<Vec<Lapse>, DayRefusal>
        requires before { AreTermsFor self.old.present.dossier (option_copied terms) }
        requires day { IsDayNumber day }

        ensures begun { IfOk result (λ lapsed. IsBegun (option_copied terms.entry) day
            self.old.present self.new.present lapsed.items) }
        ensures unfit { IfErr result (IsUnfitOf self.old.present.dossier day
            (unfit_on (option_copied terms.entry) day self.old.present)) }
        ensures opening { self.new.opening ≡ self.old.opening }
        ensures moved { OnOk result (Moves self.old.present self.new.present moved.old moved.new) }
        ensures dossier { self.new.present.dossier ≡ self.old.present.dossier }
    {
        let mut since_opening = mem::replace(&mut self.moved, Who::Anyone);
        let mut touched = Who::nobody(alloc);
        let lapsed = self.present.touch_morning(alloc, terms, day, &mut touched)?;
        since_opening.add(&touched);
        moved.add(&touched);
        self.moved = since_opening;
        Ok(lapsed)
    }
}
