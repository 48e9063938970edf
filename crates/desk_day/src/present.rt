//! The present state, and who has been answered for in it.
ghost use Rattle.std.specs.Prelude.{◌≡◌, IfErr, IfOk, OnErr, OnOk, length, true};
ghost use Rattle.std.specs.Option.{option_copied};
ghost use Rattle.admit_core.specs.AutoAnswer.{auto_all, freed};
ghost use Rattle.admit_core.specs.Boarding.{boarding};
ghost use Rattle.admit_core.specs.Days.{unfit_on};
ghost use Rattle.admit_core.specs.Lapses.{AreTermsFor};
ghost use Rattle.admit_core.specs.Ranges.{IsDay as IsDayNumber};
ghost use Rattle.bar_fixpoint.specs.Chosen.{TellsOfFalls};
ghost use Rattle.desk_day.specs.AnswersOn.{IsUnfitOf};
ghost use Rattle.desk_day.specs.DayPasses.{IsAnswered, offered_along};
ghost use Rattle.desk_day.specs.Running.{IsBegun};
ghost use Rattle.desk_day.specs.Unanswered.{AreProposed, AsksAfter};
ghost use Rattle.desk_day.specs.Who.{ChangesOnly, Moves};
ghost use Rattle.round.specs.KeptFalls.{IsKeptOf, IsPassOffered, are_kept, kept_pass};

use crate::morning::{make_morning, touch_morning};
use crate::plan::DayPlan;
use crate::refusal::DayRefusal;
use crate::who::{Who, answer_for, unanswered_after_morning};
use admit_core::{Freed, Lapse, OutOfMemory, PassRecord, Stamp, Terms};
use bar_fixpoint::Picker;
use day_state::DayState;
use linked_demand::Roster;
use round::pass_keeping;
use std::alloc::Global;
use std::marker::Model;
use std::mem;

/// The present state of a dossier's wishes, and who has been answered for in it. So the answers
/// after a pass ask only those who have not been, and those with an offer.
///
/// Nobody is known to have been answered for while a day begins or a pass is made, nor after a
/// refusal.
pub struct Present<'d> {
    pub(crate) state: DayState<'d>,
    pub(crate) unanswered: Who,
}

// Not derived, so that it is dropped in one step where it is held, and not part by part.
impl Drop for Present<'_> {
    fn drop(self) {
        let Present {
            state: _,
            unanswered: _,
        } = self;
    }
}

impl<'d> Model for Present<'d> {
    ghost use Rattle.admit_core.specs.State.{State};
    ghost use Rattle.desk_day.specs.Unanswered.{AnswersOnly};

    ghost Value = { State };

    ghost view = { λ s. s.state };

    ghost invariant = { λ s. AnswersOnly s.unanswered s.state };
}

impl<'d> Present<'d> {
    /// This state, in which nobody is known to have been answered for.
    pub fn begin(state: DayState<'d>) -> Present<'d>
        ensures { result ≡ state.entry }
    {
        Present {
            state,
            unanswered: Who::Anyone,
        }
    }

    /// The state.
    pub fn now(&self) -> &DayState<'d>
        ensures { result.now ≡ self.now }
    {
        &self.state
    }

    /// Returns the state, and forgets who has been answered for.
    pub fn into_now(self) -> DayState<'d>
        ensures { result ≡ self.entry }
    {
        let Present {
            state,
            unanswered: _,
        } = self;
        state
    }

    /// Whether all are known to have been answered for.
    fn is_settled(&self) -> bool
        ensures { result ≡ true → IsAnswered self.now }
    {
        let _ = self.state.marks(); // one for each wish
        self.unanswered.is_nobody()
    }

    /// Makes the morning of a day, and returns the offers that lapsed. Where an answer does not
    /// fit, those before it have been applied. Whether one fits is found without taking memory, so
    /// one that does not is never told as want of memory.
    pub fn begin_day(
        &mut self,
        alloc: Global,
        terms: Option<&Terms>,
        day: u32,
    ) -> Result<Vec<Lapse>, DayRefusal>
        requires before { AreTermsFor self.old.dossier (option_copied terms) }
        requires day { IsDayNumber day }

        ensures begun { IfOk result (λ lapsed. IsBegun (option_copied terms.entry) day self.old
            self.new lapsed.items) }
        ensures unfit { IfErr result (IsUnfitOf self.old.dossier day
            (unfit_on (option_copied terms.entry) day self.old)) }
        ensures dossier { self.new.dossier ≡ self.old.dossier }
    {
        let mut touched = Who::nobody(alloc);
        self.touch_morning(alloc, terms, day, &mut touched)
    }

    /// Begins a day as [`Present::begin_day`] does, and adds those whom it touches to `moved`.
    pub(crate) fn touch_morning(
        &mut self,
        alloc: Global,
        terms: Option<&Terms>,
        day: u32,
        moved: &mut Who,
    ) -> Result<Vec<Lapse>, DayRefusal>
        requires before { AreTermsFor self.old.dossier (option_copied terms) }
        requires day { IsDayNumber day }

        ensures begun { IfOk result (λ lapsed. IsBegun (option_copied terms.entry) day self.old
            self.new lapsed.items) }
        ensures moved { OnOk result (Moves self.old self.new moved.old moved.new) }
        ensures unfit { IfErr result (IsUnfitOf self.old.dossier day
            (unfit_on (option_copied terms.entry) day self.old)) }
        ensures dossier { self.new.dossier ≡ self.old.dossier }
    {
        let was_settled = self.is_settled();
        self.unanswered = Who::Anyone;
        let (lapsed, touched) = touch_morning(alloc, &mut self.state, terms, day)?;
        let touched = Who::CandidatesOf(touched);
        moved.add(&touched);
        self.unanswered = unanswered_after_morning(was_settled, touched);
        Ok(lapsed)
    }

    /// Why a day for which memory ran out does not come about. Its morning is tried on the state,
    /// which may be left in its midst.
    pub(crate) fn find_refusal(&mut self, terms: Option<&Terms>, day: u32) -> DayRefusal
        requires { AreTermsFor self.old.dossier (option_copied terms) }
        ensures refusal { IsUnfitOf self.old.dossier day
            (unfit_on (option_copied terms.entry) day self.old) result }
        ensures dossier { self.new.dossier ≡ self.old.dossier }
    {
        self.unanswered = Who::Anyone;
        match make_morning(&mut self.state, terms, day) {
            Ok(()) => DayRefusal::OutOfMemory,
            Err(refusal) => refusal,
        }
    }

    /// Brings the state back to an evening.
    pub(crate) fn restore(&mut self, evening: &DayState<'d>)
        requires { evening.now.dossier ≡ self.old.dossier }
        ensures { self.new ≡ evening.now }
    {
        self.unanswered = Who::Anyone;
        self.state.set_from(evening);
    }

    /// Makes a pass, and tells whom the automatic answers after it ask.
    pub(crate) fn make_pass(
        &mut self,
        alloc: Global,
        roster: &Roster<'_, '_>,
        plan: DayPlan<'_>,
        stamp: Stamp,
        picker: &mut dyn Picker,
    ) -> Result<(PassRecord, Who), OutOfMemory>
        requires roster { roster.now.dossier ≡ self.old.dossier }
        requires ceilings { length plan.ceilings.now ≡ length self.old.dossier.schools }

        ensures pass { IfOk result (λ made. IsKeptOf (kept_pass (are_kept plan.entry.falls))
            (IsPassOffered self.old self.new roster.now.orders plan.entry.ceilings.now stamp
            (record {
              before = told picker.old;
              after = told picker.new;
              choice = choice picker.old;
            })) made.0) }
        ensures offered { IfOk result (λ made.
            self.new ≡ offered_along made.0.offers stamp self.old) }
        ensures asked { IfOk result (λ made. AsksAfter self.old made.0.offers stamp made.1) }
        ensures told_by_then { OnErr result (TellsOfFalls
            (boarding self.old roster.now.orders plan.entry.ceilings.now)
            (choice picker.old) (told picker.old) (told picker.new)) }
        ensures choice { choice picker.new ≡ choice picker.old }
        ensures dossier { self.new.dossier ≡ self.old.dossier }
    {
        let _ = self.state.marks(); // one for each wish
        let before = mem::replace(&mut self.unanswered, Who::Anyone);
        let pass = pass_keeping(
            alloc,
            &mut self.state,
            roster,
            plan.ceilings,
            stamp,
            picker,
            plan.falls,
        )?;
        let asked = before.with_offered(&self.state, pass.offers.as_slice())?;
        Ok((pass, asked))
    }

    /// Answers for those who are asked. Then all have been answered for.
    pub(crate) fn answer(&mut self, alloc: Global, asked: &Who, stamp: Stamp) -> Freed
        requires { ChangesOnly asked.now self.old (auto_all self.old stamp) }
        ensures state { self.new ≡ auto_all self.old stamp }
        ensures freed { result ≡ freed self.old self.new }
    {
        let _ = self.state.marks(); // one for each wish
        self.unanswered = Who::Anyone;
        let freed = answer_for(&mut self.state, asked, stamp);
        self.unanswered = Who::nobody(alloc);
        freed
    }

    /// Makes these offers, and the automatic answers that follow them.
    pub fn offer(
        &mut self,
        alloc: Global,
        offers: &[u32],
        stamp: Stamp,
    ) -> Result<Freed, OutOfMemory>
        requires { AreProposed self.old offers.now }
        ensures state { OnOk result
            (self.new ≡ auto_all (offered_along offers.now stamp self.old) stamp) }
        ensures freed { IfOk result (λ all.
            all ≡ freed (offered_along offers.now stamp self.old) self.new) }
        ensures kept { OnErr result (self.new ≡ self.old) }
    {
        let _ = self.state.marks(); // one for each wish
        let before = mem::replace(&mut self.unanswered, Who::Anyone);
        let asked = before.with_offered(&self.state, offers)?;
        self.state.offer_all(offers, stamp);
        Ok(self.answer(alloc, &asked, stamp))
    }
}
