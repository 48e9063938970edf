//! Sets of candidates: who has yet to be answered for, or whose wishes may have changed.
ghost use Rattle.std.specs.Prelude.{◌≡◌, IfOk, OnErr, if◌then◌else◌, true};
ghost use Rattle.desk_day.specs.DayPlaces.{AreWishesOf};
ghost use Rattle.desk_day.specs.Unanswered.{AreAsked};
ghost use Rattle.desk_day.specs.Who.{AreOf, ChangesOnly, Joins, LacksRoomFor, is_nobody};
ghost use Rattle.admit_core.specs.AutoAnswer.{auto_all, freed};
ghost use Rattle.desk_day.specs.declared.who.Who.TheVariants as who;

use crate::once::with_offers;
use admit_core::{Freed, OutOfMemory, Stamp};
use auto_answer::{auto_all, auto_some};
use day_state::DayState;
use std::alloc::Global;
use std::mem;

/// The candidates of whom something may be true: that they have yet to be answered for, or that
/// their wishes have other marks than in another state. It is true of nobody else.
pub(crate) enum Who {
    /// It may be true of any candidate.
    Anyone,
    /// It may be true of the candidates of these wishes alone.
    CandidatesOf(Vec<u32>),
}

// Not derived, so that it is dropped in one step where it is held.
impl Drop for Who {
    fn drop(self) {
        match self {
            Who::Anyone => (),
            Who::CandidatesOf(_) => (),
        }
    }
}

impl Who {
    /// Nobody.
    pub(crate) fn nobody(alloc: Global) -> Who
        ensures { is_nobody result ≡ true }
    {
        Who::CandidatesOf(Vec::new(alloc))
    }

    /// Whether it is nobody.
    pub(crate) fn is_nobody(&self) -> bool
        ensures { result ≡ is_nobody self.now }
    {
        match self {
            Who::Anyone => false,
            Who::CandidatesOf(places) => places.as_slice().is_empty(),
        }
    }

    /// Whom the automatic answers after these offers ask: these candidates and all who have an
    /// offer, each of them once.
    pub(crate) fn with_offered(
        self,
        state: &DayState<'_>,
        offers: &[u32],
    ) -> Result<Who, OutOfMemory>
        requires own { AreOf state.now.dossier self }
        requires offers { AreWishesOf state.now.dossier offers.now }
        ensures asked { IfOk result (AreAsked state.now.dossier offers.now self) }
        ensures full { OnErr result (LacksRoomFor offers.now self) }
    {
        match self {
            Who::Anyone => Ok(Who::Anyone),
            Who::CandidatesOf(places) => Ok(Who::CandidatesOf(with_offers(places, state, offers)?)),
        }
    }

    /// Adds others to these. Where there is no room for the longer list, it is anyone.
    pub(crate) fn add(&mut self, others: &Who)
        ensures { Joins self.old others.now self.new }
    {
        let these = mem::replace(self, Who::Anyone);
        *self = these.with(others);
    }

    /// These and others.
    fn with(self, others: &Who) -> Who
        ensures { Joins self others.now result }
    {
        match self {
            Who::Anyone => Who::Anyone,
            Who::CandidatesOf(places) => match others {
                Who::Anyone => Who::Anyone,
                Who::CandidatesOf(more) => {
                    let mut all = places;
                    match all.extend_from_slice(more.as_slice()) {
                        Ok(()) => Who::CandidatesOf(all),
                        Err(_) => Who::Anyone,
                    }
                }
            },
        }
    }
}

/// Who has yet to be answered for after a morning: those whom it touched, where all had been
/// answered for before it, and anyone elsewhere.
pub(crate) fn unanswered_after_morning(was_settled: bool, touched: Who) -> Who
    ensures { result ≡ (if was_settled then touched else who.Anyone) }
{
    if was_settled { touched } else { Who::Anyone }
}

/// Answers for those who are asked. Then all have been answered for.
pub(crate) fn answer_for(state: &mut DayState<'_>, asked: &Who, stamp: Stamp) -> Freed
    requires { ChangesOnly asked.now state.old (auto_all state.old stamp) }
    ensures state { state.new ≡ auto_all state.old stamp }
    ensures freed { result ≡ freed state.old state.new }
{
    match asked {
        Who::Anyone => auto_all(state, stamp),
        Who::CandidatesOf(places) => auto_some(state, places.as_slice(), stamp),
    }
}

/// Sets a state to another one of the same dossier, in which only the wishes of these candidates
/// may have other marks.
pub(crate) fn take_over<'d>(state: &mut DayState<'d>, other: &DayState<'d>, moved: &Who)
    requires same { state.old.dossier ≡ other.now.dossier }
    requires moved { ChangesOnly moved.now state.old other.now }
    ensures { state.new ≡ other.now }
{
    match moved {
        Who::Anyone => state.set_from(other),
        Who::CandidatesOf(places) => state.take_over_beside(other, places.as_slice()),
    }
}
