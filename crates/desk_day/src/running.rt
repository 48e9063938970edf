//! The two states that a day changes while it runs.
ghost use Rattle.std.specs.Prelude.{◌≡◌, IfOk};
ghost use Rattle.admit_core.specs.Days.{first_evening};
ghost use Rattle.desk_day.specs.Running.{RunningStates};

use crate::present::Present;
use crate::who::{Who, take_over};
use admit_core::{Dossier, OutOfMemory};
use day_state::DayState;
use std::alloc::Global;
use std::marker::Model;

/// The present state of a dossier's wishes, and the opening of the last pass.
///
/// `moved` are those whose wishes may have changed since the opening: those whom the answers after
/// that pass asked, and those whom the morning of a day that has begun since touched. While a pass
/// is made, it is anyone.
pub(crate) struct Running<'d> {
    pub(crate) present: Present<'d>,
    pub(crate) opening: DayState<'d>,
    pub(crate) moved: Who,
}

// Not derived, so that it is dropped in one step where it is held, and not state by state.
impl Drop for Running<'_> {
    fn drop(self) {
        let Running {
            present: _,
            opening: _,
            moved: _,
        } = self;
    }
}

impl<'d> Model for Running<'d> {
    ghost use Rattle.desk_day.specs.Running.{RunningStates, IsRunning};

    ghost Value = { RunningStates };

    ghost view = { λ s. record { present = s.present; opening = s.opening } };

    ghost invariant = { λ s. IsRunning s.moved
        (record { present = s.present; opening = s.opening }) };
}

impl<'d> Running<'d> {
    /// Both states are the one that the dossier comes in with.
    pub(crate) fn begin(alloc: Global, dossier: &'d Dossier) -> Result<Running<'d>, OutOfMemory>
        ensures present { IfOk result (λ running. running.present ≡ first_evening dossier.now) }
        ensures opening { IfOk result (λ running. running.opening ≡ first_evening dossier.now) }
    {
        let present = DayState::begin(alloc, dossier)?;
        let opening = present.copy(alloc)?;
        Ok(Running {
            present: Present::begin(present),
            opening,
            moved: Who::nobody(alloc),
        })
    }

    /// The present state.
    pub(crate) fn now(&self) -> &DayState<'d>
        ensures { result.now ≡ self.now.present }
    {
        self.present.now()
    }

    /// The state in which the last pass began.
    pub(crate) fn opening(&self) -> &DayState<'d>
        ensures { result.now ≡ self.now.opening }
    {
        &self.opening
    }

    /// Gives back the room of the opening, and returns the present state.
    pub(crate) fn into_now(self) -> DayState<'d>
        ensures { result ≡ self.entry.present }
    {
        let Running {
            present,
            opening: _,
            moved: _,
        } = self;
        present.into_now()
    }

    /// Brings the present state back to an evening.
    pub(crate) fn restore(&mut self, evening: &DayState<'d>)
        requires { evening.now.dossier ≡ self.old.present.dossier }
        ensures present { self.new.present ≡ evening.now }
        ensures opening { self.new.opening ≡ self.old.opening }
    {
        self.moved = Who::Anyone;
        self.present.restore(evening);
    }

    /// Opens a pass with the present state.
    pub(crate) fn open(&mut self)
        ensures present { self.new.present ≡ self.old.present }
        ensures opening { self.new.opening ≡ self.old.present }
    {
        take_over(&mut self.opening, self.present.now(), &self.moved);
    }
}
