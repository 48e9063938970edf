//! The desk: the present state, the evening before, and the opening of the last pass.
ghost use Rattle.std.specs.Prelude.{◌≡◌, IfOk};
ghost use Rattle.admit_core.specs.Days.{first_evening};
ghost use Rattle.desk_day.specs.DeskStates.{DeskStates};

use crate::running::Running;
use crate::who::{Who, take_over};
use admit_core::{Dossier, OutOfMemory};
use day_state::DayState;
use std::alloc::Global;
use std::marker::Model;

/// The present state of a dossier's wishes, the state in which its last day began, and the opening
/// of the last pass.
///
/// `moved` are those whose wishes may have changed since the evening. So an evening is kept along
/// their wishes alone, and nothing is copied after a day on which nothing happened.
pub struct Desk<'d> {
    pub(crate) running: Running<'d>,
    pub(crate) evening: DayState<'d>,
    pub(crate) moved: Who,
}

// Not derived, so that a desk is dropped in one step where it is held, and not state by state.
impl Drop for Desk<'_> {
    fn drop(self) {
        let Desk {
            running: _,
            evening: _,
            moved: _,
        } = self;
    }
}

impl<'d> Model for Desk<'d> {
    ghost use Rattle.desk_day.specs.DeskStates.{DeskStates, IsKept};

    ghost Value = { DeskStates };

    ghost view = { λ s. record {
      present = s.running.present;
      evening = s.evening;
      opening = s.running.opening;
    } };

    ghost invariant = { λ s. IsKept s.moved s.evening s.running.present };
}

impl<'d> Desk<'d> {
    /// All three states are those that the dossier comes in with.
    pub fn begin(alloc: Global, dossier: &'d Dossier) -> Result<Desk<'d>, OutOfMemory>
        ensures present { IfOk result (λ desk. desk.present ≡ first_evening dossier.now) }
        ensures evening { IfOk result (λ desk. desk.evening ≡ first_evening dossier.now) }
        ensures opening { IfOk result (λ desk. desk.opening ≡ first_evening dossier.now) }
    {
        let running = Running::begin(alloc, dossier)?;
        let evening = running.now().copy(alloc)?;
        Ok(Desk {
            running,
            evening,
            moved: Who::nobody(alloc),
        })
    }

    /// The present state.
    pub fn now(&self) -> &DayState<'d>
        ensures { result.now ≡ self.now.present }
    {
        self.running.now()
    }

    /// The state in which the last day began: that of the evening before.
    pub fn evening(&self) -> &DayState<'d>
        ensures { result.now ≡ self.now.evening }
    {
        &self.evening
    }

    /// The state in which the last pass began.
    pub fn opening(&self) -> &DayState<'d>
        ensures { result.now ≡ self.now.opening }
    {
        self.running.opening()
    }

    /// Makes the evening the present state.
    pub fn keep_evening(&mut self)
        ensures evening { self.new.evening ≡ self.old.present }
        ensures present { self.new.present ≡ self.old.present }
        ensures opening { self.new.opening ≡ self.old.opening }
    {
        take_over(&mut self.evening, self.running.now(), &self.moved);
    }

    /// Gives back the room of the other two states, and returns the present one.
    pub fn into_now(self) -> DayState<'d>
        ensures { result ≡ self.entry.present }
    {
        let Desk {
            running,
            evening: _,
            moved: _,
        } = self;
        running.into_now()
    }
}
