//! The marks of wishes: a byte each for the status, the stamps beside, and a bit for who waits.
ghost use Rattle.std.specs.Prelude.{◌≡◌, ◌<◌, length, map, slice_set, IfOk, replicate};
ghost use Rattle.admit_core.specs.State.{is_live, is_waiting};
ghost use Rattle.day_state.specs.Kept.{mark_in, waiting_mark};
ghost use Rattle.day_state.specs.Marks.{statuses_of};

use admit_core::{Mark, OutOfMemory, Stamp, Status};
use flags::Flags;
use std::alloc::Global;
use std::marker::Model;

/// The marks of wishes by place. Statuses are read in no order, and stamps hardly ever, so they
/// stand apart. Who waits is kept beside them too: a pass begins with a copy of that.
pub struct Marks {
    statuses: Vec<Status>,
    stamps: Vec<Stamp>,
    waits: Flags,
}

// Not derived: so the lists are dropped in one step where they are held.
impl Drop for Marks {
    fn drop(self) {
        let Marks {
            statuses: _,
            stamps: _,
            waits: _,
        } = self;
    }
}

impl Model for Marks {
    ghost use Rattle.std.specs.Prelude.{List};
    ghost use Rattle.admit_core.specs.declared.state.Mark.{Mark};
    ghost use Rattle.day_state.specs.Marks.{marks_of, AreMarks};

    ghost Value = { List Mark };

    ghost view = { λ m. marks_of m.statuses.items m.stamps.items };

    ghost invariant = { λ m. AreMarks m.statuses.items m.stamps.items m.waits };
}

impl Marks {
    /// So many wishes, which all wait.
    pub(crate) fn all_waiting(alloc: Global, count: usize) -> Result<Marks, OutOfMemory>
        ensures { IfOk result (λ m. m ≡ replicate count waiting_mark) }
    {
        Ok(Marks {
            statuses: vec![in alloc; Status::Waiting; count]?,
            stamps: vec![in alloc; Stamp { day: 0, pass: 0 }; count]?,
            waits: Flags::all(alloc, count, true)?,
        })
    }

    /// The same marks again.
    pub(crate) fn copy(&self, alloc: Global) -> Result<Marks, OutOfMemory>
        ensures { IfOk result (λ m. m ≡ self.now) }
    {
        Ok(Marks {
            statuses: self.statuses.as_slice().to_vec(alloc)?,
            stamps: self.stamps.as_slice().to_vec(alloc)?,
            waits: self.waits.copy(alloc)?,
        })
    }

    /// Takes over as many marks of another one.
    pub(crate) fn set_from(&mut self, other: &Marks)
        requires { length self.old ≡ length other.now }
        ensures { self.new ≡ other.now }
    {
        self.statuses
            .as_mut_slice()
            .copy_from_slice(other.statuses.as_slice());
        self.stamps
            .as_mut_slice()
            .copy_from_slice(other.stamps.as_slice());
        self.waits.set_from(&other.waits);
    }

    /// The statuses of all wishes, by place.
    pub fn statuses(&self) -> &[Status]
        ensures { result.now ≡ statuses_of self.now }
    {
        self.statuses.as_slice()
    }

    /// Whether each wish waits, by place.
    pub fn waits(&self) -> &Flags
        ensures { result.now ≡ map is_waiting self.now }
    {
        &self.waits
    }

    /// The mark of a wish.
    pub fn get(&self, wish: u32) -> Mark
        requires { wish < length self.now }
        ensures { result ≡ mark_in self.now wish }
    {
        Mark {
            status: self.status(wish),
            stamp: self.stamp(wish),
        }
    }

    /// The status of a wish.
    pub fn status(&self, wish: u32) -> Status
        requires { wish < length self.now }
        ensures { result ≡ (mark_in self.now wish).status }
    {
        self.statuses[wish as usize]
    }

    /// The stamp of a wish.
    pub fn stamp(&self, wish: u32) -> Stamp
        requires { wish < length self.now }
        ensures { result ≡ (mark_in self.now wish).stamp }
    {
        self.stamps[wish as usize]
    }

    /// Whether a wish is live.
    pub fn is_live(&self, wish: u32) -> bool
        requires { wish < length self.now }
        ensures { result ≡ is_live (mark_in self.now wish) }
    {
        self.status(wish).is_live()
    }

    /// Gives a wish a mark.
    pub(crate) fn set(&mut self, wish: u32, mark: Mark)
        requires { wish < length self.old }
        ensures { self.new ≡ slice_set self.old wish mark }
    {
        self.statuses[wish as usize] = mark.status;
        self.stamps[wish as usize] = mark.stamp;
        self.waits.set(wish, mark.is_waiting());
    }
}
