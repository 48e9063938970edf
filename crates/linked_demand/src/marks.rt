//! Marks of places, with a list of those that are marked.
ghost use Rattle.std.specs.Prelude.{◌≡◌, ◌<◌, true, false, length, replicate, slice_index_or, slice_set, IfOk, IfSome, IfNone};

use admit_core::OutOfMemory;
use flags::Flags;
use std::alloc::Global;
use std::marker::Model;

/// Marks of places, counted from 0. They are taken away one after another, without a look at places
/// that have none.
pub struct Marks {
    flags: Flags,
    places: Vec<u32>,
}

// Not derived: so marks are dropped in one step where they are held, and not list by list.
impl Drop for Marks {
    fn drop(self) {
        let Marks {
            flags: _,
            places: _,
        } = self;
    }
}

impl Model for Marks {
    ghost use Rattle.std.specs.Prelude.{List, Bool, vec_capacity};
    ghost use Rattle.linked_demand.specs.Listed.{MarksAreListed};

    ghost Value = { List Bool };

    ghost view = { λ m. m.flags };

    ghost invariant = { λ m. MarksAreListed m.flags m.places.items (vec_capacity m.places) };
}

impl Marks {
    /// So many places without a mark. All room that the other calls need is made here.
    pub fn none(alloc: Global, count: u32) -> Result<Marks, OutOfMemory>
        ensures { IfOk result (λ m. m ≡ replicate count false) }
    {
        let flags = Flags::all(alloc, count as usize, false)?;
        let places = Vec::with_capacity(alloc, count as usize)?;
        Ok(Marks { flags, places })
    }

    /// Marks a place.
    pub fn set(&mut self, place: u32)
        requires { place < length self.old }
        ensures { self.new ≡ slice_set self.old place true }
    {
        if !self.flags.get(place) {
            self.flags.set(place, true);
            self.places.push_reserved(place);
        }
    }

    /// Takes a mark away, the last one first. `None` where no place is marked.
    pub fn take(&mut self) -> Option<u32>
        ensures marked { IfSome result (λ h. slice_index_or self.old h false ≡ true) }
        ensures cleared { IfSome result (λ h. self.new ≡ slice_set self.old h false) }
        ensures same { IfNone result (self.new ≡ self.old) }
        ensures none { IfNone result (self.old ≡ replicate (length self.old) false) }
    {
        let place = self.places.pop()?;
        self.flags.set(place, false);
        Some(place)
    }
}
