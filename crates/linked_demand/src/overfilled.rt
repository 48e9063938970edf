//! The overfilled places, as a queue beside the first rank of each that has no bed.
ghost use Rattle.std.specs.Prelude.{◌≡◌, ◌<◌, None, length, replicate, slice_index_or, slice_set, IfOk};
ghost use Rattle.linked_demand.specs.Listed.{answered};

use admit_core::OutOfMemory;
use place_queue::PlaceQueue;
use proposals::first_not_below;
use std::alloc::Global;
use std::marker::Model;

/// For each place, counted from 0, the first rank that has no bed, if there is one: then the place
/// is overfilled.
///
/// Putting the rank of the first or the last overfilled place moves no other.
pub struct Overfilled {
    ranks: Vec<Option<u32>>,
    places: PlaceQueue,
}

// Not derived: so answers are dropped in one step where they are held, and not list by list.
impl Drop for Overfilled {
    fn drop(self) {
        let Overfilled {
            ranks: _,
            places: _,
        } = self;
    }
}

impl Model for Overfilled {
    ghost use Rattle.std.specs.Prelude.{List, Option, ℕ};
    ghost use Rattle.linked_demand.specs.Listed.{AnswersAreListed};

    ghost Value = { List (Option ℕ) };

    ghost view = { λ o. o.ranks.items };

    ghost invariant = { λ o. AnswersAreListed o.ranks.items o.places.items o.places.room };
}

impl Overfilled {
    /// So many places, of which none is overfilled. All room that the other calls need is made
    /// here.
    pub fn none(alloc: Global, count: u32) -> Result<Overfilled, OutOfMemory>
        ensures { IfOk result (λ o. o ≡ replicate count None) }
    {
        let count = count as usize;
        let ranks = vec![in alloc; None; count]?;
        let places = Vec::with_capacity(alloc, 2 * count)?;
        let places = PlaceQueue::from_vec(places, count);
        Ok(Overfilled { ranks, places })
    }

    /// The rank of a place.
    pub fn get(&self, place: u32) -> Option<u32>
        requires { place < length self.now }
        ensures { result ≡ slice_index_or self.now place None }
    {
        self.ranks[place as usize]
    }

    /// Puts the rank of a place.
    pub fn put(&mut self, place: u32, rank: Option<u32>)
        requires { place < length self.old }
        ensures { self.new ≡ slice_set self.old place rank }
    {
        let was_over = self.ranks[place as usize].is_some();
        let is_over = rank.is_some();
        if is_over != was_over {
            let at = first_not_below(self.places.as_slice(), place);
            if is_over {
                self.places.insert(at, place);
            } else {
                self.places.remove(at);
            }
        }
        self.ranks[place as usize] = rank;
    }

    /// The overfilled places, from the least.
    pub fn places(&self) -> &[u32]
        ensures { result.now ≡ answered self.now }
    {
        self.places.as_slice()
    }
}
