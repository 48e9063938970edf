//! How many candidates programmes have, with a list of those that have more than their seats.
ghost use Rattle.std.specs.Prelude.{◌≡◌, ◌<◌, ◌≤◌, length, slice_index, slice_set, IfOk, IsOk, []};
ghost use Rattle.markets.specs.Fillings.{overfilled, is_over};

use admit_core::OutOfMemory;
use place_queue::PlaceQueue;
use proposals::first_not_below;
use std::alloc::Global;
use std::marker::Model;

/// The seats and the number of candidates of each programme.
pub struct Filling {
    seats: Vec<u32>,
    counts: Vec<u32>,
    overfilled: PlaceQueue,
}

// Not derived: so it is dropped in one step where it is held, and not by each list.
impl Drop for Filling {
    fn drop(self) {
        let Filling {
            seats: _,
            counts: _,
            overfilled: _,
        } = self;
    }
}

impl Model for Filling {
    ghost use Rattle.markets.specs.Fillings.{Fill, AreListed};

    ghost Value = { Fill };

    ghost view = { λ f. record { seats = f.seats.items; counts = f.counts.items } };

    ghost invariant = { λ f. AreListed (record { seats = f.seats.items; counts = f.counts.items })
        f.overfilled.items f.overfilled.room };
}

impl Filling {
    /// Programmes with these seats and counts. All room that the other calls need is made here.
    pub fn build(alloc: Global, seats: &[u32], counts: Vec<u32>) -> Result<Filling, OutOfMemory>
        requires many { length counts.items ≤ 16000000 }
        requires seats { length seats.now ≡ length counts.items }
        ensures { IfOk result (λ f. f ≡ record { seats = seats.now; counts = counts.items }) }
    {
        let seats = seats.to_vec(alloc)?;
        let mut overfilled = Vec::with_capacity(alloc, 2 * counts.len())?;
        for programme in 0..counts.len() as u32 {
            if counts[programme as usize] > seats[programme as usize] {
                overfilled.push(programme)?;
            }
        }
        let overfilled = PlaceQueue::from_vec(overfilled, counts.len());
        Ok(Filling {
            seats,
            counts,
            overfilled,
        })
    }

    /// The seats of a programme.
    pub fn seats(&self, programme: u32) -> u32
        requires { programme < length self.now.seats }
        ensures { result ≡ slice_index self.now.seats programme }
    {
        self.seats[programme as usize]
    }

    /// How many candidates a programme has.
    pub fn count(&self, programme: u32) -> u32
        requires { programme < length self.now.counts }
        ensures { result ≡ slice_index self.now.counts programme }
    {
        self.counts[programme as usize]
    }

    /// The programmes that have more candidates than seats, from the least.
    pub fn overfilled(&self, alloc: Global) -> Result<Vec<u32>, OutOfMemory>
        ensures places { IfOk result (λ places. places.items ≡ overfilled self.now) }
        ensures always { overfilled self.now ≡ [] → IsOk result }
    {
        let listed = self.overfilled.as_slice();
        if listed.is_empty() {
            return Ok(Vec::new(alloc));
        }
        Ok(listed.to_vec(alloc)?)
    }

    /// Lends the places that [`Filling::overfilled`] copies.
    pub fn listed(&self) -> &[u32]
        ensures { result.now ≡ overfilled self.now }
    {
        self.overfilled.as_slice()
    }

    /// Puts how many candidates a programme has.
    pub fn put(&mut self, programme: u32, count: u32)
        requires counts { programme < length self.old.counts }
        requires seats { programme < length self.old.seats }
        ensures { self.new ≡ record self.old
            { counts = slice_set self.old.counts programme count } }
    {
        let seats = self.seats[programme as usize];
        let was_over = self.counts[programme as usize] > seats;
        let is_over = count > seats;
        if is_over != was_over {
            let at = first_not_below(self.overfilled.as_slice(), programme);
            if is_over {
                self.overfilled.insert(at, programme);
            } else {
                self.overfilled.remove(at);
            }
        }
        self.counts[programme as usize] = count;
    }
}
