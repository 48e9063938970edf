//! A guess for each candidate where they begin in a list.
ghost use Rattle.std.specs.Prelude.{◌<◌, ◌^◌, length};

use crate::wishes::wish_count;
use crate::wishing::Application;
use admit_core::OutOfMemory;
use day_state::DayState;
use proposals::wish_at;
use std::alloc::Global;

/// Which of so many guesses is a candidate's. Most numbers need no division.
fn slot(candidate: u32, count: usize) -> usize
    requires { 0 < count }
    ensures { result < count }
{
    let slot = candidate as usize;
    if slot < count { slot } else { slot % count }
}

/// Where candidates may begin in the last list. Two candidates can share a guess, and one
/// who isn't in the list has an older one: whoever asks looks whether it is right.
#[derive(Drop)]
pub struct Guesses {
    places: Vec<u32>,
}

impl Guesses {
    /// As many guesses as the greatest candidate's number asks for, but not more than there are
    /// wishes.
    pub fn of_wishes(alloc: Global, state: &DayState<'_>) -> Result<Guesses, OutOfMemory> {
        let by_candidate = state.places_by_candidate();
        let mut count = wish_count(state);
        if let Some(last) = by_candidate.last() {
            let greatest = wish_at(state, *last).candidate;
            if greatest < count {
                count = greatest + 1;
            }
        }
        let places = vec![in alloc; 0; count as usize]?;
        Ok(Guesses { places })
    }

    /// Guesses anew: the first place of each candidate in a list.
    pub fn renew(&mut self, applications: &[Application])
        requires { length applications.now < 2 ^ 32 }
    {
        let count = self.places.len();
        if count == 0 {
            return;
        }
        let mut place = applications.len();
        while place > 0 {
            place -= 1;
            self.places[slot(applications[place].candidate, count)] = place as u32;
        }
    }

    /// The guess for a candidate.
    pub fn of(&self, candidate: u32) -> usize {
        let count = self.places.len();
        if count == 0 {
            return 0;
        }
        self.places[slot(candidate, count)] as usize
    }
}
