//! How many wishes are live in each bundle.
ghost use Rattle.std.specs.Prelude.{◌≡◌, ◌<◌, ◌≤◌, ◌+◌, ◌^◌, length, map, nat_lt, slice_index, IfOk, replicate};
ghost use Rattle.std.specs.Option.{ForSome};
ghost use Rattle.flags.specs.Words.{IsNextSet};
ghost use Rattle.day_state.specs.Kept.{one_if, recount_some};

use crate::counts::{copy_counts, recount, zeros};
use admit_core::OutOfMemory;
use flags::Flags;
use std::alloc::Global;
use std::marker::Model;

/// How many wishes are live in each bundle, by its number, and a bit for each bundle that has one.
/// Whether it has one is asked in no order, and the bits of all bundles are soon at hand.
pub struct LiveCounts {
    counts: Vec<u32>,
    has_some: Flags,
}

// Not derived: so the lists are dropped in one step where they are held.
impl Drop for LiveCounts {
    fn drop(self) {
        let LiveCounts {
            counts: _,
            has_some: _,
        } = self;
    }
}

impl Model for LiveCounts {
    ghost use Rattle.std.specs.Prelude.{◌≡◌, ℕ, List, map, nat_lt};

    ghost Value = { List ℕ };

    ghost view = { λ c. c.counts.items };

    ghost invariant = { λ c. c.has_some ≡ map (nat_lt 0) c.counts.items };
}

impl LiveCounts {
    /// So many bundles in which no wish is live.
    pub fn none(alloc: Global, count: usize) -> Result<LiveCounts, OutOfMemory>
        ensures { IfOk result (λ c. c ≡ replicate count 0) }
    {
        Ok(LiveCounts {
            counts: zeros(alloc, count)?,
            has_some: Flags::all(alloc, count, false)?,
        })
    }

    /// The same counts again.
    pub fn copy(&self, alloc: Global) -> Result<LiveCounts, OutOfMemory>
        ensures { IfOk result (λ c. c ≡ self.now) }
    {
        Ok(LiveCounts {
            counts: self.counts.as_slice().to_vec(alloc)?,
            has_some: self.has_some.copy(alloc)?,
        })
    }

    /// Takes over as many counts.
    pub fn set_from(&mut self, other: &LiveCounts)
        requires { length self.old ≡ length other.now }
        ensures { self.new ≡ other.now }
    {
        copy_counts(&mut self.counts, &other.counts);
        self.has_some.set_from(&other.has_some);
    }

    /// How many bundles there are.
    pub fn len(&self) -> usize
        ensures { result ≡ length self.now }
    {
        self.counts.len()
    }

    /// Whether a wish is live in a bundle. None is where there is no such bundle.
    pub fn has_some(&self, bundle: u32) -> bool
        ensures { result ≡ nat_lt 0 (slice_index self.now bundle) }
    {
        self.has_some.get(bundle)
    }

    /// The first bundle with a live wish, from a number on.
    pub fn next_some(&self, from: usize) -> Option<usize>
        ensures next { IsNextSet (map (nat_lt 0) self.now) from result }
        ensures fits { ForSome result (λ n. n + 1 < 2 ^ 64) }
    {
        let _ = &self.counts; // learns the invariant
        self.has_some.next_set(from)
    }

    /// Counts a wish of a bundle anew that was live, or wasn't, and is live, or isn't. A wish that
    /// is alone has none.
    pub fn recount(&mut self, bundle: Option<u32>, was_live: bool, lives: bool)
        requires bundle { ForSome bundle (λ n. n < length self.old) }
        requires comes { ForSome bundle (λ n. slice_index self.old n + one_if lives < 2 ^ 32) }
        requires goes { ForSome bundle
            (λ n. one_if was_live ≤ slice_index self.old n + one_if lives) }
        ensures { self.new ≡ recount_some self.old bundle was_live lives }
    {
        if let Some(bundle) = bundle {
            recount(&mut self.counts, bundle, was_live, lives);
            self.has_some.set(bundle, self.counts[bundle as usize] > 0);
        }
    }
}
