//! A picker that refuses once, for tests of what a refusal leaves.
ghost use Rattle.std.specs.Prelude.{◌≡◌, ◌==◌, ◌+◌, ◌<◌, ◌≤◌, List, length, [], ◌++◌, ◌∷◌, Contains, IfOk, OnErr, vec_capacity, vec_len};
ghost use Rattle.bar_fixpoint.specs.Choices.{first_of};
ghost use Rattle.bar_fixpoint.specs.Tired.{CountsPick, RefusesPick};

use crate::picker::{Picker, tell};
use admit_core::OutOfMemory;
use std::alloc::Global;

/// Answers the first place, but refuses one pick.
#[derive(Drop)]
pub struct TiredPicker {
    told: Vec<u32>,
    /// How often it was asked, up to the greatest `u64`.
    pub picks: u64,
    /// The number, from 1, of the pick that it refuses.
    pub at: u64,
}

impl TiredPicker {
    /// One that was never asked.
    pub fn new(alloc: Global, at: u64) -> TiredPicker
        requires { 1 ≤ at }
        ensures told { ⟦<TiredPicker as Picker>⟧.told result ≡ [] }
        ensures choice { ⟦<TiredPicker as Picker>⟧.choice result
            ≡ (λ told places. first_of places) }
        ensures picks { result.picks ≡ 0 }
        ensures at { result.at ≡ at }
    {
        TiredPicker {
            told: Vec::new(alloc),
            picks: 0,
            at,
        }
    }
}

impl Picker for TiredPicker {
    ghost told = { λ p. p.told.items };

    ghost choice = { λ _ _ places. first_of places };

    fn pick(&mut self, places: &[u32]) -> Result<u32, OutOfMemory>
        requires { 0 < length places.now }
        ensures member { IfOk result (Contains places.now) }
        ensures chosen { IfOk result (λ i. i ≡ first_of places.now) }
        ensures told { IfOk result (λ i. ⟦<TiredPicker as Picker>⟧.told self.new
            ≡ ⟦<TiredPicker as Picker>⟧.told self.old ++ i ∷ []) }
        ensures err { OnErr result
            (⟦<TiredPicker as Picker>⟧.told self.new ≡ ⟦<TiredPicker as Picker>⟧.told self.old) }
        ensures same { ⟦<TiredPicker as Picker>⟧.choice self.new
            ≡ ⟦<TiredPicker as Picker>⟧.choice self.old }
        ensures refuses { RefusesPick self.old.picks self.old.at
            (vec_capacity self.old.told ≤ vec_len self.old.told) result }
        ensures counts { CountsPick self.old.picks self.new.picks self.old.at self.new.at }
    {
        if self.is_tired() {
            return Err(OutOfMemory);
        }
        tell(&mut self.told, places[0])
    }

    fn told_list(&self) -> &[u32] {
        self.told.as_slice()
    }
}

impl TiredPicker {
    /// Counts a pick, and says whether it is the one to refuse.
    fn is_tired(&mut self) -> bool
        ensures tired { result ≡ (self.old.picks + 1 == self.old.at) }
        ensures told { self.new.told ≡ self.old.told }
        ensures counts { CountsPick self.old.picks self.new.picks self.old.at self.new.at }
    {
        let tired = self.picks < u64::MAX && self.picks + 1 == self.at;
        self.picks = self.picks.saturating_add(1);
        tired
    }
}
