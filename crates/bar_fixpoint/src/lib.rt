//! Finds the greatest bars of a system: bars fall from the ceilings, each one picked from all that
//! are overfilled, until none is. Any picker leads to the same bars, which is a law of every such
//! system.
//!
//! `let falls = greatest(alloc, &mut system, &mut FirstPicker::new(alloc), &mut steps)?;`
#![tactic(auto)]

ghost use Rattle.std.specs.Prelude.{◌≡◌, ◌<◌, ◌≤◌, ◌++◌, ◌∷◌, length, [], Contains, IfOk, IfSome, OnErr, find, nat_lt, vec_capacity, vec_len};
ghost use Rattle.bar_fixpoint.specs.Choices.{first_of, last_of, turn_of};

mod engine;
mod falling;
mod keeper;
mod law;
mod picker;
mod tired;

use admit_core::OutOfMemory;
pub use engine::{greatest, settle};
pub use falling::Falling;
pub use law::law_of_runs;
pub use picker::Picker;
use picker::tell;
use std::alloc::Global;
pub use tired::TiredPicker;

/// Answers the first place.
#[derive(Drop)]
pub struct FirstPicker {
    told: Vec<u32>,
}

impl FirstPicker {
    /// One that has told nothing.
    pub fn new(alloc: Global) -> FirstPicker
        ensures told { ⟦<FirstPicker as Picker>⟧.told result ≡ [] }
        ensures choice { ⟦<FirstPicker as Picker>⟧.choice result
            ≡ (λ told places. first_of places) }
    {
        FirstPicker {
            told: Vec::new(alloc),
        }
    }
}

impl Picker for FirstPicker {
    ghost told = { λ p. p.told.items };

    ghost choice = { λ _ _ places. first_of places };

    fn pick(&mut self, places: &[u32]) -> Result<u32, OutOfMemory>
        requires { 0 < length places.now }
        ensures member { IfOk result (Contains places.now) }
        ensures chosen { IfOk result (λ i. i ≡ first_of places.now) }
        ensures told { IfOk result (λ i. ⟦<FirstPicker as Picker>⟧.told self.new
            ≡ ⟦<FirstPicker as Picker>⟧.told self.old ++ i ∷ []) }
        ensures err { OnErr result
            (⟦<FirstPicker as Picker>⟧.told self.new ≡ ⟦<FirstPicker as Picker>⟧.told self.old) }
        ensures same { ⟦<FirstPicker as Picker>⟧.choice self.new
            ≡ ⟦<FirstPicker as Picker>⟧.choice self.old }
        ensures full { OnErr result (vec_capacity self.old.told ≤ vec_len self.old.told) }
    {
        tell(&mut self.told, places[0])
    }

    fn told_list(&self) -> &[u32] {
        self.told.as_slice()
    }
}

/// Answers the last place.
#[derive(Drop)]
pub struct LastPicker {
    told: Vec<u32>,
}

impl LastPicker {
    /// One that has told nothing.
    pub fn new(alloc: Global) -> LastPicker
        ensures told { ⟦<LastPicker as Picker>⟧.told result ≡ [] }
        ensures choice { ⟦<LastPicker as Picker>⟧.choice result ≡ (λ told places. last_of places) }
    {
        LastPicker {
            told: Vec::new(alloc),
        }
    }
}

impl Picker for LastPicker {
    ghost told = { λ p. p.told.items };

    ghost choice = { λ _ _ places. last_of places };

    fn pick(&mut self, places: &[u32]) -> Result<u32, OutOfMemory>
        requires { 0 < length places.now }
        ensures member { IfOk result (Contains places.now) }
        ensures chosen { IfOk result (λ i. i ≡ last_of places.now) }
        ensures told { IfOk result (λ i. ⟦<LastPicker as Picker>⟧.told self.new
            ≡ ⟦<LastPicker as Picker>⟧.told self.old ++ i ∷ []) }
        ensures err { OnErr result
            (⟦<LastPicker as Picker>⟧.told self.new ≡ ⟦<LastPicker as Picker>⟧.told self.old) }
        ensures same { ⟦<LastPicker as Picker>⟧.choice self.new
            ≡ ⟦<LastPicker as Picker>⟧.choice self.old }
        ensures full { OnErr result (vec_capacity self.old.told ≤ vec_len self.old.told) }
    {
        tell(&mut self.told, places[places.len() - 1])
    }

    fn told_list(&self) -> &[u32] {
        self.told.as_slice()
    }
}

/// Answers the least place greater than its last answer, or the first where there is none.
#[derive(Drop)]
pub struct TurnPicker {
    told: Vec<u32>,
}

impl TurnPicker {
    /// One that has told nothing.
    pub fn new(alloc: Global) -> TurnPicker
        ensures told { ⟦<TurnPicker as Picker>⟧.told result ≡ [] }
        ensures choice { ⟦<TurnPicker as Picker>⟧.choice result ≡ turn_of }
    {
        TurnPicker {
            told: Vec::new(alloc),
        }
    }
}

impl Picker for TurnPicker {
    ghost told = { λ p. p.told.items };

    ghost choice = { λ _ told places. turn_of told places };

    fn pick(&mut self, places: &[u32]) -> Result<u32, OutOfMemory>
        requires { 0 < length places.now }
        ensures member { IfOk result (Contains places.now) }
        ensures chosen { IfOk result (λ i. i
            ≡ turn_of (⟦<TurnPicker as Picker>⟧.told self.old) places.now) }
        ensures told { IfOk result (λ i. ⟦<TurnPicker as Picker>⟧.told self.new
            ≡ ⟦<TurnPicker as Picker>⟧.told self.old ++ i ∷ []) }
        ensures err { OnErr result
            (⟦<TurnPicker as Picker>⟧.told self.new ≡ ⟦<TurnPicker as Picker>⟧.told self.old) }
        ensures same { ⟦<TurnPicker as Picker>⟧.choice self.new
            ≡ ⟦<TurnPicker as Picker>⟧.choice self.old }
        ensures full { OnErr result (vec_capacity self.old.told ≤ vec_len self.old.told) }
    {
        let place = turn(self.told.as_slice(), places);
        tell(&mut self.told, place)
    }

    fn told_list(&self) -> &[u32] {
        self.told.as_slice()
    }
}

/// The place whose turn it is.
fn turn(told: &[u32], places: &[u32]) -> u32
    requires { 0 < length places.now }
    ensures chosen { result ≡ turn_of told.now places.now }
    ensures member { Contains places.now result }
{
    if told.is_empty() {
        return places[0];
    }
    first_above(told[told.len() - 1], places).unwrap_or(places[0])
}

/// The first place that is greater than the last one.
fn first_above(last: u32, places: &[u32]) -> Option<u32>
    ensures chosen { result ≡ find (nat_lt last) places.now }
    ensures member { IfSome result (Contains places.now) }
{
    places.iter().copied().find(|place| last < *place)
}
