//! The pickers of a run.

use bar_fixpoint::Picker;

/// The three pickers, all of which are there before a run and after it.
#[derive(Drop)]
pub struct Pickers {
    /// Chooses the school of least place.
    pub first: Option<Box<dyn Picker>>,
    /// Chooses the school of greatest place.
    pub last: Option<Box<dyn Picker>>,
    /// Chooses the next school after the one that fell before.
    pub turn: Option<Box<dyn Picker>>,
}
