//! Which days are asked for.

use request::PickerChoice;
use round::Falls;

/// How many days are asked for, with which picker each, and what is kept of them.
#[derive(Clone, Copy)]
pub struct Wanted {
    /// At most 366.
    pub number: u32,
    pub who: PickerChoice,
    /// Whether the records keep the falls of their passes.
    pub falls: Falls,
}
