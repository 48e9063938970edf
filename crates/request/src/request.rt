//! What a run is asked to do.

use crate::modes::Mode;
use crate::pickers::PickerChoice;
use calendar::Civil;

/// When offers lapse.
#[derive(Clone, Copy)]
pub struct Deadlines {
    /// The date of day 1, of a year from 1901 to 2298.
    pub start: Civil,
    /// For how many days after its own an offer stands, from 0 to 366.
    pub term: u32,
}

/// A mode, and the options that all modes share.
#[derive(Clone, Copy)]
pub struct Request {
    pub mode: Mode,
    /// How many days are run, from 1 to 366; 1 where it is not given.
    pub days: u32,
    /// The first picker where none is given.
    pub picker: PickerChoice,
    /// None where offers do not lapse.
    pub deadlines: Option<Deadlines>,
}
