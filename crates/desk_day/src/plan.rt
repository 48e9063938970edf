//! How a day is run.

use admit_core::Terms;
use round::Falls;

/// How a day is run, and what is kept of it.
#[derive(Clone, Copy)]
pub struct DayPlan<'a> {
    /// The ceilings of the day, by school.
    pub ceilings: &'a [u32],
    /// The terms of the offers; without them none lapses.
    pub terms: Option<&'a Terms>,
    /// The day's number, from 1.
    pub day: u32,
    /// Whether the record keeps the falls of its passes.
    pub falls: Falls,
}
