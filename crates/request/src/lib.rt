//! What the words after the program's name ask for: a mode with what it needs, and the options that
//! all modes share. Short tables say what each mode reads, names and runs.
//!
//! `let request = read_request(alloc, words)?;`
#![tactic(auto)]

mod command;
mod modes;
mod pickers;
mod refusal;
mod request;
mod words;

pub use modes::{Mode, Name, named_by, picks_after, runs_days, sample_of, slots_of};
pub use pickers::{PickerChoice, PickerName, picker_on};
pub use refusal::WordsRefusal;
pub use request::{Deadlines, Request};
pub use words::read_request;
