//! One run that writes a slot of the next morning, over any shelf and any sink: it takes in and
//! plays what `parcours replay` does, and writes the slot in place of the report.
//!
//! `let exit = run(alloc, &words, &mut shelf, &mut sink, &mut pickers);`
#![tactic(auto)]

mod answer;
mod asked;
mod morning;
mod run_over;

pub use modes::{Exit, exit_number};
pub use played::Pickers;
pub use run_over::run;
