//! One run of the admission engine, over any shelf and any sink: from the words and the slots to
//! the text that is written, and how the run ended.
//!
//! `let exit = run(alloc, &words, &mut shelf, &mut sink, &mut pickers);`
//!
//! A program is an `impl Program`: `started` reads its words, makes new pickers and runs it once.
#![tactic(auto)]

mod answer;
mod run_over;
mod start;
mod words;

pub use modes::{Exit, Reply, exit_number};
pub use played::Pickers;
pub use run_over::{deliver, run};
pub use start::{Ended, Program, started};
