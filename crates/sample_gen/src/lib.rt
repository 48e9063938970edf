//! Made-up dossiers of any size, to try the engine on: their tables follow from the number of
//! candidates alone, and have no fault.
//!
//! `let tables = sample(alloc, 1000)?;`
#![tactic(auto)]

mod choices;
mod rows;
mod slots;

pub use slots::{MAX_CANDIDATES, sample};
