//! What the chain of the engine's own days proves: it is read as it was written, and each day of it
//! is valid. There is nothing to run; a body that makes the call has both as facts.
//!
//! `laws_of_written_chains();`
#![tactic(auto)]

mod laws;

pub use laws::{laws_of_grammar, laws_of_written_chains};
