//! What holds of a campaign that is cut at an evening and begun again from what it left, as
//! theorems over the definitions of the rules. The calls do nothing: their clauses are the laws.
//!
//! `laws_of_cuts();`
#![tactic(auto)]

mod laws;
mod witnesses;

pub use laws::{law_of_next_mornings, laws_of_cuts, laws_of_stamps};
pub use witnesses::{witness_of_next_mornings, witnesses_of_cuts, witnesses_of_stamps};
