//! That the text of a report hides nothing of its orders, days and final statuses: two runs of one
//! dossier with the same text have the same ones. Stamps are not told. The calls do nothing: their
//! clauses are the laws.
//!
//! `laws_of_runs();`
#![tactic(auto)]

mod laws;
mod witnesses;

pub use laws::{laws_of_days, laws_of_lines, laws_of_runs};
pub use witnesses::{witnesses_of_days, witnesses_of_lines, witnesses_of_runs};
