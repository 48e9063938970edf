//! What is proved of the texts and exits of several modes together, over their definitions alone:
//! that the chain of a run's own days ends a check as done, with the final state of a replay, and
//! that a market's text tells the best stable matching; and a worked case of a slot's size. The
//! calls do nothing: their clauses are theorems.
//!
//! `laws_of_checks();`
#![tactic(auto)]

mod laws;
mod sizes;

pub use laws::{
    laws_of_checks, laws_of_market_texts, laws_of_outcomes, laws_of_replay_texts,
    witnesses_of_checks, witnesses_of_market_texts, witnesses_of_outcomes,
};
pub use sizes::worked_sizes;
