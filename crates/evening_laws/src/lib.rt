//! What holds of each day and of its evening, whichever schools were picked. The calls do nothing:
//! their clauses are theorems over the definitions of the rules.
//!
//! `law_of_passes();`
#![tactic(auto)]

mod laws;

pub use laws::{law_of_idle_places, law_of_passes, laws_of_evening_bars};
