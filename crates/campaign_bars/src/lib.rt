//! What bars do from day to day, and what a candidate who waits can tell from them, whichever
//! schools were picked. The calls do nothing: their clauses are theorems over the definitions of
//! the rules.
//!
//! `law_of_nights();`
#![tactic(auto)]

mod laws;

pub use laws::{law_of_held_beds, law_of_more_beds, law_of_nights, law_of_those_ahead};
