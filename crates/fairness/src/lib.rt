//! What the rules promise a candidate (nobody is passed over in a call order; a better rank never
//! means a later call), and what they do not, though it seems so. The calls do nothing: their
//! clauses are theorems over the definitions of the rules.
//!
//! `laws_of_places();`
#![tactic(auto)]

mod cases;
mod laws;

pub use cases::not_promised;
pub use laws::{laws_of_exchanges, laws_of_offers, laws_of_places};
