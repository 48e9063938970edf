//! What the program reads of an evening's final lines on the next morning, as the campaign that is
//! cut there, as theorems over the definitions. The call does nothing: its clauses are the laws.
//!
//! `law_of_read_offers();`
#![tactic(auto)]

mod laws;
mod witnesses;

pub use laws::law_of_read_offers;
pub use witnesses::witness_of_read_offers;
