//! What the program writes of an evening, read as what it comes in with on the next morning, as
//! theorems over the definitions. The call does nothing: its clauses are the laws.
//!
//! `laws_of_final_texts();`
#![tactic(auto)]

mod laws;
mod witnesses;

pub use laws::laws_of_final_texts;
pub use witnesses::witnesses_of_final_texts;
