//! From the slots' bytes to what a run works on: the dossier, its index, the dates of its statuses
//! and the chain's bytes; or why a run stops.
//!
//! `let input = take_in(alloc, &request, &mut shelf)?;`
#![tactic(auto)]

mod files;
mod input;
mod stop;
mod take;
mod terms;

pub use input::Input;
pub use stop::Stop;
pub use take::take_in;
pub use terms::{DatedTerms, dated_terms};
