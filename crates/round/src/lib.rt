//! A pass: finds the greatest bars (*barres d'internat*) of the boarding schools, and offers the
//! wishes that are proposed under them.
//!
//! `let record = pass_along(alloc, &mut state, &roster, ceilings, stamp, picker)?;`
#![tactic(auto)]

mod bars;
mod falls;
mod laws;
mod one_pass;

pub use bars::bars_of;
pub use falls::Falls;
pub use laws::laws_of_passes;
pub use one_pass::{pass, pass_along, pass_keeping};
