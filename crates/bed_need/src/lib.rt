//! How many beds a boarding school needs so that its bar stays at its ceiling, and how the bars of
//! all schools stand then.
//!
//! `let need = least_beds(alloc, &state, &orders, ceilings, school, picker)?;`, or for several
//! questions of a state, whose roster is at hand, `BedQuestions::along(&state, &roster)` and then
//! `questions.least_beds(alloc, ceilings, school, picker)?`.
#![tactic(auto)]

mod growth;
mod laws;
mod need;
mod questions;
mod settled;
mod text;

pub use growth::{Growth, MoreBeds, grown_bars};
pub use laws::laws_of_beds;
pub use need::least_beds;
pub use questions::BedQuestions;
pub use text::beds_text;
