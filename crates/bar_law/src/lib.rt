//! What a system of falling bars can be asked, and what holds of every run of falls, without the
//! engine that makes them fall.
//!
//! `let rank = system.over(alloc, place)?;`
#![tactic(auto)]

pub use bar_fixpoint::{Falling, law_of_runs};
