//! Wishes that block a state: their candidates would rather have a seat that is vacant, or that
//! somebody behind them holds.
//!
//! `let blocks = blocking_pairs(alloc, &state, &orders)?;`
#![tactic(auto)]

mod blocks;
mod known;
mod laws;
mod noted;
mod text;

pub use blocks::{Block, Envy, blocking_pairs, blocking_pairs_along, envy_list};
pub use laws::laws_of_automatic_days;
pub use text::envy_text;
