//! The tables with which a campaign is begun again on the morning after an evening.
//!
//! `let tables = next_morning(alloc, tables, &evening, &ceilings, day, dated)?;`
//!
//! A caller who no longer has the tables makes the slots that a day changes from the evening alone,
//! by `next_rows`.
#![tactic(auto)]

mod back;
mod dates;
mod laws;
mod morning;
mod rows;

pub use laws::{
    laws_of_dated_mornings, laws_of_next_mornings, laws_of_read_states,
    witnesses_of_dated_mornings, witnesses_of_next_mornings, witnesses_of_read_states,
};
pub use morning::{next_morning, next_rows};
