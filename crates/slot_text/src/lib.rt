//! The rows of tables as the texts of their slots: a header and a line a row, which the readers of
//! the slots read as these rows.
//!
//! `push_slot(&mut text, &tables, Slot::State, dated)?;`
#![tactic(auto)]

mod laws;
mod rows;
mod slots;
mod table;

pub use laws::{law_of_slot_texts, witness_of_slot_texts};
pub use slots::push_slot;
