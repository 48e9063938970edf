//! Checks the relations between the rows of tables: answers their first fault, by slot, row and
//! reason, or the dossier that they stand for, with the places of its ids.
//!
//! `let checked = check(alloc, &tables)?;`
#![tactic(auto)]

mod answers;
mod apart;
mod by_key;
mod dates;
mod day_falls;
mod first_wishes;
mod groups;
mod hashing;
mod index;
mod items;
mod known;
mod made;
mod near;
mod noted;
mod ordered;
mod placed;
mod preferences;
mod preferred;
mod ranks;
mod relations;
mod row_ids;
mod row_tests;
mod rules;
mod scan;
mod slots;
mod state;
mod statuses;
mod tag;
mod tags;
mod who_is_ranked;
mod wish_ranks;
mod wished;
mod wishes;

pub use dates::Dates;
pub use index::{Index, school_place, wish_place};
pub use relations::{Checked, check};
