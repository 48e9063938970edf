//! Files of worked cases: dossiers by their slots, and what is to be done with them. A file is a
//! row of sections, each a line that begins with its name and below it the lines of its text, each
//! behind a bar and a space. A line that begins with `#` tells the reader something.
//!
//! `let sections = sections(alloc, file.as_str())?;`
#![tactic(auto)]

mod given;
mod reading;

pub use given::{SLOTS, Slots, slot_named};
pub use reading::{Section, sections};
