//! Civil dates from 1900-01-01 to 2310-12-31, for the dates and the deadlines of offers. Contracts
//! see a date as its number of days since 1970-01-01. No call takes memory.
//!
//! `let last_day = deadline(offered, term);`
#![tactic(auto)]

mod civil;
mod text;

pub use civil::{Civil, civil_of, day_of, deadline, on_day, parts};
pub use text::{date_text, read_date};
