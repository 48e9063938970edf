//! The days of a run of the program: one loop over the days of `desk_day`, which keeps their
//! records, with three pickers that take turns by the day. The call orders are lent: whoever runs
//! days makes them, and a `Roster` of them outlives the days.
//!
//! `let played = play(alloc, &input.dossier, &orders, terms, request.days, who, &mut pickers)?;`
#![tactic(auto)]

mod day;
mod days;
mod last;
mod pickers;
mod wanted;

pub use days::{Played, play, play_wanted};
pub use last::{DeskAlong, LastDesk};
pub use pickers::Pickers;
pub use wanted::Wanted;
