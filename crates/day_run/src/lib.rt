//! Campaigns: day after day of `desk_day`, with a picker of their own. `run_day` runs one day on a
//! `Desk`, along a roster of its own.
//!
//! `let day = campaign.next_day(alloc)?;`
#![tactic(auto)]

mod campaign;
mod course;
mod day;
mod laws;

pub use campaign::{Campaign, NoRoom};
pub use course::Course;
pub use day::{run_dated_day, run_day};
pub use desk_day::{DayRefusal, Desk, ceilings_on, make_morning, run_day_along};
pub use laws::laws_of_days;
