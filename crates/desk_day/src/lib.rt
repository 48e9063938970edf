//! One day on a `Desk`, along a roster that is lent: its lapses and answers, passes until the
//! automatic answers free nothing, and the evening. Day after day is a campaign in `day_run`, and
//! `played` in the program.
//!
//! `let day = run_day_along(alloc, &mut desk, &roster, ceilings, None, 1, picker)?;`
#![tactic(auto)]

mod answers_on;
mod ceilings;
mod changes;
mod day;
mod desk;
mod evening;
mod lapses;
mod morning;
mod once;
mod passes;
mod plan;
mod present;
mod refusal;
mod refused;
mod running;
mod touched;
mod who;

pub use ceilings::{ceilings_on, own_ceilings};
pub use day::{run_day_along, run_day_by};
pub use desk::Desk;
pub use morning::make_morning;
pub use passes::frees_nothing;
pub use plan::DayPlan;
pub use present::Present;
pub use refusal::DayRefusal;
