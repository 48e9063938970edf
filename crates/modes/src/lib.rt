//! The modes: how a run ends once its days are over, with each mode's text; and the line of what
//! stopped a run before them.
//!
//! `let reply = ending(alloc, &request, &input, dated, &orders, played, &mut pickers)?;`
#![tactic(auto)]

mod all_played;
mod beds;
mod blocked;
mod chain;
mod checked;
mod endings;
mod exit;
mod explained;
mod job;
mod market;
mod order;
mod replay;
mod reply;
mod sample;
mod task;
mod unproved;

pub use endings::ending;
pub use exit::{Exit, exit_number};
pub use job::{days_of, deadlines_of, terms_in, wanted_of};
pub use reply::{Reply, StopLine, stopped};
