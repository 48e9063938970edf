//! What both systems of boarding schools look at, the plain one in `demand` and the one with links
//! in `linked_demand`: which wishes are open under given bars, the call order and limit of a
//! programme, items in order of their rank, and places in rising lists.
//!
//! `let open = is_open(&state, bars.as_slice(), place);`
#![tactic(auto)]

mod called;
mod demands;
mod open;
mod ranked;
mod rising;

pub use called::{call_everyone, limit_of, order_of, programme_count};
pub use demands::{Demand, names_up_to};
pub use open::{has_open_wish, is_open, is_open_at, mark_at, wish_at};
pub use ranked::{Ranked, sort_by_rank};
pub use rising::first_not_below;
