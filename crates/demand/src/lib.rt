//! Which wishes are proposed under given bars, and the boarding schools as a system of falling bars
//! that keeps nothing but its bars: the plain form of the system in `linked_demand`.
//!
//! `let wishes = proposed(alloc, &state, &orders, bars.as_slice())?;`
#![tactic(auto)]

mod demands;
mod round;
mod walk;

pub use demands::demands_of;
pub use proposals::{
    Demand, Ranked, call_everyone, has_open_wish, is_open, limit_of, mark_at, names_up_to,
    order_of, programme_count, sort_by_rank, wish_at,
};
pub use round::PlainRound;
pub use walk::proposed;
