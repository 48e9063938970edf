//! Call orders (*ordres d'appel*): the order in which a ranking group's candidates are called,
//! fixed by its ranking and its two minimum rates, with the rates that bound at each position. It
//! is made from the heads of four queues, one for each pair of the two flags.
//!
//! `let orders = call_orders(alloc, dossier.groups.as_slice())?;`
#![tactic(auto)]

mod group;
mod heads;
mod kind;
mod queued;
mod queues;

pub use group::{call_order, call_orders};
pub use kind::Kind;
pub use queued::call_order_queued;
pub use queues::Queues;
