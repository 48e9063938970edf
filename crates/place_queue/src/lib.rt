//! A list of places out of which the first and the last one are taken without moving the others.
//!
//! `let mut queue = PlaceQueue::from_vec(Vec::with_capacity(alloc, 2 * count)?, count);`
#![tactic(auto)]

mod queue;

pub use queue::PlaceQueue;
