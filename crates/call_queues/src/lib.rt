//! Four queues of ranked candidates, one for each pair of the two flags, scholar and resident: the
//! best of each kind who is not called yet.
//!
//! `let called = queues.pop(Kind::ScholarOnly, &mut steps);`
#![tactic(auto)]

pub use call_order::{Kind, Queues};
