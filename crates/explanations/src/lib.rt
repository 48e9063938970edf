//! Why a wish stands as it does in the evening of a desk's last day: live, gone, barred from its
//! boarding school, or without a seat in its programme. Campaigns are explained by `explain`.
//!
//! `let explanation = explain_on_desk(&desk, &orders, ceilings, bars, wish);`
#![tactic(auto)]

mod ahead;
mod cases;
mod closing;

pub use cases::{explain_on_desk, explained};
pub use closing::Closing;
