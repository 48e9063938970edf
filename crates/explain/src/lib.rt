//! Why a wish stands as it does after a campaign's last day, and the laws of explanations. What a
//! desk tells without a campaign is in `explanations`.
//!
//! `let explanation = explain(&campaign, wish);`
#![tactic(auto)]

mod explained;
mod laws;

pub use explained::explain;
pub use explanations::explain_on_desk;
pub use laws::laws_of_explanations;
