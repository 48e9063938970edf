//! Automatic answers (*répondeur automatique*): what is answered after a pass for the candidates
//! who rank their wishes, and how many seats and beds that frees.
//!
//! `let freed = auto_all(&mut state, stamp);`
#![tactic(auto)]

mod answers;
mod laws;

pub use answers::{auto_all, auto_one, auto_some};
pub use laws::laws_of_automatic_answers;
