//! What the rules promise a candidate over whole campaigns, day after day, whichever schools were
//! picked; and what they do not, though it seems so. The calls do nothing: their clauses are
//! theorems over the definitions of the rules.
//!
//! `laws_of_marks();`
#![tactic(auto)]

mod cases;
mod laws;
mod witnesses;

pub use cases::days_not_promised;
pub use laws::{
    law_of_quiet_days, laws_of_automatic_days, laws_of_beds, laws_of_marks, laws_of_room,
    laws_of_silence, laws_of_turns,
};
pub use witnesses::{
    witness_of_quiet_days, witnesses_of_automatic_days, witnesses_of_beds, witnesses_of_marks,
    witnesses_of_room, witnesses_of_silence, witnesses_of_turns,
};
