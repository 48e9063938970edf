//! The texts of the report: call orders, days, final states, explanations, refusals and samples,
//! byte for byte. A text is made whole in memory; lines that recur in a long one are added to it.
//! Lines of other texts are made of the same pieces.
//!
//! `push_order(&mut text, group.id, order)?;`
//! `push_all(&mut text, &[Piece::Text("pass "), Piece::Number(7), Piece::End])?;`
#![tactic(auto)]

mod date;
mod day;
mod explanation;
mod final_state;
mod ids;
mod order;
mod piece;
mod refusal;
mod sample;
mod words;
mod worked;

pub use day::{dated_day_text, day_text, push_dated_day, push_day, push_falls};
pub use explanation::explain_text;
pub use final_state::{final_dated_text, final_text, offer_date, push_dated_final, push_final};
pub use ids::wish_id;
pub use order::{order_text, push_order};
pub use piece::{Piece, push_after, push_all, push_ascii, push_end, push_spaced, push_text};
pub use refusal::refusal_text;
pub use sample::sample_text;
pub use worked::worked_texts;
