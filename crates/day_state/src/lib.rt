//! The state of a dossier's wishes on a day: the status of each and since when it has it, counts of
//! the live ones, and what offers, answers and deadlines do to them.
//!
//! `state.apply(answer, stamp)?;`
#![tactic(auto)]

mod ahead;
mod bundle_numbers;
mod bundles;
mod counted_marks;
mod counts;
mod day;
mod index;
mod laws;
mod live_counts;
mod mark;
mod marked;
mod marks;
mod members;
mod numbers;
mod spans;
mod vacancies;

pub use counted_marks::freed_in_all;
pub use day::{DayState, UnfitAnswer, UnfitAt};
pub use laws::candidates_stand_apart;
pub use mark::{lapses, offer_day};
pub use marked::MarkedWishes;
pub use marks::Marks;
pub use numbers::BundleNumber;
pub use spans::{Span, part};
pub use vacancies::{beds_left, has_bed, needs_seat, seats_left};
