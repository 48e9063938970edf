//! Chains, that is the falls of days as a text: written, read by its grammar, and tested day by day
//! without trust in who wrote it. A chain is lines, each ended by one line feed: `day D`, `pass K`,
//! `fall S FROM TO W W ..` and, at the end, `end`. One space stands between two words.
//!
//! `let verdict = check_day(alloc, &index, &orders, &morning, ceilings, day, chain)?;`, or for many
//! days `let grounds = Grounds::along(&roster, &index);` and
//! `let mut present = Present::begin(first);`, and then, day by day,
//! `present.begin_day(alloc, terms, day)?;` and
//! `check_day_on(alloc, &grounds, &mut present, ceilings, day, chain)?;`.
#![tactic(auto)]

mod check;
mod cut;
mod falls;
mod fault;
mod grounds;
mod line;
mod named;
mod pass_test;
mod passes;
mod read;
mod reading;
mod refusal;
mod stop;
mod texts;
mod worked;
mod write;

pub use check::{Verdict, check_day, check_day_along};
pub use grounds::Grounds;
pub use passes::check_day_on;
pub use read::read_chain;
pub use refusal::ChainRefusal;
pub use stop::{CheckStop, Rejection};
pub use texts::{chain_fault_text, push_verdict, verdict_text};
pub use worked::worked_chain_texts;
pub use write::write_chain;
