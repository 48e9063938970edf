//! A list of flags that keeps 64 of them in a word, so that it takes an eighth of a list of `bool`.
//!
//! `let mut flags = Flags::all(alloc, count, false)?;`
#![tactic(auto)]

mod words;

pub use words::Flags;
