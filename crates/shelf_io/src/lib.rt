//! Devices in memory, beside those of `slot_io`: shelves and sinks that tell their bytes, and some
//! that fail at the calls that they are told to fail at.
//!
//! `shelf.put(Slot::Wishes, bytes); let told = read_slot(alloc, &mut shelf, Slot::Wishes, limit)?;`
#![tactic(auto)]

mod memory_shelf;
mod memory_sink;
mod plan;

pub use memory_shelf::{MemShelf, PlainShelf};
pub use memory_sink::{MemSink, PlainSink};
pub use slot_io::{DirShelf, IoRefusal, Shelf, Sink, SlotRefusal, StdSink, read_slot, write_all};
