//! Where slots are read from and texts are written to, and whole reads and writes over them: the
//! traits, and files and standard output. A count of faults rose in a call where it is greater
//! after it than before, or stands at the last value of its counter.
//!
//! `let bytes = read_slot(alloc, &mut shelf, Slot::Wishes, limit)?;`
#![tactic(auto)]

mod counts;
mod devices;
mod refusal;
mod shelf;
mod sink;

pub use counts::raise;
pub use devices::{DirShelf, Folder, Printed, StdSink, WriterSink};
pub use refusal::{IoRefusal, SlotRefusal};
pub use shelf::{Shelf, read_slot, read_slot_in};
pub use sink::{Sink, write_all};
