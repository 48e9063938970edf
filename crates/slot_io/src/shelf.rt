//! Reading slots.
ghost use Rattle.std.specs.Prelude.{ℕ, ◌<◌, List, Option, length};
ghost use Rattle.admit_core.specs.declared.slot.Slot.{Slot};
ghost use Rattle.slot_io.specs.Reads.{IsRead, ReadsSlot};
ghost use Rattle.slot_io.specs.Shelves.{on_shelf};

use crate::refusal::{IoRefusal, SlotRefusal};
use admit_core::Slot;
use std::alloc::Global;

/// Where the slots are read from.
pub trait Shelf {
    /// The bytes left in each slot, where the shelf tells them.
    ghost left: { Self → Slot → Option (List ℕ) };
    /// How many bytes were taken from each slot, up to the last value of a 64-bit counter.
    ghost taken: { Self → Slot → ℕ };
    /// How often the reads of each slot have failed, up to the last value of a 64-bit counter.
    ghost faults: { Self → Slot → ℕ };

    /// Moves the first bytes left in the slot into the front of the buffer, and answers how many:
    /// 0 exactly where nothing is left. A refused read takes no byte, and none lacks memory.
    fn read(&mut self, slot: Slot, buf: &mut [u8]) -> Result<usize, IoRefusal>
        requires { 0 < length buf.old }
        ensures { IsRead slot
            (on_shelf left taken faults self.old)
            (on_shelf left taken faults self.new) buf.new result };
}

/// How many bytes are asked for at once.
const BUFFER_SIZE: usize = 65_536;

/// Reads all that is left in the slot, of at most `limit` bytes, in the room of a text, which is
/// moved in. A refusal drops it.
///
/// The bytes taken before a refusal stay taken.
pub fn read_slot_in<S: Shelf>(
    shelf: &mut S,
    slot: Slot,
    limit: u64,
    room: Vec<u8>,
) -> Result<Vec<u8>, SlotRefusal>
    ensures { ReadsSlot limit slot
        (on_shelf S.left S.taken S.faults shelf.old)
        (on_shelf S.left S.taken S.faults shelf.new) result }
{
    let mut buf = [0u8; BUFFER_SIZE];
    let mut bytes = room;
    bytes.clear();
    'reads: loop {
        let count = shelf.read(slot, &mut buf)?;
        if count == 0 {
            return Ok(bytes);
        }
        if count as u64 > limit - bytes.len() as u64 {
            return Err(SlotRefusal::TooLarge);
        }
        bytes.extend_from_slice(&buf[..count])?;
    }
}

/// The same, as a text of its own.
pub fn read_slot<S: Shelf>(
    alloc: Global,
    shelf: &mut S,
    slot: Slot,
    limit: u64,
) -> Result<Vec<u8>, SlotRefusal>
    ensures { ReadsSlot limit slot
        (on_shelf S.left S.taken S.faults shelf.old)
        (on_shelf S.left S.taken S.faults shelf.new) result }
{
    read_slot_in(shelf, slot, limit, Vec::new(alloc))
}
