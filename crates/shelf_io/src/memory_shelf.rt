//! Shelves in memory.
ghost use Rattle.std.specs.Prelude.{◌≡◌, ◌+◌, ◌-◌, ◌^◌, ◌↔◌, ◌∷◌, ◌++◌, ◌≤◌, ◌<◌, ◌⊎◌, [], Some};
ghost use Rattle.std.specs.Prelude.{IfSome, OnOk, OnErr, IsErrOf, drop, take, length, min};
ghost use Rattle.shelf_io.specs.Plans.{IsToFail};
ghost use Rattle.slot_io.specs.Faults.{raised_by};

use crate::plan::Plan;
use admit_core::{OutOfMemory, PerSlot, Slot};
use slot_io::{IoRefusal, Shelf, raise};
use std::alloc::Global;
use std::marker::Model;

/// The bytes of a slot, of which the first `taken` were read.
#[derive(Drop)]
struct Stock {
    bytes: Vec<u8>,
    taken: usize,
}

impl Model for Stock {
    ghost use Rattle.std.specs.Prelude.{◌≤◌, drop, vec_len};
    ghost use Rattle.shelf_io.specs.Stocks.{Stocked};

    ghost Value = { Stocked };

    ghost view = { λ s. record { left = drop s.taken s.bytes.items; taken = s.taken } };

    ghost invariant = { λ s. s.taken ≤ vec_len s.bytes };
}

impl Stock {
    fn new(bytes: Vec<u8>) -> Stock
        ensures left { result.left ≡ bytes.items }
        ensures taken { result.taken ≡ 0 }
    {
        Stock { bytes, taken: 0 }
    }

    /// Moves as many bytes as fit into the buffer.
    fn move_into(&mut self, buf: &mut [u8]) -> usize
        ensures count { result ≡ min (length buf.old) (length self.old.left) }
        ensures moved { take result buf.new ≡ take result self.old.left }
        ensures rest { self.new.left ≡ drop result self.old.left }
        ensures taken { self.new.taken ≡ raised_by result self.old.taken }
    {
        let left = self.bytes.len() - self.taken;
        let count = buf.len().min(left);
        let end = self.taken + count;
        buf[..count].copy_from_slice(&self.bytes[self.taken..end]);
        self.taken = end;
        count
    }
}

/// A shelf in memory that never fails.
#[derive(Drop)]
pub struct PlainShelf {
    stocks: PerSlot<Stock>,
}

impl PlainShelf {
    ghost use Rattle.admit_core.specs.declared.slot.Slot.{Slot};
    ghost use Rattle.slot_io.specs.Bytes.{OthersKept};
    ghost use Rattle.shelf_io.specs.MemoryShelf.{left_of, taken_of};

    /// A shelf with nothing in its slots.
    pub fn new(alloc: Global) -> PlainShelf
        ensures left { (slot : Slot) → left_of result slot ≡ Some [] }
        ensures taken { (slot : Slot) → taken_of result slot ≡ 0 }
    {
        PlainShelf {
            stocks: PerSlot::from_fn(
                |_| -> Stock
                    ensures left { result.left ≡ [] }
                    ensures taken { result.taken ≡ 0 }
                { Stock::new(Vec::new(alloc)) },
            ),
        }
    }

    /// Makes these bytes all that is left in the slot.
    pub fn put(&mut self, slot: Slot, bytes: Vec<u8>)
        ensures left { left_of self.new slot ≡ Some bytes.items }
        ensures taken { taken_of self.new slot ≡ 0 }
        ensures others { OthersKept slot (left_of self.old) (left_of self.new) }
        ensures others_taken { OthersKept slot (taken_of self.old) (taken_of self.new) }
    {
        *self.stocks.get_mut(slot) = Stock::new(bytes);
    }
}

impl Shelf for PlainShelf {
    ghost use Rattle.slot_io.specs.Reads.{IsRead};
    ghost use Rattle.shelf_io.specs.MemoryShelf.{left_of, on_plain, taken_of};

    ghost left = { left_of };

    ghost taken = { taken_of };

    ghost faults = { λ _ _. 0 };

    /// Moves as many bytes as fit. It takes no memory.
    fn read(&mut self, slot: Slot, buf: &mut [u8]) -> Result<usize, IoRefusal>
        requires { 0 < length buf.old }
        ensures read { IsRead slot (on_plain self.old) (on_plain self.new) buf.new result }
        ensures moves { IfSome (left_of self.old slot)
            (λ left. result ≡ Ok (min (length buf.old) (length left))) }
    {
        Ok(self.stocks.get_mut(slot).move_into(buf))
    }
}

/// A shelf in memory, some of whose calls fail.
#[derive(Drop)]
pub struct MemShelf {
    plain: PlainShelf,
    plan: Plan,
    faults: PerSlot<u64>,
}

impl MemShelf {
    ghost use Rattle.admit_core.specs.declared.slot.Slot.{Slot};
    ghost use Rattle.slot_io.specs.Bytes.{OthersKept};
    ghost use Rattle.shelf_io.specs.MemoryShelf.{mem_calls, mem_failing, mem_faults, mem_left};
    ghost use Rattle.shelf_io.specs.MemoryShelf.{mem_plan_full, mem_taken};

    /// A shelf with nothing in its slots.
    pub fn new(alloc: Global) -> MemShelf
        ensures left { (slot : Slot) → mem_left result slot ≡ Some [] }
        ensures taken { (slot : Slot) → mem_taken result slot ≡ 0 }
        ensures faults { (slot : Slot) → mem_faults result slot ≡ 0 }
        ensures failing { mem_failing result ≡ [] }
        ensures calls { mem_calls result ≡ 0 }
    {
        MemShelf {
            plain: PlainShelf::new(alloc),
            plan: Plan::new(alloc),
            faults: PerSlot::splat(0),
        }
    }

    /// Makes these bytes all that is left in the slot.
    pub fn put(&mut self, slot: Slot, bytes: Vec<u8>)
        ensures left { mem_left self.new slot ≡ Some bytes.items }
        ensures taken { mem_taken self.new slot ≡ 0 }
        ensures others { OthersKept slot (mem_left self.old) (mem_left self.new) }
        ensures others_taken { OthersKept slot (mem_taken self.old) (mem_taken self.new) }
        ensures faults { mem_faults self.new ≡ mem_faults self.old }
        ensures failing { mem_failing self.new ≡ mem_failing self.old }
        ensures calls { mem_calls self.new ≡ mem_calls self.old }
    {
        self.plain.put(slot, bytes);
    }

    /// Adds a call to those that are to fail. Calls of `read` are counted from 1, over all slots.
    pub fn fail_at(&mut self, call: u64) -> Result<(), OutOfMemory>
        ensures ok { OnOk result (mem_failing self.new ≡ mem_failing self.old ++ call ∷ []) }
        ensures err { OnErr result (mem_failing self.new ≡ mem_failing self.old) }
        ensures full { OnErr result (mem_plan_full self.old) }
        ensures calls { mem_calls self.new ≡ mem_calls self.old }
        ensures left { mem_left self.new ≡ mem_left self.old }
        ensures taken { mem_taken self.new ≡ mem_taken self.old }
        ensures faults { mem_faults self.new ≡ mem_faults self.old }
    {
        self.plan.fail_at(call)
    }
}

impl Shelf for MemShelf {
    ghost use Rattle.slot_io.specs.Reads.{IsRead};
    ghost use Rattle.shelf_io.specs.MemoryShelf.{mem_calls, mem_failing, mem_faults, mem_left};
    ghost use Rattle.shelf_io.specs.MemoryShelf.{mem_taken, on_mem};

    ghost left = { mem_left };

    ghost taken = { mem_taken };

    ghost faults = { mem_faults };

    /// Moves as many bytes as fit, but for the calls that are to fail. It takes no memory.
    fn read(&mut self, slot: Slot, buf: &mut [u8]) -> Result<usize, IoRefusal>
        requires { 0 < length buf.old }
        ensures read { IsRead slot (on_mem self.old) (on_mem self.new) buf.new result }
        ensures planned { IsErrOf result IoRefusal.Failed ↔ IsToFail (mem_failing self.old)
            (mem_calls self.old) }
        ensures moves { IsToFail (mem_failing self.old) (mem_calls self.old)
            ⊎ IfSome (mem_left self.old slot) (λ left. result
            ≡ Ok (min (length buf.old) (length left))) }
        ensures calls { mem_calls self.new ≡ min (mem_calls self.old + 1) (2 ^ 64 - 1) }
        ensures failing { mem_failing self.new ≡ mem_failing self.old }
    {
        if self.plan.next_fails() {
            raise(&mut self.faults, slot, 1);
            return Err(IoRefusal::Failed);
        }
        self.plain.read(slot, buf)
    }
}
