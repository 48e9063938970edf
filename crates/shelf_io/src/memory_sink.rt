//! Sinks in memory.
ghost use Rattle.std.specs.Prelude.{◌≡◌, ◌+◌, ◌-◌, ◌^◌, ◌↔◌, ◌∷◌, ◌++◌, ◌<◌, ◌⊎◌, [], Some, IfOk};
ghost use Rattle.std.specs.Prelude.{OnOk, OnErr, IsErrOf, length, min};
ghost use Rattle.shelf_io.specs.Plans.{IsToFail};
ghost use Rattle.shelf_io.specs.Rooms.{fitting};

use crate::plan::Plan;
use admit_core::OutOfMemory;
use slot_io::{IoRefusal, Sink};
use std::alloc::Global;

/// A sink in memory that never fails.
#[derive(Drop)]
pub struct PlainSink {
    bytes: Vec<u8>,
}

impl PlainSink {
    ghost use Rattle.shelf_io.specs.MemorySink.{plain_held};

    /// A sink that holds nothing.
    pub fn new(alloc: Global) -> PlainSink
        ensures { plain_held result ≡ [] }
    {
        PlainSink {
            bytes: Vec::new(alloc),
        }
    }

    /// The bytes held.
    pub fn bytes(&self) -> &[u8]
        ensures { result.now ≡ plain_held self.now }
    {
        self.bytes.as_slice()
    }
}

impl Sink for PlainSink {
    ghost use Rattle.slot_io.specs.Sinks.{IsWrite};
    ghost use Rattle.shelf_io.specs.MemorySink.{at_plain, plain_held, plain_lacks};

    ghost held = { λ sink. Some (plain_held sink) };

    ghost faults = { λ _. 0 };

    ghost may_lack = { Unit {0} };

    /// Takes the whole piece, or there was no memory for it.
    fn write(&mut self, piece: &[u8]) -> Result<usize, IoRefusal>
        requires { 0 < length piece.now }
        ensures written { IsWrite (Unit {0}) (at_plain self.old) (at_plain self.new)
            piece.now result }
        ensures full { IsErrOf result IoRefusal.OutOfMemory
            → plain_lacks self.old (length piece.now) }
        ensures never_failed { ¬ IsErrOf result IoRefusal.Failed }
        ensures moves { IfOk result (λ count. count ≡ length piece.now) }
    {
        self.bytes.extend_from_slice(piece)?;
        Ok(piece.len())
    }
}

/// A sink in memory, some of whose calls fail, and whose room may be used up.
#[derive(Drop)]
pub struct MemSink {
    bytes: Vec<u8>,
    room: Option<u64>,
    plan: Plan,
    faults: u64,
}

impl MemSink {
    ghost use Rattle.shelf_io.specs.MemorySink.{sink_calls, sink_failing, sink_faults, sink_held};
    ghost use Rattle.shelf_io.specs.MemorySink.{sink_plan_full, sink_room};

    /// A sink that holds nothing, and takes `room` bytes in all, or any number.
    pub fn new(alloc: Global, room: Option<u64>) -> MemSink
        ensures held { sink_held result ≡ [] }
        ensures room { sink_room result ≡ room }
        ensures faults { sink_faults result ≡ 0 }
        ensures failing { sink_failing result ≡ [] }
        ensures calls { sink_calls result ≡ 0 }
    {
        MemSink {
            bytes: Vec::new(alloc),
            room,
            plan: Plan::new(alloc),
            faults: 0,
        }
    }

    /// Adds a call to those that are to fail. Calls of `write` are counted from 1.
    pub fn fail_at(&mut self, call: u64) -> Result<(), OutOfMemory>
        ensures ok { OnOk result (sink_failing self.new ≡ sink_failing self.old ++ call ∷ []) }
        ensures err { OnErr result (sink_failing self.new ≡ sink_failing self.old) }
        ensures full { OnErr result (sink_plan_full self.old) }
        ensures calls { sink_calls self.new ≡ sink_calls self.old }
        ensures held { sink_held self.new ≡ sink_held self.old }
        ensures room { sink_room self.new ≡ sink_room self.old }
        ensures faults { sink_faults self.new ≡ sink_faults self.old }
    {
        self.plan.fail_at(call)
    }

    /// The bytes held.
    pub fn bytes(&self) -> &[u8]
        ensures { result.now ≡ sink_held self.now }
    {
        self.bytes.as_slice()
    }

    /// How many bytes of a piece fit.
    fn fitting(&self, piece: &[u8]) -> usize
        ensures { result ≡ fitting (sink_room self.now) (length (sink_held self.now))
            (length piece.now) }
    {
        match self.room {
            None => piece.len(),
            Some(room) => {
                let left = room.saturating_sub(self.bytes.len() as u64);
                if left < piece.len() as u64 {
                    left as usize
                } else {
                    piece.len()
                }
            }
        }
    }
}

impl Sink for MemSink {
    ghost use Rattle.slot_io.specs.Sinks.{IsWrite};
    ghost use Rattle.shelf_io.specs.MemorySink.{at_mem, sink_calls, sink_failing, sink_faults};
    ghost use Rattle.shelf_io.specs.MemorySink.{sink_held, sink_lacks, sink_room};

    ghost held = { λ sink. Some (sink_held sink) };

    ghost faults = { sink_faults };

    ghost may_lack = { Unit {0} };

    /// Takes the part of the piece that fits, or there was no memory for it.
    fn write(&mut self, piece: &[u8]) -> Result<usize, IoRefusal>
        requires { 0 < length piece.now }
        ensures written { IsWrite (Unit {0}) (at_mem self.old) (at_mem self.new)
            piece.now result }
        ensures full { IsErrOf result IoRefusal.OutOfMemory → sink_lacks self.old
            (fitting (sink_room self.old) (length (sink_held self.old)) (length piece.now)) }
        ensures planned { IsErrOf result IoRefusal.Failed
            ↔ (IsToFail (sink_failing self.old) (sink_calls self.old)
            ⊎ (fitting (sink_room self.old) (length (sink_held self.old)) (length piece.now) ≡ 0)) }
        ensures moves { IfOk result (λ count. count ≡ fitting (sink_room self.old)
            (length (sink_held self.old)) (length piece.now)) }
        ensures calls { sink_calls self.new ≡ min (sink_calls self.old + 1) (2 ^ 64 - 1) }
        ensures failing { sink_failing self.new ≡ sink_failing self.old }
        ensures room { sink_room self.new ≡ sink_room self.old }
    {
        let planned = self.plan.next_fails();
        let count = self.fitting(piece);
        if planned || count == 0 {
            self.faults = self.faults.saturating_add(1);
            return Err(IoRefusal::Failed);
        }
        self.bytes.extend_from_slice(&piece[..count])?;
        Ok(count)
    }
}
