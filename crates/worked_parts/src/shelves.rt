//! Devices in memory.

use crate::texts::{bytes_in, push_word, text_of};
use admit_core::{OutOfMemory, Slot};
use shelf_io::{
    IoRefusal, MemShelf, MemSink, PlainShelf, PlainSink, Shelf, SlotRefusal, read_slot, write_all,
};
use std::alloc::Global;

/// What came out of a slot that has these bytes.
fn outcome(read: Result<Vec<u8>, SlotRefusal>, bytes: &[u8]) -> &'static str {
    match read {
        Ok(read) => {
            if read.as_slice() == bytes {
                "whole"
            } else {
                "other bytes"
            }
        }
        Err(SlotRefusal::TooLarge) => "too large",
        Err(_refusal) => "failed",
    }
}

/// What comes out of the wishes' slot of a shelf, which has these bytes, and out of one that was
/// never put.
fn read_back(
    alloc: Global,
    shelf: PlainShelf,
    bytes: &[u8],
    limit: u64,
) -> (&'static str, &'static str) {
    let mut shelf = shelf;
    let answer = outcome(read_slot(alloc, &mut shelf, Slot::Wishes, limit), bytes);
    let other = outcome(read_slot(alloc, &mut shelf, Slot::Chain, limit), &[]);
    (answer, other)
}

/// What comes out of a slot of so many bytes, and out of one that was never put.
fn comes_whole(alloc: Global, length: usize, limit: u64) -> Result<String, OutOfMemory> {
    let bytes = vec![in alloc; 7u8; length]?;
    let put = Vec::from_slice(alloc, bytes.as_slice())?;
    let mut shelf = PlainShelf::new(alloc);
    shelf.put(Slot::Wishes, put);
    let (answer, other) = read_back(alloc, shelf, bytes.as_slice(), limit);
    Ok(format!(in alloc; "{answer}, the other {other}")?)
}

/// A slot of so many bytes, where more than so many are too many.
pub(crate) fn slot_in(alloc: Global, input: &str) -> Result<String, OutOfMemory> {
    let (length, limit) = input.split_once(" ").unwrap_or((input, ""));
    let length = length.parse::<u32>().unwrap_or(0);
    let limit = limit.parse::<u64>().unwrap_or(0);
    comes_whole(alloc, length as usize, limit)
}

/// What a read of at most two bytes answers, with a `!` for a failure.
fn read_two(shelf: &mut MemShelf, answers: &mut Vec<u8>) -> Result<(), OutOfMemory> {
    let mut buf = [0u8; 2];
    match shelf.read(Slot::State, &mut buf) {
        Ok(count) => answers.extend_from_slice(&buf[..count])?,
        Err(_) => answers.push(b'!')?,
    }
    Ok(())
}

/// A shelf with these bytes, whose calls of these numbers fail.
fn failing_shelf(alloc: Global, text: &str, calls: &str) -> Result<MemShelf, OutOfMemory> {
    let bytes = bytes_in(alloc, text)?;
    let mut shelf = MemShelf::new(alloc);
    shelf.put(Slot::State, bytes);
    for call in calls.split_whitespace() {
        shelf.fail_at(call.parse::<u64>().unwrap_or(0))?;
    }
    Ok(shelf)
}

/// Six reads of two bytes.
fn six_reads(alloc: Global, shelf: MemShelf) -> Result<Vec<u8>, OutOfMemory> {
    let mut shelf = shelf;
    let mut answers = Vec::new(alloc);
    for _ in 0..6u8 {
        read_two(&mut shelf, &mut answers)?;
    }
    Ok(answers)
}

/// Six reads of two bytes of a text, of which those of these numbers fail.
pub(crate) fn reads_in(alloc: Global, input: &str) -> Result<String, OutOfMemory> {
    let (text, calls) = input.split_once(" ").unwrap_or((input, ""));
    let answers = six_reads(alloc, failing_shelf(alloc, text, calls)?)?;
    text_of(alloc, answers.as_slice())
}

/// A sink of this room, if any, whose call of this number fails, if any.
fn sink_of(alloc: Global, room: Option<u64>, call: Option<u64>) -> Result<MemSink, OutOfMemory> {
    let mut sink = MemSink::new(alloc, room);
    if let Some(call) = call {
        sink.fail_at(call)?;
    }
    Ok(sink)
}

/// A text that is written to a sink: the text, the sink's room, and the call that fails.
pub(crate) fn sink_in(alloc: Global, input: &str) -> Result<String, OutOfMemory> {
    let mut words = input.split_whitespace();
    let text = bytes_in(alloc, words.next().unwrap_or(""))?;
    let room = words.next().unwrap_or("").parse::<u64>().ok();
    let call = words.next().unwrap_or("").parse::<u64>().ok();
    let mut sink = sink_of(alloc, room, call)?;
    let ending = match write_all(&mut sink, text.as_slice()) {
        Ok(()) => "whole",
        Err(IoRefusal::Failed) => "failed",
        Err(IoRefusal::OutOfMemory) => return Err(OutOfMemory),
    };
    let mut answer = String::from_str(alloc, ending)?;
    if !sink.bytes().is_empty() {
        push_word(&mut answer, &text_of(alloc, sink.bytes())?)?;
    }
    Ok(answer)
}

/// What a plain sink holds after texts are written to it one after another.
pub(crate) fn texts_in(alloc: Global, input: &str) -> Result<String, OutOfMemory> {
    let mut sink = PlainSink::new(alloc);
    for word in input.split_whitespace() {
        let text = bytes_in(alloc, word)?;
        if write_all(&mut sink, text.as_slice()).is_err() {
            return Err(OutOfMemory);
        }
    }
    text_of(alloc, sink.bytes())
}
