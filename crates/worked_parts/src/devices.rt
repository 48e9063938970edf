//! The devices over real files, and over outputs that take a part or nothing.

use crate::texts::{push_word, text_of};
use admit_core::{OutOfMemory, Slot};
use case_file::slot_named;
use shelf_io::{DirShelf, Shelf, Sink, StdSink, read_slot, write_all};
use std::alloc::Global;
use std::cell::Cell;
use std::fmt::Display;
use std::{fs, io};

/// What is read of a slot, or that this fails.
fn slot_read(rt: HostRuntime, slot: Slot) -> Result<String, OutOfMemory> {
    let mut shelf = DirShelf::new(rt);
    match read_slot(rt.alloc(), &mut shelf, slot, 20) {
        Ok(bytes) => text_of(rt.alloc(), bytes.as_slice()),
        Err(_) => Ok(String::from_str(rt.alloc(), "failed")?),
    }
}

/// The slot of the first word, and the file of the second.
fn slot_and_file(input: &str) -> (Slot, &str) {
    let (name, file) = input.split_once(" ").unwrap_or((input, ""));
    (slot_named(name).unwrap_or(Slot::Chain), file)
}

/// Whether a file was written.
fn is_written(rt: HostRuntime, file: &str, text: &str) -> bool {
    fs::write(&rt, file, text).is_ok()
}

/// Removes a file.
fn is_removed(rt: HostRuntime, file: &str) -> bool {
    fs::remove_file(&rt, file).is_ok()
}

fn failed(alloc: Global) -> Result<String, OutOfMemory> {
    Ok(String::from_str(alloc, "failed")?)
}

/// What a slot has where a file holds its own name.
pub(crate) fn file_in(rt: HostRuntime, input: &str) -> Result<String, OutOfMemory> {
    let (slot, file) = slot_and_file(input);
    if !is_written(rt, file, file) {
        return failed(rt.alloc());
    }
    let read = slot_read(rt, slot)?;
    let _ = is_removed(rt, file);
    Ok(read)
}

/// Adds the next three bytes of a slot.
fn push_piece<S: Shelf>(text: &mut String, shelf: &mut S, slot: Slot) -> Result<(), OutOfMemory> {
    let mut buf = [0u8; 3];
    match shelf.read(slot, &mut buf) {
        Ok(0) => push_word(text, &"end"),
        Ok(count) => push_word(text, &str::from_utf8(&buf[..count]).unwrap_or("?")),
        Err(_) => push_word(text, &"failed"),
    }
}

/// Four reads of three bytes of a slot, where a file holds seven.
pub(crate) fn pieces_in(rt: HostRuntime, input: &str) -> Result<String, OutOfMemory> {
    let (slot, file) = slot_and_file(input);
    if !is_written(rt, file, "abcdefg") {
        return failed(rt.alloc());
    }
    let mut text = String::new(rt.alloc());
    let mut shelf = DirShelf::new(rt);
    for _ in 0..4u8 {
        push_piece(&mut text, &mut shelf, slot)?;
    }
    let _ = is_removed(rt, file);
    Ok(text)
}

/// What a slot has without a file.
pub(crate) fn missing_in(rt: HostRuntime, input: &str) -> Result<String, OutOfMemory> {
    let (slot, _) = slot_and_file(input);
    slot_read(rt, slot)
}

/// What a slot has where a folder has its file's name.
pub(crate) fn folder_in(rt: HostRuntime, input: &str) -> Result<String, OutOfMemory> {
    let (slot, folder) = slot_and_file(input);
    if fs::create_dir(&rt, folder).is_err() {
        return Ok(String::from_str(rt.alloc(), "no folder")?);
    }
    let read = slot_read(rt, slot)?;
    let _ = fs::remove_dir(&rt, folder).is_ok();
    Ok(read)
}

/// An output that takes so many bytes at once and in all, and then none, or is broken.
#[derive(Drop)]
struct Narrow {
    most: usize,
    left: Cell<usize>,
    is_broken: bool,
}

impl Print for Narrow {
    fn print<D: Display + Drop>(&self, _value: D) -> io::Result<()> {
        Ok(())
    }

    fn println<D: Display + Drop>(&self, _value: D) -> io::Result<()> {
        Ok(())
    }

    fn write_all(&self, _bytes: &[u8]) -> io::Result<()> {
        Ok(())
    }

    fn write_some(&self, bytes: &[u8]) -> io::Result<usize> {
        if self.is_broken {
            return Err(io::Error::from(io::ErrorKind::BrokenPipe));
        }
        let count = bytes.len().min(self.most).min(self.left.get());
        self.left.set(self.left.get().saturating_sub(count));
        Ok(count)
    }
}

/// Adds how many bytes of a text a sink takes at once, and whether it takes all of it.
fn push_taken<K: Sink>(text: &mut String, sink: &mut K, bytes: &str) -> Result<(), OutOfMemory> {
    if bytes.is_empty() {
        return Ok(());
    }
    match sink.write(bytes.as_bytes()) {
        Ok(count) => push_word(text, &count)?,
        Err(_) => push_word(text, &"failed")?,
    }
    match write_all(sink, bytes.as_bytes()) {
        Ok(()) => push_word(text, &"whole"),
        Err(_) => push_word(text, &"failed"),
    }
}

/// A text that goes to an output: the text, how many bytes it takes at once, and how many in all;
/// and a word where it is broken.
pub(crate) fn output_in(rt: HostRuntime, input: &str) -> Result<String, OutOfMemory> {
    let mut words = input.split_whitespace();
    let bytes = words.next().unwrap_or("");
    let most = words.next().unwrap_or("").parse::<u32>().unwrap_or(0);
    let left = words.next().unwrap_or("").parse::<u32>().unwrap_or(0);
    let mut sink = StdSink::new(Narrow {
        most: most as usize,
        left: Cell::new(left as usize),
        is_broken: words.next().is_some(),
    });
    let mut text = String::new(rt.alloc());
    push_taken(&mut text, &mut sink, bytes)?;
    Ok(text)
}

/// Writes a line to standard output.
pub(crate) fn printed(rt: HostRuntime, input: &str) -> Result<String, OutOfMemory> {
    let line = format!(in rt.alloc(); "{input}\n")?;
    let answer = match write_all(&mut StdSink::new(rt), line.as_bytes()) {
        Ok(()) => "whole",
        Err(_) => "failed",
    };
    Ok(String::from_str(rt.alloc(), answer)?)
}
