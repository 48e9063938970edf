//! Inputs and answers as texts.

use admit_core::{OutOfMemory, Refusal};
use std::alloc::Global;
use std::fmt::{Debug, Display, Write};

/// The line of a refusal.
pub(crate) fn refusal_told(alloc: Global, refusal: &Refusal) -> Result<String, OutOfMemory> {
    let mut text = String::new(alloc);
    refusal.push_onto(&mut text)?;
    Ok(text)
}

/// The bytes of a text, in which `<178>` is the byte of that number, and `<>` is nothing.
pub(crate) fn bytes_in(alloc: Global, text: &str) -> Result<Vec<u8>, OutOfMemory> {
    let mut bytes = Vec::new(alloc);
    for part in text.split("<") {
        let (byte, rest) = part.split_once(">").unwrap_or(("", part));
        if let Ok(byte) = byte.parse::<u8>() {
            bytes.push(byte)?;
        }
        bytes.extend_from_slice(rest.as_bytes())?;
    }
    Ok(bytes)
}

/// The numbers in a text, between spaces.
pub(crate) fn numbers_in(alloc: Global, text: &str) -> Result<Vec<u32>, OutOfMemory> {
    let mut numbers = Vec::new(alloc);
    for word in text.split_whitespace() {
        if let Ok(number) = word.parse::<u32>() {
            numbers.push(number)?;
        }
    }
    Ok(numbers)
}

/// Adds a word, behind a space where it is not the first.
pub(crate) fn push_word<D: Display>(text: &mut String, word: &D) -> Result<(), OutOfMemory> {
    if !text.is_empty() {
        text.push_str(" ")?;
    }
    write!(text, "{word}")?;
    Ok(())
}

/// Adds words.
pub(crate) fn push_words<D: Display>(text: &mut String, words: &[D]) -> Result<(), OutOfMemory> {
    for word in words {
        push_word(text, word)?;
    }
    Ok(())
}

/// Adds the programmes of places, and a dash for none.
pub(crate) fn push_places(text: &mut String, places: &[Option<u32>]) -> Result<(), OutOfMemory> {
    for place in places {
        match place {
            Some(programme) => push_word(text, programme)?,
            None => push_word(text, &"-")?,
        }
    }
    Ok(())
}

/// The rows of a table.
pub(crate) fn rows_shown<T: Debug>(alloc: Global, rows: &[T]) -> Result<String, OutOfMemory> {
    let mut text = String::new(alloc);
    for row in rows {
        if !text.is_empty() {
            text.push_str("; ")?;
        }
        write!(text, "{row:?}")?;
    }
    Ok(text)
}

/// The text of these bytes; empty where they are none.
pub(crate) fn text_of(alloc: Global, bytes: &[u8]) -> Result<String, OutOfMemory> {
    let bytes = Vec::from_slice(alloc, bytes)?;
    Ok(String::from_utf8(bytes).unwrap_or(String::new(alloc)))
}
