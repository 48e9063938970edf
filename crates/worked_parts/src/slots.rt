//! Slots as rows, and their refusals.

use crate::texts::{bytes_in, refusal_told, rows_shown};
use admit_core::{InFault, OutOfMemory, Slot};
use case_file::slot_named;
use dossier_csv::{
    read_answers, read_boarding, read_ceilings, read_groups, read_programmes, read_rankings,
    read_schools, read_state, read_wishes,
};
use std::alloc::Global;
use std::fmt::Debug;

/// The rows that a reader answers, or its refusal.
fn shown<T: Debug + Drop>(
    alloc: Global,
    rows: Result<Vec<T>, InFault>,
) -> Result<String, OutOfMemory> {
    match rows {
        Ok(rows) => rows_shown(alloc, rows.as_slice()),
        Err(InFault::Refused(refusal)) => refusal_told(alloc, &refusal),
        Err(InFault::OutOfMemory) => Err(OutOfMemory),
    }
}

/// What the reader of a slot answers.
fn read(alloc: Global, slot: Slot, bytes: &[u8]) -> Result<String, OutOfMemory> {
    match slot {
        Slot::Groups => shown(alloc, read_groups(alloc, bytes)),
        Slot::Programmes => shown(alloc, read_programmes(alloc, bytes)),
        Slot::Schools => shown(alloc, read_schools(alloc, bytes)),
        Slot::Rankings => shown(alloc, read_rankings(alloc, bytes)),
        Slot::Boarding => shown(alloc, read_boarding(alloc, bytes)),
        Slot::Wishes => shown(alloc, read_wishes(alloc, bytes)),
        Slot::State => shown(alloc, read_state(alloc, bytes)),
        Slot::Ceilings => shown(alloc, read_ceilings(alloc, bytes)),
        Slot::Answers => shown(alloc, read_answers(alloc, bytes)),
        Slot::Chain => Ok(String::from_str(alloc, "no rows")?),
    }
}

/// What the reader of the slot of this name answers.
fn read_named(alloc: Global, name: &str, bytes: &[u8]) -> Result<String, OutOfMemory> {
    match slot_named(name) {
        Some(slot) => read(alloc, slot, bytes),
        None => Ok(String::from_str(alloc, "no such slot")?),
    }
}

/// What a reader answers to records under a header: its words are the slot and the header.
pub(crate) fn rows_in(alloc: Global, words: &str, input: &str) -> Result<String, OutOfMemory> {
    let (name, header) = words.split_once(" ").unwrap_or((words, ""));
    let mut bytes = bytes_in(alloc, header)?;
    bytes.push(b'\n')?;
    bytes.extend_from_slice(bytes_in(alloc, input)?.as_slice())?;
    bytes.push(b'\n')?;
    read_named(alloc, name, bytes.as_slice())
}

/// What a reader answers to these bytes.
pub(crate) fn bytes_read(alloc: Global, name: &str, input: &str) -> Result<String, OutOfMemory> {
    let bytes = bytes_in(alloc, input)?;
    read_named(alloc, name, bytes.as_slice())
}

/// Whether each beginning of these bytes gives rows or a refusal of the slot; the first other
/// answer.
pub(crate) fn cuts_in(alloc: Global, name: &str, input: &str) -> Result<String, OutOfMemory> {
    let bytes = bytes_in(alloc, input)?;
    let refused = format!(in alloc; "refused {name} ")?;
    for end in 0..=bytes.len() {
        let answer = read_named(alloc, name, &bytes[..end])?;
        let is_refused = answer.as_str().starts_with("refused");
        if is_refused && !answer.as_str().starts_with(refused.as_str()) {
            return Ok(answer);
        }
    }
    Ok(String::from_str(alloc, "answered")?)
}
