//! Any slot's rows, by the layout of its row type.
ghost use Rattle.std.specs.Prelude.{◌≡◌, [], ◌+◌, ◌<◌, List, ℕ, Some, IfErr, IfOk, OnOk, map};
ghost use Rattle.std.specs.List.{list_any};
ghost use Rattle.csv.specs.Records.{fields_of};
ghost use Rattle.admit_core.specs.Ranges.{AreRows};
ghost use Rattle.dossier_csv.specs.Layout.{Layout};
ghost use Rattle.dossier_csv.specs.Rest.{GivesNext, HasLeft, HasSome};
ghost use Rattle.dossier_csv.specs.Shape.{Answers, at_row, records_of, row_of, rows_from, same_texts, shape};

use admit_core::{FIRST_ROW, InFault, MAX_ROWS, OutOfMemory, Reason, Refusal, Slot};
use csv::{ByteRecord, ErrorKind, Reader, ReaderBuilder};
use std::alloc::Global;

/// A row of a slot.
pub(crate) trait TableRow: Drop {
    /// How the slot is laid out.
    ghost layout: { Layout Self };

    /// That the numbers of a row are in the ranges of their columns.
    ghost in_range: { Self → Type 0 };

    fn slot() -> Slot
        ensures { result ≡ layout.slot };

    /// The headers that the slot may have: for each, the names of its columns.
    fn headers() -> &'static [&'static [&'static str]]
        ensures { map (λ names. map (λ name. name.now) names.now) result.now ≡ layout.headers };

    /// What the fields of a row say.
    fn of_fields(row: &ByteRecord) -> Result<Self, Reason>
        ensures value { result ≡ layout.row (fields_of row.now) }
        ensures ranges { IfOk result in_range };
}

/// The row that is one too many.
const ROW_PAST_THE_LAST: u64 = MAX_ROWS as u64 + FIRST_ROW;

/// A reader of a slot's records.
fn reader_of(alloc: Global, bytes: &[u8]) -> Reader<&[u8]>
    ensures { HasLeft (λ text. Some text.now) result (records_of bytes.now) }
{
    ReaderBuilder::new()
        .has_headers(false)
        .flexible(true)
        .from_reader(alloc, bytes)
}

/// The next row, and whether there was one. Records may have any number of fields and need not be
/// text, so `csv` answers an error for want of memory alone; it leaves open that reading from a
/// slice fails, which does not happen.
fn next_row(reader: &mut Reader<&[u8]>, row: &mut ByteRecord) -> Result<bool, OutOfMemory>
    requires { HasSome (λ text. Some text.now) reader.old }
    ensures { IfOk result (λ found. (left : List (List (List ℕ))) → HasLeft
        (λ text. Some text.now) reader.old left
        → GivesNext (λ text. Some text.now) reader.new found (fields_of row.new) left) }
{
    match reader.read_byte_record(row) {
        Ok(found) => Ok(found),
        Err(error) => match error.kind() {
            ErrorKind::OutOfMemory | ErrorKind::Io(_) => Err(OutOfMemory),
            _ => unreachable!(),
        },
    }
}

/// Whether the fields are these names.
fn has_names(row: &ByteRecord, names: &[&str]) -> bool
    ensures { result ≡ same_texts (fields_of row.now) (map (λ name. name.now) names.now) }
{
    if row.len() != names.len() {
        return false;
    }
    for (index, name) in names.iter().enumerate() {
        if row.get(index) != Some(name.as_bytes()) {
            return false;
        }
    }
    true
}

/// Whether the fields are one of the slot's headers.
fn is_header<T: TableRow>(row: &ByteRecord) -> bool
    ensures { result ≡ list_any (same_texts (fields_of row.now)) T.layout.headers }
{
    for names in T::headers() {
        if has_names(row, names) {
            return true;
        }
    }
    false
}

/// The row with this number, under a header of so many columns.
fn typed_row<T: TableRow>(row: &ByteRecord, width: usize, number: u64) -> Result<T, Refusal>
    ensures value { result ≡ at_row T.layout.slot number
        (row_of T.layout width number (fields_of row.now)) }
    ensures ranges { IfOk result T.in_range }
    ensures bounded { OnOk result (number < MAX_ROWS + 2) }
{
    let value = if number >= ROW_PAST_THE_LAST {
        Err(Reason::TooManyRows)
    } else if row.len() == width {
        T::of_fields(row)
    } else {
        Err(Reason::FieldCount(row.len() as u64))
    };
    match value {
        Ok(value) => Ok(value),
        Err(reason) => Err(Refusal {
            slot: T::slot(),
            row: number,
            reason,
        }),
    }
}

/// About how many lines there are, and an eighth more, by those in the middle. Rows are given room
/// by it where there is so much, so no clause says it.
fn lines_about(bytes: &[u8]) -> usize {
    let middle = bytes.len() / 2;
    let part = &bytes[middle..bytes.len().min(middle + 4096)];
    let feeds = part.iter().filter(|byte| **byte == b'\n').count();
    let each = part.len() / (feeds + 1);
    let lines = bytes.len() / each.max(1);
    lines.saturating_add(lines / 8)
}

/// A list without rows, with room for so many where there is so much.
fn rows_for<T: TableRow>(alloc: Global, lines: usize) -> Vec<T>
    ensures { result.items ≡ [] }
{
    match Vec::with_capacity(alloc, lines) {
        Ok(rows) => rows,
        Err(_) => Vec::new(alloc),
    }
}

/// The rows under a header of so many columns, in about so many lines. This is not inlined: beside
/// the loops of other slots a row's numbers would not stay in registers.
#[inline(never)]
fn read_rows<T: TableRow>(
    alloc: Global,
    reader: &mut Reader<&[u8]>,
    row: &mut ByteRecord,
    width: usize,
    lines: usize,
) -> Result<Vec<T>, InFault>
    requires { HasSome (λ text. Some text.now) reader.old }
    ensures value { (left : List (List (List ℕ))) → HasLeft (λ text. Some text.now) reader.old left
        → Answers (λ rows. rows.items) result (rows_from T.layout width 2 left) }
    ensures ranges { IfOk result (λ rows. AreRows T.in_range rows.items) }
{
    let mut rows = rows_for(alloc, lines);
    'rows: while next_row(reader, row)? {
        let number = rows.len() as u64 + FIRST_ROW;
        rows.push(typed_row(row, width, number)?)?;
    }
    Ok(rows)
}

/// The rows of a slot, or its first refusal.
pub(crate) fn read_table<T: TableRow>(alloc: Global, bytes: &[u8]) -> Result<Vec<T>, InFault>
    ensures value { Answers (λ rows. rows.items) result (shape T.layout bytes.now) }
    ensures ranges { IfOk result (λ rows. AreRows T.in_range rows.items) }
{
    let mut reader = reader_of(alloc, bytes);
    let mut row = ByteRecord::new(alloc);
    if next_row(&mut reader, &mut row)? && is_header::<T>(&row) {
        let width = row.len();
        read_rows(alloc, &mut reader, &mut row, width, lines_about(bytes))
    } else {
        Err(InFault::Refused(Refusal {
            slot: T::slot(),
            row: 1,
            reason: Reason::Header,
        }))
    }
}
