//! The columns of a row.
ghost use Rattle.std.specs.Prelude.{◌≡◌, ◌<◌, ◌^◌, ◌≤◌, IfOk, IfSome, map};
ghost use Rattle.std.specs.Option.{ForSome};
ghost use Rattle.csv.specs.Records.{fields_of};
ghost use Rattle.dossier_csv.specs.Columns as Columns;

use admit_core::{MAX_DAY, MAX_NUMBER, Reason, Since};
use calendar::{parts, read_date};
use csv::ByteRecord;

/// The least and the greatest number of a column.
#[derive(Clone, Copy)]
pub(crate) struct Limits {
    pub(crate) least: u32,
    pub(crate) most: u32,
}

/// Ids and ranks.
pub(crate) const ID: Limits = Limits {
    least: 1,
    most: MAX_NUMBER,
};

/// Seats, beds, ceilings, preferences and call limits.
pub(crate) const AMOUNT: Limits = Limits {
    least: 0,
    most: MAX_NUMBER,
};

/// Days of a campaign.
pub(crate) const DAY: Limits = Limits {
    least: 1,
    most: MAX_DAY,
};

/// Percentages.
pub(crate) const PERCENT: Limits = Limits {
    least: 0,
    most: 100,
};

/// The longest text of a number.
const MOST_DIGITS: usize = 10;

/// The bytes of the field at a position from 1 on; none where the row has no such field.
fn text_at(row: &ByteRecord, position: u32) -> &[u8]
    ensures { result.now ≡ Columns.text_at (fields_of row.now) position }
{
    row.get((position as usize).saturating_sub(1))
        .unwrap_or(&[])
}

/// The number that an ASCII digit writes; none for any other byte.
fn digit_of(byte: u8) -> Option<u64>
    ensures { result ≡ Columns.digit_of byte }
{
    let digit = u64::from(byte).wrapping_sub(u64::from(b'0'));
    if digit > 9 {
        return None;
    }
    Some(digit)
}

/// The number that a text of 1 to 10 ASCII digits writes; none for any other text. Leading zeros
/// are allowed.
pub fn number_of(text: &[u8]) -> Option<u64>
    ensures value { result ≡ Columns.number_of text.now }
    ensures range { IfSome result (λ number. number < 10 ^ 10) }
{
    if text.is_empty() || text.len() > MOST_DIGITS {
        return None;
    }
    let mut value = 0u64;
    for byte in text {
        value = value * 10 + digit_of(*byte)?;
    }
    Some(value)
}

/// The number of a column. This is inlined, since its limits are known where it is called.
#[inline(always)]
#[tactic(auto, unfolding(crate::specs::Columns::number))]
pub(crate) fn number(row: &ByteRecord, position: u32, limits: Limits) -> Result<u32, Reason>
    ensures value { result ≡ Columns.number limits (fields_of row.now) position }
    ensures range { IfOk result (λ n. (limits.least ≤ n) × (n ≤ limits.most)) }
{
    let Some(value) = number_of(text_at(row, position)) else {
        return Err(Reason::NotNumber(position));
    };
    if u64::from(limits.least) <= value && value <= u64::from(limits.most) {
        Ok(value as u32)
    } else {
        Err(Reason::OutOfRange(position))
    }
}

/// The number of a column that only a longer header has; 0 where the row has no such field.
#[tactic(auto, unfolding(crate::specs::Columns::added_number))]
pub(crate) fn added_number(row: &ByteRecord, position: u32, limits: Limits) -> Result<u32, Reason>
    ensures value { result ≡ Columns.added_number limits (fields_of row.now) position }
    ensures range { IfOk result (λ n. n ≤ limits.most) }
{
    if row.len() < position as usize {
        return Ok(0);
    }
    number(row, position, limits)
}

/// The number of a column that may be empty.
#[tactic(auto, unfolding(crate::specs::Columns::number, crate::specs::Columns::optional_number))]
pub(crate) fn optional_number(
    row: &ByteRecord,
    position: u32,
    limits: Limits,
) -> Result<Option<u32>, Reason>
    ensures value { result ≡ Columns.optional_number limits (fields_of row.now) position }
    ensures range { IfOk result
        (λ found. ForSome found (λ n. (limits.least ≤ n) × (n ≤ limits.most))) }
{
    if text_at(row, position).is_empty() {
        return Ok(None);
    }
    Ok(Some(number(row, position, limits)?))
}

/// The date of a column that may be empty; none where the row has no such field.
#[tactic(auto, unfolding(crate::specs::Columns::optional_date))]
pub(crate) fn optional_date(row: &ByteRecord, position: u32) -> Result<Option<Since>, Reason>
    ensures value { result ≡ Columns.optional_date (fields_of row.now) position }
    ensures date { IfOk result (λ found. ForSome found Columns.IsSince) }
{
    let text = text_at(row, position);
    if text.is_empty() {
        return Ok(None);
    }
    let Some(date) = read_date(text) else {
        return Err(Reason::NotDate(position));
    };
    let (year, month, day) = parts(date);
    Ok(Some(Since { year, month, day }))
}

/// The value that stands beside a word in a table.
fn choice<T: Copy>(table: &[(&str, T)], text: &[u8]) -> Option<T>
    ensures { result ≡ Columns.choice (map (λ entry. (entry.0.now, entry.1)) table.now) text.now }
{
    for (word, value) in table {
        if text == word.as_bytes() {
            return Some(*value);
        }
    }
    None
}

/// The flag of a column.
#[tactic(auto, unfolding(crate::specs::Columns::flag))]
pub(crate) fn flag(row: &ByteRecord, position: u32) -> Result<bool, Reason>
    ensures { result ≡ Columns.flag (fields_of row.now) position }
{
    let text = text_at(row, position);
    if text.len() != 1 {
        return Err(Reason::NotFlag(position));
    }
    match text[0] {
        b'0' => Ok(false),
        b'1' => Ok(true),
        _ => Err(Reason::NotFlag(position)),
    }
}

/// The value of a column's word.
#[tactic(auto, unfolding(crate::specs::Columns::word))]
pub(crate) fn word<T: Copy>(
    row: &ByteRecord,
    position: u32,
    table: &[(&str, T)],
) -> Result<T, Reason>
    ensures { result ≡ Columns.word (map (λ entry. (entry.0.now, entry.1)) table.now)
        (fields_of row.now) position }
{
    choice(table, text_at(row, position)).ok_or(Reason::NotWord(position))
}
