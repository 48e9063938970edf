//! Dates, deadlines and days.

use crate::texts::{bytes_in, text_of};
use admit_core::OutOfMemory;
use calendar::{Civil, date_text, day_of, deadline, on_day, parts, read_date};
use std::alloc::Global;

/// The first word of an input, and the number behind it.
fn word_and_number(input: &str) -> (&str, i32) {
    let (word, number) = input.split_once(" ").unwrap_or((input, ""));
    (word, number.parse::<i32>().unwrap_or(i32::MAX))
}

/// The text of a date.
fn date_shown(alloc: Global, date: Option<Civil>) -> Result<String, OutOfMemory> {
    match date {
        Some(date) => text_of(alloc, &date_text(date)),
        None => Ok(String::from_str(alloc, "none")?),
    }
}

/// The year, the month and the day of a text that is a date.
pub(crate) fn parts_in(alloc: Global, input: &str) -> Result<String, OutOfMemory> {
    let text = bytes_in(alloc, input)?;
    let Some(date) = read_date(text.as_slice()) else {
        return Ok(String::from_str(alloc, "none")?);
    };
    let (year, month, day) = parts(date);
    Ok(format!(in alloc; "{year} {month} {day}")?)
}

/// The date so many days after a text's, where they are at most 366.
fn deadline_after(offer: &str, term: i32) -> Option<Civil> {
    if term < 0 || term > 366 {
        return None;
    }
    Some(deadline(read_date(offer.as_bytes())?, term as u32))
}

/// The deadline of an offer: its date and its term.
pub(crate) fn deadline_in(alloc: Global, input: &str) -> Result<String, OutOfMemory> {
    let (offer, term) = word_and_number(input);
    date_shown(alloc, deadline_after(offer, term))
}

/// The date of a day of a campaign that starts 366 days after a text's date.
fn day_after(year_before: &str, day: i32) -> Option<Civil> {
    let start = deadline(read_date(year_before.as_bytes())?, 366);
    if day < -100 || day > 100 {
        return None;
    }
    Some(on_day(start, day))
}

/// A day of a campaign: the date 366 days before its start, and the day.
pub(crate) fn day_in(alloc: Global, input: &str) -> Result<String, OutOfMemory> {
    let (year_before, day) = word_and_number(input);
    date_shown(alloc, day_after(year_before, day))
}

fn number_of(start: &str, date: &str) -> Option<i32> {
    Some(day_of(read_date(start.as_bytes())?, read_date(date.as_bytes())?))
}

/// The number of a day: the date of the start, and the day's date.
pub(crate) fn number_in(alloc: Global, input: &str) -> Result<String, OutOfMemory> {
    let (start, date) = input.split_once(" ").unwrap_or((input, ""));
    match number_of(start, date) {
        Some(day) => Ok(format!(in alloc; "{day}")?),
        None => Ok(String::from_str(alloc, "none")?),
    }
}
