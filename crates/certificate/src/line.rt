//! A line of a chain.
ghost use Rattle.std.specs.Prelude.{◌≡◌, IfOk, option_map};
ghost use Rattle.certificate.specs.Grammar.{fall_at, is_end_kind, kind_of, line_of, line_with, number, numbers, only, parts, is_word};

use crate::cut::cut;
use admit_core::{FallLine, OutOfMemory, Sequence};
use std::alloc::Global;

/// What a line says. A fall keeps its row.
#[derive(Drop)]
pub(crate) enum Line {
    Day(u32),
    Pass(u32),
    Fall(FallLine),
    End,
}

/// The kind of a line: all that it says but what a fall names.
#[derive(Clone, Copy)]
pub(crate) enum Kind {
    Day(u32),
    Pass(u32),
    Fall,
    End,
}

impl Line {
    pub(crate) fn kind(&self) -> Kind
        ensures { result ≡ kind_of self.now }
    {
        match self {
            Line::Day(number) => Kind::Day(*number),
            Line::Pass(number) => Kind::Pass(*number),
            Line::Fall(_) => Kind::Fall,
            Line::End => Kind::End,
        }
    }
}

impl Kind {
    /// Whether it is the last line of a chain.
    pub(crate) fn is_end(self) -> bool
        ensures { result ≡ is_end_kind self }
    {
        match self {
            Kind::End => true,
            _ => false,
        }
    }
}

/// The number of a word.
pub(crate) fn number_of(word: &[u8]) -> Option<u32>
    ensures { result ≡ number word.now }
{
    let value = dossier_csv::number_of(word)?;
    if value <= u64::from(u32::MAX) {
        Some(value as u32)
    } else {
        None
    }
}

/// The numbers that the words of a text write; none where a word is no number.
fn numbers_of(alloc: Global, text: &[u8]) -> Result<Option<Vec<u32>>, OutOfMemory>
    ensures { IfOk result (λ found. option_map (λ v. v.items) found ≡ numbers (parts 32 text.now)) }
{
    let mut found = Vec::new(alloc);
    let mut rest = text;
    'words: while let Some((word, after)) = cut(rest, b' ') {
        let Some(value) = number_of(word) else {
            return Ok(None);
        };
        found.push(value)?;
        rest = after;
    }
    let Some(value) = number_of(rest) else {
        return Ok(None);
    };
    found.push(value)?;
    Ok(Some(found))
}

/// The only number of a list; none where it has none or several.
fn only(numbers: &[u32]) -> Option<u32>
    ensures { result ≡ only numbers.now }
{
    match numbers {
        [value] => Some(*value),
        _ => None,
    }
}

/// The fall of some numbers: the school, the bar before and after it, and at least one wish. The
/// wishes stay in the list that is handed in.
fn fall_at(row: u64, numbers: Vec<u32>) -> Option<FallLine>
    ensures { result ≡ fall_at row numbers.items }
{
    if numbers.len() < 4 {
        return None;
    }
    let mut numbers = numbers;
    let school = numbers.remove(0);
    let from = numbers.remove(0);
    let to = numbers.remove(0);
    Some(FallLine {
        row,
        school,
        from,
        to,
        wishes: Sequence::from_vec(numbers),
    })
}

/// Whether two words are alike.
pub(crate) fn is_word(word: &[u8], other: &str) -> bool
    ensures { result ≡ is_word word.now other.now }
{
    word == other.as_bytes()
}

/// The line of a word and numbers. It takes no memory.
fn line_with(row: u64, word: &[u8], numbers: Vec<u32>) -> Option<Line>
    ensures { result ≡ line_with row word.now numbers.items }
{
    if is_word(word, "day") {
        only(&numbers).map(Line::Day)
    } else if is_word(word, "pass") {
        only(&numbers).map(Line::Pass)
    } else if is_word(word, "fall") {
        fall_at(row, numbers).map(Line::Fall)
    } else {
        None
    }
}

/// The line that stands at a row, without its line feed; none where the text is no line.
pub(crate) fn line_of(alloc: Global, row: u64, text: &[u8]) -> Result<Option<Line>, OutOfMemory>
    ensures { IfOk result (λ found. found ≡ line_of row (parts 32 text.now)) }
{
    let Some((word, after)) = cut(text, b' ') else {
        let is_end = is_word(text, "end");
        return Ok(if is_end { Some(Line::End) } else { None });
    };
    match numbers_of(alloc, after)? {
        None => Ok(None),
        Some(numbers) => Ok(line_with(row, word, numbers)),
    }
}
