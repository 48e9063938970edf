//! The first fault of a text that is no chain. It is found without memory.
ghost use Rattle.std.specs.Prelude.{◌≡◌, ℕ, ◌+◌, ◌<◌, ◌^◌, length, nat_eq, option_and_then, option_map};
ghost use Rattle.certificate.specs.Faults.{fault_in};
ghost use Rattle.certificate.specs.Grammar.{days_by, end_at, fault_at, kind_of, line_of, misplaced_at, numbers, only, parts, passes_by, read, unended_at};
ghost use Rattle.certificate.specs.Kinds.{fall_kind, kind_with};

use crate::cut::cut;
use crate::line::{Kind, is_word, number_of};
use admit_core::{ChainFault, ChainReason, MAX_DAY};

/// Whether a number is one more than this count.
fn is_next(number: u32, count: u32) -> bool
    ensures { result ≡ nat_eq number (count + 1) }
{
    u64::from(number) == u64::from(count) + 1
}

/// Why a line may not come after so many day lines, and so many pass lines of the last day.
pub(crate) fn misplaced(kind: Kind, days: u32, passes: u32) -> Option<ChainReason>
    ensures { result ≡ misplaced_at days passes kind }
{
    match kind {
        Kind::Pass(_) if days == 0 => Some(ChainReason::NotLine),
        Kind::Fall if passes == 0 => Some(ChainReason::NotLine),
        Kind::Day(number) if number > MAX_DAY || !is_next(number, days) => {
            Some(ChainReason::WrongNumber)
        }
        Kind::Pass(number) if !is_next(number, passes) => Some(ChainReason::WrongNumber),
        _ => None,
    }
}

/// Why a text that ends before an `end` line is no chain, by the bytes of its last row.
pub(crate) fn unended(rest: &[u8]) -> ChainReason
    ensures { result ≡ unended_at rest.now }
{
    if rest.is_empty() {
        ChainReason::NoEnd
    } else {
        ChainReason::NotLine
    }
}

/// The only number that the words of a text write.
fn only_number(text: &[u8]) -> Option<u32>
    ensures { result ≡ option_and_then only (numbers (parts 32 text.now)) }
{
    match cut(text, b' ') {
        Some(_) => None,
        None => number_of(text),
    }
}

/// How many numbers the words of a text write; none where a word is no number.
fn count_of_numbers(text: &[u8]) -> Option<usize>
    ensures { result ≡ option_map (λ ns. length ns) (numbers (parts 32 text.now)) }
{
    let mut count = 0;
    let mut rest = text;
    'words: while let Some((word, after)) = cut(rest, b' ') {
        if number_of(word).is_none() {
            return None;
        }
        count += 1;
        rest = after;
    }
    number_of(rest)?;
    Some(count + 1)
}

/// A fall, where the words of a text write the numbers of one.
fn fall_kind(text: &[u8]) -> Option<Kind>
    ensures { result ≡ fall_kind (numbers (parts 32 text.now)) }
{
    let count = count_of_numbers(text)?;
    if count >= 4 { Some(Kind::Fall) } else { None }
}

/// Which kind of line a first word and the text behind it are.
fn kind_with(word: &[u8], after: &[u8]) -> Option<Kind>
    ensures { result ≡ kind_with word.now (numbers (parts 32 after.now)) }
{
    if is_word(word, "day") {
        only_number(after).map(Kind::Day)
    } else if is_word(word, "pass") {
        only_number(after).map(Kind::Pass)
    } else if is_word(word, "fall") {
        fall_kind(after)
    } else {
        None
    }
}

/// Which kind of line a text without its line feed is; none where it is no line.
fn kind_at(text: &[u8]) -> Option<Kind>
    ensures { (row : ℕ) → result ≡ option_map kind_of (line_of row (parts 32 text.now)) }
{
    match cut(text, b' ') {
        None => {
            let is_end = is_word(text, "end");
            if is_end { Some(Kind::End) } else { None }
        }
        Some((word, after)) => kind_with(word, after),
    }
}

/// How many day lines there are once this line is counted. A day line tells that number.
fn days_by(days: u32, kind: Kind) -> u32
    ensures { result ≡ days_by days kind }
{
    match kind {
        Kind::Day(number) => number,
        _ => days,
    }
}

/// How many pass lines of the last day there are once this line is counted. A pass line tells that
/// number.
fn passes_by(passes: u32, kind: Kind) -> u32
    ensures { result ≡ passes_by passes kind }
{
    match kind {
        Kind::Day(_) => 0,
        Kind::Pass(number) => number,
        _ => passes,
    }
}

/// The fault of a byte behind the `end` line at a row.
fn end_fault(row: u64, after: &[u8]) -> Option<ChainFault>
    requires { row + 1 < 2 ^ 64 }
    ensures { result ≡ fault_in (end_at row (parts 10 after.now)) }
{
    if after.is_empty() {
        return None;
    }
    Some(ChainFault {
        row: row + 1,
        reason: ChainReason::AfterEnd,
    })
}

/// The first fault of a text, where it writes no chain.
pub(crate) fn first_fault(bytes: &[u8]) -> Option<ChainFault>
    ensures { result ≡ fault_in (read bytes.now) }
{
    let (mut days, mut passes, mut row) = (0, 0, 1);
    let mut rest = bytes;
    'lines: while let Some((text, after)) = cut(rest, b'\n') {
        let Some(kind) = kind_at(text) else {
            let reason = ChainReason::NotLine;
            return Some(ChainFault { row, reason });
        };
        if kind.is_end() {
            return end_fault(row, after);
        }
        if let Some(reason) = misplaced(kind, days, passes) {
            return Some(ChainFault { row, reason });
        }
        days = days_by(days, kind);
        passes = passes_by(passes, kind);
        rest = after;
        row += 1;
    }
    let reason = unended(rest);
    Some(ChainFault { row, reason })
}
