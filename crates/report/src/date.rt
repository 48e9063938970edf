//! Dates in digits.
ghost use Rattle.std.specs.Prelude.{◌≡◌, codes, if◌then◌else◌, nat_lt};
ghost use Rattle.calendar.specs.Texts.{date_text};
ghost use Rattle.report.specs.Pushes.{Pushes};

use crate::piece::{Piece, push_all};
use calendar::{Civil, parts};
use std::alloc::AllocError;

/// What stands before a month or a day: a dash, and a zero where it has one digit.
fn dash_before(number: u32) -> &'static str
    ensures { result.now ≡ (if nat_lt number 10 then codes "-0" else codes "-") }
{
    if number < 10 { "-0" } else { "-" }
}

/// Adds a date, in the form YYYY-MM-DD.
pub(crate) fn push_date(text: &mut String, date: Civil) -> Result<(), AllocError>
    ensures { Pushes result text.old text.new (date_text date) }
{
    let (year, month, day) = parts(date);
    let pieces = [
        Piece::Number(year),
        Piece::Text(dash_before(month)),
        Piece::Number(month),
        Piece::Text(dash_before(day)),
        Piece::Number(day),
    ];
    push_all(text, &pieces)
}
