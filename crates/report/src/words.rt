//! Words of a line.
ghost use Rattle.std.specs.Prelude.{◌≡◌, ◌<◌, ◌∷◌, [], map};
ghost use Rattle.std.specs.Fmt.{decimal};
ghost use Rattle.admit_core.specs.Lines.{bound_letter};
ghost use Rattle.report.specs.Pushes.{Pushes};
ghost use Rattle.report.specs.Words.{further};

use crate::piece::{push_ascii, push_end, push_spaced};
use admit_core::Bound;
use std::alloc::AllocError;

/// The word of a status between two texts, as one text: lines with a status are most of a report.
macro_rules! status_between {
    ($status:expr, $before:literal, $after:literal) => {
        match $status {
            Status::Waiting => concat!($before, "waiting", $after),
            Status::Offered => concat!($before, "offered", $after),
            Status::Accepted => concat!($before, "accepted", $after),
            Status::Refused => concat!($before, "refused", $after),
            Status::Withdrawn => concat!($before, "withdrawn", $after),
            Status::Quit => concat!($before, "quit", $after),
            Status::AutoRefused => concat!($before, "auto_refused", $after),
            Status::AutoWithdrawn => concat!($before, "auto_withdrawn", $after),
            Status::Lapsed => concat!($before, "lapsed", $after),
        }
    };
}

pub(crate) use status_between;

/// The letter of a bound, as a character.
fn letter_of(bound: Bound) -> char
    ensures ascii { result < 128 }
    ensures letter { result ∷ [] ≡ bound_letter bound }
{
    bound.letter().as_bytes()[0] as char
}

/// Adds a space and the letter of a bound.
#[inline(always)]
fn push_letter(text: &mut String, bound: Bound) -> Result<(), AllocError>
    ensures { Pushes result text.old text.new (32 ∷ bound_letter bound) }
{
    push_ascii(text, ' ')?;
    push_ascii(text, letter_of(bound))
}

/// Adds the letter of each bound after a space, and ends the line.
pub(crate) fn push_letters(text: &mut String, bounds: &[Bound]) -> Result<(), AllocError>
    ensures { Pushes result text.old text.new (further 32 (map bound_letter bounds.now)) }
{
    for bound in bounds {
        push_letter(text, *bound)?;
    }
    push_end(text)
}

/// Adds each number after a space, and ends the line.
pub(crate) fn push_list(text: &mut String, numbers: &[u32]) -> Result<(), AllocError>
    ensures { Pushes result text.old text.new (further 32 (map decimal numbers.now)) }
{
    for number in numbers {
        push_spaced(text, *number)?;
    }
    push_end(text)
}
