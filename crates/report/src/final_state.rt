//! The lines of the final state.
ghost use Rattle.std.specs.Prelude.{◌≡◌, ◌<◌, ◌∷◌, [], IfOk, codes, length};
ghost use Rattle.std.specs.Fmt.{decimal};
ghost use Rattle.admit_core.specs.Lines.{status_word};
ghost use Rattle.report.specs.FinalText.{HasDate, HasDates, dated_row, final_dated_text};
ghost use Rattle.report.specs.FinalText.{final_text, offer_day_at};
ghost use Rattle.report.specs.DayText.{date_on};
ghost use Rattle.report.specs.Pushes.{Pushes};
ghost use Rattle.report.specs.Words.{further, row};
ghost use Rattle.calendar.specs.Dates.{IsCivil};
ghost use Rattle.calendar.specs.Texts.{date_text};

use crate::date::push_date;
use crate::piece::{push_both, push_end, push_text};
use crate::words::status_between;
use admit_core::{OutOfMemory, Status, Terms, Wish};
use calendar::{Civil, on_day};
use day_state::{DayState, MarkedWishes};
use itoa::Buffer;
use std::alloc::{AllocError, Global};

/// What stands behind the id in the row of a wish with this status. It is one text, since rows
/// are most of the final state.
fn row_end(status: Status) -> &'static str
    ensures { result.now ≡ further 44 (status_word status ∷ []) }
{
    status_between!(status, ",", "\n")
}

/// Adds the row of a wish with its status.
fn push_row(text: &mut String, id: u32, status: Status) -> Result<(), AllocError>
    ensures { Pushes result text.old text.new (row (decimal id ∷ status_word status ∷ [])) }
{
    push_both(text, Buffer::new().format(id), row_end(status))
}

/// Adds the final state: each wish with its status. What follows the first line is a state slot.
pub fn push_final(text: &mut String, state: &MarkedWishes<'_>) -> Result<(), AllocError>
    ensures { Pushes result text.old text.new (final_text state.now) }
{
    let wishes = state.dossier().wishes.as_slice();
    push_text(text, "final\nwish,status\n")?;
    for (place, wish) in wishes.iter().enumerate() {
        let status = state.status(place as u32);
        push_row(text, wish.id, status)?;
    }
    Ok(())
}

/// The final state, as a text of its own.
pub fn final_text(alloc: Global, state: &DayState<'_>) -> Result<Vec<u8>, OutOfMemory>
    ensures { IfOk result (λ text. text.items ≡ final_text state.now) }
{
    let mut text = String::new(alloc);
    push_final(&mut text, &state.marked())?;
    Ok(text.into_bytes())
}

/// The date of the offer of the wish at a place, which is offered; `start` is the date of day 1.
pub fn offer_date(state: &MarkedWishes<'_>, start: Civil, terms: &Terms, place: u32) -> Civil
    requires start { IsCivil start }
    requires place { place < length state.now.dossier.wishes }
    requires before { place < length terms.now.before }
    requires date { IsCivil (date_on start (offer_day_at state.now terms.now.before place)) }
    ensures { result ≡ date_on start (offer_day_at state.now terms.now.before place) }
{
    let stamp = state.stamp(place);
    let day = if stamp.day > 0 {
        stamp.day as i32
    } else {
        terms.before.as_slice()[place as usize]
    };
    on_day(start, day)
}

/// What stands behind the id in the row of a wish with this status where offers have dates, and
/// the wish is not offered.
fn dated_row_end(status: Status) -> &'static str
    ensures { result.now ≡ further 44 (status_word status ∷ [] ∷ []) }
{
    status_between!(status, ",", ",\n")
}

/// Adds the row of a wish that is offered since a date.
fn push_offered_row(text: &mut String, id: u32, since: Civil) -> Result<(), AllocError>
    ensures { Pushes result text.old text.new
        (row (decimal id ∷ codes "offered" ∷ date_text since ∷ [])) }
{
    push_both(text, Buffer::new().format(id), ",offered,")?;
    push_date(text, since)?;
    push_end(text)
}

/// Adds the row of a wish at its place, with its status, and the date of its offer where it is
/// offered.
fn push_dated_row(
    text: &mut String,
    state: &MarkedWishes<'_>,
    start: Civil,
    terms: &Terms,
    place: u32,
    wish: &Wish,
) -> Result<(), AllocError>
    requires start { IsCivil start }
    requires place { place < length state.now.dossier.wishes }
    requires before { place < length terms.now.before }
    requires date { HasDate state.now start terms.now.before place }
    ensures { Pushes result text.old text.new
        (dated_row state.now start terms.now.before (place, wish.now)) }
{
    let status = state.status(place);
    if let Status::Offered = status {
        return push_offered_row(text, wish.id, offer_date(state, start, terms, place));
    }
    push_both(text, Buffer::new().format(wish.id), dated_row_end(status))
}

/// Adds the final state where offers have dates, of which `start` is that of day 1: each wish with
/// its status and, where it is offered, the date of its offer. What follows the first line is a
/// state slot.
pub fn push_dated_final(
    text: &mut String,
    state: &MarkedWishes<'_>,
    start: Civil,
    terms: &Terms,
) -> Result<(), AllocError>
    requires { HasDates state.now start terms.now.before }
    ensures { Pushes result text.old text.new
        (final_dated_text state.now start terms.now.before) }
{
    let wishes = state.dossier().wishes.as_slice();
    push_text(text, "final\nwish,status,since\n")?;
    for (place, wish) in wishes.iter().enumerate() {
        push_dated_row(text, state, start, terms, place as u32, wish)?;
    }
    Ok(())
}

/// The final state where offers have dates, as a text of its own.
pub fn final_dated_text(
    alloc: Global,
    state: &DayState<'_>,
    start: Civil,
    terms: &Terms,
) -> Result<Vec<u8>, OutOfMemory>
    requires { HasDates state.now start terms.now.before }
    ensures { IfOk result (λ text. text.items ≡ final_dated_text state.now start terms.now.before) }
{
    let mut text = String::new(alloc);
    push_dated_final(&mut text, &state.marked(), start, terms)?;
    Ok(text.into_bytes())
}
