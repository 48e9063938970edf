//! What a request asks of its days.
ghost use Rattle.std.specs.Prelude.{◌≡◌, option_copied};
ghost use Rattle.intake.specs.Dated as Dated;
ghost use Rattle.modes.specs.Jobs as Jobs;

use admit_core::Terms;
use intake::DatedTerms;
use played::Wanted;
use request::{Deadlines, Mode, PickerName, Request, picker_on, picks_after, runs_days, sample_of};
use round::Falls;

/// How many days are run.
pub fn days_of(request: &Request) -> u32
    ensures { result ≡ Jobs.days_of request.now }
{
    if runs_days(request.mode) {
        request.days
    } else {
        0
    }
}

/// What the days of a mode keep of their falls: all where its text tells them, or how many there
/// were, and nothing elsewhere.
fn falls_of(mode: Mode) -> Falls
    ensures { result ≡ Jobs.falls_of mode }
{
    match mode {
        Mode::Replay => Falls::Kept,
        Mode::Chain => Falls::Kept,
        Mode::Sample { .. } => Falls::Kept,
        _ => Falls::LeftOut,
    }
}

/// Which days are asked for, and what is kept of them.
pub fn wanted_of(request: &Request) -> Wanted
    ensures { result ≡ Jobs.wanted_of request.now }
{
    Wanted {
        number: days_of(request),
        who: request.picker,
        falls: falls_of(request.mode),
    }
}

/// The picker that the mode asks once its days are over, if it asks one.
pub(crate) fn picker_after(request: &Request) -> Option<PickerName>
    ensures { result ≡ Jobs.picker_after request.now }
{
    match picks_after(request.mode, request.days) {
        None => None,
        Some(day) => Some(picker_on(request.picker, day)),
    }
}

/// When offers lapse; in a sample they do not.
pub fn deadlines_of(request: &Request) -> Option<Deadlines>
    ensures { result ≡ Jobs.deadlines_of request.now }
{
    if sample_of(request.mode).is_some() {
        None
    } else {
        request.deadlines
    }
}

/// The terms without the dates.
pub fn terms_in<'a>(dated: Option<&'a DatedTerms>) -> Option<&'a Terms>
    ensures { option_copied result ≡ Dated.terms_in (option_copied dated.entry) }
{
    match dated {
        None => None,
        Some(dated) => Some(&dated.terms),
    }
}
