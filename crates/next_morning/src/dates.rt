//! The dates of open offers.
ghost use Rattle.std.specs.Prelude.{◌≡◌, ◌<◌, [], IfOk, IsOk, length};
ghost use Rattle.calendar.specs.Dates.{IsCivil, date_of};
ghost use Rattle.dossier_csv.specs.Columns.{since_of};
ghost use Rattle.report.specs.FinalText.{HasDate, HasDates};
ghost use Rattle.text_laws.specs.ReadBack.{dated_rows, since_when};

use admit_core::{OutOfMemory, Since, StateRow, Status, Terms};
use calendar::{Civil, parts};
use day_state::DayState;
use report::offer_date;
use std::alloc::Global;

/// A date, as a row of the state has it.
fn since_of(date: Civil) -> Since
    ensures { result ≡ since_of (date_of date) }
{
    let (year, month, day) = parts(date);
    Since { year, month, day }
}

/// Since when the wish at a place is offered; none where it is not.
fn since_when(evening: &DayState<'_>, start: Civil, terms: &Terms, place: u32) -> Option<Since>
    requires start { IsCivil start }
    requires place { place < length evening.now.dossier.wishes }
    requires before { place < length terms.now.before }
    requires date { HasDate evening.now start terms.now.before place }
    ensures { result ≡ since_when evening.now start terms.now.before place }
{
    match evening.status(place) {
        Status::Offered => Some(since_of(offer_date(&evening.marked(), start, terms, place))),
        _ => None,
    }
}

/// A row for each wish, with its status and, where it is offered, the date of its offer; `start`
/// is the date of day 1.
pub(crate) fn dated_rows(
    alloc: Global,
    evening: &DayState<'_>,
    start: Civil,
    terms: &Terms,
) -> Result<Vec<StateRow>, OutOfMemory>
    requires { HasDates evening.now start terms.now.before }
    ensures rows { IfOk result (λ rows. rows.items
        ≡ dated_rows evening.now start terms.now.before) }
    ensures always { evening.now.dossier.wishes ≡ [] → IsOk result }
{
    let mut rows = Vec::new(alloc);
    let wishes = evening.dossier().wishes.as_slice();
    for (place, wish) in wishes.iter().enumerate() {
        let place = place as u32;
        rows.push(StateRow {
            wish: wish.id,
            status: evening.status(place),
            since: since_when(evening, start, terms, place),
        })?;
    }
    Ok(rows)
}
