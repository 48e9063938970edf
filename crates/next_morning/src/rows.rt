//! The rows that are not as they were on the day before.
ghost use Rattle.std.specs.Prelude.{◌≡◌, [], IfOk, IfSome, IsOk, map, option_copied, zip};
ghost use Rattle.next_morning.specs.Morning.{HaveDates, later_answers, later_ceilings, state_row, told_rows, with_ceiling};

use crate::dates::dated_rows;
use admit_core::{AnswerRow, CeilingRow, OutOfMemory, SchoolRow, StateRow, WishRow};
use day_state::{DayState, Marks};
use intake::DatedTerms;
use std::alloc::Global;

/// The schools, each with its ceiling.
pub(crate) fn school_rows(
    alloc: Global,
    schools: &[SchoolRow],
    ceilings: &[u32],
) -> Result<Vec<SchoolRow>, OutOfMemory>
    ensures rows { IfOk result (λ rows. rows.items ≡ map with_ceiling
        (zip schools.now ceilings.now)) }
    ensures always { schools.now ≡ [] → IsOk result }
{
    let mut rows = Vec::new(alloc);
    for (school, ceiling) in schools.iter().zip(ceilings) {
        rows.push(SchoolRow {
            ceiling: *ceiling,
            ..*school
        })?;
    }
    Ok(rows)
}

/// A row for each wish, with its status.
fn state_rows(
    alloc: Global,
    wishes: &[WishRow],
    marks: &Marks,
) -> Result<Vec<StateRow>, OutOfMemory>
    ensures rows { IfOk result (λ rows. rows.items ≡ map state_row (zip wishes.now marks.now)) }
    ensures always { wishes.now ≡ [] → IsOk result }
{
    let mut rows = Vec::new(alloc);
    for (wish, status) in wishes.iter().zip(marks.statuses()) {
        rows.push(StateRow {
            wish: wish.id,
            status: *status,
            since: None,
        })?;
    }
    Ok(rows)
}

/// A row for each wish, with its status and, where there are terms, the date of its open offer.
pub(crate) fn told_rows(
    alloc: Global,
    wishes: &[WishRow],
    evening: &DayState<'_>,
    dated: Option<&DatedTerms>,
) -> Result<Vec<StateRow>, OutOfMemory>
    requires { IfSome (option_copied dated) (HaveDates evening.now) }
    ensures rows { IfOk result (λ rows. rows.items
        ≡ told_rows wishes.now evening.now (option_copied dated.entry)) }
    ensures always { wishes.now ≡ [] → evening.now.dossier.wishes ≡ [] → IsOk result }
{
    match dated {
        None => state_rows(alloc, wishes, evening.marks()),
        Some(dated) => dated_rows(alloc, evening, dated.start, &dated.terms),
    }
}

/// The ceilings of the days after a day, which are counted from there.
pub(crate) fn later_ceilings(
    alloc: Global,
    changes: &[CeilingRow],
    day: u32,
) -> Result<Vec<CeilingRow>, OutOfMemory>
    ensures rows { IfOk result (λ rows. rows.items ≡ later_ceilings day changes.now) }
    ensures always { later_ceilings day changes.now ≡ [] → IsOk result }
{
    let mut rows = Vec::new(alloc);
    for change in changes {
        if change.day > day {
            rows.push(CeilingRow {
                day: change.day - day,
                ..*change
            })?;
        }
    }
    Ok(rows)
}

/// The answers of the days after a day, which are counted from there.
pub(crate) fn later_answers(
    alloc: Global,
    answers: &[AnswerRow],
    day: u32,
) -> Result<Vec<AnswerRow>, OutOfMemory>
    ensures rows { IfOk result (λ rows. rows.items ≡ later_answers day answers.now) }
    ensures always { later_answers day answers.now ≡ [] → IsOk result }
{
    let mut rows = Vec::new(alloc);
    for answer in answers {
        if answer.day > day {
            rows.push(AnswerRow {
                day: answer.day - day,
                ..*answer
            })?;
        }
    }
    Ok(rows)
}
