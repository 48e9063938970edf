//! The terms of offers, with the date of day 1.
ghost use Rattle.std.specs.Prelude.{◌≡◌, IfOk, IfSome, IsSome, OnErr, length, map, option_map};
ghost use Rattle.std.specs.Prelude.{pos, replicate, zip};
ghost use Rattle.intake.specs.Dated.{AreDatedFor, dated_from, offer_since, since_day, terms_from};
ghost use Rattle.request.specs.Request.{IsDeadlines};

use crate::input::Input;
use admit_core::{Dossier, OutOfMemory, Sequence, Since, Status, Terms};
use calendar::{Civil, civil_of, day_of};
use dossier_check::Dates;
use request::Deadlines;
use std::alloc::{AllocError, Global};

/// The terms of offers, with the date of day 1.
#[derive(Drop)]
pub struct DatedTerms {
    pub start: Civil,
    pub terms: Terms,
}

/// Which day a date is, where day 1 has the date `start`; 0 where there is none.
fn since_day(start: Civil, since: Option<Since>) -> i32
    ensures { result ≡ since_day start since }
{
    let Some(since) = since else {
        return 0;
    };
    match civil_of(since.year, since.month, since.day) {
        Some(date) => day_of(start, date),
        None => 0,
    }
}

/// The day of an offer's date; 0 where there is no offer, or it has no date.
fn offer_since(start: Civil, status: Status, since: Option<Since>) -> i32
    ensures { result ≡ offer_since start (status, since) }
{
    match status {
        Status::Offered => since_day(start, since),
        _ => 0,
    }
}

/// The days of the offers among wishes of these statuses and dates, in their order.
fn listed_days(
    alloc: Global,
    statuses: &[Status],
    dates: &[Option<Since>],
    start: Civil,
) -> Result<Vec<i32>, AllocError>
    ensures { IfOk result (λ days. days.items ≡ map (offer_since start)
        (zip statuses.now dates.now)) }
{
    let mut days = Vec::new(alloc);
    for (status, since) in statuses.iter().zip(dates) {
        days.push(offer_since(start, *status, *since))?;
    }
    Ok(days)
}

/// The days of a number of wishes without a date.
fn no_days(alloc: Global, wishes: usize) -> Result<Vec<i32>, AllocError>
    ensures { IfOk result (λ days. days.items ≡ replicate wishes (pos 0)) }
{
    vec![in alloc; 0; wishes]
}

/// The days of the offers among wishes of these statuses and dates, where day 1 has the date
/// `start`.
fn days_before(
    alloc: Global,
    statuses: &[Status],
    dates: &Dates,
    start: Civil,
) -> Result<Vec<i32>, AllocError>
    requires { length dates.now ≡ length statuses.now }
    ensures { IfOk result (λ days. days.items ≡ map (offer_since start)
        (zip statuses.now dates.now)) }
{
    match dates.as_slice() {
        Some(dates) => listed_days(alloc, statuses, dates, start),
        None => no_days(alloc, statuses.len()),
    }
}

/// The terms of a dossier's offers, where its wishes have these dates.
fn terms_from(
    alloc: Global,
    dossier: &Dossier,
    dates: &Dates,
    deadlines: Deadlines,
) -> Result<Terms, OutOfMemory>
    requires { length dates.now ≡ length dossier.now.wishes }
    ensures value { IfOk result (λ terms. terms ≡ terms_from dossier.now dates.now deadlines) }
    ensures one_each { IfOk result (λ terms. length terms.before ≡ length dossier.now.wishes) }
{
    let statuses = dossier.statuses.as_slice();
    Ok(Terms {
        term: deadlines.term,
        before: Sequence::from_vec(days_before(alloc, statuses, dates, deadlines.start)?),
    })
}

/// The terms of the offers of an input, where there are deadlines.
pub fn dated_terms(
    alloc: Global,
    input: &Input,
    deadlines: Option<Deadlines>,
) -> Result<Option<DatedTerms>, OutOfMemory>
    requires { IfSome deadlines IsDeadlines }
    ensures value { IfOk result (λ dated.
        dated ≡ option_map (dated_from input.now.dossier input.now.dates) deadlines) }
    ensures dates { IfOk result (λ dated. IfSome dated (AreDatedFor input.now.dossier)) }
    ensures memory { OnErr result (IsSome deadlines) }
{
    match deadlines {
        None => Ok(None),
        Some(deadlines) => Ok(Some(DatedTerms {
            start: deadlines.start,
            terms: terms_from(alloc, &input.dossier, &input.dates, deadlines)?,
        })),
    }
}
