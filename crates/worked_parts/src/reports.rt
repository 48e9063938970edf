//! Texts of reports that stand alone.
ghost use Rattle.std.specs.Prelude.{◌≡◌, ◌<◌, [], length, All, IfOk};
ghost use Rattle.admit_core.specs.Validity.{IsRanking};
ghost use Rattle.report.specs.DayText.{IsPassOf};

use crate::orders::group_in;
use crate::tables::sampled_dossier;
use crate::texts::text_of;
use admit_core::{
    Change, DayRecord, Dossier, Fall, Freed, InFault, OutOfMemory, PassEnd, PassRecord, RankGroup,
    Sequence, Status, Terms,
};
use calendar::civil_of;
use call_order::call_order;
use day_state::DayState;
use report::{dated_day_text, day_text, final_dated_text, final_text, order_text};
use std::alloc::Global;

/// The texts of the call orders of groups.
fn orders_told(alloc: Global, groups: &[RankGroup]) -> Result<Vec<u8>, OutOfMemory>
    requires { All IsRanking groups.now }
{
    let mut told = Vec::new(alloc);
    for group in groups {
        let order = call_order(alloc, group)?;
        told.extend_from_slice(&order_text(alloc, group.id, &order)?)?;
    }
    Ok(told)
}

/// The texts of the call orders of a dossier.
fn orders_of(alloc: Global, dossier: &Dossier) -> Result<Vec<u8>, OutOfMemory> {
    let groups = dossier.groups.as_slice();
    orders_told(alloc, groups)
}

/// A day without passes: the seats and the beds that are left.
fn day_with(alloc: Global, left: &[u32], free: &[u32]) -> Result<DayRecord, OutOfMemory>
    ensures { IfOk result (λ day. (day.passes ≡ []) × (day.lapsed ≡ [])) }
{
    Ok(DayRecord {
        day: 1,
        passes: Sequence::new(alloc),
        left: Sequence::from_vec(Vec::from_slice(alloc, left)?),
        free: Sequence::from_vec(Vec::from_slice(alloc, free)?),
        lapsed: Sequence::new(alloc),
    })
}

/// A pass of a dossier with a school and four wishes: a fall, two offers and an automatic answer.
fn pass_of(alloc: Global, dossier: &Dossier) -> Result<PassEnd, OutOfMemory>
    requires school { 0 < length dossier.now.schools }
    requires wishes { 3 < length dossier.now.wishes }
    ensures { IfOk result (IsPassOf dossier.now) }
{
    let _ = dossier.wishes.len(); // how many there are
    let fall = Fall {
        school: 0,
        from: 9,
        to: 2,
        wishes: Sequence::from_vec(vec![in alloc; 0, 2]?),
    };
    let pass = PassRecord {
        bars: Sequence::from_vec(vec![in alloc; 2]?),
        falls: Sequence::from_vec(vec![in alloc; fall]?),
        offers: Sequence::from_vec(vec![in alloc; 1, 3]?),
    };
    let change = Change {
        wish: 0,
        status: Status::AutoRefused,
    };
    Ok(PassEnd {
        pass,
        autos: Sequence::from_vec(vec![in alloc; change]?),
        freed: Freed { seats: 1, beds: 0 },
    })
}

/// A day of such a dossier with that pass.
fn passed_day(alloc: Global, dossier: &Dossier) -> Result<DayRecord, OutOfMemory>
    requires school { 0 < length dossier.now.schools }
    requires wishes { 3 < length dossier.now.wishes }
    ensures { IfOk result (λ day. All (IsPassOf dossier.now) day.passes) }
{
    let pass = pass_of(alloc, dossier)?;
    let day = day_with(alloc, &[5], &[7])?;
    let passes = Sequence::from_vec(vec![in alloc; pass]?);
    Ok(DayRecord {
        day: 2,
        passes,
        left: day.left,
        free: day.free,
        lapsed: day.lapsed,
    })
}

/// The text of that day.
fn passes_of(alloc: Global, dossier: &Dossier) -> Result<Vec<u8>, OutOfMemory> {
    if dossier.schools.is_empty() {
        return Ok(Vec::new(alloc));
    }
    if dossier.wishes.len() < 4 {
        return Ok(Vec::new(alloc));
    }
    let day = passed_day(alloc, dossier)?;
    day_text(alloc, dossier, &day)
}

/// The text of a day without passes, and the same where offers have dates.
fn days_of(alloc: Global, dossier: &Dossier) -> Result<Vec<u8>, OutOfMemory> {
    let day = day_with(alloc, &[5], &[7])?;
    let mut told = day_text(alloc, dossier, &day)?;
    if let Some(start) = civil_of(2026, 6, 2) {
        let before = Sequence::new(alloc);
        let terms = Terms { term: 5, before };
        told.extend_from_slice(&dated_day_text(alloc, dossier, &day, start, &terms)?)?;
    }
    Ok(told)
}

/// The text of the first state of a dossier.
fn final_of(alloc: Global, dossier: &Dossier) -> Result<Vec<u8>, OutOfMemory> {
    let state = DayState::begin(alloc, dossier)?;
    final_text(alloc, &state)
}

/// The same with dates, where the dossier has no wishes.
fn dated_of(alloc: Global, dossier: &Dossier) -> Result<Vec<u8>, OutOfMemory> {
    let state = DayState::begin(alloc, dossier)?;
    let before = Sequence::new(alloc);
    let terms = Terms { term: 5, before };
    match civil_of(2026, 6, 2) {
        Some(start) if dossier.wishes.is_empty() => {
            final_dated_text(alloc, &state, start, &terms)
        }
        _ => Ok(Vec::new(alloc)),
    }
}

/// A text of a sample.
fn sample_told(alloc: Global, kind: &str, number: u32) -> Result<Vec<u8>, InFault> {
    let Some(dossier) = sampled_dossier(alloc, number)? else {
        return Ok(Vec::new(alloc));
    };
    match kind {
        "day" => Ok(days_of(alloc, &dossier)?),
        "passes" => Ok(passes_of(alloc, &dossier)?),
        _ => Ok(final_of(alloc, &dossier)?),
    }
}

/// A text of a dossier with one group alone.
fn group_told(alloc: Global, kind: &str, words: &str) -> Result<Vec<u8>, InFault> {
    let dossier = group_in(alloc, words)?;
    match kind {
        "order" => Ok(orders_of(alloc, &dossier)?),
        _ => Ok(dated_of(alloc, &dossier)?),
    }
}

/// A text of a report: which one, and the group or the sample that it is of.
pub(crate) fn report_in(alloc: Global, input: &str) -> Result<String, OutOfMemory> {
    let (kind, words) = input.split_once(" ").unwrap_or((input, ""));
    let told = match kind {
        "day" | "passes" | "final" => sample_told(alloc, kind, words.parse::<u32>().unwrap_or(0)),
        _ => group_told(alloc, kind, words),
    };
    match told {
        Ok(bytes) => text_of(alloc, bytes.as_slice()),
        Err(_) => Ok(String::from_str(alloc, "no dossier")?),
    }
}
