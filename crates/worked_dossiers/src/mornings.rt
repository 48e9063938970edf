//! The slots of the morning after a day.
ghost use Rattle.std.specs.Prelude.{◌≡◌, IfOk};
ghost use Rattle.admit_core.specs.Days.{ceilings_of};
ghost use Rattle.admit_core.specs.Standing.{dossier_of};
ghost use Rattle.next_morning.specs.Laws.{IsAccepted};

use crate::tables::tables_of;
use admit_core::{InFault, OutOfMemory, Slot, Tables};
use case_file::{SLOTS, Slots};
use day_state::DayState;
use desk_day::ceilings_on;
use dossier_check::check;
use next_morning::{next_morning, next_rows};
use slot_text::push_slot;
use std::alloc::{AllocError, Global};

/// The slots that a day changes.
const DAILY: [Slot; 4] = [Slot::Schools, Slot::State, Slot::Ceilings, Slot::Answers];

/// The texts of slots of tables, one after another.
fn texts_of(alloc: Global, tables: &Tables, slots: &[Slot]) -> Result<String, AllocError> {
    let mut text = String::new(alloc);
    for slot in slots {
        push_slot(&mut text, tables, *slot, false)?;
    }
    Ok(text)
}

/// The tables after a day whose evening is this.
fn tables_after(
    alloc: Global,
    tables: Tables,
    evening: &DayState<'_>,
    day: u32,
) -> Result<Tables, OutOfMemory>
    requires { evening.now.dossier ≡ dossier_of tables }
    ensures { IsAccepted tables → IfOk result IsAccepted }
{
    let ceilings = ceilings_on(alloc, evening.dossier(), day)?;
    next_morning(alloc, tables, evening, &ceilings, day, None)
}

/// The texts of the slots that a day changes, made of its evening alone.
fn daily_texts(alloc: Global, evening: &DayState<'_>, day: u32) -> Result<String, OutOfMemory> {
    let ceilings = ceilings_on(alloc, evening.dossier(), day)?;
    let rows = next_rows(alloc, evening, &ceilings, day, None)?;
    Ok(texts_of(alloc, &rows, &DAILY)?)
}

/// What the texts of all slots are, with a line where those that are made of the evening alone, or
/// the check of the tables, are not as they are to be.
fn seen_of(
    alloc: Global,
    next: &Tables,
    evening: &DayState<'_>,
    day: u32,
) -> Result<String, InFault>
    requires { IsAccepted next.now }
{
    let mut text = texts_of(alloc, next, &SLOTS)?;
    let daily = daily_texts(alloc, evening, day)?;
    if daily.as_str() != texts_of(alloc, next, &DAILY)?.as_str() {
        text.push_str("other rows from the evening alone\n")?;
    }
    if check(alloc, next).is_err() {
        text.push_str("not accepted\n")?;
    }
    Ok(text)
}

/// The texts of all slots of the morning after a day in whose evening the statuses are as the
/// dossier comes in with them.
pub(crate) fn morning_in(alloc: Global, slots: &Slots, day: u32) -> Result<String, InFault> {
    let tables = tables_of(alloc, slots)?;
    let checked = check(alloc, &tables)?;
    let evening = DayState::begin(alloc, &checked.dossier)?;
    let next = tables_after(alloc, tables, &evening, day)?;
    seen_of(alloc, &next, &evening, day)
}
