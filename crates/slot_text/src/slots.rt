//! The text of each slot of tables.
ghost use Rattle.std.specs.Prelude.{flat_map};
ghost use Rattle.report.specs.Pushes.{Pushes};
ghost use Rattle.report.specs.Words.{row};
ghost use Rattle.slot_text.specs.Texts as Texts;

use crate::rows::push_plain;
use crate::table::push_table;
use admit_core::{Slot, StateRow, Tables};
use report::push_text;
use std::alloc::AllocError;

/// Adds the lines of a state's rows, without their dates.
fn push_plain_rows(text: &mut String, rows: &[StateRow]) -> Result<(), AllocError>
    ensures { Pushes result text.old text.new
        (flat_map (λ x. row (Texts.plain_state.fields x)) rows.now) }
{
    for state in rows {
        push_plain(text, state)?;
    }
    Ok(())
}

/// Adds the text of a state without dates.
fn push_plain_state(text: &mut String, rows: &[StateRow]) -> Result<(), AllocError>
    ensures { Pushes result text.old text.new (Texts.table_text Texts.plain_state rows.now) }
{
    push_text(text, "wish,status\n")?;
    push_plain_rows(text, rows)
}

/// Adds the text of a state.
fn push_state(text: &mut String, rows: &[StateRow], dated: bool) -> Result<(), AllocError>
    ensures { Pushes result text.old text.new (Texts.table_text (Texts.state dated) rows.now) }
{
    match dated {
        true => push_table(text, rows),
        false => push_plain_state(text, rows),
    }
}

/// Adds the text of one slot of tables. `dated` says whether the state slot has a column for the
/// dates of offers; without it they are left out. The chain slot has no rows, and no text.
pub fn push_slot(
    text: &mut String,
    tables: &Tables,
    slot: Slot,
    dated: bool,
) -> Result<(), AllocError>
    ensures { Pushes result text.old text.new (Texts.slot_text dated tables.now slot) }
{
    match slot {
        Slot::Groups => push_table(text, tables.groups.as_slice()),
        Slot::Programmes => push_table(text, tables.programmes.as_slice()),
        Slot::Schools => push_table(text, tables.schools.as_slice()),
        Slot::Rankings => push_table(text, tables.rankings.as_slice()),
        Slot::Boarding => push_table(text, tables.boarding.as_slice()),
        Slot::Wishes => push_table(text, tables.wishes.as_slice()),
        Slot::State => push_state(text, tables.state.as_slice(), dated),
        Slot::Ceilings => push_table(text, tables.ceilings.as_slice()),
        Slot::Answers => push_table(text, tables.answers.as_slice()),
        Slot::Chain => Ok(()),
    }
}
