//! The tables of the next morning.
ghost use Rattle.std.specs.Prelude.{◌≡◌, [], IfOk, IfSome, IsOk, None, OnOk, option_copied};
ghost use Rattle.admit_core.specs.Days.{ceilings_of};
ghost use Rattle.admit_core.specs.Relations.{first_fault};
ghost use Rattle.admit_core.specs.Standing.{dossier_of};
ghost use Rattle.admit_core.specs.declared.tables.Tables.{Tables as Rows};
ghost use Rattle.next_morning.specs.Laws.{IsAccepted};
ghost use Rattle.next_morning.specs.Morning.{HasNoRows, HaveDates, morning_tables};
ghost use Rattle.next_morning.specs.RowsBack.{HasNoDailyRows, daily_rows};

use crate::back::rows_back;
use crate::rows::{later_answers, later_ceilings, school_rows, told_rows};
use admit_core::{OutOfMemory, Sequence, Tables};
use day_state::DayState;
use intake::DatedTerms;
use std::alloc::Global;

/// Makes the tables those of the morning after a day.
fn turn(
    alloc: Global,
    tables: &mut Tables,
    evening: &DayState<'_>,
    ceilings: &[u32],
    day: u32,
    dated: Option<&DatedTerms>,
) -> Result<(), OutOfMemory>
    requires ceilings { ceilings.now ≡ ceilings_of evening.now.dossier day }
    requires dates { IfSome (option_copied dated) (HaveDates evening.now) }
    ensures turned { OnOk result (tables.new
        ≡ morning_tables day tables.old evening.now (option_copied dated.entry)) }
    ensures always { evening.now.dossier.wishes ≡ [] → HasNoRows day tables.old → IsOk result }
{
    let schools = school_rows(alloc, tables.schools.as_slice(), ceilings)?;
    tables.schools = Sequence::from_vec(schools);
    let state = told_rows(alloc, tables.wishes.as_slice(), evening, dated)?;
    tables.state = Sequence::from_vec(state);
    let changes = later_ceilings(alloc, tables.ceilings.as_slice(), day)?;
    tables.ceilings = Sequence::from_vec(changes);
    let answers = later_answers(alloc, tables.answers.as_slice(), day)?;
    tables.answers = Sequence::from_vec(answers);
    Ok(())
}

/// The tables with which a campaign is begun again on the morning after a day: each school comes in
/// with its ceiling of that day, each wish with its status in the evening, and what is given for
/// later days is dated as many days earlier. Where offers have deadlines, each open offer has its
/// date, as the final lines of the day have it. A check accepts them where it accepted the tables
/// of the day. `laws_of_next_mornings` says what a run over them is.
pub fn next_morning(
    alloc: Global,
    mut tables: Tables,
    evening: &DayState<'_>,
    ceilings: &[u32],
    day: u32,
    dated: Option<&DatedTerms>,
) -> Result<Tables, OutOfMemory>
    requires dossier { evening.now.dossier ≡ dossier_of tables }
    requires ceilings { ceilings.now ≡ ceilings_of evening.now.dossier day }
    requires dates { IfSome (option_copied dated) (HaveDates evening.now) }
    ensures tables { IfOk result (λ next. next
        ≡ morning_tables day tables evening.now (option_copied dated.entry)) }
    ensures accepted { IsAccepted tables → IfOk result IsAccepted }
    ensures always { HasNoRows day tables → IsOk result }
{
    evening.accepts_once();
    let _ = evening.marks(); // learns that there is one for each wish
    turn(alloc, &mut tables, evening, ceilings, day, dated)?;
    Ok(tables)
}

/// The slots of the same tables that a day changes: the schools, the state, the ceilings and the
/// answers. They are made of the evening alone, whose dossier has no rows of the others; beside
/// them are the wishes, and the other lists are empty.
pub fn next_rows(
    alloc: Global,
    evening: &DayState<'_>,
    ceilings: &[u32],
    day: u32,
    dated: Option<&DatedTerms>,
) -> Result<Tables, OutOfMemory>
    requires ceilings { ceilings.now ≡ ceilings_of evening.now.dossier day }
    requires dates { IfSome (option_copied dated) (HaveDates evening.now) }
    ensures rows { (t : Rows) → evening.now.dossier ≡ dossier_of t → first_fault t ≡ None
        → IfOk result (λ rows. rows
        ≡ daily_rows (morning_tables day t evening.now (option_copied dated.entry))) }
    ensures always { HasNoDailyRows evening.now.dossier → IsOk result }
{
    let mut rows = rows_back(alloc, evening.dossier())?;
    turn(alloc, &mut rows, evening, ceilings, day, dated)?;
    Ok(rows)
}
