//! The text of a slot of the morning after the days that were played.
ghost use Rattle.std.specs.Prelude.{◌≡◌, IfOk, IfSome, IsTrue, None, option_copied};
ghost use Rattle.admit_core.specs.Relations.{first_fault};
ghost use Rattle.admit_core.specs.Standing.{dossier_of};
ghost use Rattle.admit_core.specs.declared.tables.Tables.{Tables};
ghost use Rattle.modes.specs.Endings.{IsDoneWith};
ghost use Rattle.next_morning.specs.Morning.{HaveDates};
ghost use Rattle.morning_cli.specs.SlotWanted.{is_daily};
ghost use Rattle.morning_cli.specs.Morning.{morning_text};

use admit_core::{OutOfMemory, Slot};
use day_state::DayState;
use desk_day::ceilings_on;
use intake::DatedTerms;
use modes::{Exit, Reply};
use next_morning::next_rows;
use slot_text::push_slot;
use std::alloc::Global;

/// Replies with the text of a slot of the morning after a day.
pub(crate) fn slot_reply(
    alloc: Global,
    slot: Slot,
    evening: &DayState<'_>,
    day: u32,
    dated: Option<&DatedTerms>,
) -> Result<Reply, OutOfMemory>
    requires daily { IsTrue (is_daily slot) }
    requires dates { IfSome (option_copied dated) (HaveDates evening.now) }
    ensures { (t : Tables) → evening.now.dossier ≡ dossier_of t → first_fault t ≡ None
        → IfOk result (λ reply. IsDoneWith
        (morning_text slot t evening.now day (option_copied dated.entry))
        reply.exit reply.text.items) }
{
    let ceilings = ceilings_on(alloc, evening.dossier(), day)?;
    let rows = next_rows(alloc, evening, &ceilings, day, dated)?;
    let mut text = String::new(alloc);
    push_slot(&mut text, &rows, slot, dated.is_some())?;
    Ok(Reply {
        exit: Exit::Done,
        text: text.into_bytes(),
    })
}
