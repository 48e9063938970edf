//! The reply of a run, made before anything is written.
ghost use Rattle.std.specs.Prelude.{◌≡◌, IfOk, IsTrue, None, map, option_copied};
ghost use Rattle.std.specs.Prelude.{string_bytes};
ghost use Rattle.admit_core.specs.Relations.{first_fault};
ghost use Rattle.admit_core.specs.Standing.{dossier_of};
ghost use Rattle.admit_core.specs.declared.tables.Tables.{Tables};
ghost use Rattle.certificate.specs.Checked.{ids_in};
ghost use Rattle.intake.specs.Input.{IsInputOf, IsJobOf, Job};
ghost use Rattle.intake.specs.Shelves.{on_shelf};
ghost use Rattle.modes.specs.Endings.{IsDoneWith};
ghost use Rattle.modes.specs.Replay.{CanBeDated};
ghost use Rattle.played.specs.Lent.{AreBack, AreThere, standing};
ghost use Rattle.morning_cli.specs.SlotWanted.{IsAsked, is_daily};
ghost use Rattle.morning_cli.specs.Answering.{RepliesSlot, TakesAsked};
ghost use Rattle.morning_cli.specs.Morning.{IsSlotEnding, morning_text};

use crate::asked::{Asked, read_asked};
use crate::morning::slot_reply;
use admit_core::{OutOfMemory, Slot};
use call_order::call_orders;
use intake::{DatedTerms, Input, Stop, dated_terms, take_in};
use modes::{Reply, StopLine, days_of, deadlines_of, ending, stopped, terms_in};
use played::{LastDesk, Pickers, Played, play};
use slot_io::Shelf;
use std::alloc::Global;

/// Reads the words, and takes in what they ask for.
fn take<S: Shelf>(alloc: Global, words: &[String], shelf: &mut S) -> Result<(Asked, Input), Stop>
    ensures { TakesAsked (map string_bytes words.now)
        (on_shelf S.left S.taken S.faults shelf.old)
        (on_shelf S.left S.taken S.faults shelf.new) result }
{
    let asked = read_asked(alloc, words)?;
    let input = take_in(alloc, &asked.request, shelf)?;
    Ok((asked, input))
}

/// Replies with the slot of the morning after days that all came about, and left this desk.
fn morning_after(
    alloc: Global,
    slot: Slot,
    day: u32,
    dated: Option<&DatedTerms>,
    last: LastDesk<'_, '_>,
) -> Result<Reply, OutOfMemory>
    requires daily { IsTrue (is_daily slot) }
    requires dates { CanBeDated (option_copied dated) last.desk.present }
    ensures { (t : Tables) → last.entry.desk.present.dossier ≡ dossier_of t → first_fault t ≡ None
        → IfOk result (λ reply. IsDoneWith
        (morning_text slot t last.entry.desk.present day (option_copied dated.entry))
        reply.exit reply.text.items) }
{
    let evening = last.into_now(alloc)?;
    slot_reply(alloc, slot, &evening, day, dated)
}

/// Runs the days that are asked for, and replies with the slot of the morning after them, or with
/// the refusal of an answer that does not fit.
fn play_out(
    alloc: Global,
    asked: &Asked,
    input: &Input,
    pickers: &mut Pickers,
) -> Result<Reply, OutOfMemory>
    requires asked { IsAsked asked.now }
    requires indexed { input.now.index ≡ ids_in input.now.dossier }
    requires there { AreThere pickers.old }

    ensures there { AreThere pickers.new }
    ensures back { AreBack (standing told choice pickers.old) (standing told choice pickers.new) }
    ensures ends { (job : Job) → IsJobOf asked.now.request job → IsInputOf job input.now
        → IfOk result (λ reply. IsSlotEnding asked.now.slot job
        (standing told choice pickers.old) (standing told choice pickers.new)
        reply.exit reply.text.items) }
{
    let request = &asked.request;
    let dated = dated_terms(alloc, input, deadlines_of(request))?;
    let dated = dated.as_ref();
    let number = days_of(request);
    let dossier = &input.dossier;
    let orders = call_orders(alloc, dossier.groups.as_slice())?;
    let played = play(
        alloc,
        dossier,
        &orders,
        terms_in(dated),
        number,
        request.picker,
        pickers,
    )?;
    let Played { days, end } = played;
    match end {
        Ok(last) => morning_after(alloc, asked.slot, number, dated, last),
        Err(refusal) => {
            let end = Err(refusal);
            let cut_short = Played { days, end };
            ending(alloc, request, input, dated, &orders, cut_short, pickers)
        }
    }
}

/// Makes the reply of a run, or the line of what stopped it. Nothing is written here.
pub(crate) fn answer<S: Shelf>(
    alloc: Global,
    words: &[String],
    shelf: &mut S,
    pickers: &mut Pickers,
) -> Result<Reply, OutOfMemory>
    requires { AreThere pickers.old }
    ensures there { AreThere pickers.new }
    ensures replies { RepliesSlot (map string_bytes words.now)
        (on_shelf S.left S.taken S.faults shelf.old) (on_shelf S.left S.taken S.faults shelf.new)
        (standing told choice pickers.old) (standing told choice pickers.new) result }
{
    let line = StopLine::new(alloc)?;
    match take(alloc, words, shelf) {
        Ok((asked, input)) => play_out(alloc, &asked, &input, pickers),
        Err(stop) => stopped(line, stop),
    }
}
