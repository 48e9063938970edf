//! The mode `replay`: the call orders, the days and the final state.
ghost use Rattle.std.specs.Prelude.{◌≡◌, [], ◌++◌, All, IfOk, OnOk, option_copied, string_bytes};
ghost use Rattle.modes.specs.Endings.{IsDoneWith};
ghost use Rattle.modes.specs.Replay.{CanBeDated, CanBeWritten, day_lines, days_text, final_lines, replay_text};

use crate::all_played::AllPlayed;
use crate::order::push_orders;
use crate::reply::{Reply, done};
use admit_core::{CallOrder, DayRecord, Dossier, OutOfMemory};
use day_state::MarkedWishes;
use intake::{DatedTerms, Input};
use report::{push_dated_day, push_dated_final, push_day, push_final};
use std::alloc::{AllocError, Global};

/// Adds the lines of a day, with its lapses where offers have deadlines.
fn push_day_lines(
    text: &mut String,
    dossier: &Dossier,
    dated: Option<&DatedTerms>,
    day: &DayRecord,
) -> Result<(), AllocError>
    requires { CanBeWritten dossier.now (option_copied dated) day.now }
    ensures { OnOk result (string_bytes text.new
        ≡ string_bytes text.old ++ day_lines dossier.now (option_copied dated.entry) day.now) }
{
    match dated {
        None => push_day(text, dossier, day),
        Some(dated) => push_dated_day(text, dossier, day, dated.start, &dated.terms),
    }
}

/// Adds the lines of the final state, with the dates of offers where these have deadlines.
pub(crate) fn push_final_lines(
    text: &mut String,
    state: &MarkedWishes<'_>,
    dated: Option<&DatedTerms>,
) -> Result<(), AllocError>
    requires { CanBeDated (option_copied dated) state.now }
    ensures { OnOk result (string_bytes text.new
        ≡ string_bytes text.old ++ final_lines state.now (option_copied dated.entry)) }
{
    match dated {
        None => push_final(text, state),
        Some(dated) => push_dated_final(text, state, dated.start, &dated.terms),
    }
}

/// Adds the call orders, and the lines of days.
fn push_days(
    text: &mut String,
    dossier: &Dossier,
    dated: Option<&DatedTerms>,
    orders: &[CallOrder],
    days: &[DayRecord],
) -> Result<(), AllocError>
    requires { All (CanBeWritten dossier.now (option_copied dated)) days.now }
    ensures { OnOk result (string_bytes text.new ≡ string_bytes text.old
        ++ days_text dossier.now (option_copied dated.entry) orders.now days.now) }
{
    push_orders(text, dossier.groups.as_slice(), orders)?;
    for day in days {
        push_day_lines(text, dossier, dated, day)?;
    }
    Ok(())
}

/// The call orders, and the lines of days.
pub(crate) fn days_text(
    alloc: Global,
    dossier: &Dossier,
    dated: Option<&DatedTerms>,
    orders: &[CallOrder],
    days: &[DayRecord],
) -> Result<Vec<u8>, OutOfMemory>
    requires { All (CanBeWritten dossier.now (option_copied dated)) days.now }
    ensures { IfOk result (λ text. text.items ≡ days_text dossier.now (option_copied dated.entry)
        orders.now days.now) }
{
    let mut text = String::new(alloc);
    push_days(&mut text, dossier, dated, orders, days)?;
    Ok(text.into_bytes())
}

/// How many candidates the call orders have, or fewer where no number tells it. Room is made by it,
/// so no clause says it.
fn called_in(orders: &[CallOrder]) -> usize {
    let mut called = 0usize;
    for order in orders {
        called = called.saturating_add(order.list.len());
    }
    called
}

/// An empty text with room for the call orders and the final state, where there is so much. A row
/// takes at most 32 bytes, and an id 11 with what stands before it.
fn text_for(alloc: Global, dossier: &Dossier, orders: &[CallOrder]) -> String
    ensures { string_bytes result ≡ [] }
{
    let rows = dossier.wishes.len().saturating_mul(32);
    let ids = called_in(orders).saturating_mul(11);
    match String::with_capacity(alloc, rows.saturating_add(ids)) {
        Ok(text) => text,
        Err(_) => String::new(alloc),
    }
}

/// The whole text, which grows in one buffer.
fn replay_text(
    alloc: Global,
    dossier: &Dossier,
    dated: Option<&DatedTerms>,
    orders: &[CallOrder],
    days: &[DayRecord],
    evening: &MarkedWishes<'_>,
) -> Result<Vec<u8>, OutOfMemory>
    requires days { All (CanBeWritten dossier.now (option_copied dated)) days.now }
    requires offers { CanBeDated (option_copied dated) evening.now }
    ensures { IfOk result (λ text. text.items ≡ replay_text dossier.now (option_copied dated.entry)
        orders.now days.now evening.now) }
{
    let mut text = text_for(alloc, dossier, orders);
    push_days(&mut text, dossier, dated, orders, days)?;
    push_final_lines(&mut text, evening, dated)?;
    Ok(text.into_bytes())
}

/// Replies to `replay`. Before the text is made, which is the longest of all modes, the roster is
/// given up, and all of the desk but the marks of its present state.
pub(crate) fn reply_to_replay(
    alloc: Global,
    input: &Input,
    dated: Option<&DatedTerms>,
    played: AllPlayed<'_, '_>,
) -> Result<Reply, OutOfMemory>
    requires days { All (CanBeWritten input.now.dossier (option_copied dated)) played.days.items }
    requires offers { CanBeDated (option_copied dated) played.last.desk.present }
    ensures { IfOk result (λ reply. IsDoneWith
        (replay_text input.now.dossier (option_copied dated.entry)
        played.entry.last.orders played.entry.days.items played.entry.last.desk.present)
        reply.exit reply.text.items) }
{
    let (days, last) = played.into_parts();
    let called = last.orders().orders.as_slice();
    let (dossier, marks) = last.into_marks(alloc)?;
    let evening = MarkedWishes::of(dossier, &marks);
    let text = replay_text(
        alloc,
        &input.dossier,
        dated,
        called,
        days.as_slice(),
        &evening,
    )?;
    Ok(done(text))
}
