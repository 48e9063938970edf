//! The reply of a run after its days, by its mode.
ghost use Rattle.std.specs.Prelude.{◌≡◌, All, IfOk, IsSome, Ok, Err, option_copied};
ghost use Rattle.modes.specs.Endings.{CanEnd, CanEndPlayed, EndsAfter, EndsPlayed, IsRefusedWith, LendsPlayed, asked_by, lines_before, view_in};
ghost use Rattle.modes.specs.Jobs.{view_of};
ghost use Rattle.modes.specs.Replay.{CanBeWritten};
ghost use Rattle.played.specs.LastDesks.{desk_in};
ghost use Rattle.played.specs.Lent.{AreThere, choice_in, standing, told_in};

use crate::all_played::AllPlayed;
use crate::beds::reply_to_beds;
use crate::blocked::reply_to_envy;
use crate::chain::reply_to_chain;
use crate::checked::reply_to_check;
use crate::exit::Exit;
use crate::explained::reply_to_explain;
use crate::job::picker_after;
use crate::market::reply_to_market;
use crate::order::reply_to_order;
use crate::replay::{days_text, reply_to_replay};
use crate::reply::Reply;
use crate::sample::reply_to_sample;
use crate::task::{Asking, Task};
use admit_core::{CallOrders, DayRecord, OutOfMemory, Refusal};
use bar_fixpoint::Picker;
use intake::{DatedTerms, Input};
use played::{Pickers, Played};
use report::refusal_text;
use request::{Mode, PickerName, Request};
use std::alloc::Global;

/// Refuses a run for an answer that does not fit, after these lines.
fn refuse_after(alloc: Global, before: Vec<u8>, refusal: Refusal) -> Result<Reply, OutOfMemory>
    ensures { IfOk result (λ reply. IsRefusedWith refusal before.items reply.exit
        reply.text.items) }
{
    let mut text = before;
    text.extend_from_slice(&refusal_text(alloc, refusal)?)?;
    Ok(Reply {
        exit: Exit::Refused,
        text,
    })
}

/// Replies where an answer that does not fit has cut the days short. Only `replay` tells the days
/// before it.
fn end_cut_short(
    alloc: Global,
    task: &Task<'_>,
    orders: &CallOrders,
    days: Vec<DayRecord>,
    refusal: Refusal,
) -> Result<Reply, OutOfMemory>
    requires { All (CanBeWritten (view_in task.now).dossier (view_in task.now).dated) days.items }
    ensures { IfOk result (λ reply. IsRefusedWith refusal
        (lines_before (view_in task.now).request.mode (view_in task.now)
        (record { orders = orders.now.orders; days = days.items; end = Err refusal }))
        reply.exit reply.text.items) }
{
    match task.request.mode {
        Mode::Replay => {
            let called = orders.orders.as_slice();
            let dossier = &task.input.dossier;
            let before = days_text(alloc, dossier, task.dated, called, days.as_slice())?;
            refuse_after(alloc, before, refusal)
        }
        _ => refuse_after(alloc, Vec::new(alloc), refusal),
    }
}

/// Replies to a mode that asks this of a picker.
fn ask_picker(
    alloc: Global,
    task: &Task<'_>,
    played: AllPlayed<'_, '_>,
    asking: Asking,
    picker: &mut dyn Picker,
) -> Result<Reply, OutOfMemory>
    requires asks { (view_in task.now).request.mode ≡ asked_by asking }
    requires can { CanEndPlayed task.now played }
    ensures { LendsPlayed task.now played.entry
        (record { told = told picker.old; choice = choice picker.old })
        (record { told = told picker.new; choice = choice picker.new }) result }
{
    match asking {
        Asking::Beds { school } => reply_to_beds(alloc, task.input, played, school, picker),
        Asking::Market => reply_to_market(alloc, &task.input.dossier, played, picker),
    }
}

/// Lends the picker in this place to a mode that asks it, and puts it back.
fn lend_picker(
    alloc: Global,
    task: &Task<'_>,
    played: AllPlayed<'_, '_>,
    asking: Asking,
    place: &mut Option<Box<dyn Picker>>,
) -> Result<Reply, OutOfMemory>
    requires asks { (view_in task.now).request.mode ≡ asked_by asking }
    requires can { CanEndPlayed task.now played }
    requires there { IsSome place.old }
    ensures there { IsSome place.new }
    ensures ends { LendsPlayed task.now played.entry
        (record {
          told = told_in told place.old;
          choice = choice_in choice place.old;
        })
        (record {
          told = told_in told place.new;
          choice = choice_in choice place.new;
        }) result }
{
    // Pickers are in their places between two calls: `there`.
    let Some(mut picker) = place.take() else {
        unreachable!()
    };
    let reply = ask_picker(alloc, task, played, asking, &mut *picker);
    *place = Some(picker);
    reply
}

/// Replies to a mode that asks a picker: that of the day after which it asks.
fn ask_after_days(
    alloc: Global,
    task: &Task<'_>,
    played: AllPlayed<'_, '_>,
    asking: Asking,
    pickers: &mut Pickers,
) -> Result<Reply, OutOfMemory>
    requires asks { (view_in task.now).request.mode ≡ asked_by asking }
    requires can { CanEndPlayed task.now played }
    requires there { AreThere pickers.old }
    ensures there { AreThere pickers.new }
    ensures ends { EndsPlayed task.now played.entry
        (standing told choice pickers.old) (standing told choice pickers.new) result }
{
    // Each mode that asks has a day in the table `picks_after`: `asks`.
    let Some(name) = picker_after(task.request) else {
        unreachable!()
    };
    match name {
        PickerName::First => lend_picker(alloc, task, played, asking, &mut pickers.first),
        PickerName::Last => lend_picker(alloc, task, played, asking, &mut pickers.last),
        PickerName::Turn => lend_picker(alloc, task, played, asking, &mut pickers.turn),
    }
}

/// Replies once the days have led to a desk. What the mode's text does not need of the desk is
/// given up before.
fn reply_by_mode(
    alloc: Global,
    task: &Task<'_>,
    played: AllPlayed<'_, '_>,
    pickers: &mut Pickers,
) -> Result<Reply, OutOfMemory>
    requires can { CanEndPlayed task.now played }
    requires there { AreThere pickers.old }
    ensures there { AreThere pickers.new }
    ensures ends { EndsPlayed task.now played.entry
        (standing told choice pickers.old) (standing told choice pickers.new) result }
{
    let input = task.input;
    match task.request.mode {
        Mode::Order => reply_to_order(alloc, &input.dossier, played),
        Mode::Replay => reply_to_replay(alloc, input, task.dated, played),
        Mode::Chain => reply_to_chain(alloc, &input.dossier, played),
        Mode::Check => reply_to_check(alloc, input, task.dated, played),
        Mode::Explain { wish } => reply_to_explain(alloc, input, played, wish),
        Mode::Envy => reply_to_envy(alloc, played),
        Mode::Beds { school } => ask_after_days(
            alloc,
            task,
            played,
            Asking::Beds { school },
            pickers,
        ),
        Mode::Market => ask_after_days(alloc, task, played, Asking::Market, pickers),
        Mode::Sample { number } => reply_to_sample(alloc, &input.dossier, number, played),
    }
}

/// Replies to a run after its days, which were run by these call orders. A picker that the mode
/// asks is lent for it, and is in its place again afterwards.
pub fn ending(
    alloc: Global,
    request: &Request,
    input: &Input,
    dated: Option<&DatedTerms>,
    orders: &CallOrders,
    played: Played<'_, '_>,
    pickers: &mut Pickers,
) -> Result<Reply, OutOfMemory>
    requires can { CanEnd
        (view_of request.now input.now (option_copied dated))
        (record {
          orders = orders.now.orders;
          days = played.days.items;
          end = desk_in played.end;
        }) }
    requires by_orders { IfOk played.end (λ last. last.orders ≡ orders.now.orders) }
    requires there { AreThere pickers.old }
    ensures there { AreThere pickers.new }
    ensures ends { EndsAfter (desk_in played.entry.end)
        (view_of request.now input.now (option_copied dated.entry))
        (record {
          orders = orders.now.orders;
          days = played.entry.days.items;
          end = desk_in played.entry.end;
        })
        (standing told choice pickers.old) (standing told choice pickers.new) result }
{
    let task = Task {
        request,
        input,
        dated,
    };
    let Played { days, end } = played;
    match end {
        Ok(last) => reply_by_mode(alloc, &task, AllPlayed { days, last }, pickers),
        Err(refusal) => end_cut_short(alloc, &task, orders, days, refusal),
    }
}
