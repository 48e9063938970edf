//! What campaigns and questions about beds answer, as lines.
ghost use Rattle.std.specs.Prelude.{◌≡◌, ◌+◌, ◌<◌, ◌≤◌, length};
ghost use Rattle.admit_core.specs.CallOrder.{AreCallOrders};
ghost use Rattle.admit_core.specs.DossierRows.{beds_of};

use crate::calls::{ended_text, first_pass, push_numbers};
use crate::tables::call_orders_of;
use admit_core::{CallOrders, Dossier, OutOfMemory};
use bar_fixpoint::{FirstPicker, Picker};
use bed_need::{Growth, MoreBeds, grown_bars, least_beds};
use day_run::Campaign;
use day_state::DayState;
use desk_day::own_ceilings;
use std::alloc::Global;

/// The lines of the next day of a campaign. After day 366 there is none.
fn next_text(alloc: Global, campaign: &mut Campaign<'_>) -> Result<String, OutOfMemory> {
    if campaign.day() >= 366 {
        return Ok(String::new(alloc));
    }
    let dossier = campaign.state().dossier();
    let ended = campaign.next_day(alloc);
    ended_text(alloc, dossier, &ended)
}

/// The lines of the next days of a campaign.
fn days_text(alloc: Global, campaign: &mut Campaign<'_>, days: u32) -> Result<String, OutOfMemory> {
    let mut text = String::new(alloc);
    for _day in 0..days {
        let day = next_text(alloc, campaign)?;
        text.push_str(day.as_str())?;
    }
    Ok(text)
}

/// The lines of the first days of a campaign by a picker.
fn begun_by(
    alloc: Global,
    dossier: &Dossier,
    orders: &CallOrders,
    picker: Box<dyn Picker>,
    days: u32,
) -> Result<String, OutOfMemory>
    requires { AreCallOrders dossier.now.groups orders.now.orders }
{
    match Campaign::begin(alloc, dossier, orders, picker) {
        Ok(mut campaign) => days_text(alloc, &mut campaign, days),
        Err(_) => Err(OutOfMemory),
    }
}

/// The lines of the first days of a campaign.
pub(crate) fn campaign_of(
    alloc: Global,
    dossier: &Dossier,
    days: u32,
) -> Result<String, OutOfMemory> {
    let orders = call_orders_of(alloc, dossier)?;
    match Box::new(alloc, FirstPicker::new(alloc)) {
        Ok(picker) => begun_by(alloc, dossier, &orders, picker, days),
        Err(_) => Err(OutOfMemory),
    }
}

/// The lines of the first pass where the first school has so many beds.
pub(crate) fn with_beds_of(
    alloc: Global,
    dossier: &Dossier,
    beds: u32,
) -> Result<String, OutOfMemory> {
    if dossier.schools.is_empty() || beds > 2_000_000_000 {
        return Ok(String::new(alloc));
    }
    let changed = dossier.with_beds(alloc, 0, beds)?;
    first_pass(alloc, &changed)
}

/// The beds with which the bar of the school at a place stays at its ceiling.
fn need_in(
    alloc: Global,
    state: &DayState<'_>,
    orders: &CallOrders,
    ceilings: &[u32],
    school: u32,
) -> Result<u32, OutOfMemory>
    requires orders { AreCallOrders state.now.dossier.groups orders.now.orders }
    requires ceilings { length ceilings.now ≡ length state.now.dossier.schools }
    requires school { school < length state.now.dossier.schools }
{
    let mut picker = FirstPicker::new(alloc);
    least_beds(alloc, state, orders, ceilings, school, &mut picker)
}

/// The line of how many beds the school at a place needs on the first morning.
pub(crate) fn least_beds_of(
    alloc: Global,
    dossier: &Dossier,
    school: u32,
) -> Result<String, OutOfMemory> {
    if school as usize >= dossier.schools.len() {
        return Ok(String::new(alloc));
    }
    let orders = call_orders_of(alloc, dossier)?;
    let ceilings = own_ceilings(alloc, dossier)?;
    let state = DayState::begin(alloc, dossier)?;
    let beds = need_in(alloc, &state, &orders, &ceilings, school)?;
    Ok(format!(in alloc; "least {beds}\n")?)
}

/// The bars of the first morning, and those with more beds in the school at a place.
fn growth_in(
    alloc: Global,
    state: &DayState<'_>,
    orders: &CallOrders,
    ceilings: &[u32],
    given: MoreBeds,
) -> Result<Growth, OutOfMemory>
    requires orders { AreCallOrders state.now.dossier.groups orders.now.orders }
    requires ceilings { length ceilings.now ≡ length state.now.dossier.schools }
    requires school { given.school < length state.now.dossier.schools }
    requires beds { beds_of state.now.dossier given.school + given.beds ≤ 2000000000 }
{
    let mut picker = FirstPicker::new(alloc);
    grown_bars(alloc, state, orders, ceilings, ceilings, given, &mut picker)
}

/// The lines of the bars of the first morning, and of those with more beds in the first school.
pub(crate) fn grown_bars_of(
    alloc: Global,
    dossier: &Dossier,
    more: u32,
) -> Result<String, OutOfMemory> {
    let beds = match dossier.schools.as_slice() {
        [school, ..] => school.beds,
        [] => return Ok(String::new(alloc)),
    };
    if more > 2_000_000_000 - beds.min(2_000_000_000) {
        return Ok(String::new(alloc));
    }
    let orders = call_orders_of(alloc, dossier)?;
    let ceilings = own_ceilings(alloc, dossier)?;
    let state = DayState::begin(alloc, dossier)?;
    let given = MoreBeds {
        school: 0,
        beds: more,
    };
    let growth = growth_in(alloc, &state, &orders, &ceilings, given)?;
    let mut text = String::from_str(alloc, "before")?;
    push_numbers(&mut text, growth.before.as_slice())?;
    text.push_str("after")?;
    push_numbers(&mut text, growth.after.as_slice())?;
    Ok(text)
}
