//! The plain and the linked round side by side: they answer alike from fall to fall.
ghost use Rattle.std.specs.Prelude.{◌≡◌, ◌<◌, length};
ghost use Rattle.admit_core.specs.CallOrder.{AreCallOrders};

use crate::tables::call_orders_of;
use crate::views::push_view;
use admit_core::{CallOrders, Dossier, OutOfMemory, Steps};
use bar_fixpoint::Falling;
use day_state::DayState;
use demand::{PlainRound, proposed};
use desk_day::own_ceilings;
use linked_demand::{Lineup, LinkedRound};
use round::bars_of;
use std::alloc::Global;
use std::marker::Brand;
use std::sync::ledger::{Blank, Ledger};

/// More falls than any run here makes.
const MANY_FALLS: u32 = 100;

/// What is seen in a dossier whose bars fall from the ceilings, the last overfilled school's each
/// time: how often, and the lines of each view.
#[derive(Drop)]
pub(crate) struct Seen {
    pub(crate) falls: u32,
    pub(crate) text: String,
}

/// Whether two systems answer alike at a school, with the names up to the first rank that finds no
/// bed and with all names.
fn agree_at<F: Falling, G: Falling>(
    alloc: Global,
    one: &F,
    other: &G,
    school: u32,
) -> Result<bool, OutOfMemory> {
    if school >= one.count() || school >= other.count() {
        return Ok(false);
    }
    let over = one.over(alloc, school)?;
    let upto = over.unwrap_or(0);
    Ok(
        one.bar(school) == other.bar(school)
            && over == other.over(alloc, school)?
            && one.names(alloc, school, upto)? == other.names(alloc, school, upto)?
            && one.names(alloc, school, u32::MAX)? == other.names(alloc, school, u32::MAX)?,
    )
}

/// Whether two systems answer alike at every school.
fn agree<F: Falling, G: Falling>(alloc: Global, one: &F, other: &G) -> Result<bool, OutOfMemory> {
    for school in 0..one.count() {
        if !agree_at(alloc, one, other, school)? {
            return Ok(false);
        }
    }
    Ok(one.count() == other.count() && one.overfilled(alloc)? == other.overfilled(alloc)?)
}

/// The places of the wishes that are proposed under the present bars, if a linked round tells of
/// each wish whether it is one of them, and lists them.
fn proposed_alike(
    alloc: Global,
    state: &DayState<'_>,
    orders: &CallOrders,
    round: &LinkedRound<'_, '_>,
) -> Result<Option<Vec<u32>>, OutOfMemory>
    requires orders { AreCallOrders state.now.dossier.groups orders.now.orders }
    requires state { round.now.state ≡ state.now }
{
    let bars = bars_of(alloc, round)?;
    if bars.len() != state.dossier().schools.len() {
        return Ok(None);
    }
    let places = proposed(alloc, state, orders, &bars)?;
    if round.proposed(alloc)? != places {
        return Ok(None);
    }
    for wish in 0..state.dossier().wishes.len() as u32 {
        if round.is_proposed(wish) != places.contains(&wish) {
            return Ok(None);
        }
    }
    Ok(Some(places))
}

/// The last overfilled school, and the bar to which it falls.
fn last_over<F: Falling>(alloc: Global, round: &F) -> Result<Option<(u32, u32)>, OutOfMemory> {
    for school in (0..round.count()).rev() {
        if let Some(rank) = round.over(alloc, school)? {
            return Ok(Some((school, rank.saturating_sub(1))));
        }
    }
    Ok(None)
}

/// Lowers a school's bar in both rounds, where it is higher.
fn fall<L: Ledger>(
    plain: &mut PlainRound<'_, '_>,
    linked: &mut LinkedRound<'_, '_>,
    school: u32,
    to: u32,
    steps: &mut Steps<L>,
)
    ensures { linked.new.state ≡ linked.old.state }
{
    if school < plain.count() && to < plain.bar(school) {
        plain.lower(school, to, steps);
    }
    if school < linked.count() && to < linked.bar(school) {
        linked.lower(school, to, steps);
    }
}

/// What is seen in a run from the ceilings, if both rounds answer alike at each fall.
fn seen_alike<L: Ledger>(
    alloc: Global,
    blank: Blank,
    state: &DayState<'_>,
    orders: &CallOrders,
    ceilings: &[u32],
) -> Result<Option<Seen>, OutOfMemory>
    requires name { blank.name ≡ L.name }
    requires parts { blank.parts ≡ L.parts }
    requires shared { 0 < L.parts }
    requires orders { AreCallOrders state.now.dossier.groups orders.now.orders }
    requires ceilings { length ceilings.now ≡ length state.now.dossier.schools }
{
    let mut steps: Steps<L> = Steps::new(blank);
    let mut plain = PlainRound::build(alloc, state, orders, ceilings)?;
    let lineup = Lineup::build(alloc, state, orders)?;
    let mut linked = LinkedRound::build(alloc, state, orders, &lineup, ceilings)?;
    let mut text = String::new(alloc);
    for falls in 0..MANY_FALLS {
        if !agree(alloc, &plain, &linked)? {
            return Ok(None);
        }
        let Some(places) = proposed_alike(alloc, state, orders, &linked)? else {
            return Ok(None);
        };
        push_view(alloc, &mut text, state.dossier(), &plain, &places)?;
        match last_over(alloc, &plain)? {
            None => return Ok(Some(Seen { falls, text })),
            Some((school, to)) => fall(&mut plain, &mut linked, school, to, &mut steps),
        }
    }
    Ok(None)
}

/// What is seen in a dossier on its first day, if both rounds answer alike.
pub(crate) fn seen_of(alloc: Global, dossier: &Dossier) -> Result<Option<Seen>, OutOfMemory> {
    let orders = call_orders_of(alloc, dossier)?;
    let ceilings = own_ceilings(alloc, dossier)?;
    let state = DayState::begin(alloc, dossier)?;
    seen_alike::<Brand>(alloc, Blank::new(1), &state, &orders, &ceilings)
}
