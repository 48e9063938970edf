//! The walk along call orders that finds the proposed wishes.
ghost use Rattle.std.specs.Prelude.{◌≡◌, ◌<◌, ◌^◌, ◌&&◌, ◌||◌, false, nat_lt, length, map, filter, replicate, All, IfOk};
ghost use Rattle.std.specs.List.{enumerate_from};
ghost use Rattle.admit_core.specs.CallOrder.{AreCallOrders};
ghost use Rattle.admit_core.specs.Lists.{is_among};
ghost use Rattle.admit_core.specs.Proposals.{wants_seat, proposed};
ghost use Rattle.proposals.specs.Called.{AreCalled};
ghost use Rattle.proposals.specs.Flags.{SetsAlso};
ghost use Rattle.proposals.specs.Open.{is_open_at};
ghost use Rattle.demand.specs.Proposed.{is_served_at, is_proposed_at, proposed_flags};

use admit_core::{CallOrders, OutOfMemory};
use day_state::{DayState, seats_left};
use proposals::{call_everyone, has_open_wish, is_open_at, limit_of, order_of, programme_count};
use std::alloc::Global;

/// Flags those of these wishes that are open ones in a programme.
fn flag_open(state: &DayState<'_>, bars: &[u32], programme: u32, own: &[u32], flags: &mut Vec<bool>)
    requires own { All (λ k. k < length state.now.dossier.wishes) own.now }
    requires bars { length bars.now ≡ length state.now.dossier.schools }
    requires flags { length flags.old.items ≡ length state.now.dossier.wishes }
    ensures { SetsAlso (λ k. is_among k own.now && is_open_at state.now bars.now programme k)
        flags.old.items flags.new.items }
{
    for place in own {
        if is_open_at(state, bars, programme, *place) {
            flags[*place as usize] = true;
        }
    }
}

/// Comes to a candidate in the call order of a programme: flags their open wishes there where they
/// are live in it or `is_called`, and says whether they want a seat.
fn visit(
    state: &DayState<'_>,
    bars: &[u32],
    programme: u32,
    candidate: u32,
    is_called: bool,
    flags: &mut Vec<bool>,
) -> bool
    requires bars { length bars.now ≡ length state.now.dossier.schools }
    requires flags { length flags.old.items ≡ length state.now.dossier.wishes }
    ensures wants { result ≡ wants_seat state.now bars.now programme candidate }
    ensures flags { SetsAlso (is_served_at state.now bars.now programme candidate is_called)
        flags.old.items flags.new.items }
{
    let _ = state.marks(); // one for each wish
    let own = state.own_wishes(candidate);
    if !has_open_wish(state, bars, programme, candidate, own) {
        return false;
    }
    let is_live = state.is_live_in_programme(candidate, programme);
    if is_live || is_called {
        flag_open(state, bars, programme, own, flags);
    }
    !is_live
}

/// Whether a candidate is called who has so many before them, of whom so many want a seat.
fn is_called(before: usize, limit: u32, ahead: usize, left: u32) -> bool
    ensures { result ≡ (nat_lt before limit || nat_lt ahead left) }
{
    before < limit as usize || ahead < left as usize
}

/// Flags the proposed wishes of a programme, in one walk along its call order.
fn flag_proposed(
    state: &DayState<'_>,
    orders: &CallOrders,
    bars: &[u32],
    programme: u32,
    flags: &mut Vec<bool>,
)
    requires programme { programme < length state.now.dossier.programmes }
    requires orders { AreCalled state.now.dossier orders.now.orders }
    requires bars { length bars.now ≡ length state.now.dossier.schools }
    requires flags { length flags.old.items ≡ length state.now.dossier.wishes }
    ensures { SetsAlso (is_proposed_at state.now orders.now.orders bars.now programme)
        flags.old.items flags.new.items }
{
    let order = order_of(state, orders, programme);
    let limit = limit_of(state, programme);
    let left = seats_left(state, programme);
    let mut ahead = 0;
    for (before, candidate) in order.iter().enumerate() {
        let is_called = is_called(before, limit, ahead, left);
        if visit(state, bars, programme, *candidate, is_called, flags) {
            ahead += 1;
        }
    }
}

/// One flag for each wish, none of them set.
fn no_flags(alloc: Global, state: &DayState<'_>) -> Result<Vec<bool>, OutOfMemory>
    ensures flags { IfOk result (λ flags.
        flags.items ≡ replicate (length state.now.dossier.wishes) false) }
    ensures few { length state.now.dossier.wishes < 2 ^ 32 }
{
    let dossier = state.dossier();
    Ok(vec![in alloc; false; dossier.wishes.len()]?)
}

/// Whether each wish is proposed, by place.
fn proposed_flags(
    alloc: Global,
    state: &DayState<'_>,
    orders: &CallOrders,
    bars: &[u32],
) -> Result<Vec<bool>, OutOfMemory>
    requires orders { AreCalled state.now.dossier orders.now.orders }
    requires bars { length bars.now ≡ length state.now.dossier.schools }
    ensures flags { IfOk result (λ flags.
        flags.items ≡ proposed_flags state.now orders.now.orders bars.now) }
    ensures few { IfOk result (λ flags. length flags.items < 2 ^ 32) }
{
    let _ = state.marks(); // one for each wish
    let mut flags = no_flags(alloc, state)?;
    let programmes = programme_count(state);
    for programme in 0..programmes {
        flag_proposed(state, orders, bars, programme, &mut flags);
    }
    Ok(flags)
}

/// The places that are flagged, ascending.
fn flagged(alloc: Global, flags: &[bool]) -> Result<Vec<u32>, OutOfMemory>
    requires { length flags.now < 2 ^ 32 }
    ensures { IfOk result (λ v.
        v.items ≡ map (λ x. x.0) (filter (λ x. x.1) (enumerate_from 0 flags.now))) }
{
    let places = flags
        .iter()
        .enumerate()
        .filter(|(_, flag)| **flag)
        .map(|(place, _)| place as u32)
        .collect(alloc)?;
    Ok(places)
}

/// The places of the wishes that are proposed under bars, ascending.
pub fn proposed_places(
    alloc: Global,
    state: &DayState<'_>,
    orders: &CallOrders,
    bars: &[u32],
) -> Result<Vec<u32>, OutOfMemory>
    requires orders { AreCalled state.now.dossier orders.now.orders }
    requires bars { length bars.now ≡ length state.now.dossier.schools }
    ensures { IfOk result (λ places. places.items ≡ proposed state.now orders.now.orders bars.now) }
{
    let flags = proposed_flags(alloc, state, orders, bars)?;
    flagged(alloc, &flags)
}

/// The places of the wishes that are proposed under bars, ascending.
///
/// It costs about the length of the call orders, each taken once for each of its programmes, and of
/// the wishes.
pub fn proposed(
    alloc: Global,
    state: &DayState<'_>,
    orders: &CallOrders,
    bars: &[u32],
) -> Result<Vec<u32>, OutOfMemory>
    requires orders { AreCallOrders state.now.dossier.groups orders.now.orders }
    requires bars { length bars.now ≡ length state.now.dossier.schools }
    ensures { IfOk result (λ places. places.items ≡ proposed state.now orders.now.orders bars.now) }
{
    call_everyone(state, orders);
    proposed_places(alloc, state, orders, bars)
}
