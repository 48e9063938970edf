//! Those who wish for each programme, in call order: this follows from the dossier and its call
//! orders alone, so that all passes of a day share it.
ghost use Rattle.std.specs.Prelude.{◌≡◌, ℕ, ◌<◌, ◌^◌, length, map, nat_eq, nat_lt, IfOk, OnOk};
ghost use Rattle.std.specs.List.{IsDistinct};
ghost use Rattle.admit_core.specs.CallOrder.{AreCallOrders};
ghost use Rattle.day_state.specs.Kept.{HoldsOneKey};
ghost use Rattle.linked_demand.specs.Called.{called_for};
ghost use Rattle.linked_demand.specs.CalledWishes.{IsFrontOf, called_wishes_for, numbers_before};
ghost use Rattle.linked_demand.specs.Links.{claim_of};
ghost use Rattle.linked_demand.specs.Notes.{nothing_noted};
ghost use Rattle.linked_demand.specs.Opens.{line_of};
ghost use Rattle.linked_demand.specs.Seats.{AreSeated, IsLineup, is_below, is_passed};

use crate::boarders::boarders_by_school;
use crate::calling::{CalledWish, called_by_programme};
use crate::claims::Claims;
use crate::limited::limited_wishes;
use crate::notes::Notes;
use crate::rows::RowWish;
use crate::wishes::wish_count;
use admit_core::{CallOrders, OutOfMemory};
use day_state::DayState;
use proposals::{call_everyone, limit_of, programme_count};
use std::alloc::Global;
use std::mem;

/// No candidate stands twice in a line, and fewer than 2^30 wishes are for a programme. The call
/// does nothing.
fn line_once(state: &DayState<'_>, orders: &CallOrders)
    requires { AreCallOrders state.now.dossier.groups orders.now.orders }
    ensures once { (p : ℕ) → IsDistinct nat_eq (line_of state.now.dossier orders.now.orders p) }
    ensures few { (p : ℕ) → length (called_for state.now.dossier orders.now.orders p) < 2 ^ 30 }
{
    let dossier = state.dossier();
    let _ = &dossier.wishes; // learns the invariant
}

/// Whether one who has so many before them is called by a limit.
fn is_called_by_limit(before: u32, limit: u32) -> bool
    ensures { result ≡ nat_lt before limit }
{
    before < limit
}

/// Takes the wishes of one candidate over, the next of those who are called: as many stand before
/// each of them.
fn take_claim(wishes: &mut Vec<u32>, called: &[CalledWish]) -> Result<(), OutOfMemory>
    requires some { length wishes.old.items < length called.now }
    requires front { IsFrontOf called.now wishes.old.items }
    ensures front { OnOk result (IsFrontOf called.now wishes.new.items) }
    ensures run { OnOk result (HoldsOneKey (λ k. k) (numbers_before called.now)
        (length wishes.old.items) (length wishes.new.items)) }
    ensures further { OnOk result (length wishes.old.items < length wishes.new.items) }
{
    let first = called[wishes.len()];
    wishes.push(first.wish)?;
    while wishes.len() < called.len() && called[wishes.len()].before == first.before {
        wishes.push(called[wishes.len()].wish)?;
    }
    Ok(())
}

/// Goes along the wishes for a programme in call order, and notes what is known of them.
fn line_up(
    alloc: Global,
    state: &DayState<'_>,
    orders: &CallOrders,
    programme: u32,
    called: &[CalledWish],
    notes: &mut Notes,
) -> Result<Claims, OutOfMemory>
    requires programme { programme < length state.now.dossier.programmes }
    requires once { IsDistinct nat_eq (line_of state.now.dossier orders.now.orders programme) }
    requires few { length called.now < 2 ^ 30 }
    requires called { called.now ≡ called_wishes_for state.now.dossier orders.now.orders programme }
    requires seated { AreSeated state.now.dossier orders.now.orders (is_below programme)
        notes.old }
    ensures claims { IfOk result (λ x. x ≡ map (claim_of state.now.dossier programme)
        (line_of state.now.dossier orders.now.orders programme)) }
    ensures seated { OnOk result (AreSeated state.now.dossier orders.now.orders
        (is_passed programme (line_of state.now.dossier orders.now.orders programme)) notes.new) }
{
    let mut wishes = Vec::with_capacity(alloc, called.len())?;
    let mut bounds = Vec::with_capacity(alloc, called.len() + 1)?;
    bounds.push(0)?;
    let limit = limit_of(state, programme);
    while wishes.len() < called.len() {
        let from = wishes.len();
        let is_called = is_called_by_limit(called[from].before, limit);
        take_claim(&mut wishes, called)?;
        let place = bounds.len() as u32 - 1;
        notes.note(&wishes[from..], place, is_called);
        bounds.push(wishes.len() as u32)?;
    }
    Ok(Claims::new(wishes, bounds))
}

/// For each programme those who wish for it, with their claims. What is known of wishes is noted.
fn claims_of(
    alloc: Global,
    state: &DayState<'_>,
    orders: &CallOrders,
    notes: &mut Notes,
) -> Result<Vec<Claims>, OutOfMemory>
    requires orders { AreCallOrders state.now.dossier.groups orders.now.orders }
    requires notes { notes.old ≡ nothing_noted (length state.now.dossier.wishes) }
    ensures { IfOk result (λ v. IsLineup state.now.dossier orders.now.orders v.items notes.new) }
{
    call_everyone(state, orders);
    line_once(state, orders);
    let mut called = called_by_programme(alloc, state, orders)?;
    let programmes = programme_count(state);
    let mut claims = Vec::with_capacity(alloc, programmes as usize)?;
    for programme in 0..programmes {
        let row = mem::replace(&mut called[programme as usize], Vec::new(alloc));
        let own = line_up(alloc, state, orders, programme, &row, notes)?;
        claims.push(own)?;
    }
    Ok(claims)
}

/// For each programme those who wish for it, in call order, with their claims; what is known of
/// each wish from them; the boarders of each school by rank, and the wishes that a limit calls.
pub struct Lineup {
    pub(crate) claims: Vec<Claims>,
    pub(crate) notes: Notes,
    pub(crate) boarders: Vec<Vec<RowWish>>,
    pub(crate) limited: Vec<u32>,
}

// Not derived: so a lineup is dropped in one step where it is held, and not by each list.
impl Drop for Lineup {
    fn drop(self) {
        let Lineup {
            claims: _,
            notes: _,
            boarders: _,
            limited: _,
        } = self;
    }
}

impl Lineup {
    ghost use Rattle.linked_demand.specs.Lineups.{IsLineupOf};

    /// The lineup of a state's dossier, in one walk along the call order of each group.
    pub fn build(
        alloc: Global,
        state: &DayState<'_>,
        orders: &CallOrders,
    ) -> Result<Lineup, OutOfMemory>
        requires { AreCallOrders state.now.dossier.groups orders.now.orders }
        ensures { IfOk result (IsLineupOf state.now.dossier orders.now.orders) }
    {
        let mut notes = Notes::none(alloc, wish_count(state))?;
        let claims = claims_of(alloc, state, orders, &mut notes)?;
        let boarders = boarders_by_school(alloc, state, orders, &notes)?;
        let limited = limited_wishes(alloc, state, orders, &notes)?;
        Ok(Lineup {
            claims,
            notes,
            boarders,
            limited,
        })
    }
}
