//! For each programme the wishes for it in call order, dealt out by one walk along the call order
//! of each group.
ghost use Rattle.std.specs.Prelude.{◌≡◌, ℕ, ◌<◌, length, map, nat_eq, slice_range, All, IfOk, OnOk};
ghost use Rattle.std.specs.List.{IsDistinct};
ghost use Rattle.admit_core.specs.CallOrder.{AreCallOrders};
ghost use Rattle.day_state.specs.Spans.{IsWithin};
ghost use Rattle.linked_demand.specs.Called.{AreRowsFrom, before_at, called_by, order_at};
ghost use Rattle.linked_demand.specs.CalledWishes.{called_wish_at, called_wishes_for};
ghost use Rattle.linked_demand.specs.Claims.{AreApplicationsIn, application_at, wishes_of};
ghost use Rattle.linked_demand.specs.Keyed.{ArePutIn};
ghost use Rattle.linked_demand.specs.Seats.{applies_at};

use crate::claims::span_of;
use crate::guesses::Guesses;
use crate::rows::{empty_rows, put_with_room};
use crate::wishing::{Application, counts_by_programme, group_count, wishes_by_group};
use admit_core::{CallOrders, OutOfMemory};
use day_state::{DayState, Span};
use proposals::call_everyone;
use std::alloc::Global;
use std::mem;

/// A wish that is called, by its place, and how many its call order has before its candidate.
#[derive(Clone, Copy)]
pub struct CalledWish {
    pub wish: u32,
    pub before: u32,
}

/// No candidate stands twice in a call order. The call does nothing.
fn call_once(state: &DayState<'_>, orders: &CallOrders)
    requires { AreCallOrders state.now.dossier.groups orders.now.orders }
    ensures { (g : ℕ) → IsDistinct nat_eq (order_at orders.now.orders g) }
{
    let dossier = state.dossier();
    let _ = &dossier.wishes; // learns the invariant
}

/// The part of a list of wishes that a span marks.
fn claim_of(wishes: &[Application], span: Span) -> &[Application]
    requires { IsWithin (length wishes.now) span }
    ensures { result.now ≡ slice_range wishes.now span.from span.to }
{
    &wishes[span.from as usize..span.to as usize]
}

/// Deals the wishes of one who is called to the programmes that they are for. The counts tell what
/// room the rows are given.
fn deal(
    called: &mut Vec<Vec<CalledWish>>,
    counts: &[u32],
    state: &DayState<'_>,
    orders: &CallOrders,
    claim: &[Application],
    before: u32,
) -> Result<(), OutOfMemory>
    requires within { All (λ k. k < length state.now.dossier.wishes) (wishes_of claim.now) }
    requires programmes { claim.now ≡ map (application_at state.now.dossier) (wishes_of claim.now) }
    requires before { All (λ k. before_at state.now.dossier orders.now.orders k ≡ before)
        (wishes_of claim.now) }
    requires rows { length called.old.items ≡ length state.now.dossier.programmes }
    requires counts { length counts.now ≡ length state.now.dossier.programmes }
    ensures { OnOk result (ArePutIn (called_wish_at state.now.dossier orders.now.orders)
        (applies_at state.now.dossier) (wishes_of claim.now) called.old.items called.new.items) }
{
    let dossier = state.dossier();
    let _ = &dossier.wishes; // learns the invariant
    for application in claim {
        let wish = CalledWish {
            wish: application.wish,
            before,
        };
        put_with_room(called, counts, application.programme, wish)?;
    }
    Ok(())
}

/// Goes along the call order of a group, and deals the wishes for its programmes. The counts tell
/// what room the rows are given.
fn call_group(
    called: &mut Vec<Vec<CalledWish>>,
    counts: &[u32],
    state: &DayState<'_>,
    orders: &CallOrders,
    group: u32,
    wishes: &[Application],
    guesses: &mut Guesses,
) -> Result<(), OutOfMemory>
    requires group { group < length orders.now.orders }
    requires once { IsDistinct nat_eq (order_at orders.now.orders group) }
    requires wishes { AreApplicationsIn state.now.dossier group wishes.now }
    requires rows { length called.old.items ≡ length state.now.dossier.programmes }
    requires counts { length counts.now ≡ length state.now.dossier.programmes }
    ensures { OnOk result (ArePutIn (called_wish_at state.now.dossier orders.now.orders)
        (applies_at state.now.dossier) (called_by state.now.dossier orders.now.orders group)
        called.old.items called.new.items) }
{
    let order = orders.orders.as_slice()[group as usize].list.as_slice();
    guesses.renew(wishes);
    for (before, candidate) in order.iter().enumerate() {
        let span = span_of(wishes, *candidate, guesses.of(*candidate));
        let claim = claim_of(wishes, span);
        deal(called, counts, state, orders, claim, before as u32)?;
    }
    Ok(())
}

/// For each programme the wishes for it in call order, each with how many the order has before its
/// candidate. A row takes room when its first wish comes: the lists of earlier groups have given
/// theirs back by then.
pub fn called_by_programme(
    alloc: Global,
    state: &DayState<'_>,
    orders: &CallOrders,
) -> Result<Vec<Vec<CalledWish>>, OutOfMemory>
    requires { AreCallOrders state.now.dossier.groups orders.now.orders }
    ensures { IfOk result (λ c. AreRowsFrom 0 (length state.now.dossier.programmes)
        (called_wishes_for state.now.dossier orders.now.orders) c.items) }
{
    let dossier = state.dossier();
    let _ = &dossier.wishes; // learns the invariant
    call_everyone(state, orders);
    call_once(state, orders);
    let counts = counts_by_programme(alloc, state)?;
    let mut called = empty_rows(alloc, counts.len())?;
    let mut guesses = Guesses::of_wishes(alloc, state)?;
    let mut rows = wishes_by_group(alloc, state, &counts)?;
    for group in 0..group_count(state) {
        let wishes = mem::replace(&mut rows[group as usize], Vec::new(alloc));
        call_group(
            &mut called,
            &counts,
            state,
            orders,
            group,
            &wishes,
            &mut guesses,
        )?;
    }
    Ok(called)
}
