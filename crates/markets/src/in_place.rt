//! The first bad row where there is no memory for notes. Each order is put in order where it
//! stands, and the seats are the room for what is noted of each programme.
ghost use Rattle.std.specs.Prelude.{ℕ, ◌≡◌, ◌≤◌, [], not, length, find, slice_index, slice_index_or, IsTrue};
ghost use Rattle.std.specs.List.{range_with_len};
ghost use Rattle.std.specs.List.Sorted.{IsNonDecreasing, IsPermutation};
ghost use Rattle.markets.specs.Faults.{IsFaultOf};
ghost use Rattle.markets.specs.Listers.{AreLists};
ghost use Rattle.markets.specs.Markets.{is_list_below};
ghost use Rattle.markets.specs.Meeting.{AreInOrder, AreMet, Meets, is_met, met_more};

use crate::fault::MarketFault;
use crate::lists::bad_among;
use crate::seating::is_at;
use admit_core::Sequence;
use std::alloc::Global;
use std::mem;

/// The fault of rows of which no seats are missing: the first bad list or order, and that there is
/// no memory where none is bad.
pub fn fault_in_place(
    alloc: Global,
    lists: &[Sequence<u32>],
    orders: Vec<Sequence<u32>>,
    mut seats: Vec<u32>,
) -> MarketFault
    requires candidates { length lists.now ≤ 16000000 }
    requires programmes { length orders.items ≤ 16000000 }
    requires seats { length seats.items ≡ length orders.items }
    requires rows { lists.now ≡ [] → orders.items ≡ [] → ⊥ }
    ensures { IsFaultOf
        (record { lists = lists.now; orders = orders.items; seats = seats.items }) result }
{
    let notes = seats.as_mut_slice();
    notes.fill(0);
    if let Some(candidate) = bad_among(lists, notes) {
        return MarketFault::BadList { candidate };
    }
    let orders = in_order(alloc, orders);
    notes.fill(1);
    meet_all(lists, orders.as_slice(), notes);
    match first_unmet(orders.as_slice(), notes) {
        Some(programme) => MarketFault::BadOrder { programme },
        None => MarketFault::OutOfMemory,
    }
}

/// The numbers of a row, ascending.
fn row_in_order(row: Sequence<u32>) -> Sequence<u32>
    ensures same { IsPermutation row result }
    ensures rises { IsNonDecreasing result }
{
    let mut numbers = row.into_vec();
    numbers.sort_unstable();
    Sequence::from_vec(numbers)
}

/// The numbers of each row, ascending.
fn in_order(alloc: Global, mut rows: Vec<Sequence<u32>>) -> Vec<Sequence<u32>>
    ensures { AreInOrder (length rows.items) rows.items result.items }
{
    for place in 0..rows.len() {
        let row = mem::replace(&mut rows[place], Sequence::new(alloc));
        rows[place] = row_in_order(row);
    }
    rows
}

/// What is noted of an order once it has met one more candidate: how many it has met, and one more.
/// It is 0 from the first candidate on who was not the next one in it.
fn met_more(order: &[u32], noted: u32, candidate: u32) -> u32
    requires { noted ≤ 16000000 }
    ensures { result ≡ met_more order.now noted candidate }
{
    if noted > 0 && is_at(candidate, order.get(noted as usize - 1).copied()) {
        noted + 1
    } else {
        0
    }
}

/// Whether the candidates who were met are the whole order.
fn is_met(order: &[u32], noted: u32) -> bool
    ensures { result ≡ is_met order.now noted }
{
    noted > 0 && noted as usize - 1 == order.len()
}

/// A candidate is met by the orders of the programmes that they list.
fn meet(orders: &[Sequence<u32>], candidate: u32, list: &[u32], notes: &mut [u32])
    requires as_many { length notes.old ≡ length orders.now }
    requires list { IsTrue (is_list_below (length notes.old) list.now) }
    requires few { (p : ℕ) → slice_index notes.old p ≤ 16000000 }
    ensures { Meets orders.now candidate list.now notes.old notes.new }
{
    for number in list {
        let place = *number as usize;
        notes[place] = met_more(orders[place].as_slice(), notes[place], candidate);
    }
}

/// All candidates are met, one after another.
fn meet_all(lists: &[Sequence<u32>], orders: &[Sequence<u32>], notes: &mut [u32])
    requires candidates { length lists.now ≤ 16000000 }
    requires lists { AreLists (length orders.now) lists.now }
    requires none { AreMet lists.now orders.now 0 notes.old }
    ensures { AreMet lists.now orders.now (length lists.now) notes.new }
{
    for (place, list) in lists.iter().enumerate() {
        meet(orders, place as u32, list.as_slice(), notes);
    }
}

/// The first order that is not whole by what is noted of it.
fn first_unmet(orders: &[Sequence<u32>], notes: &[u32]) -> Option<u32>
    requires programmes { length orders.now ≤ 16000000 }
    requires as_many { length notes.now ≡ length orders.now }
    ensures { result ≡ find
        (λ p. not (is_met (slice_index_or orders.now p []) (slice_index notes.now p)))
        (range_with_len 0 (length orders.now)) }
{
    for (place, order) in orders.iter().enumerate() {
        if !is_met(order.as_slice(), notes[place]) {
            return Some(place as u32);
        }
    }
    None
}
