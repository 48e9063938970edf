//! Whether orders have the candidates whose lists name their programmes.
ghost use Rattle.std.specs.Prelude.{◌≡◌, ◌≤◌, ◌<◌, [], length, replicate, All, IfOk, IsOk};
ghost use Rattle.markets.specs.Markets.{first_bad_order};
ghost use Rattle.markets.specs.Listers.{AreListers, AreLists};
ghost use Rattle.markets.specs.Rows.{has_all_of};
ghost use Rattle.markets.specs.Stamps.{AreOlder, AreUpTo};

use crate::listers::listers_of;
use crate::stamps::{all_bear, stamp_list};
use admit_core::{OutOfMemory, Sequence};
use std::alloc::Global;

/// The first programme whose order misses a candidate whose list names it, or has another, or one
/// twice. It costs the length of the lists and the orders.
pub fn first_bad_order(
    alloc: Global,
    lists: &[Sequence<u32>],
    orders: &[Sequence<u32>],
) -> Result<Option<u32>, OutOfMemory>
    requires candidates { length lists.now ≤ 16000000 }
    requires programmes { length orders.now ≤ 16000000 }
    requires lists { AreLists (length orders.now) lists.now }
    ensures bad { IfOk result (λ bad. bad ≡ first_bad_order
        (record { lists = lists.now; orders = orders.now; seats = [] })) }
    ensures always { orders.now ≡ [] → IsOk result }
{
    if orders.is_empty() {
        return Ok(None);
    }
    let rows = listers_of(alloc, lists, orders.len() as u32)?;
    let mut room = vec![in alloc; 0; lists.len()]?;
    Ok(bad_among(lists, orders, rows.as_slice(), room.as_mut_slice()))
}

/// The first programme with a bad order, by the candidates who list each programme and a stamp on
/// each candidate. It takes no memory.
fn bad_among(
    lists: &[Sequence<u32>],
    orders: &[Sequence<u32>],
    rows: &[Vec<u32>],
    stamps: &mut [u32],
) -> Option<u32>
    requires programmes { length orders.now ≤ 16000000 }
    requires listers { AreListers lists.now (length orders.now) (length lists.now) rows.now }
    requires fresh { stamps.old ≡ replicate (length lists.now) 0 }
    ensures { result ≡ first_bad_order
        (record { lists = lists.now; orders = orders.now; seats = [] }) }
{
    let _ = lists.len(); // whose candidates the rows have
    let mut stamp = 0;
    for order in orders {
        let listers = rows[stamp as usize].as_slice();
        stamp += 1;
        if !has_all_of(order.as_slice(), listers, stamp, stamps) {
            return Some(stamp - 1);
        }
    }
    None
}

/// Whether an order has each of these candidates once, and nobody else.
fn has_all_of(order: &[u32], listers: &[u32], stamp: u32, stamps: &mut [u32]) -> bool
    requires older { AreOlder stamp stamps.old }
    requires within { All (λ x. x < length stamps.old) listers.now }
    ensures all { result ≡ has_all_of (length stamps.old) listers.now order.now }
    ensures as_many { length stamps.new ≡ length stamps.old }
    ensures up_to { AreUpTo stamp stamps.new }
{
    if !stamp_list(order, stamp, stamps) {
        return false;
    }
    if order.len() != listers.len() {
        return false;
    }
    all_bear(listers, stamp, stamps)
}
