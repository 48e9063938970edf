//! A market, and why rows are none.
ghost use Rattle.std.specs.Prelude.{◌≡◌, ◌≤◌, ◌<◌, [], length, slice_index, All, IfOk, IfErr, OnErr};
ghost use Rattle.markets.specs.Markets.{IsMarket, IsSmall, list_of, market_order};
ghost use Rattle.markets.specs.Faults.{IsFaultOf, IsFaultOrNone};

use crate::fault::MarketFault;
use crate::in_place::fault_in_place;
use crate::lists::first_bad_list;
use crate::orders::first_bad_order;
use admit_core::{OutOfMemory, Sequence};
use std::alloc::Global;
use std::marker::Model;

/// Candidates who list programmes, and programmes with seats that order their candidates, each best
/// first. Both are counted from 0.
#[derive(Drop)]
pub struct Market {
    pub(crate) lists: Vec<Sequence<u32>>,
    pub(crate) orders: Vec<Sequence<u32>>,
    pub(crate) seats: Vec<u32>,
}

impl Model for Market {
    ghost use Rattle.markets.specs.Markets.{MarketRows, IsSmallMarket};

    ghost Value = { MarketRows };

    ghost view = { λ m. record {
      lists = m.lists.items;
      orders = m.orders.items;
      seats = m.seats.items;
    } };

    ghost invariant = { λ m. IsSmallMarket
        (record { lists = m.lists.items; orders = m.orders.items; seats = m.seats.items }) };
}

impl Market {
    /// A market of the candidates' lists and the programmes' orders and seats. On a refusal they
    /// are dropped. It costs their length. The tests take memory for notes of each number and each
    /// candidate; where there is none, each order is put in order and tested without.
    pub fn new(
        alloc: Global,
        lists: Vec<Sequence<u32>>,
        orders: Vec<Sequence<u32>>,
        seats: Vec<u32>,
    ) -> Result<Market, MarketFault>
        requires candidates { length lists.items ≤ 16000000 }
        requires programmes { length orders.items ≤ 16000000 }
        ensures rows { IfOk result (λ market. market ≡
            record { lists = lists.items; orders = orders.items; seats = seats.items }) }
        ensures stands { IfOk result (λ market. IsMarket market) }
        ensures fault { IfErr result (IsFaultOf
            (record { lists = lists.items; orders = orders.items; seats = seats.items })) }
    {
        match first_fault(alloc, lists.as_slice(), orders.as_slice(), seats.as_slice()) {
            Ok(None) => Ok(Market {
                lists,
                orders,
                seats,
            }),
            Ok(Some(fault)) => Err(fault),
            Err(_) => Err(fault_in_place(alloc, lists.as_slice(), orders, seats)),
        }
    }

    /// The number of candidates.
    pub fn candidates(&self) -> u32
        ensures { result ≡ length self.now.lists }
    {
        self.lists.len() as u32
    }

    /// The number of programmes.
    pub fn programmes(&self) -> u32
        ensures { result ≡ length self.now.orders }
    {
        self.orders.len() as u32
    }

    /// What holds of every market that was made. The call does nothing.
    pub fn stands(&self)
        ensures market { IsMarket self.now }
        ensures small { IsSmall self.now }
    {
        let _ = &self.seats;
    }

    /// The list of a candidate.
    pub fn list(&self, candidate: u32) -> &[u32]
        requires { candidate < length self.now.lists }
        ensures list { result.now ≡ list_of self.now candidate }
        ensures within { All (λ p. p < length self.now.orders) result.now }
        ensures short_list { length result.now ≤ 16000000 }
    {
        self.lists[candidate as usize].as_slice()
    }

    /// The order of a programme.
    pub fn order(&self, programme: u32) -> &[u32]
        requires { programme < length self.now.orders }
        ensures order { result.now ≡ market_order self.now programme }
        ensures within { All (λ x. x < length self.now.lists) result.now }
        ensures short { length result.now ≤ 16000000 }
    {
        self.orders[programme as usize].as_slice()
    }

    /// The seats of all programmes.
    pub fn all_seats(&self) -> &[u32]
        ensures { result.now ≡ self.now.seats }
    {
        self.seats.as_slice()
    }

    /// The seats of a programme.
    pub fn seats(&self, programme: u32) -> u32
        requires { programme < length self.now.orders }
        ensures { result ≡ slice_index self.now.seats programme }
    {
        self.seats[programme as usize]
    }
}

/// The first fault of rows, or none where they are a market. Memory is taken for notes.
fn first_fault(
    alloc: Global,
    lists: &[Sequence<u32>],
    orders: &[Sequence<u32>],
    seats: &[u32],
) -> Result<Option<MarketFault>, OutOfMemory>
    requires candidates { length lists.now ≤ 16000000 }
    requires programmes { length orders.now ≤ 16000000 }
    ensures fault { IfOk result (IsFaultOrNone
        (record { lists = lists.now; orders = orders.now; seats = seats.now })) }
    ensures counts { OnErr result (length seats.now ≡ length orders.now) }
    ensures rows { OnErr result (lists.now ≡ [] → orders.now ≡ [] → ⊥) }
{
    if orders.len() != seats.len() {
        return Ok(Some(MarketFault::BadCount));
    }
    if let Some(candidate) = first_bad_list(alloc, lists, orders.len() as u32)? {
        return Ok(Some(MarketFault::BadList { candidate }));
    }
    if let Some(programme) = first_bad_order(alloc, lists, orders)? {
        return Ok(Some(MarketFault::BadOrder { programme }));
    }
    Ok(None)
}
