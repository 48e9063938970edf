//! A market with the positions of its candidates at hand.
ghost use Rattle.std.specs.Prelude.{◌≡◌, ◌<◌, ◌≤◌, false, length, nat_lt, true, IfOk, OnOk, IsTrue};
ghost use Rattle.std.specs.List.Sorted.{IsNonDecreasingBy, IsPartitionPoint};
ghost use Rattle.admit_core.specs.Lists.{is_among};
ghost use Rattle.markets.specs.Markets.{is_list_below, market_position};
ghost use Rattle.linked_demand.specs.Keyed.{AreEmpty};
ghost use Rattle.markets.specs.Listers.{ArePutIn};
ghost use Rattle.markets.specs.Ranked.{AreRanked, position_in, rank_in};

use crate::market::Market;
use admit_core::OutOfMemory;
use std::alloc::Global;
use std::marker::Model;

/// A programme whose order has a candidate, and their position in it.
#[derive(Clone, Copy)]
pub struct Rank {
    pub programme: u32,
    pub position: u32,
}

/// A market, and for each candidate the programmes whose orders have them, ascending, with their
/// position in each. So a position is found by a search in the candidate's own programmes.
pub struct Ranked<'a> {
    market: &'a Market,
    ranks: Vec<Vec<Rank>>,
}

// Not derived: so it is dropped in one step where it is held, and not by each list.
impl<'a> Drop for Ranked<'a> {
    fn drop(self) {
        let Ranked {
            market: _,
            ranks: _,
        } = self;
    }
}

impl<'a> Model for Ranked<'a> {
    ghost use Rattle.markets.specs.Markets.{MarketRows};
    ghost use Rattle.std.specs.Prelude.{length};
    ghost use Rattle.markets.specs.Ranked.{AreRanked};

    ghost Value = { MarketRows };

    ghost view = { λ r. r.market.now };

    ghost invariant = { λ r. AreRanked r.market.now (length r.market.now.orders) r.ranks.items };
}

impl<'a> Ranked<'a> {
    /// Notes the position of each candidate in each order that has them. It costs the length of the
    /// orders.
    pub fn build(alloc: Global, market: &'a Market) -> Result<Ranked<'a>, OutOfMemory>
        ensures { IfOk result (λ r. r ≡ market.now) }
    {
        let ranks = ranks_in(alloc, market)?;
        Ok(Ranked { market, ranks })
    }

    /// The market.
    pub fn market(&self) -> &'a Market
        ensures { result.now ≡ self.now }
    {
        self.market
    }

    /// The position of a candidate in the order of a programme, from 1; one past the end where they
    /// are not in it.
    pub fn position_of(&self, programme: u32, candidate: u32) -> u32
        requires programme { programme < length self.now.orders }
        requires candidate { candidate < length self.now.lists }
        ensures { result ≡ market_position self.now programme candidate }
    {
        match position_in(&self.ranks[candidate as usize], programme) {
            Some(position) => position,
            None => self.market.order(programme).len() as u32 + 1,
        }
    }
}

/// The first of one's own ranks whose programme is not below this one.
fn first_not_below(own: &[Rank], programme: u32) -> usize
    requires { IsNonDecreasingBy (λ r. r.programme) own.now }
    ensures within { result ≤ length own.now }
    ensures point { IsPartitionPoint (λ r. nat_lt r.programme programme ≡ true)
        (λ r. nat_lt r.programme programme ≡ false) own.now result }
{
    own.partition_point(|rank| rank.programme < programme)
}

/// The position in the order of a programme, of one's own ranks.
fn position_in(own: &[Rank], programme: u32) -> Option<u32>
    requires { IsNonDecreasingBy (λ r. r.programme) own.now }
    ensures { result ≡ position_in own.now programme }
{
    let at = first_not_below(own, programme);
    if at < own.len() && own[at].programme == programme {
        return Some(own[at].position);
    }
    None
}

/// The ranks of each candidate in the orders that have them.
fn ranks_in(alloc: Global, market: &Market) -> Result<Vec<Vec<Rank>>, OutOfMemory>
    ensures { IfOk result (λ rows. AreRanked market.now (length market.now.orders) rows.items) }
{
    market.stands();
    let mut rows = no_ranks(alloc, market.candidates())?;
    for programme in 0..market.programmes() {
        put_ranks(&mut rows, market.order(programme), programme)?;
    }
    Ok(rows)
}

/// No rank yet for each of so many candidates.
fn no_ranks(alloc: Global, count: u32) -> Result<Vec<Vec<Rank>>, OutOfMemory>
    ensures { IfOk result (λ rows. AreEmpty count rows.items) }
{
    let mut rows = Vec::with_capacity(alloc, count as usize)?;
    for _row in 0..count {
        let empty = Vec::new(alloc);
        rows.push(empty)?;
    }
    Ok(rows)
}

/// Puts the rank of each candidate of an order at the end of their row.
fn put_ranks(rows: &mut Vec<Vec<Rank>>, order: &[u32], programme: u32) -> Result<(), OutOfMemory>
    requires order { IsTrue (is_list_below (length rows.old.items) order.now) }
    requires short { length order.now ≤ 16000000 }
    ensures { OnOk result (ArePutIn (λ x. is_among x order.now)
        (λ x. rank_in order.now programme x) rows.old.items rows.new.items) }
{
    for (place, candidate) in order.iter().enumerate() {
        rows[*candidate as usize].push(Rank {
            programme,
            position: place as u32 + 1,
        })?;
    }
    Ok(())
}
