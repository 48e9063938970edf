//! Small markets by their numbers.

use crate::market_words::made;
use admit_core::{OutOfMemory, Sequence};
use stable_market::{Market, MarketFault};
use std::alloc::Global;

/// The lists of three programmes.
pub(crate) const LISTS: &[&[u32]] = &[
    &[0, 1, 2],
    &[0, 2, 1],
    &[1, 0, 2],
    &[1, 2, 0],
    &[2, 0, 1],
    &[2, 1, 0],
    &[0, 1],
    &[0, 2],
    &[1, 0],
    &[1, 2],
    &[2, 0],
    &[2, 1],
    &[0],
    &[1],
    &[2],
    &[],
];

/// Some orders of four candidates.
const ORDERS: &[&[u32]] = &[
    &[0, 1, 2, 3],
    &[3, 2, 1, 0],
    &[1, 3, 0, 2],
    &[2, 0, 3, 1],
    &[1, 0, 3, 2],
    &[2, 3, 0, 1],
    &[0, 2, 1, 3],
    &[3, 1, 2, 0],
];

/// Numbers of seats.
const SEATS: &[u32] = &[0, 1, 1, 1, 1, 2];

/// A market as it is written down. An order has all candidates, also those who don't list its
/// programme.
#[derive(Drop)]
pub(crate) struct Rows {
    pub(crate) lists: Vec<&'static [u32]>,
    orders: Vec<&'static [u32]>,
    seats: Vec<u32>,
}

/// A place among so many, by the number of a market and what it is drawn for.
fn drawn(number: u64, what: u64, many: u64) -> usize {
    let mixed = (number.wrapping_mul(16).wrapping_add(what)).wrapping_mul(0x9e37_79b9_7f4a_7c15);
    ((mixed >> 33) % many.max(1)) as usize
}

/// The row at a place; an empty one past the end.
fn row(rows: &'static [&'static [u32]], place: usize) -> &'static [u32] {
    rows.get(place).copied().unwrap_or(&[])
}

/// Some number of seats.
fn drawn_seats(number: u64, programme: u64) -> u32 {
    let place = drawn(number, 7 + programme % 3, 6);
    SEATS.get(place).copied().unwrap_or(1)
}

/// The lists of a market's candidates.
fn drawn_lists(alloc: Global, number: u64) -> Result<Vec<&'static [u32]>, OutOfMemory> {
    let mut lists = Vec::new(alloc);
    for candidate in 0..4 {
        lists.push(row(LISTS, drawn(number, candidate, 6 + candidate)))?;
    }
    Ok(lists)
}

/// The market of a number: four candidates, and three programmes of up to two seats.
pub(crate) fn rows_of(alloc: Global, number: u64) -> Result<Rows, OutOfMemory> {
    let lists = drawn_lists(alloc, number)?;
    let mut orders = Vec::new(alloc);
    let mut seats = Vec::new(alloc);
    for programme in 0..3 {
        orders.push(row(ORDERS, drawn(number, 4 + programme, 8)))?;
        seats.push(drawn_seats(number, programme))?;
    }
    Ok(Rows {
        lists,
        orders,
        seats,
    })
}

impl Rows {
    /// The same market with another list of a candidate.
    pub(crate) fn with_list(
        &self,
        alloc: Global,
        candidate: usize,
        list: &'static [u32],
    ) -> Result<Rows, OutOfMemory> {
        let mut lists = self.lists.as_slice().to_vec(alloc)?;
        if let Some(entry) = lists.get_mut(candidate) {
            *entry = list;
        }
        let orders = self.orders.as_slice().to_vec(alloc)?;
        Ok(Rows {
            lists,
            orders,
            seats: self.all_seats(alloc)?,
        })
    }

    /// The list of a candidate; an empty one past the end.
    pub(crate) fn list(&self, candidate: usize) -> &'static [u32] {
        self.lists.get(candidate).copied().unwrap_or(&[])
    }

    /// The order of a programme; an empty one past the end.
    pub(crate) fn order(&self, programme: u32) -> &'static [u32] {
        self.orders.get(programme as usize).copied().unwrap_or(&[])
    }

    /// The seats of a programme; none past the end.
    pub(crate) fn seats(&self, programme: u32) -> u32 {
        self.seats.get(programme as usize).copied().unwrap_or(0)
    }

    /// The order of a programme without those who don't list it.
    fn called(&self, alloc: Global, programme: u32) -> Result<Vec<u32>, OutOfMemory> {
        let mut order = Vec::new(alloc);
        for candidate in self.order(programme) {
            if self.list(*candidate as usize).contains(&programme) {
                order.push(*candidate)?;
            }
        }
        Ok(order)
    }

    /// The orders of all programmes.
    fn all_called(&self, alloc: Global) -> Result<Vec<Sequence<u32>>, OutOfMemory> {
        let mut orders = Vec::new(alloc);
        for programme in 0..3 {
            orders.push(Sequence::from_vec(self.called(alloc, programme)?))?;
        }
        Ok(orders)
    }

    /// The lists of all candidates.
    fn all_lists(&self, alloc: Global) -> Result<Vec<Sequence<u32>>, OutOfMemory> {
        let mut lists = Vec::new(alloc);
        for list in self.lists.iter() {
            lists.push(Sequence::from_vec(list.to_vec(alloc)?))?;
        }
        Ok(lists)
    }

    /// The seats of all programmes.
    fn all_seats(&self, alloc: Global) -> Result<Vec<u32>, OutOfMemory> {
        Ok(self.seats.as_slice().to_vec(alloc)?)
    }

    /// The market that `stable_market` makes of it.
    pub(crate) fn market(&self, alloc: Global) -> Result<Market, MarketFault> {
        let seats = self.all_seats(alloc)?;
        let orders = self.all_called(alloc)?;
        made(alloc, self.all_lists(alloc)?, orders, seats)
    }
}
