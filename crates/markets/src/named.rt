//! The market of a dossier.
ghost use Rattle.std.specs.Prelude.{◌≡◌, length, map, IfOk};
ghost use Rattle.std.specs.List.{range_with_len};
ghost use Rattle.std.specs.List.Sorted.{IsPermutation};
ghost use Rattle.admit_core.specs.CallOrder.{AreCallOrders};
ghost use Rattle.markets.specs.Dossiers.{market_candidates, counted, lists_in, market_of, named};
ghost use Rattle.markets.specs.Listers.{AreListers};

use crate::calling::{Walk, by_group, group_at};
use crate::listers::listers_of;
use crate::market::Market;
use crate::owned::{counted, lists_of, named};
use admit_core::{CallOrders, Dossier, OutOfMemory, Sequence, Wish};
use indexmap::IndexSet;
use keyed_hash::Keyed;
use std::alloc::Global;

/// The market of a dossier, with the ids of its candidates by their numbers in it. Its programmes
/// are those of the dossier, by place.
#[derive(Drop)]
pub struct Named {
    pub market: Market,
    pub candidates: Vec<u32>,
}

/// So many empty orders.
fn empty_orders(alloc: Global, count: u32) -> Result<Vec<Sequence<u32>>, OutOfMemory>
    ensures { IfOk result (λ v. length v.items ≡ count) }
{
    let mut orders = Vec::with_capacity(alloc, count as usize)?;
    for _order in 0..count {
        orders.push(Sequence::new(alloc))?;
    }
    Ok(orders)
}

/// The orders of programmes, in one walk along the call order of each group whose programmes stand
/// together.
fn orders_along(
    alloc: Global,
    dossier: &Dossier,
    orders: &CallOrders,
    names: &IndexSet<u32, Keyed>,
    rows: &[Vec<u32>],
    programmes: &[u32],
) -> Result<Vec<Sequence<u32>>, OutOfMemory>
    requires orders { AreCallOrders dossier.now.groups orders.now.orders }
    requires names { names.now.keys ≡ named (counted dossier.now) }
    requires rows { AreListers (lists_in (counted dossier.now)) (length dossier.now.programmes)
        (length (lists_in (counted dossier.now))) rows.now }
    requires programmes { IsPermutation (range_with_len 0 (length dossier.now.programmes))
        programmes.now }
    ensures { IfOk result (λ v. v.items ≡ (market_of dossier.now orders.now.orders).orders) }
{
    let count = dossier.programmes.len() as u32;
    let mut walk = Walk::new(alloc, names)?;
    let mut done = empty_orders(alloc, count)?;
    for programme in programmes {
        let place = *programme as usize;
        let group = group_at(dossier, orders, *programme);
        walk.enter(alloc, names, orders, group)?;
        done[place] = walk.called(alloc, rows[place].as_slice())?;
    }
    Ok(done)
}

/// The order of each programme.
fn orders_in(
    alloc: Global,
    dossier: &Dossier,
    orders: &CallOrders,
    names: &IndexSet<u32, Keyed>,
    lists: &[Sequence<u32>],
) -> Result<Vec<Sequence<u32>>, OutOfMemory>
    requires orders { AreCallOrders dossier.now.groups orders.now.orders }
    requires names { names.now.keys ≡ named (counted dossier.now) }
    requires lists { lists.now ≡ lists_in (counted dossier.now) }
    ensures { IfOk result (λ v. v.items ≡ (market_of dossier.now orders.now.orders).orders) }
{
    let count = dossier.programmes.len() as u32;
    let rows = listers_of(alloc, lists, count)?;
    let programmes = by_group(alloc, dossier, count)?;
    orders_along(alloc, dossier, orders, names, &rows, &programmes)
}

/// The seats of each programme.
fn seats_of(alloc: Global, dossier: &Dossier) -> Result<Vec<u32>, OutOfMemory>
    ensures { IfOk result (λ v. v.items ≡ map (λ q. q.seats) dossier.now.programmes) }
{
    let programmes = dossier.programmes.as_slice();
    let seats = programmes
        .iter()
        .map(|programme| programme.seats)
        .collect(alloc)?;
    Ok(seats)
}

/// Who is in the market of a dossier, and what they list.
struct Listing {
    names: IndexSet<u32, Keyed>,
    lists: Vec<Sequence<u32>>,
}

// Not derived: so it is dropped in one step where it is held, and not by each list of the set.
impl Drop for Listing {
    fn drop(self) {
        let Listing { names: _, lists: _ } = self;
    }
}

impl Listing {
    /// The lists alone.
    fn into_lists(self) -> Vec<Sequence<u32>>
        ensures { result.items ≡ self.lists.items }
    {
        let Listing { names: _, lists } = self;
        lists
    }
}

/// Who is in the market of a dossier, and what they list.
fn listed(alloc: Global, dossier: &Dossier) -> Result<Listing, OutOfMemory>
    ensures names { IfOk result (λ l. l.names.keys ≡ named (counted dossier.now)) }
    ensures lists { IfOk result (λ l. l.lists.items ≡ lists_in (counted dossier.now)) }
{
    let wishes = counted(alloc, dossier.wishes.as_slice())?;
    let names = named(alloc, wishes.as_slice())?;
    let lists = lists_of(alloc, wishes.as_slice(), &names)?;
    Ok(Listing { names, lists })
}

/// The market of a dossier with these call orders: its candidates are those who rank their wishes
/// and have one without boarding. Statuses and call limits are not used.
pub fn from_dossier(
    alloc: Global,
    dossier: &Dossier,
    orders: &CallOrders,
) -> Result<Named, OutOfMemory>
    requires { AreCallOrders dossier.now.groups orders.now.orders }
    ensures market { IfOk result (λ named. named.market ≡ market_of dossier.now orders.now.orders) }
    ensures candidates { IfOk result (λ named.
        named.candidates.items ≡ market_candidates dossier.now) }
{
    let _ = &dossier.wishes;
    let seats = seats_of(alloc, dossier)?;
    let listed = listed(alloc, dossier)?;
    let orders = orders_in(
        alloc,
        dossier,
        orders,
        &listed.names,
        listed.lists.as_slice(),
    )?;
    let candidates = listed.names.as_slice().to_vec(alloc)?;
    let market = Market {
        lists: listed.into_lists(),
        orders,
        seats,
    };
    Ok(Named { market, candidates })
}
