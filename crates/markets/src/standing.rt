//! Where candidates stand in their lists, and the places that they have so.
ghost use Rattle.std.specs.Prelude.{◌≡◌, ◌<◌, ◌≤◌, length, IfOk, slice_get};
ghost use Rattle.markets.specs.Markets.{list_of};
ghost use Rattle.markets.specs.Bars.{matched_under};
ghost use Rattle.markets.specs.Standing.{AreBeyond, AreStands, IsStand};

use crate::market::Market;
use crate::ranked::Ranked;
use admit_core::OutOfMemory;
use std::alloc::Global;

/// The first entry of a candidate's list within reach of the bars, of those from one on; the end of
/// the list where none is.
pub fn first_within(market: &Ranked<'_>, bars: &[u32], candidate: u32, from: u32) -> u32
    requires candidate { candidate < length market.now.lists }
    requires bars { length bars.now ≡ length market.now.orders }
    requires from { from ≤ length (list_of market.now candidate) }
    requires beyond { AreBeyond market.now bars.now candidate from }
    ensures { IsStand market.now bars.now candidate result }
{
    let list = market.market().list(candidate);
    let end = list.len() as u32;
    for stand in from..end {
        let programme = list[stand as usize];
        if market.position_of(programme, candidate) <= bars[programme as usize] {
            return stand;
        }
    }
    end
}

/// The stand of each candidate.
pub fn stands_under(
    alloc: Global,
    market: &Ranked<'_>,
    bars: &[u32],
) -> Result<Vec<u32>, OutOfMemory>
    requires { length bars.now ≡ length market.now.orders }
    ensures { IfOk result (λ stands. AreStands market.now bars.now stands.items) }
{
    let mut stands = Vec::new(alloc);
    for candidate in 0..market.market().candidates() {
        stands.push(first_within(market, bars, candidate, 0))?;
    }
    Ok(stands)
}

/// The programme at an entry of a candidate's list; none at its end.
pub fn place_at(market: &Market, candidate: u32, stand: u32) -> Option<u32>
    requires { candidate < length market.now.lists }
    ensures { result ≡ slice_get (list_of market.now candidate) stand }
{
    market.list(candidate).get(stand as usize).copied()
}

/// The place of each candidate: the programme at their stand.
pub fn places_at(
    alloc: Global,
    market: &Market,
    bars: &[u32],
    stands: &[u32],
) -> Result<Vec<Option<u32>>, OutOfMemory>
    requires { AreStands market.now bars.now stands.now }
    ensures { IfOk result (λ places. places.items ≡ matched_under market.now bars.now) }
{
    let mut places = Vec::new(alloc);
    for candidate in 0..market.candidates() {
        places.push(place_at(market, candidate, stands[candidate as usize]))?;
    }
    Ok(places)
}
