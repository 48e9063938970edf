//! Whether a matching is stable, and who blocks it.
ghost use Rattle.std.specs.Prelude.{ℕ, ◌≡◌, ◌<◌, ◌≤◌, Some, length, IfOk, IsTrue};
ghost use Rattle.markets.specs.Matchings.{IsMatching, place_of, would_take, block_of};
ghost use Rattle.stable_market.specs.Blocks.{AreLasts, IsFirstBlock, noted};
ghost use Rattle.markets.specs.Rounds.{AreCounts};

use admit_core::OutOfMemory;
use markets::{Market, Ranked, counts_of, is_at};
use std::alloc::Global;

/// A candidate who prefers a programme to their place, and whom it would take. Both are counted
/// from 0.
#[derive(Clone, Copy)]
pub struct MarketBlock {
    pub candidate: u32,
    pub programme: u32,
}

/// The least candidate who blocks a matching, with the best programme that would take them; none
/// where it is stable.
///
/// It costs the length of the market's lists and orders, and notes once how many each programme has
/// and the last of them in its order.
pub fn first_block(
    alloc: Global,
    market: &Market,
    places: &[Option<u32>],
) -> Result<Option<MarketBlock>, OutOfMemory>
    requires { IsMatching market.now places.now }
    ensures { IfOk result (IsFirstBlock market.now places.now) }
{
    market.stands();
    let ranked = Ranked::build(alloc, market)?;
    let counts = counts_of(alloc, market, places)?;
    let lasts = lasts_of(alloc, &ranked, places)?;
    for candidate in 0..market.candidates() {
        if let Some(programme) = block_of(&ranked, &counts, &lasts, places, candidate) {
            return Ok(Some(MarketBlock {
                candidate,
                programme,
            }));
        }
    }
    Ok(None)
}

/// The last position in each programme's order at which somebody has a place there; 0 where nobody
/// has.
fn lasts_of(
    alloc: Global,
    market: &Ranked<'_>,
    places: &[Option<u32>],
) -> Result<Vec<u32>, OutOfMemory>
    requires places { length places.now ≡ length market.now.lists }
    requires within { (x p : ℕ) → place_of places.now x ≡ Some p → p < length market.now.orders }
    ensures { IfOk result (λ lasts. AreLasts market.now places.now lasts.items) }
{
    market.market().stands();
    let mut lasts = vec![in alloc; 0; market.market().programmes() as usize]?;
    for (candidate, place) in places.iter().enumerate() {
        note_last(market, &mut lasts, candidate as u32, *place);
    }
    Ok(lasts)
}

/// Notes the position of a candidate where they have a place, if it is past those that are noted.
fn note_last(market: &Ranked<'_>, lasts: &mut Vec<u32>, candidate: u32, place: Option<u32>)
    requires candidate { candidate < length market.now.lists }
    requires within { (p : ℕ) → place ≡ Some p → p < length market.now.orders }
    requires lasts { length lasts.old.items ≡ length market.now.orders }
    ensures { lasts.new.items ≡ noted market.now candidate lasts.old.items place }
{
    if let Some(programme) = place {
        let position = market.position_of(programme, candidate);
        lasts[programme as usize] = lasts[programme as usize].max(position);
    }
}

/// The best programme that a candidate prefers to their place and that would take them.
fn block_of(
    market: &Ranked<'_>,
    counts: &[u32],
    lasts: &[u32],
    places: &[Option<u32>],
    candidate: u32,
) -> Option<u32>
    requires candidate { candidate < length market.now.lists }
    requires places { length places.now ≡ length market.now.lists }
    requires counts { AreCounts (length market.now.orders) places.now counts.now }
    requires lasts { AreLasts market.now places.now lasts.now }
    ensures { result ≡ block_of market.now places.now candidate }
{
    let place = places[candidate as usize];
    for programme in market.market().list(candidate) {
        if is_at(*programme, place) {
            return None;
        }
        if would_take(market, counts, lasts, places, *programme, candidate) {
            return Some(*programme);
        }
    }
    None
}

/// Whether a programme has a free seat, or somebody who stands later in its order than a candidate.
fn would_take(
    market: &Ranked<'_>,
    counts: &[u32],
    lasts: &[u32],
    places: &[Option<u32>],
    programme: u32,
    candidate: u32,
) -> bool
    requires programme { programme < length market.now.orders }
    requires candidate { candidate < length market.now.lists }
    requires counts { AreCounts (length market.now.orders) places.now counts.now }
    requires lasts { AreLasts market.now places.now lasts.now }
    ensures { result ≡ would_take market.now places.now programme candidate }
{
    let has_seat = counts[programme as usize] < market.market().seats(programme);
    let position = market.position_of(programme, candidate);
    has_seat || position < lasts[programme as usize]
}
