//! Small markets, each against all its matchings: what `solve` answers is stable, and for each
//! candidate the best of all that are; these place the same candidates, and nobody gets a programme
//! that they prefer by handing in another list. The first blocks that are told are those of a plain
//! search.

ghost use Rattle.std.specs.Prelude.{◌≡◌, IfOk};
ghost use Rattle.markets.specs.Matchings.{IsMatching, IsStable};

use crate::market_rows::{LISTS, Rows, rows_of};
use crate::market_words::solved;
use crate::plain::{is_as_good, is_stable, liking, place_of, places_of, plain_block};
use admit_core::OutOfMemory;
use bar_fixpoint::FirstPicker;
use stable_market::{Market, MarketBlock, first_block};
use std::alloc::Global;

/// How many choices of an entry of the list or none four candidates have.
const CHOICES: usize = 256;

/// Whether a stable matching of a market gives a candidate a place that is liked better than so, by
/// this list.
fn finds_better(
    alloc: Global,
    rows: &Rows,
    candidate: usize,
    list: &[u32],
    liked: usize,
) -> Result<bool, OutOfMemory> {
    for number in 0..CHOICES {
        let places = places_of(alloc, rows, number)?;
        if liking(list, place_of(&places, candidate)) < liked && is_stable(rows, &places) {
            return Ok(true);
        }
    }
    Ok(false)
}

/// Whether a candidate gets a better place in some stable matching by another list.
fn gains(
    alloc: Global,
    rows: &Rows,
    best: &[Option<u32>],
    candidate: usize,
) -> Result<bool, OutOfMemory> {
    let list = rows.list(candidate);
    let liked = liking(list, place_of(best, candidate));
    for other in LISTS {
        let changed = rows.with_list(alloc, candidate, other)?;
        if finds_better(alloc, &changed, candidate, list, liked)? {
            return Ok(true);
        }
    }
    Ok(false)
}

/// Whether any candidate does.
fn somebody_gains(alloc: Global, rows: &Rows, best: &[Option<u32>]) -> Result<bool, OutOfMemory> {
    for candidate in 0..4 {
        if gains(alloc, rows, best, candidate)? {
            return Ok(true);
        }
    }
    Ok(false)
}

/// Whether a market has another stable matching, where this one is as good as each.
fn has_others(
    alloc: Global,
    rows: &Rows,
    best: &[Option<u32>],
) -> Result<Option<bool>, OutOfMemory> {
    let mut has_others = false;
    for number in 0..CHOICES {
        let places = places_of(alloc, rows, number)?;
        if is_stable(rows, &places) {
            if !is_as_good(rows, best, &places) {
                return Ok(None);
            }
            if places.as_slice() != best {
                has_others = true;
            }
        }
    }
    Ok(Some(has_others))
}

/// What is found of a market.
enum Found {
    /// It has one stable matching, or several.
    Stable(bool),
    Fails(&'static str),
}

fn found_of(alloc: Global, rows: &Rows, best: &[Option<u32>]) -> Result<Found, OutOfMemory> {
    if !is_stable(rows, best) {
        return Ok(Found::Fails("is not stable"));
    }
    let Some(has_others) = has_others(alloc, rows, best)? else {
        return Ok(Found::Fails("is not the best"));
    };
    if somebody_gains(alloc, rows, best)? {
        return Ok(Found::Fails("is beaten by another list"));
    }
    Ok(Found::Stable(has_others))
}

/// The places that `solve` answers.
fn best_of(alloc: Global, market: &Market) -> Result<Vec<Option<u32>>, OutOfMemory>
    ensures { IfOk result (λ places. IsStable market.now places.items) }
{
    let mut picker = FirstPicker::new(alloc);
    let solved = solved(alloc, market, &mut picker)?;
    Ok(solved.places)
}

/// The matching in which nobody has a place.
fn nobody_placed(alloc: Global, market: &Market) -> Result<Vec<Option<u32>>, OutOfMemory>
    ensures { IfOk result (λ places. IsMatching market.now places.items) }
{
    let places = vec![in alloc; None; market.candidates() as usize]?;
    Ok(places)
}

/// What `first_block` answers where nobody has a place.
fn block_of_nobody(alloc: Global, market: &Market) -> Result<Option<MarketBlock>, OutOfMemory> {
    let places = nobody_placed(alloc, market)?;
    first_block(alloc, market, places.as_slice())
}

/// Whether two blocks are the same.
fn is_same(one: Option<MarketBlock>, other: Option<MarketBlock>) -> bool {
    match (one, other) {
        (None, None) => true,
        (Some(one), Some(other)) => {
            one.candidate == other.candidate && one.programme == other.programme
        }
        _ => false,
    }
}

/// What is wrong with the first blocks that are told of a market: of the best matching there is
/// none, and where nobody has a place it is that of a plain search.
fn wrong_block(
    alloc: Global,
    rows: &Rows,
    market: &Market,
    best: &[Option<u32>],
) -> Result<Option<&'static str>, OutOfMemory>
    requires { IsStable market.now best.now }
{
    if first_block(alloc, market, best)?.is_some() {
        return Ok(Some("is told to be blocked"));
    }
    let nobody: [Option<u32>; 4] = [None, None, None, None];
    if !is_same(block_of_nobody(alloc, market)?, plain_block(rows, &nobody)) {
        return Ok(Some("has another first block"));
    }
    Ok(None)
}

/// What is found of the market of a number.
fn tried(alloc: Global, number: u64) -> Result<Found, OutOfMemory> {
    let rows = rows_of(alloc, number)?;
    let Ok(market) = rows.market(alloc) else {
        return Ok(Found::Fails("is no market"));
    };
    let best = best_of(alloc, &market)?;
    if let Some(what) = wrong_block(alloc, &rows, &market, &best)? {
        return Ok(Found::Fails(what));
    }
    found_of(alloc, &rows, &best)
}

/// The first so many markets: how many have several stable matchings, where nothing fails.
pub(crate) fn matchings_in(alloc: Global, input: &str) -> Result<String, OutOfMemory> {
    let mut several: u64 = 0;
    for number in 0..input.parse::<u64>().unwrap_or(0) {
        match tried(alloc, number)? {
            Found::Fails(what) => return Ok(format!(in alloc; "market {number} {what}")?),
            Found::Stable(true) => several = several.saturating_add(1),
            Found::Stable(false) => {}
        }
    }
    Ok(format!(in alloc; "{several} with several")?)
}
