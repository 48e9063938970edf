//! Matchings of small markets, looked at by a plain search.

use crate::market_rows::Rows;
use admit_core::OutOfMemory;
use stable_market::MarketBlock;
use std::alloc::Global;

/// The place of a number in a list; its length where it isn't in it.
fn place_in(list: &[u32], number: u32) -> usize {
    list.iter()
        .position(|other| *other == number)
        .unwrap_or(list.len())
}

/// How well a place is liked, from 0; the length of the list for none.
pub(crate) fn liking(list: &[u32], place: Option<u32>) -> usize {
    match place {
        Some(programme) => place_in(list, programme),
        None => list.len(),
    }
}

/// The place of a candidate.
pub(crate) fn place_of(places: &[Option<u32>], candidate: usize) -> Option<u32> {
    places.get(candidate).copied().unwrap_or(None)
}

/// How many have a place in a programme.
fn held(places: &[Option<u32>], programme: u32) -> usize {
    places
        .iter()
        .filter(|place| **place == Some(programme))
        .count()
}

/// Whether somebody has a place in a programme who stands later in its order than a candidate.
fn has_later(order: &[u32], places: &[Option<u32>], programme: u32, candidate: u32) -> bool {
    let position = place_in(order, candidate);
    for (later, other) in order.iter().enumerate() {
        if position < later && place_of(places, *other as usize) == Some(programme) {
            return true;
        }
    }
    false
}

/// Whether a programme would take a candidate.
fn takes(rows: &Rows, places: &[Option<u32>], programme: u32, candidate: u32) -> bool {
    let order = rows.order(programme);
    held(places, programme) < rows.seats(programme) as usize
        || has_later(order, places, programme, candidate)
}

/// The best programme that a candidate prefers and that would take them.
fn block_with(rows: &Rows, places: &[Option<u32>], candidate: u32) -> Option<u32> {
    let list = rows.list(candidate as usize);
    let liked = liking(list, place_of(places, candidate as usize));
    for (rank, programme) in list.iter().enumerate() {
        if rank < liked && takes(rows, places, *programme, candidate) {
            return Some(*programme);
        }
    }
    None
}

/// The least candidate who blocks, with that programme.
pub(crate) fn plain_block(rows: &Rows, places: &[Option<u32>]) -> Option<MarketBlock> {
    for candidate in 0..4 {
        if let Some(programme) = block_with(rows, places, candidate) {
            return Some(MarketBlock {
                candidate,
                programme,
            });
        }
    }
    None
}

/// Whether no programme has more than its seats.
pub(crate) fn is_seated(rows: &Rows, places: &[Option<u32>]) -> bool {
    for programme in 0..3 {
        if held(places, programme) > rows.seats(programme) as usize {
            return false;
        }
    }
    true
}

/// Whether a matching is stable.
pub(crate) fn is_stable(rows: &Rows, places: &[Option<u32>]) -> bool {
    is_seated(rows, places) && plain_block(rows, places).is_none()
}

/// The places of this number: for each candidate an entry of their list, or none.
pub(crate) fn places_of(
    alloc: Global,
    rows: &Rows,
    number: usize,
) -> Result<Vec<Option<u32>>, OutOfMemory> {
    let mut rest = number;
    let mut places = Vec::new(alloc);
    for list in rows.lists.iter() {
        places.push(list.get(rest % 4).copied())?;
        rest /= 4;
    }
    Ok(places)
}

/// Whether two matchings fill each programme with as many.
fn fills_alike(one: &[Option<u32>], other: &[Option<u32>]) -> bool {
    for programme in 0..3 {
        if held(one, programme) != held(other, programme) {
            return false;
        }
    }
    true
}

/// Whether a matching is as good for each candidate as another, and places the same.
pub(crate) fn is_as_good(rows: &Rows, one: &[Option<u32>], other: &[Option<u32>]) -> bool {
    for (candidate, list) in rows.lists.iter().enumerate() {
        let here = place_of(one, candidate);
        let there = place_of(other, candidate);
        if liking(list, here) > liking(list, there) || here.is_some() != there.is_some() {
            return false;
        }
    }
    fills_alike(one, other)
}
