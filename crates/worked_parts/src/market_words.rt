//! Markets in words, by each picker.
ghost use Rattle.std.specs.Prelude.{◌≡◌, ◌<◌, IfOk};
ghost use Rattle.markets.specs.Matchings.{IsStable};

use crate::texts::{numbers_in, push_places, push_word, push_words};
use admit_core::{OutOfMemory, Sequence, Steps};
use bar_fixpoint::{FirstPicker, LastPicker, Picker, TiredPicker, TurnPicker};
use stable_market::{Market, MarketFault, Solved, solve};
use std::alloc::Global;
use std::marker::Brand;
use std::sync::ledger::{Blank, Ledger};

/// A market's parts.
#[derive(Drop)]
struct Parts {
    lists: Vec<Sequence<u32>>,
    orders: Vec<Sequence<u32>>,
    seats: Vec<u32>,
}

/// The lists of candidates.
fn lists_in(alloc: Global, text: &str) -> Result<Vec<Sequence<u32>>, OutOfMemory> {
    let mut lists = Vec::new(alloc);
    for list in text.split(";") {
        lists.push(Sequence::from_vec(numbers_in(alloc, list)?))?;
    }
    Ok(lists)
}

/// The parts of a market in words: the candidates' lists between `;`, and behind `/` each
/// programme's seats with `:` and its order. Nothing behind `/` means no programme.
fn parts_in(alloc: Global, input: &str) -> Result<Parts, OutOfMemory> {
    let (lists, programmes) = input.split_once("/").unwrap_or((input, ""));
    let mut parts = Parts {
        lists: lists_in(alloc, lists)?,
        orders: Vec::new(alloc),
        seats: Vec::new(alloc),
    };
    if programmes.trim().is_empty() {
        return Ok(parts);
    }
    for programme in programmes.split(";") {
        let (seats, order) = programme.split_once(":").unwrap_or((programme, ""));
        let order = numbers_in(alloc, order)?;
        parts.orders.push(Sequence::from_vec(order))?;
        if let Ok(seats) = seats.trim().parse::<u32>() {
            parts.seats.push(seats)?;
        }
    }
    Ok(parts)
}

/// The market of few lists and orders.
pub(crate) fn made(
    alloc: Global,
    lists: Vec<Sequence<u32>>,
    orders: Vec<Sequence<u32>>,
    seats: Vec<u32>,
) -> Result<Market, MarketFault> {
    if lists.len() > 9 || orders.len() > 9 {
        return Err(MarketFault::BadCount);
    }
    Market::new(alloc, lists, orders, seats)
}

/// What `solve` answers by this counter.
fn solved_counted<L: Ledger>(
    alloc: Global,
    blank: Blank,
    market: &Market,
    picker: &mut dyn Picker,
) -> Result<Solved, OutOfMemory>
    requires name { blank.name ≡ L.name }
    requires parts { blank.parts ≡ L.parts }
    requires shared { 0 < L.parts }
    ensures { IfOk result (λ solved. IsStable market.now solved.places.items) }
{
    let mut steps: Steps<L> = Steps::new(blank);
    solve(alloc, market, picker, &mut steps)
}

/// What `solve` answers.
pub(crate) fn solved(
    alloc: Global,
    market: &Market,
    picker: &mut dyn Picker,
) -> Result<Solved, OutOfMemory>
    ensures { IfOk result (λ solved. IsStable market.now solved.places.items) }
{
    solved_counted::<Brand>(alloc, Blank::new(1), market, picker)
}

/// Adds the bars and the places of a market, and what the picker told.
fn push_solved(
    alloc: Global,
    text: &mut String,
    market: &Market,
    picker: &mut dyn Picker,
) -> Result<(), OutOfMemory> {
    match solved(alloc, market, picker) {
        Ok(solved) => push_matching(text, &solved)?,
        Err(_) => push_word(text, &"refuses")?,
    }
    push_word(text, &"told")?;
    push_words(text, picker.told_list())
}

fn push_matching(text: &mut String, solved: &Solved) -> Result<(), OutOfMemory> {
    push_word(text, &"bars")?;
    push_words(text, solved.bars.as_slice())?;
    push_word(text, &"places")?;
    push_places(text, solved.places.as_slice())
}

/// Adds the answers of a picker that refuses a pick and is asked again.
fn push_tired(
    alloc: Global,
    text: &mut String,
    market: &Market,
    mut picker: TiredPicker,
) -> Result<(), OutOfMemory> {
    push_solved(alloc, text, market, &mut picker)?;
    push_solved(alloc, text, market, &mut picker)
}

/// A market by the first, the last and the next place in turn, and by pickers that refuse their
/// second pick or their first and are asked again.
fn market_shown(alloc: Global, market: &Market) -> Result<String, OutOfMemory> {
    let mut text = String::new(alloc);
    push_solved(alloc, &mut text, market, &mut FirstPicker::new(alloc))?;
    text.push_str(", last")?;
    push_solved(alloc, &mut text, market, &mut LastPicker::new(alloc))?;
    text.push_str(", turn")?;
    push_solved(alloc, &mut text, market, &mut TurnPicker::new(alloc))?;
    text.push_str(", tired")?;
    push_tired(alloc, &mut text, market, TiredPicker::new(alloc, 2))?;
    text.push_str(", tired at once")?;
    push_tired(alloc, &mut text, market, TiredPicker::new(alloc, 1))?;
    Ok(text)
}

/// What is seen of the market in words, or why these make no market.
pub(crate) fn market_in(alloc: Global, input: &str) -> Result<String, OutOfMemory> {
    let parts = parts_in(alloc, input)?;
    let Parts {
        lists,
        orders,
        seats,
    } = parts;
    match made(alloc, lists, orders, seats) {
        Ok(market) => market_shown(alloc, &market),
        Err(fault) => Ok(format!(in alloc; "{fault:?}")?),
    }
}
