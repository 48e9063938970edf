//! Call orders, by the queues and by the plain scan.
ghost use Rattle.std.specs.Prelude.{All};
ghost use Rattle.admit_core.specs.Validity.{IsRanking};

use crate::tables::ranked;
use crate::texts::{push_word, refusal_told};
use admit_core::{Bound, CallOrder, Dossier, InFault, OutOfMemory, RankGroup};
use call_order::call_order;
use scanned_order::call_order_scanned;
use std::alloc::Global;
use std::fmt::Write;

/// The texts of a group's slots.
#[derive(Drop)]
pub(crate) struct GroupSlots {
    groups: String,
    rankings: String,
}

/// A candidate's number in a word, and their flags: `15s` is a scholar, `15r` a resident, and
/// `15sr` both.
fn flags_of(word: &str) -> (&str, &str) {
    if let Some(number) = word.strip_suffix("sr") {
        return (number, "1,1");
    }
    if let Some(number) = word.strip_suffix("s") {
        return (number, "1,0");
    }
    if let Some(number) = word.strip_suffix("r") {
        return (number, "0,1");
    }
    (word, "0,0")
}

/// A group from words: its two minimum rates, and its candidates by rank.
fn slots_in(alloc: Global, input: &str) -> Result<GroupSlots, OutOfMemory> {
    let mut words = input.split_whitespace();
    let scholar_pct = words.next().unwrap_or("");
    let resident_pct = words.next().unwrap_or("");
    let groups = format!(in alloc;
        "group,scholar_pct,resident_pct\n1,{scholar_pct},{resident_pct}\n"
    )?;
    let mut rankings = String::from_str(alloc, "group,candidate,rank,scholar,resident\n")?;
    for (place, word) in input.split_whitespace().skip(2).enumerate() {
        let (number, flags) = flags_of(word);
        write!(rankings, "1,{number},{},{flags}\n", place.saturating_add(1))?;
    }
    Ok(GroupSlots { groups, rankings })
}

/// The dossier of a group in words.
pub(crate) fn group_in(alloc: Global, input: &str) -> Result<Dossier, InFault> {
    let slots = slots_in(alloc, input)?;
    ranked(alloc, slots.groups.as_str(), slots.rankings.as_str())
}

/// Adds the call order of a group, each candidate with what bound their position.
fn push_order(alloc: Global, text: &mut String, group: &RankGroup) -> Result<(), OutOfMemory>
    requires { IsRanking group.now }
{
    let order = call_order(alloc, group)?;
    let scanned = call_order_scanned(alloc, group)?;
    if !is_same(&order, &scanned) {
        push_word(text, &"not as scanned:")?;
    }
    let bounds = order.trace.as_slice();
    for (candidate, bound) in order.list.as_slice().iter().zip(bounds) {
        push_word(text, candidate)?;
        push_word(text, &bound.letter())?;
    }
    Ok(())
}

fn is_same(order: &CallOrder, other: &CallOrder) -> bool {
    order.list.as_slice() == other.list.as_slice()
        && order.trace.as_slice() == other.trace.as_slice()
}

fn orders_shown(alloc: Global, groups: &[RankGroup]) -> Result<String, OutOfMemory>
    requires { All IsRanking groups.now }
{
    let mut text = String::new(alloc);
    for group in groups {
        push_order(alloc, &mut text, group)?;
    }
    Ok(text)
}

/// The call orders of a dossier's groups.
fn order_shown(alloc: Global, dossier: &Dossier) -> Result<String, OutOfMemory> {
    let groups = dossier.groups.as_slice();
    orders_shown(alloc, groups)
}

/// The call order of a group in words.
pub(crate) fn order_in(alloc: Global, input: &str) -> Result<String, OutOfMemory> {
    match group_in(alloc, input) {
        Ok(dossier) => order_shown(alloc, &dossier),
        Err(InFault::Refused(refusal)) => refusal_told(alloc, &refusal),
        Err(InFault::OutOfMemory) => Err(OutOfMemory),
    }
}

/// The ranking of candidates from 1 on, each fifth of whom is a scholar.
fn nation_slot(alloc: Global, count: u32) -> Result<String, OutOfMemory> {
    let mut rankings = String::from_str(alloc, "group,candidate,rank,scholar,resident\n")?;
    for number in 1..=count {
        let scholar = if number % 5 == 0 { 1 } else { 0 };
        write!(rankings, "1,{number},{number},{scholar},0\n")?;
    }
    Ok(rankings)
}

/// Whether all scholars are called first, and then the others.
fn is_nation_called(order: &CallOrder, count: u32) -> bool {
    let scholars = (1..=count).filter(|number| number % 5 == 0);
    let others = (1..=count).filter(|number| number % 5 != 0);
    let first = (count / 5) as usize;
    let trace = order.trace.as_slice();
    order
        .list
        .as_slice()
        .iter()
        .copied()
        .eq(scholars.chain(others))
        && trace
            .iter()
            .take(first)
            .all(|bound| *bound == Bound::Scholar)
        && trace.iter().skip(first).all(|bound| *bound == Bound::Free)
}

fn are_nations_called(alloc: Global, groups: &[RankGroup], count: u32) -> Result<bool, OutOfMemory>
    requires { All IsRanking groups.now }
{
    for group in groups {
        if !is_nation_called(&call_order(alloc, group)?, count) {
            return Ok(false);
        }
    }
    Ok(true)
}

fn nation_shown(alloc: Global, dossier: &Dossier, count: u32) -> Result<bool, OutOfMemory> {
    let groups = dossier.groups.as_slice();
    are_nations_called(alloc, groups, count)
}

/// Whether so many candidates, where scholars alone may be called first, are called in the right
/// order.
fn is_nation(alloc: Global, count: u32) -> Result<bool, InFault> {
    let rankings = nation_slot(alloc, count)?;
    let groups = "group,scholar_pct,resident_pct\n1,100,0\n";
    let dossier = ranked(alloc, groups, rankings.as_str())?;
    Ok(nation_shown(alloc, &dossier, count)?)
}

/// A group of so many candidates.
pub(crate) fn nation_in(alloc: Global, input: &str) -> Result<String, OutOfMemory> {
    let answer = match is_nation(alloc, input.parse::<u32>().unwrap_or(0)) {
        Ok(true) => "called",
        Ok(false) => "called otherwise",
        Err(_) => "no group",
    };
    Ok(String::from_str(alloc, answer)?)
}
