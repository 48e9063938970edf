//! The rankings dealt out by group: who is ranked, and whether no row has a fault.
ghost use Rattle.std.specs.Prelude.{◌≡◌, ◌<◌, ◌+◌, ◌^◌, ◌++◌, ◌∷◌, [], All, IfOk, OnOk, None, length, map, nat_eq, true};
ghost use Rattle.std.specs.List.{IsDistinct};
ghost use Rattle.admit_core.specs.declared.slot.Slot.TheVariants as slots;
ghost use Rattle.admit_core.specs.Faults.{first_in};
ghost use Rattle.admit_core.specs.Relations.{ranking_tests, group_ids};
ghost use Rattle.dossier_check.specs.Dealt.{AreDealt, ascending, places_in};
ghost use Rattle.dossier_check.specs.Outcome.{AnswersFault, MayLack};

use crate::groups::{lists_by_rank, rank_groups, ranked_lists};
use crate::placed::{all_below, places_of};
use crate::row_ids::RowIds;
use crate::rules::ItsGroup;
use crate::slots::find_rank_fault;
use admit_core::{InFault, OutOfMemory, RankGroup, RankRow, Ranked, Tables};
use std::alloc::Global;

/// The rankings by the places of their groups, and the ids of each one's candidates, ascending.
#[derive(Drop)]
pub(crate) struct Dealt {
    pub(crate) rankings: Vec<RankGroup>,
    pub(crate) candidates: Vec<Vec<u32>>,
}

/// Whether each number is greater than the one before it.
fn rises(numbers: &[u32]) -> bool
    ensures { result ≡ true → IsDistinct nat_eq numbers.now }
{
    numbers.is_sorted_by(|one, next| one < next)
}

/// The candidates of a group.
fn candidates_of(alloc: Global, list: &[Ranked]) -> Result<Vec<u32>, OutOfMemory>
    ensures { IfOk result (λ ids. ids.items ≡ map (λ r. r.candidate) list.now) }
{
    Ok(list.iter().map(|ranked| ranked.candidate).collect(alloc)?)
}

/// The candidates of a group, in ascending order of their ids.
fn ascending(alloc: Global, list: &[Ranked]) -> Result<Vec<u32>, OutOfMemory>
    ensures { IfOk result (λ ids. ids.items ≡ ascending list.now) }
{
    let mut ids = candidates_of(alloc, list)?;
    ids.sort_unstable();
    Ok(ids)
}

/// Adds the candidates of a group to those of the groups before it.
fn push_candidates(
    alloc: Global,
    done: &mut Vec<Vec<u32>>,
    list: &[Ranked],
) -> Result<(), OutOfMemory>
    ensures { OnOk result (map (λ l. l.items) done.new.items
        ≡ map (λ l. l.items) done.old.items ++ ascending list.now ∷ []) }
{
    done.push(ascending(alloc, list)?)?;
    Ok(())
}

/// The candidates of each group, ascending.
fn ascending_lists(alloc: Global, lists: &[Vec<Ranked>]) -> Result<Vec<Vec<u32>>, OutOfMemory>
    ensures { IfOk result (λ done.
        map (λ l. l.items) done.items ≡ map (λ l. ascending l.items) lists.now) }
{
    let mut done = Vec::with_capacity(alloc, lists.len())?;
    for list in lists {
        push_candidates(alloc, &mut done, list.as_slice())?;
    }
    Ok(done)
}

/// Whether each rank is greater than the one before it.
fn ranks_rise(list: &[Ranked]) -> bool
    ensures { result ≡ true → IsDistinct nat_eq (map (λ r. r.rank) list.now) }
{
    list.is_sorted_by(|one, next| one.rank < next.rank)
}

/// Whether no group has a rank twice; each one's list is in order by rank.
fn ranks_apart(rankings: &[RankGroup]) -> bool
    ensures { result ≡ true →
        All (λ g. IsDistinct nat_eq (map (λ r. r.rank) g.list)) rankings.now }
{
    for ranking in rankings {
        if !ranks_rise(ranking.list.as_slice()) {
            return false;
        }
    }
    true
}

/// Whether no group has a candidate twice, whose ids are given ascending.
fn candidates_apart(lists: &[Vec<u32>]) -> bool
    ensures { result ≡ true → All (λ l. IsDistinct nat_eq l.items) lists.now }
{
    for list in lists {
        if !rises(list.as_slice()) {
            return false;
        }
    }
    true
}

/// Deals out the rankings.
fn deal(
    alloc: Global,
    tables: &Tables,
    groups: &RowIds,
    places: &[u32],
) -> Result<Dealt, OutOfMemory>
    requires groups { groups.now.keys ≡ group_ids tables.now }
    requires places { places.now ≡ places_in (group_ids tables.now) tables.now.rankings }
    requires small { length tables.now.rankings < 2 ^ 32 }
    ensures { IfOk result (AreDealt tables.now) }
{
    let rows = tables.rankings.as_slice();
    let lists = ranked_lists(alloc, rows, groups, places)?;
    let candidates = ascending_lists(alloc, lists.as_slice())?;
    let lists = lists_by_rank(alloc, lists, rows, groups, places)?;
    Ok(Dealt {
        rankings: rank_groups(alloc, tables, lists)?,
        candidates,
    })
}

/// Whether the dealt rankings show that no row has a fault.
fn shows_no_fault(tables: &Tables, groups: &RowIds, places: &[u32], dealt: &Dealt) -> bool
    requires groups { groups.now.keys ≡ group_ids tables.now }
    requires places { places.now ≡ places_in (group_ids tables.now) tables.now.rankings }
    requires dealt { AreDealt tables.now dealt.now }
    ensures { result ≡ true →
        first_in slots.Rankings (ranking_tests tables.now) tables.now.rankings ≡ None }
{
    if !all_below(places, groups.len()) {
        return false;
    }
    if !candidates_apart(dealt.candidates.as_slice()) {
        return false;
    }
    ranks_apart(dealt.rankings.as_slice())
}

/// Checks the rankings, and answers them dealt out by group. The rows are tested one after another
/// only where there may be a fault, to find the first. It lacks memory only where there is a row.
pub(crate) fn check_ranks(alloc: Global, tables: &Tables, groups: &RowIds) -> Result<Dealt, InFault>
    requires groups { groups.now.keys ≡ group_ids tables.now }
    requires small { length tables.now.rankings < 2 ^ 32 }
    requires few { length (group_ids tables.now) < 2 ^ 32 }
    ensures fault { AnswersFault result
        (first_in slots.Rankings (ranking_tests tables.now) tables.now.rankings) }
    ensures dealt { IfOk result (AreDealt tables.now) }
    ensures memory { MayLack (0 < length tables.now.groups + length tables.now.rankings) result }
{
    if tables.groups.len() + tables.rankings.len() == 0 {
        return Ok(Dealt {
            rankings: Vec::new(alloc),
            candidates: Vec::new(alloc),
        });
    }
    let places = places_of(alloc, &ItsGroup, tables.rankings.as_slice(), groups)?;
    let dealt = deal(alloc, tables, groups, places.as_slice())?;
    if shows_no_fault(tables, groups, places.as_slice(), &dealt) {
        return Ok(dealt);
    }
    find_rank_fault(alloc, tables, groups)?;
    Ok(dealt)
}
