//! The candidates of each group, in order by rank or by candidate.
ghost use Rattle.std.specs.Prelude.{◌≡◌, ◌<◌, ◌^◌, ◌++◌, ◌∷◌, [], All, OnOk, IfOk, IfSome, List, map, slice_set, slice_index_or, length, true};
ghost use Rattle.admit_core.specs.Standing.{ranked_in, group_of_row, place_of};
ghost use Rattle.admit_core.specs.Lists.{sorted_by};
ghost use Rattle.admit_core.specs.Relations.{group_ids};
ghost use Rattle.dossier_check.specs.Dealt.{built, places_in, ranked_by};

use crate::by_key::{by_key, rows_by};
use crate::row_ids::RowIds;
use crate::rules::ItsRank;
use admit_core::{GroupRow, OutOfMemory, RankGroup, RankRow, Ranked, Sequence, Tables};
use std::alloc::Global;

/// Adds an item to one of several lists.
fn add(lists: &mut Vec<Vec<Ranked>>, place: usize, item: Ranked) -> Result<(), OutOfMemory>
    requires { place < length lists.old.items }
    ensures added { OnOk result (map (λ l. l.items) lists.new.items
        ≡ slice_set (map (λ l. l.items) lists.old.items) place
        (slice_index_or (map (λ l. l.items) lists.old.items) place [] ++ item ∷ [])) }
    ensures len { OnOk result (length lists.new.items ≡ length lists.old.items) }
{
    lists[place].push(item)?;
    Ok(())
}

/// Counts a row for its group, which stands at this place.
fn count_row(rooms: &mut [usize], place: u32)
    ensures { length rooms.new ≡ length rooms.old }
{
    if let Some(room) = rooms.get_mut(place as usize) {
        *room = room.saturating_add(1);
    }
}

/// How much room the list of each group is to have, by the groups' places: as many as it has rows.
fn rooms_of(alloc: Global, places: &[u32], groups: usize) -> Result<Vec<usize>, OutOfMemory>
    ensures { IfOk result (λ rooms. length rooms.items ≡ groups) }
{
    let mut rooms = vec![in alloc; 0; groups]?;
    for place in places {
        count_row(rooms.as_mut_slice(), *place);
    }
    Ok(rooms)
}

/// An empty list for each group, with room.
fn empty_lists(
    alloc: Global,
    groups: &RowIds,
    rooms: &[usize],
) -> Result<Vec<Vec<Ranked>>, OutOfMemory>
    requires { length rooms.now ≡ length groups.now.keys }
    ensures { IfOk result (λ lists.
        map (λ l. l.items) lists.items ≡ map (ranked_in []) groups.now.keys) }
{
    let mut lists = Vec::with_capacity(alloc, groups.len())?;
    for room in rooms {
        let list = Vec::with_capacity(alloc, *room)?;
        lists.push(list)?;
    }
    Ok(lists)
}

/// An empty list for each group, with room for its rows.
fn roomy_lists(
    alloc: Global,
    groups: &RowIds,
    places: &[u32],
) -> Result<Vec<Vec<Ranked>>, OutOfMemory>
    ensures { IfOk result (λ lists.
        map (λ l. l.items) lists.items ≡ map (ranked_in []) groups.now.keys) }
{
    let rooms = rooms_of(alloc, places, groups.len())?;
    empty_lists(alloc, groups, rooms.as_slice())
}

/// Adds a candidate to the list of their group, which stands at this place.
fn lay_row(
    lists: &mut Vec<Vec<Ranked>>,
    groups: &RowIds,
    row: &RankRow,
    place: u32,
) -> Result<(), OutOfMemory>
    requires lists { length lists.old.items ≡ length groups.now.keys }
    requires place { place ≡ place_of groups.now.keys row.now.group }
    ensures laid { (rows : List RankRow) →
        map (λ l. l.items) lists.old.items ≡ map (ranked_in rows) groups.now.keys →
        OnOk result (map (λ l. l.items) lists.new.items
        ≡ map (ranked_in (rows ++ row.now ∷ [])) groups.now.keys) }
    ensures len { OnOk result (length lists.new.items ≡ length lists.old.items) }
{
    let place = place as usize;
    if place < groups.len() {
        add(
            lists,
            place,
            Ranked {
                candidate: row.candidate,
                rank: row.rank,
                scholar: row.scholar,
                resident: row.resident,
            },
        )?;
        return Ok(());
    }
    Ok(())
}

/// The candidates of each group, in file order. The rows' groups stand at these places.
pub(crate) fn ranked_lists(
    alloc: Global,
    rankings: &[RankRow],
    groups: &RowIds,
    places: &[u32],
) -> Result<Vec<Vec<Ranked>>, OutOfMemory>
    requires { places.now ≡ places_in groups.now.keys rankings.now }
    ensures { IfOk result (λ lists.
        map (λ l. l.items) lists.items ≡ map (ranked_in rankings.now) groups.now.keys) }
{
    let mut lists = roomy_lists(alloc, groups, places)?;
    for (number, row) in rankings.iter().enumerate() {
        lay_row(&mut lists, groups, row, places[number])?;
    }
    Ok(lists)
}

/// The candidates of each group, by rank.
fn sorted_lists(
    alloc: Global,
    rankings: &[RankRow],
    groups: &RowIds,
    places: &[u32],
) -> Result<Vec<Vec<Ranked>>, OutOfMemory>
    requires places { places.now ≡ places_in groups.now.keys rankings.now }
    requires small { length rankings.now < 2 ^ 32 }
    ensures { IfOk result (λ lists.
        map (λ l. l.items) lists.items ≡ map (ranked_by rankings.now) groups.now.keys) }
{
    let ordered = by_key(alloc, &ItsRank, rankings)?;
    let places = rows_by(alloc, places, ordered.tags.as_slice())?;
    ranked_lists(alloc, ordered.rows.as_slice(), groups, places.as_slice())
}

/// Whether no candidate has a lesser rank than the one before them.
fn is_by_rank(list: &[Ranked]) -> bool
    ensures { result ≡ true → list.now ≡ sorted_by (λ r. r.rank) list.now }
{
    list.is_sorted_by(|one, next| one.rank <= next.rank)
}

/// Whether each list is by rank.
fn are_by_rank(lists: &[Vec<Ranked>]) -> bool
    ensures { result ≡ true →
        All (λ l. l.items ≡ sorted_by (λ r. r.rank) l.items) lists.now }
{
    for list in lists {
        if !is_by_rank(list.as_slice()) {
            return false;
        }
    }
    true
}

/// The candidates of each group by rank, who are given in file order. The lists stay where they are
/// by rank in it.
pub(crate) fn lists_by_rank(
    alloc: Global,
    lists: Vec<Vec<Ranked>>,
    rankings: &[RankRow],
    groups: &RowIds,
    places: &[u32],
) -> Result<Vec<Vec<Ranked>>, OutOfMemory>
    requires lists { map (λ l. l.items) lists.items
        ≡ map (ranked_in rankings.now) groups.now.keys }
    requires places { places.now ≡ places_in groups.now.keys rankings.now }
    requires small { length rankings.now < 2 ^ 32 }
    ensures { IfOk result (λ lists.
        map (λ l. l.items) lists.items ≡ map (ranked_by rankings.now) groups.now.keys) }
{
    if are_by_rank(lists.as_slice()) {
        return Ok(lists);
    }
    drop(lists);
    sorted_lists(alloc, rankings, groups, places)
}

/// A group with its candidates.
fn rank_group(row: &GroupRow, list: Vec<Ranked>) -> RankGroup
    ensures { result ≡ built row.now list.items }
{
    RankGroup {
        id: row.id,
        scholar_pct: row.scholar_pct,
        resident_pct: row.resident_pct,
        list: Sequence::from_vec(list),
    }
}

/// The groups with their candidates, who are given by rank.
pub(crate) fn rank_groups(
    alloc: Global,
    tables: &Tables,
    lists: Vec<Vec<Ranked>>,
) -> Result<Vec<RankGroup>, OutOfMemory>
    requires { map (λ l. l.items) lists.items
        ≡ map (ranked_by tables.now.rankings) (group_ids tables.now) }
    ensures { IfOk result (λ gs. gs.items ≡ map (group_of_row tables.now) tables.now.groups) }
{
    let rows = tables.groups.as_slice();
    let mut done = Vec::with_capacity(alloc, rows.len())?;
    for (row, list) in rows.iter().zip(lists) {
        done.push(rank_group(row, list))?;
    }
    Ok(done)
}
