//! What is kept of the rows so far: their keys by place, or the first row of each key.
ghost use Rattle.std.specs.Prelude.{◌≡◌, ℕ, Bool, List, [], ◌∷◌, ◌++◌, map, find, nat_eq, position, Some, None, true, IfOk, IsSome, OnErr, if◌then◌else◌};
ghost use Rattle.indexmap.specs.IndexMap.{get};
ghost use Rattle.admit_core.specs.Faults.{first_row};
ghost use Rattle.dossier_check.specs.Noted.{Notes};
ghost use Rattle.dossier_check.specs.Pairs.{pair_eq};

use crate::row_ids::RowIds;
use admit_core::{FIRST_ROW, OutOfMemory};
use indexmap::{IndexMap, IndexSet};
use keyed_hash::Keyed;
use std::hash::Hash;

/// What two rows must not share.
pub(crate) trait Key<R, K> {
    ghost key: { R → K };

    fn key_of(&self, row: &R) -> K
        ensures { result ≡ key row.now };
}

/// Notes the key of the next row, and answers the number of the row of the same key where there is
/// one.
pub(crate) fn note<R, K: Hash + Eq + Copy + Drop, Q: Key<R, K>>(
    keys: &mut IndexSet<K, Keyed>,
    rule: &Q,
    row: &R,
) -> Result<Option<u64>, OutOfMemory>
    ensures { Notes K.eq Q.key row.now keys.old.keys keys.new.keys result }
{
    let (place, is_new) = keys.insert_full(rule.key_of(row))?;
    let _ = keys.len();
    if is_new {
        return Ok(None);
    }
    Ok(Some(place as u64 + FIRST_ROW))
}

/// The row at the place of the first one that passes a test.
pub(crate) fn row_at<R: Copy>(rows: &[R], place: Option<usize>) -> Option<R>
    ensures { (passes : R → Bool) → place ≡ position passes rows.now → result
        ≡ find passes rows.now }
{
    match place {
        Some(place) => rows.get(place).copied(),
        None => None,
    }
}

/// The row of an id, where the ids are those of the rows by place.
pub(crate) fn row_of<R: Copy>(ids: &RowIds, rows: &[R], id: u32) -> Option<R>
    ensures { (own : R → ℕ) → ids.now.keys ≡ map own rows.now → result
        ≡ find (λ r. nat_eq id (own r)) rows.now }
{
    row_at(rows, ids.get_index_of(id))
}

/// Whether two pairs are the same.
fn same_pair(one: (u32, u32), other: (u32, u32)) -> bool
    ensures { result ≡ pair_eq one other }
{
    one.0 == other.0 && one.1 == other.1
}

/// Whether a pair stands at a place.
fn stands_at(keys: &IndexSet<(u32, u32), Keyed>, pair: (u32, u32), place: usize) -> bool
    ensures { result ≡ true → position (pair_eq pair) keys.now.keys ≡ Some place }
{
    let _ = keys.len();
    match keys.get_index(place) {
        Some(there) => same_pair(pair, *there),
        None => false,
    }
}

/// The row of a pair, where the pairs are those of the rows by place. It's looked for first where
/// `near` says.
pub(crate) fn row_near<R: Copy>(
    keys: &IndexSet<(u32, u32), Keyed>,
    rows: &[R],
    pair: (u32, u32),
    near: usize,
) -> Option<R>
    ensures { (own : R → ℕ × ℕ) → keys.now.keys ≡ map own rows.now → result
        ≡ find (λ r. pair_eq pair (own r)) rows.now }
{
    if stands_at(keys, pair, near) {
        return row_at(rows, Some(near));
    }
    row_at(rows, keys.get_index_of(&pair))
}

/// Notes a value of a key, unless one was noted before; answers the one noted before.
pub(crate) fn note_first<K: Hash + Eq + Copy + Drop, V: Copy + Drop>(
    firsts: &mut IndexMap<K, V, Keyed>,
    key: K,
    value: V,
) -> Result<Option<V>, OutOfMemory>
    ensures first { IfOk result (λ first. first ≡ get K.eq firsts.old key) }
    ensures kept { IfOk result (λ first.
        IsSome first → (k : K) → get K.eq firsts.new k ≡ get K.eq firsts.old k) }
    ensures noted { IfOk result (λ first. first ≡ None → (k : K) →
        get K.eq firsts.new k ≡ (if K.eq key k then Some value else get K.eq firsts.old k)) }
    ensures told { OnErr result (get K.eq firsts.old key ≡ None) }
{
    if let Some(first) = firsts.get(&key) {
        return Ok(Some(*first));
    }
    firsts.insert(key, value)?;
    Ok(None)
}
