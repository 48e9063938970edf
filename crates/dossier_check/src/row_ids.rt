//! The ids of a slot's rows: found by order where they rise, and by hash elsewhere.
ghost use Rattle.std.specs.Prelude.{◌≡◌, ◌++◌, ◌∷◌, ◌<◌, ◌^◌, [], List, nat_eq, position, is_some, length, slice_get, true, false, None, Some, IfOk, IfSome, IsOk, IsSome, OnErr};
ghost use Rattle.std.specs.List.{IsDistinct, list_any};
ghost use Rattle.dossier_check.specs.Noted.{Notes};
ghost use Rattle.dossier_check.specs.RowIds.{Rises};

use crate::noted::Key;
use admit_core::{FIRST_ROW, OutOfMemory};
use indexmap::IndexSet;
use keyed_hash::Keyed;
use std::alloc::Global;
use std::marker::Model;

/// How ids are found.
pub(crate) enum Way {
    /// Each is greater than the one before it.
    Rising(Vec<u32>),
    Hashed(IndexSet<u32, Keyed>),
}

// Not derived: so ids are dropped in one step where they are held, and not by each way.
impl Drop for Way {
    fn drop(self) {
        match self {
            Way::Rising(_) => (),
            Way::Hashed(_) => (),
        }
    }
}

/// The ids of a slot's rows, each once. A contract sees them by place.
#[derive(Drop)]
pub(crate) struct RowIds {
    way: Way,
}

impl Model for RowIds {
    ghost use Rattle.dossier_check.specs.RowIds.{IsWay, Listed, keys_by};

    ghost Value = { Listed };

    ghost view = { λ x. record { keys = keys_by x.way } };

    ghost invariant = { λ x. IsWay x.way };
}

/// The place of an id among rising ones, where each id between the first and it is one more than
/// the one before.
fn at_distance(ids: &[u32], id: u32) -> Option<usize>
    requires { Rises ids.now }
    ensures { IfSome result (λ place. position (nat_eq id) ids.now ≡ Some place) }
{
    let first = *ids.first()?;
    let place = id.checked_sub(first)? as usize;
    let there = *ids.get(place)?;
    if there != id {
        return None;
    }
    Some(place)
}

/// The place of an id among rising ones, found by halves.
fn by_halves(ids: &[u32], id: u32) -> Option<usize>
    requires { Rises ids.now }
    ensures { result ≡ position (nat_eq id) ids.now }
{
    ids.binary_search(&id).ok()
}

/// Whether an id is greater than the last of those before it.
fn comes_after(ids: &[u32], id: u32) -> bool
    ensures { result ≡ true → Rises ids.now → Rises (ids.now ++ id ∷ []) }
{
    match ids.last() {
        Some(last) => *last < id,
        None => true,
    }
}

/// Adds an id to rising ones, where they go on rising.
fn add_rising(ids: &mut Vec<u32>, id: u32) -> Result<bool, OutOfMemory>
    requires { Rises ids.old.items }
    ensures rises { Rises ids.new.items }
    ensures added { IfOk result (λ added. added ≡ true → ids.new.items ≡ ids.old.items ++ id ∷ []) }
    ensures is_new { IfOk result (λ added.
        added ≡ true → list_any (nat_eq id) ids.old.items ≡ false) }
    ensures kept { IfOk result (λ added. added ≡ false → ids.new.items ≡ ids.old.items) }
    ensures failed { OnErr result (ids.new.items ≡ ids.old.items) }
    ensures told { OnErr result (list_any (nat_eq id) ids.old.items ≡ false) }
{
    if !comes_after(ids.as_slice(), id) {
        return Ok(false);
    }
    ids.push(id)?;
    Ok(true)
}

/// Rising ids, found by hash.
fn hashed(
    alloc: Global,
    keyed: Keyed,
    ids: &[u32],
    room: usize,
) -> Result<IndexSet<u32, Keyed>, OutOfMemory>
    requires { Rises ids.now }
    ensures { IfOk result (λ set. set.keys ≡ ids.now) }
{
    let mut set = IndexSet::with_capacity_and_hasher(alloc, room, keyed)?;
    for id in ids {
        set.insert(*id)?;
    }
    Ok(set)
}

/// Rising ids and one more, found by hash.
fn hashed_with(
    alloc: Global,
    keyed: Keyed,
    ids: &Vec<u32>,
    id: u32,
) -> Result<IndexSet<u32, Keyed>, OutOfMemory>
    requires rises { Rises ids.now.items }
    requires new { list_any (nat_eq id) ids.now.items ≡ false }
    ensures { IfOk result (λ set. set.keys ≡ ids.now.items ++ id ∷ []) }
{
    let mut set = hashed(alloc, keyed, ids.as_slice(), ids.capacity())?;
    set.insert(id)?;
    Ok(set)
}

/// The place of an id among hashed ones, to which it is added where it is not there.
fn add_hashed(ids: &mut IndexSet<u32, Keyed>, id: u32) -> Result<Option<usize>, OutOfMemory>
    ensures found { IfOk result (λ place. place ≡ position (nat_eq id) ids.old.keys) }
    ensures kept { IfOk result (λ place. IsSome place → ids.new.keys ≡ ids.old.keys) }
    ensures added { IfOk result (λ place.
        place ≡ None → ids.new.keys ≡ ids.old.keys ++ id ∷ []) }
    ensures told { OnErr result (list_any (nat_eq id) ids.old.keys ≡ false) }
{
    let (place, is_new) = ids.insert_full(id)?;
    if is_new {
        return Ok(None);
    }
    Ok(Some(place))
}

impl RowIds {
    /// No ids.
    pub(crate) fn new(alloc: Global) -> RowIds
        ensures { result.keys ≡ [] }
    {
        RowIds {
            way: Way::Rising(Vec::new(alloc)),
        }
    }

    /// No ids, with room for a number of them.
    pub(crate) fn with_room(alloc: Global, room: usize) -> Result<RowIds, OutOfMemory>
        ensures none { IfOk result (λ ids. ids.keys ≡ []) }
        ensures succeeds { room ≡ 0 → IsOk result }
    {
        let ids = Vec::with_capacity(alloc, room)?;
        Ok(RowIds {
            way: Way::Rising(ids),
        })
    }

    /// Adds an id where ids are found by order and it comes after all of them.
    #[inline(always)]
    fn add_last(&mut self, id: u32) -> Result<bool, OutOfMemory>
        ensures added { IfOk result (λ added.
            added ≡ true → self.new.keys ≡ self.old.keys ++ id ∷ []) }
        ensures is_new { IfOk result (λ added.
            added ≡ true → list_any (nat_eq id) self.old.keys ≡ false) }
        ensures kept { IfOk result (λ added. added ≡ false → self.new.keys ≡ self.old.keys) }
        ensures told { OnErr result (list_any (nat_eq id) self.old.keys ≡ false) }
    {
        match &mut self.way {
            Way::Rising(ids) => add_rising(ids, id),
            Way::Hashed(_) => Ok(false),
        }
    }

    /// The place of an id that may be there; it is added where it is not. This is not inlined:
    /// where ids rise, it is never called.
    #[inline(never)]
    fn add_any(
        &mut self,
        alloc: Global,
        keyed: Keyed,
        id: u32,
    ) -> Result<Option<usize>, OutOfMemory>
        ensures found { IfOk result (λ place. place ≡ position (nat_eq id) self.old.keys) }
        ensures kept { IfOk result (λ place. IsSome place → self.new.keys ≡ self.old.keys) }
        ensures added { IfOk result (λ place.
            place ≡ None → self.new.keys ≡ self.old.keys ++ id ∷ []) }
        ensures told { OnErr result (list_any (nat_eq id) self.old.keys ≡ false) }
    {
        match &mut self.way {
            Way::Rising(ids) => {
                if let Some(place) = by_halves(ids.as_slice(), id) {
                    return Ok(Some(place));
                }
                let set = hashed_with(alloc, keyed, ids, id)?;
                self.way = Way::Hashed(set);
                Ok(None)
            }
            Way::Hashed(ids) => add_hashed(ids, id),
        }
    }

    /// The place of an id, which is added where it is not there. The place is told whatever memory
    /// there is. This is inlined, as the tests that ask it are.
    #[inline(always)]
    pub(crate) fn add(
        &mut self,
        alloc: Global,
        keyed: Keyed,
        id: u32,
    ) -> Result<Option<usize>, OutOfMemory>
        ensures found { IfOk result (λ place. place ≡ position (nat_eq id) self.old.keys) }
        ensures kept { IfOk result (λ place. IsSome place → self.new.keys ≡ self.old.keys) }
        ensures added { IfOk result (λ place.
            place ≡ None → self.new.keys ≡ self.old.keys ++ id ∷ []) }
        ensures told { OnErr result (list_any (nat_eq id) self.old.keys ≡ false) }
    {
        if self.add_last(id)? {
            return Ok(None);
        }
        self.add_any(alloc, keyed, id)
    }

    /// Notes the id of the next row, and answers the number of the row of the same id where there
    /// is one, whatever memory there is. This is inlined, as the tests that ask it are.
    #[inline(always)]
    pub(crate) fn note<R, Q: Key<R, u32>>(
        &mut self,
        alloc: Global,
        keyed: Keyed,
        rule: &Q,
        row: &R,
    ) -> Result<Option<u64>, OutOfMemory>
        ensures { Notes nat_eq Q.key row.now self.old.keys self.new.keys result }
    {
        let _ = self.len();
        match self.add(alloc, keyed, rule.key_of(row))? {
            Some(place) => Ok(Some(place as u64 + FIRST_ROW)),
            None => Ok(None),
        }
    }

    /// The place of an id among rising ones without gaps.
    #[inline(always)]
    fn at_distance(&self, id: u32) -> Option<usize>
        ensures { IfSome result (λ place. position (nat_eq id) self.now.keys ≡ Some place) }
    {
        match &self.way {
            Way::Rising(ids) => at_distance(ids.as_slice(), id),
            Way::Hashed(_) => None,
        }
    }

    /// The place of an id, found by halves or by hash. This is not inlined: where ids have no gaps,
    /// it is called only for one that is not there.
    #[inline(never)]
    fn search(&self, id: u32) -> Option<usize>
        ensures { result ≡ position (nat_eq id) self.now.keys }
    {
        match &self.way {
            Way::Rising(ids) => by_halves(ids.as_slice(), id),
            Way::Hashed(ids) => ids.get_index_of(&id),
        }
    }

    /// The place of an id. Where ids have no gaps, it calls nothing.
    #[inline(always)]
    pub(crate) fn get_index_of(&self, id: u32) -> Option<usize>
        ensures index { result ≡ position (nat_eq id) self.now.keys }
        ensures found { is_some result ≡ list_any (nat_eq id) self.now.keys }
        ensures within { IfSome result (λ place. place < length self.now.keys) }
    {
        match self.at_distance(id) {
            Some(place) => Some(place),
            None => self.search(id),
        }
    }

    /// The id at a place.
    fn id_at(&self, place: usize) -> Option<u32>
        ensures { result ≡ slice_get self.now.keys place }
    {
        match &self.way {
            Way::Rising(ids) => ids.get(place).copied(),
            Way::Hashed(ids) => ids.get_index(place).copied(),
        }
    }

    /// Whether an id stands at a place.
    fn has_at(&self, id: u32, place: usize) -> bool
        ensures { result ≡ true → position (nat_eq id) self.now.keys ≡ Some place }
    {
        let _ = self.len();
        match self.id_at(place) {
            Some(there) => there == id,
            None => false,
        }
    }

    /// The place of an id. It's looked for first where `near` says, which becomes its place.
    pub(crate) fn find_near(&self, id: u32, near: &mut usize) -> Option<usize>
        ensures index { result ≡ position (nat_eq id) self.now.keys }
        ensures found { is_some result ≡ list_any (nat_eq id) self.now.keys }
        ensures within { IfSome result (λ place. place < length self.now.keys) }
    {
        if self.has_at(id, *near) {
            return Some(*near);
        }
        let place = self.get_index_of(id)?;
        *near = place;
        Some(place)
    }

    /// Whether an id is there.
    pub(crate) fn contains(&self, id: u32) -> bool
        ensures { result ≡ list_any (nat_eq id) self.now.keys }
    {
        self.get_index_of(id).is_some()
    }

    /// The number of ids.
    pub(crate) fn len(&self) -> usize
        ensures len { result ≡ length self.now.keys }
        ensures small { result < 2 ^ 63 }
        ensures unique { IsDistinct nat_eq self.now.keys }
    {
        match &self.way {
            Way::Rising(ids) => ids.len(),
            Way::Hashed(ids) => ids.len(),
        }
    }
}
