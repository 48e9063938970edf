//! Tests of rows, each on its own, and lists of them.
ghost use Rattle.std.specs.Prelude.{◌≡◌, ◌⊎◌, List, [], ◌∷◌, ◌++◌, drop, option_map, length, IfOk, OnErr, None, map, take};
ghost use Rattle.admit_core.specs.declared.refusal.Reason.TheVariants as reasons;
ghost use Rattle.admit_core.specs.Faults.{Test, row_number, first_reason, repeats, names_unknown};
ghost use Rattle.admit_core.specs.Lists.{is_among};
ghost use Rattle.dossier_check.specs.Shared.{reason_of};

use crate::noted::{Key, note};
use crate::row_ids::RowIds;
use crate::scan::RowChecks;
use admit_core::{OutOfMemory, Reason};
use indexmap::IndexSet;
use keyed_hash::Keyed;
use std::alloc::Global;
use std::hash::Hash;

/// One test, with what it needs to know of the rows before.
pub(crate) trait RowTest<R> {
    ghost test: { Self → Test R };

    ghost has_seen: { Self → List R → Type 0 };

    /// That the test takes memory, and so may run out of it.
    ghost takes_memory: { Type 0 };

    /// The reason, where the test stands at the next row. It is told whatever memory there is.
    fn stands(&mut self, row: &R, number: u64) -> Result<Option<Reason>, OutOfMemory>
        ensures reason { (before : List R) → has_seen self.old before →
            IfOk result (λ reason. reason ≡ test self.old before row.now) }
        ensures seen { (before : List R) → has_seen self.old before → number
            ≡ row_number (length before) →
            IfOk result (λ reason. reason ≡ None → has_seen self.new (before ++ row.now ∷ [])) }
        ensures same_test { test self.new ≡ test self.old }
        ensures memory { OnErr result takes_memory }
        ensures told { (before : List R) → has_seen self.old before →
            OnErr result (test self.old before row.now ≡ None) };
}

/// No test.
#[derive(Drop)]
pub(crate) struct NoTest;

impl<R> RowChecks<R> for NoTest {
    ghost tests = { λ c. [] };

    ghost has_seen = { λ c before. Unit {0} };

    ghost takes_memory = { ⊥ };

    ghost lacks = { λ tests before row. ⊥ };

    fn next(&mut self, _row: &R, _number: u64) -> Result<Option<Reason>, OutOfMemory> {
        Ok(None)
    }
}

/// A test, and then others.
#[derive(Drop)]
pub(crate) struct Then<A, B> {
    pub(crate) first: A,
    pub(crate) rest: B,
}

impl<R, A: RowTest<R>, B: RowChecks<R>> RowChecks<R> for Then<A, B> {
    ghost tests = { λ c. A.test c.first ∷ B.tests c.rest };

    ghost has_seen = { λ c before. A.has_seen c.first before × B.has_seen c.rest before };

    ghost takes_memory = { A.takes_memory ⊎ B.takes_memory };

    ghost lacks = { λ tests before row. (first_reason (take 1 tests) before row ≡ None)
        × (A.takes_memory ⊎ B.lacks (drop 1 tests) before row) };

    // This and the tests of wishes are inlined, so that a scan has all tests of a row in one body:
    // left to itself, LLVM calls those that several scans have.
    #[inline(always)]
    fn next(&mut self, row: &R, number: u64) -> Result<Option<Reason>, OutOfMemory> {
        if let Some(reason) = self.first.stands(row, number)? {
            return Ok(Some(reason));
        }
        self.rest.next(row, number)
    }
}

/// A test, left out where it's known to stand at no row of the slot.
#[derive(Drop)]
pub(crate) struct Unless<T> {
    pub(crate) is_known: bool,
    pub(crate) test: T,
}

impl<R, T: RowTest<R>> RowTest<R> for Unless<T> {
    ghost use Rattle.std.specs.Prelude.{◌≡◌, false, None, if◌then◌else◌};

    ghost test = { λ c before row. if c.is_known then None else T.test c.test before row };

    ghost has_seen = { λ c before. c.is_known ≡ false → T.has_seen c.test before };

    ghost takes_memory = { T.takes_memory };

    #[inline(always)]
    fn stands(&mut self, row: &R, number: u64) -> Result<Option<Reason>, OutOfMemory> {
        if self.is_known {
            return Ok(None);
        }
        self.test.stands(row, number)
    }
}

/// What rows of the same key share: what they are of, or a rank.
#[derive(Clone, Copy)]
pub(crate) enum Shared {
    Item,
    Rank,
}

/// Why a row is refused that shares this with an earlier row, whose number is given.
fn reason_of(shared: Shared, first: u64) -> Reason
    ensures { result ≡ reason_of shared first }
{
    match shared {
        Shared::Item => Reason::Repeat(first),
        Shared::Rank => Reason::RankTaken(first),
    }
}

/// An earlier row has the same key.
pub(crate) struct Repeats<K: Eq + Hash, Q> {
    pub(crate) keys: IndexSet<K, Keyed>,
    pub(crate) rule: Q,
    pub(crate) shared: Shared,
}

// Not derived: so it is dropped in one step where it is held, and not by each list of the set.
impl<K: Eq + Hash + Drop, Q: Drop> Drop for Repeats<K, Q> {
    fn drop(self) {
        let Repeats {
            keys: _,
            rule: _,
            shared: _,
        } = self;
    }
}

impl<K: Eq + Hash, Q: Drop> Repeats<K, Q> {
    /// The keys of the rows.
    pub(crate) fn into_keys(self) -> IndexSet<K, Keyed>
        ensures { result.keys ≡ self.keys.keys }
    {
        let Repeats {
            keys,
            rule: _,
            shared: _,
        } = self;
        keys
    }
}

impl<R, K: Hash + Eq + Copy + Drop, Q: Key<R, K>> RowTest<R> for Repeats<K, Q> {
    ghost use Rattle.admit_core.specs.Faults.{first_row};

    ghost test = { λ c before row. option_map (reason_of c.shared)
        (first_row (λ r. K.eq (Q.key row) (Q.key r)) before) };

    ghost has_seen = { λ c before. c.keys.keys ≡ map Q.key before };

    ghost takes_memory = { Unit {0} };

    #[inline(always)]
    fn stands(&mut self, row: &R, _number: u64) -> Result<Option<Reason>, OutOfMemory> {
        match note(&mut self.keys, &self.rule, row)? {
            Some(first) => Ok(Some(reason_of(self.shared, first))),
            None => Ok(None),
        }
    }
}

/// An earlier row has the same id.
#[derive(Drop)]
pub(crate) struct RepeatsId<Q> {
    pub(crate) alloc: Global,
    pub(crate) keyed: Keyed,
    pub(crate) ids: RowIds,
    pub(crate) rule: Q,
}

impl<R, Q: Key<R, u32>> RowTest<R> for RepeatsId<Q> {
    ghost use Rattle.std.specs.Prelude.{nat_eq};

    ghost test = { λ c. repeats (λ row r. nat_eq (Q.key row) (Q.key r)) };

    ghost has_seen = { λ c before. c.ids.keys ≡ map Q.key before };

    ghost takes_memory = { Unit {0} };

    #[inline(always)]
    fn stands(&mut self, row: &R, _number: u64) -> Result<Option<Reason>, OutOfMemory> {
        match self.ids.note(self.alloc, self.keyed, &self.rule, row)? {
            Some(first) => Ok(Some(Reason::Repeat(first))),
            None => Ok(None),
        }
    }
}

/// What the row names in a field, counted from 1, is not among known ids.
#[derive(Drop)]
pub(crate) struct NamesUnknown<'a, Q> {
    pub(crate) field: u32,
    pub(crate) ids: &'a RowIds,
    pub(crate) rule: Q,
}

impl<'a, R, Q: Key<R, u32>> RowTest<R> for NamesUnknown<'a, Q> {
    ghost test = { λ c. names_unknown c.field (λ row. is_among (Q.key row) c.ids.now.keys) };

    ghost has_seen = { λ c before. Unit {0} };

    ghost takes_memory = { ⊥ };

    #[inline(always)]
    fn stands(&mut self, row: &R, _number: u64) -> Result<Option<Reason>, OutOfMemory> {
        if self.ids.contains(self.rule.key_of(row)) {
            return Ok(None);
        }
        Ok(Some(Reason::Unknown(self.field)))
    }
}
