//! The tests of the preferences of a candidate's wishes.
ghost use Rattle.std.specs.Prelude.{◌≡◌, [], nat_eq, IfOk};
ghost use Rattle.indexmap.specs.IndexMap.{get};
ghost use Rattle.dossier_check.specs.Pairs.{pair_eq};
ghost use Rattle.dossier_check.specs.RowsBefore.{has_preference, AreFirstRows, AreFirstWishes, IsLast, first_of};

use crate::apart::Apart;
use crate::first_wishes::{FirstWish, FirstWishes};
use crate::noted::note_first;
use crate::row_ids::RowIds;
use crate::row_tests::{NoTest, RowTest, Then, Unless};
use admit_core::{OutOfMemory, Reason, WishRow};
use indexmap::IndexMap;
use keyed_hash::Keyed;
use std::alloc::Global;

/// A candidate, with their first wish.
#[derive(Clone, Copy)]
pub(crate) struct LastCandidate {
    pub(crate) candidate: u32,
    pub(crate) first: FirstWish,
}

/// Of this wish and the candidate's first one, one has a preference and the other has none.
pub(crate) struct PreferenceMixed {
    pub(crate) firsts: FirstWishes,
    /// The candidate of the row before: a candidate's wishes mostly stand together.
    pub(crate) last: Option<LastCandidate>,
}

// Not derived: so it is dropped in one step where it is held, and not by each list.
impl Drop for PreferenceMixed {
    fn drop(self) {
        let PreferenceMixed { firsts: _, last: _ } = self;
    }
}

impl PreferenceMixed {
    ghost use Rattle.std.specs.Prelude.{ℕ, if◌then◌else◌, IsSome, IfSome, OnErr, None, Some};
    ghost use Rattle.dossier_check.specs.RowsBefore.{IsLast, first_of};

    /// The first wish of a candidate who is that of the row before.
    fn first_of_last(&self, candidate: u32) -> Option<FirstWish>
        ensures { IsLast self.now.firsts self.now.last →
            IfSome result (λ first. first_of self.now.firsts candidate ≡ Some first) }
    {
        match self.last {
            Some(last) if last.candidate == candidate => Some(last.first),
            _ => None,
        }
    }

    /// Notes a wish of a candidate, unless they had one before; then answers that one.
    #[inline(always)]
    fn note(&mut self, candidate: u32, own: FirstWish) -> Result<Option<FirstWish>, OutOfMemory>
        ensures first { IsLast self.old.firsts self.old.last →
            IfOk result (λ first. first ≡ first_of self.old.firsts candidate) }
        ensures kept { IfOk result (λ first. IsSome first →
            (k : ℕ) → first_of self.new.firsts k ≡ first_of self.old.firsts k) }
        ensures noted { IsLast self.old.firsts self.old.last →
            IfOk result (λ first. first ≡ None → (k : ℕ) → first_of self.new.firsts k ≡
            (if nat_eq candidate k then Some own else first_of self.old.firsts k)) }
        ensures last { IsLast self.old.firsts self.old.last →
            IfOk result (λ first. IsLast self.new.firsts self.new.last) }
        ensures told { OnErr result (first_of self.old.firsts candidate ≡ None) }
    {
        if let Some(first) = self.first_of_last(candidate) {
            return Ok(Some(first));
        }
        let first = self.firsts.note(candidate, own)?;
        self.last = Some(LastCandidate {
            candidate,
            first: first.unwrap_or(own),
        });
        Ok(first)
    }

    /// The candidates.
    fn into_candidates(self) -> RowIds
        ensures { result ≡ self.firsts.candidates }
    {
        let PreferenceMixed { firsts, last: _ } = self;
        firsts.into_candidates()
    }
}

impl RowTest<WishRow> for PreferenceMixed {
    ghost use Rattle.admit_core.specs.Relations.{preference_mixed};
    ghost use Rattle.dossier_check.specs.RowsBefore.{AreFirstWishes, IsLast, first_of};

    ghost test = { λ c. preference_mixed };

    ghost has_seen = { λ c before. AreFirstWishes (first_of c.firsts) before
        × IsLast c.firsts c.last };

    ghost takes_memory = { Unit {0} };

    #[inline(always)]
    fn stands(&mut self, row: &WishRow, number: u64) -> Result<Option<Reason>, OutOfMemory> {
        let own = FirstWish {
            row: number,
            preference: row.preference,
        };
        match self.note(row.candidate, own)? {
            Some(first) if (first.preference == 0) != (row.preference == 0) => {
                Ok(Some(Reason::PreferenceMixed(first.row)))
            }
            _ => Ok(None),
        }
    }
}

/// An earlier wish of the candidate has the same positive preference.
pub(crate) struct PreferenceTaken {
    pub(crate) rows: IndexMap<(u32, u32), u64, Keyed>,
}

// Not derived, as above.
impl Drop for PreferenceTaken {
    fn drop(self) {
        let PreferenceTaken { rows: _ } = self;
    }
}

impl RowTest<WishRow> for PreferenceTaken {
    ghost use Rattle.indexmap.specs.IndexMap.{get};
    ghost use Rattle.admit_core.specs.Relations.{preference_taken};
    ghost use Rattle.dossier_check.specs.Pairs.{pair_eq};
    ghost use Rattle.dossier_check.specs.RowsBefore.{AreFirstRows, has_preference};

    ghost test = { λ c. preference_taken };

    ghost has_seen = { λ c before. AreFirstRows has_preference (get pair_eq c.rows) before };

    ghost takes_memory = { Unit {0} };

    #[inline(always)]
    fn stands(&mut self, row: &WishRow, number: u64) -> Result<Option<Reason>, OutOfMemory> {
        if row.preference == 0 {
            return Ok(None);
        }
        match note_first(&mut self.rows, (row.candidate, row.preference), number)? {
            Some(first) => Ok(Some(Reason::PreferenceTaken(first))),
            None => Ok(None),
        }
    }
}

/// The tests of preferences.
pub(crate) type PreferenceTests = Then<PreferenceMixed, Then<Unless<PreferenceTaken>, NoTest>>;

/// The tests of preferences, before the first row.
pub(crate) fn preference_tests(
    alloc: Global,
    keyed: Keyed,
    by_wish: Keyed,
    apart: Apart,
) -> PreferenceTests
    ensures firsts { AreFirstWishes (first_of result.first.firsts) [] }
    ensures last { IsLast result.first.firsts result.first.last }
    ensures known { result.rest.first.is_known ≡ apart.preferences }
    ensures rows { AreFirstRows has_preference (get pair_eq result.rest.first.test.rows) [] }
{
    Then {
        first: PreferenceMixed {
            firsts: FirstWishes::new(alloc, keyed),
            last: None,
        },
        rest: Then {
            first: Unless {
                is_known: apart.preferences,
                test: PreferenceTaken {
                    rows: IndexMap::with_hasher(alloc, by_wish),
                },
            },
            rest: NoTest,
        },
    }
}

/// The candidates, as the tests of preferences keep them.
pub(crate) fn candidates_in(tests: PreferenceTests) -> RowIds
    ensures { result ≡ tests.first.firsts.candidates }
{
    let Then { first, rest: _ } = tests;
    first.into_candidates()
}
