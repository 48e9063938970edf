//! The tests of wishes.
ghost use Rattle.std.specs.Prelude.{◌≡◌, ◌<◌, ◌^◌, ◌&&◌, [], All, true, length, nat_eq, IfOk, if◌then◌else◌};
ghost use Rattle.admit_core.specs.declared.slot.Slot.TheVariants as slots;
ghost use Rattle.admit_core.specs.declared.tables.Tables.{Tables};
ghost use Rattle.admit_core.specs.Faults.{first_in};
ghost use Rattle.admit_core.specs.Relations.{wish_tests, wish_ids};
ghost use Rattle.dossier_check.specs.Hashing.{numbers_of_wishes};
ghost use Rattle.dossier_check.specs.Known.{IsKnown};
ghost use Rattle.dossier_check.specs.Outcome.{AnswersFault, MayLack};
ghost use Rattle.dossier_check.specs.WishTests.{IsRanked, others_unless, tests_unless};
ghost use Rattle.dossier_check.specs.RowsBefore.{KnowsCandidates};
ghost use Rattle.keyed_hash.specs.Keys.{keyed_by};

use crate::apart::{Apart, shown_apart};
use crate::hashing::hashing_of_wishes;
use crate::known::Known;
use crate::near::{NamedPlaces, first_places, in_file_order};
use crate::ordered::{candidates_rise, shown_in_order};
use crate::preferences::{PreferenceTests, candidates_in, preference_tests};
use crate::row_ids::RowIds;
use crate::row_tests::{Repeats, RepeatsId, Shared, Then, Unless};
use crate::rules::{OwnId, WhatIsWished};
use crate::scan::{RowChecks, scanned};
use crate::tag::Tag;
use crate::who_is_ranked::all_ranked;
use crate::wish_ranks::MayNotWish;
use admit_core::{InFault, OutOfMemory, Slot, Tables, WishRow};
use indexmap::IndexSet;
use keyed_hash::Keyed;
use std::alloc::Global;

/// The ids of the wishes by place, and who has a wish.
pub(crate) struct WishKeys {
    pub(crate) ids: RowIds,
    /// The candidates, in the order in which their wishes were tested.
    pub(crate) candidates: RowIds,
    /// Where the tests found what the wishes name, by the wishes' places.
    pub(crate) places: Vec<NamedPlaces>,
}

// Not derived, as above.
impl Drop for WishKeys {
    fn drop(self) {
        let WishKeys {
            ids: _,
            candidates: _,
            places: _,
        } = self;
    }
}

impl WishKeys {
    /// The ids, and where what the wishes name was found.
    pub(crate) fn into_parts(self) -> (RowIds, Vec<NamedPlaces>)
        ensures ids { result.0 ≡ self.ids }
        ensures places { result.1 ≡ self.places }
    {
        let WishKeys {
            ids,
            candidates: _,
            places,
        } = self;
        (ids, places)
    }
}

/// The tests of wishes, in their order.
type WishTests<'a> = Then<RepeatsId<OwnId>, OtherTests<'a>>;

/// The tests of wishes but that of ids.
pub(crate) type OtherTests<'a> = Then<
    Unless<Repeats<(u32, u32, Option<u32>), WhatIsWished>>,
    Then<MayNotWish<'a>, PreferenceTests>,
>;

/// The hashing of what wishes are of and of the preferences, which has a key of its own where order
/// does not show that both are apart.
fn hashing_by(keyed: Keyed, apart: Apart, rows: &[WishRow]) -> Keyed
    ensures { result ≡ (if apart.wishes && apart.preferences then keyed
        else keyed_by (numbers_of_wishes rows.now)) }
{
    if apart.wishes && apart.preferences {
        return keyed;
    }
    hashing_of_wishes(rows)
}

/// What the tests but that of ids keep: the candidates, and where what the wishes name was found.
pub(crate) struct Kept {
    pub(crate) candidates: RowIds,
    pub(crate) places: Vec<NamedPlaces>,
}

// Not derived, as above.
impl Drop for Kept {
    fn drop(self) {
        let Kept {
            candidates: _,
            places: _,
        } = self;
    }
}

/// What the tests but that of ids keep.
pub(crate) fn kept_in(tests: OtherTests<'_>) -> Kept
    ensures { result.candidates ≡ tests.entry.rest.rest.first.firsts.candidates }
{
    let Then { first: _, rest } = tests;
    let Then {
        first: named,
        rest: preferences,
    } = rest;
    Kept {
        candidates: candidates_in(preferences),
        places: named.into_places(),
    }
}

impl Kept {
    /// What is kept of wishes that were tested in another order, put in that of the file. Tags tell
    /// the order.
    pub(crate) fn by_file(self, alloc: Global, tags: &[Tag]) -> Result<Kept, OutOfMemory>
        ensures { IfOk result (λ kept. kept.candidates ≡ self.candidates) }
    {
        let Kept { candidates, places } = self;
        Ok(Kept {
            candidates,
            places: in_file_order(alloc, tags, places.as_slice())?,
        })
    }

    /// What the wishes with these ids are found by.
    pub(crate) fn into_keys(self, ids: RowIds) -> WishKeys
        ensures ids { result.ids ≡ ids }
        ensures candidates { result.candidates ≡ self.candidates }
    {
        let Kept { candidates, places } = self;
        WishKeys {
            ids,
            candidates,
            places,
        }
    }
}

/// What the tests of wishes keep.
fn keys_in(tests: WishTests<'_>) -> WishKeys
    ensures ids { result.ids ≡ tests.entry.first.ids }
    ensures candidates { result.candidates ≡ tests.entry.rest.rest.rest.first.firsts.candidates }
{
    let Then { first: own, rest } = tests;
    kept_in(rest).into_keys(own.ids)
}

/// Whether each of these wishes is seen to have a candidate who is ranked.
pub(crate) fn ranked_in(
    alloc: Global,
    known: Known<'_>,
    rows: &[WishRow],
) -> Result<bool, OutOfMemory>
    ensures { (t : Tables) → IsKnown t known.entry →
        IfOk result (λ ranked. ranked ≡ true → All (IsRanked t) rows.now) }
{
    let mut near = first_places(alloc, known.ranked.candidates.len())?;
    Ok(all_ranked(known.programmes, known.ranked, near.as_mut_slice(), rows))
}

/// The test of what wishes name, before the first row.
fn name_test<'a>(
    alloc: Global,
    all_ranked: bool,
    tables: &'a Tables,
    known: Known<'a>,
) -> Result<MayNotWish<'a>, OutOfMemory>
    requires { IsKnown tables.now known }
    ensures known { IfOk result (λ test. IsKnown test.tables.now test.known) }
    ensures tables { IfOk result (λ test. test.tables.now ≡ tables.now) }
    ensures ranked { IfOk result (λ test. test.all_ranked ≡ all_ranked) }
{
    Ok(MayNotWish {
        tables,
        known,
        all_ranked,
        near: first_places(alloc, known.ranked.candidates.len())?,
        places: Vec::with_capacity(alloc, tables.wishes.len())?,
    })
}

/// The tests of wishes but that of ids, before the first row.
pub(crate) fn other_tests<'a>(
    alloc: Global,
    apart: Apart,
    ranked: bool,
    tables: &'a Tables,
    known: Known<'a>,
) -> Result<OtherTests<'a>, OutOfMemory>
    requires { IsKnown tables.now known }
    ensures fresh { IfOk result (λ tests.
        ⟦<OtherTests<'a> as RowChecks<WishRow>>⟧.has_seen tests []) }
    ensures tests { IfOk result (λ tests.
        ⟦<OtherTests<'a> as RowChecks<WishRow>>⟧.tests tests
        ≡ others_unless apart.wishes ranked apart.preferences tables.now) }
{
    let by_wish = hashing_by(known.keyed, apart, tables.wishes.as_slice());
    Ok(Then {
        first: Unless {
            is_known: apart.wishes,
            test: Repeats {
                keys: IndexSet::with_hasher(alloc, by_wish),
                rule: WhatIsWished,
                shared: Shared::Item,
            },
        },
        rest: Then {
            first: name_test(alloc, ranked, tables, known)?,
            rest: preference_tests(alloc, known.keyed, by_wish, apart),
        },
    })
}

/// The tests of wishes, before the first row.
fn fresh_tests<'a>(
    alloc: Global,
    apart: Apart,
    ranked: bool,
    tables: &'a Tables,
    known: Known<'a>,
) -> Result<WishTests<'a>, OutOfMemory>
    requires { IsKnown tables.now known }
    ensures fresh { IfOk result (λ tests.
        ⟦<WishTests<'a> as RowChecks<WishRow>>⟧.has_seen tests []) }
    ensures tests { IfOk result (λ tests.
        ⟦<WishTests<'a> as RowChecks<WishRow>>⟧.tests tests
        ≡ tests_unless apart.wishes ranked apart.preferences tables.now) }
{
    let ids = RowIds::with_room(alloc, tables.wishes.len())?;
    Ok(Then {
        first: RepeatsId {
            alloc,
            keyed: known.keyed,
            ids,
            rule: OwnId,
        },
        rest: other_tests(alloc, apart, ranked, tables, known)?,
    })
}

/// Checks the wishes, row by row.
fn check_rows<'a>(alloc: Global, tables: &'a Tables, known: Known<'a>) -> Result<WishKeys, InFault>
    requires known { IsKnown tables.now known }
    requires small { length tables.now.wishes < 2 ^ 32 }
    ensures fault { AnswersFault result
        (first_in slots.Wishes (wish_tests tables.now) tables.now.wishes) }
    ensures ids { IfOk result (λ keys. keys.ids.keys ≡ wish_ids tables.now) }
    ensures candidates { IfOk result (λ keys.
        KnowsCandidates keys.candidates.keys tables.now.wishes) }
{
    let rows = tables.wishes.as_slice();
    let apart = shown_apart(alloc, rows)?;
    let ranked = ranked_in(alloc, known, rows)?;
    let tests = fresh_tests(alloc, apart, ranked, tables, known)?;
    Ok(keys_in(scanned(Slot::Wishes, tests, rows)?))
}

/// What no wishes are found by.
fn no_keys(alloc: Global) -> WishKeys
    ensures ids { result.ids.keys ≡ [] }
    ensures candidates { result.candidates.keys ≡ [] }
{
    WishKeys {
        ids: RowIds::new(alloc),
        candidates: RowIds::new(alloc),
        places: Vec::new(alloc),
    }
}

/// Checks the wishes. Those whose candidates don't rise are put in order first, and tested row by
/// row only where that shows a fault, to find the first. It lacks memory only where there is a
/// wish.
pub(crate) fn check_wishes<'a>(
    alloc: Global,
    tables: &'a Tables,
    known: Known<'a>,
) -> Result<WishKeys, InFault>
    requires known { IsKnown tables.now known }
    requires small { length tables.now.wishes < 2 ^ 32 }
    ensures fault { AnswersFault result
        (first_in slots.Wishes (wish_tests tables.now) tables.now.wishes) }
    ensures ids { IfOk result (λ keys. keys.ids.keys ≡ wish_ids tables.now) }
    ensures candidates { IfOk result (λ keys.
        KnowsCandidates keys.candidates.keys tables.now.wishes) }
    ensures memory { MayLack (0 < length tables.now.wishes) result }
{
    if tables.wishes.len() == 0 {
        return Ok(no_keys(alloc));
    }
    if !candidates_rise(tables.wishes.as_slice()) {
        if let Some(keys) = shown_in_order(alloc, tables, known)? {
            return Ok(keys);
        }
    }
    check_rows(alloc, tables, known)
}
