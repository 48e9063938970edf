//! The test of whether the candidate of a wish may wish for what it names.
ghost use Rattle.std.specs.Prelude.{◌≡◌, ◌||◌, ℕ, List, Some, is_some, nat_eq, position, true};
ghost use Rattle.std.specs.Result.{result_err};
ghost use Rattle.std.specs.Option.{option_map_or};
ghost use Rattle.admit_core.specs.declared.tables.Tables.{Tables};
ghost use Rattle.admit_core.specs.declared.tables.WishRow.{WishRow};
ghost use Rattle.admit_core.specs.Lists.{is_among};
ghost use Rattle.admit_core.specs.Relations.{is_boarded, is_ranked};
ghost use Rattle.dossier_check.specs.Dealt.{SaysWhoIsRanked};
ghost use Rattle.dossier_check.specs.Known.{IsKnown};
ghost use Rattle.dossier_check.specs.RowsBefore.{boarded_pairs};
ghost use Rattle.dossier_check.specs.WishTests.{may_not_wish};

use crate::known::Known;
use crate::near::NamedPlaces;
use crate::row_ids::RowIds;
use crate::row_tests::RowTest;
use crate::who_is_ranked::WhoIsRanked;
use admit_core::{OutOfMemory, Reason, Tables, WishRow};
use indexmap::IndexSet;
use keyed_hash::Keyed;

/// Whether a wish's school is there, or it has none.
fn knows_school(schools: &RowIds, school: Option<u32>) -> bool
    ensures { result ≡ option_map_or (λ h. is_among h schools.now.keys) school true }
{
    match school {
        Some(school) => schools.contains(school),
        None => true,
    }
}

/// Whether a candidate is ranked in the group of the programme at a place, or all are known to be.
fn is_ranked(
    all_ranked: bool,
    ranked: WhoIsRanked<'_>,
    near: &mut [u32],
    candidate: u32,
    programme: usize,
) -> bool
    ensures { (t : Tables) (id : ℕ) → SaysWhoIsRanked t ranked.entry →
        Some programme ≡ position (λ p. nat_eq id p.id) t.programmes →
        result ≡ (all_ranked || is_ranked t id candidate) }
{
    if all_ranked {
        return true;
    }
    ranked.has(candidate, near, programme)
}

/// The place of a candidate's rank in a school, or 0 without one.
fn rank_place(
    boarded: &IndexSet<(u32, u32), Keyed>,
    candidate: u32,
    school: Option<u32>,
) -> Option<usize>
    ensures { (t : Tables) → boarded.now.keys ≡ boarded_pairs t →
        is_some result ≡ option_map_or (λ h. is_boarded t h candidate) school true }
{
    match school {
        Some(school) => boarded.get_index_of(&(school, candidate)),
        None => Some(0),
    }
}

/// Where a wish has what it names, or why its candidate may not wish for that.
#[inline(always)]
fn places_named(
    known: &Known<'_>,
    all_ranked: bool,
    near: &mut [u32],
    row: &WishRow,
) -> Result<NamedPlaces, Reason>
    ensures { (t : Tables) (before : List WishRow) → IsKnown t known.now →
        result_err result ≡ may_not_wish all_ranked t before row.now }
{
    let Some(programme) = known.programmes.get_index_of(row.programme) else {
        return Err(Reason::Unknown(3));
    };
    if !knows_school(known.schools, row.school) {
        return Err(Reason::Unknown(4));
    }
    if !is_ranked(all_ranked, known.ranked, near, row.candidate, programme) {
        return Err(Reason::Unranked);
    }
    let Some(rank) = rank_place(known.boarded, row.candidate, row.school) else {
        return Err(Reason::NoBoardingRank);
    };
    Ok(NamedPlaces::of(programme, rank))
}

/// The candidate may not wish for what the wish names, or it isn't there.
pub(crate) struct MayNotWish<'a> {
    pub(crate) tables: &'a Tables,
    pub(crate) known: Known<'a>,
    /// All candidates are known to be ranked.
    pub(crate) all_ranked: bool,
    /// For each group the place after the candidate found last, by the groups' places.
    pub(crate) near: Vec<u32>,
    /// Where the wishes so far have what they name.
    pub(crate) places: Vec<NamedPlaces>,
}

// Not derived: so it is dropped in one step where it is held, and not by each list.
impl<'a> Drop for MayNotWish<'a> {
    fn drop(self) {
        let MayNotWish {
            tables: _,
            known: _,
            all_ranked: _,
            near: _,
            places: _,
        } = self;
    }
}

impl<'a> MayNotWish<'a> {
    /// Where the wishes have what they name.
    pub(crate) fn into_places(self) -> Vec<NamedPlaces> {
        let MayNotWish {
            tables: _,
            known: _,
            all_ranked: _,
            near: _,
            places,
        } = self;
        places
    }
}

impl<'a> RowTest<WishRow> for MayNotWish<'a> {
    ghost use Rattle.dossier_check.specs.Known.{IsKnown};
    ghost use Rattle.dossier_check.specs.WishTests.{may_not_wish};

    ghost test = { λ c. may_not_wish c.all_ranked c.tables.now };

    ghost has_seen = { λ c before. IsKnown c.tables.now c.known };

    ghost takes_memory = { Unit {0} };

    #[inline(always)]
    fn stands(&mut self, row: &WishRow, _number: u64) -> Result<Option<Reason>, OutOfMemory> {
        let near = self.near.as_mut_slice();
        match places_named(&self.known, self.all_ranked, near, row) {
            Ok(places) => {
                self.places.push(places)?;
                Ok(None)
            }
            Err(reason) => Ok(Some(reason)),
        }
    }
}
