//! Who is ranked in a group.
ghost use Rattle.std.specs.Prelude.{◌≡◌, All, is_some, nat_eq, true, IfSome};
ghost use Rattle.std.specs.List.{list_any};
ghost use Rattle.std.specs.List.Sorted.{IsNonDecreasing};
ghost use Rattle.admit_core.specs.declared.tables.Tables.{Tables};
ghost use Rattle.admit_core.specs.Relations.{programme_ids};
ghost use Rattle.dossier_check.specs.Dealt.{SaysWhoIsRanked};
ghost use Rattle.dossier_check.specs.WishTests.{IsRanked};

use crate::near::small;
use crate::row_ids::RowIds;
use admit_core::WishRow;

/// Whether a number stands at a place.
#[inline(always)]
fn stands_at(numbers: &[u32], number: u32, place: usize) -> bool
    ensures { result ≡ true → list_any (nat_eq number) numbers.now ≡ true }
{
    match numbers.get(place) {
        Some(there) => *there == number,
        None => false,
    }
}

/// The place of a number that stands at a place, or just before it.
#[inline(always)]
fn found_near(numbers: &[u32], number: u32, near: usize) -> Option<usize>
    ensures { IfSome result (λ place. list_any (nat_eq number) numbers.now ≡ true) }
{
    if stands_at(numbers, number, near) {
        return Some(near);
    }
    let before = near.saturating_sub(1);
    if stands_at(numbers, number, before) {
        return Some(before);
    }
    None
}

/// A place of a number among ascending ones, found by halves. This is not inlined: a loop over
/// numbers that are mostly near is to be small.
#[inline(never)]
fn search(numbers: &[u32], number: u32) -> Option<usize>
    ensures { IsNonDecreasing numbers.now → is_some result ≡ list_any (nat_eq number) numbers.now }
{
    numbers.binary_search(&number).ok()
}

/// A place of a number among ascending ones, looked for first where `near` says.
#[inline(always)]
fn search_near(numbers: &[u32], number: u32, near: usize) -> Option<usize>
    ensures { IsNonDecreasing numbers.now → is_some result ≡ list_any (nat_eq number) numbers.now }
{
    match found_near(numbers, number, near) {
        Some(place) => Some(place),
        None => search(numbers, number),
    }
}

/// Whether a number is among ascending ones. It's looked for first where `near` says, which becomes
/// the place after it.
#[inline(always)]
fn is_there(numbers: &[u32], number: u32, near: &mut u32) -> bool
    ensures { IsNonDecreasing numbers.now → result ≡ list_any (nat_eq number) numbers.now }
{
    match search_near(numbers, number, *near as usize) {
        Some(place) => {
            *near = small(place.saturating_add(1));
            true
        }
        None => false,
    }
}

/// Whether a number is among ascending ones. The place of a list says where to look first.
#[inline(always)]
fn is_there_by(numbers: &[u32], number: u32, near: &mut [u32], place: usize) -> bool
    ensures { IsNonDecreasing numbers.now → result ≡ list_any (nat_eq number) numbers.now }
{
    match near.get_mut(place) {
        Some(near) => is_there(numbers, number, near),
        None => search(numbers, number).is_some(),
    }
}

/// Who is ranked in each group, by the groups' places.
#[derive(Clone, Copy)]
pub(crate) struct WhoIsRanked<'a> {
    /// The place of each programme's group, by the programmes' places.
    pub(crate) places: &'a [u32],
    pub(crate) candidates: &'a [Vec<u32>],
}

impl<'a> WhoIsRanked<'a> {
    ghost use Rattle.std.specs.Prelude.{◌≡◌, ℕ, Some, position};
    ghost use Rattle.admit_core.specs.declared.tables.Tables.{Tables};
    ghost use Rattle.admit_core.specs.Relations.{is_ranked};
    ghost use Rattle.dossier_check.specs.Dealt.{SaysWhoIsRanked};

    /// Whether a candidate is ranked in the group of the programme at a place. Candidates are
    /// mostly asked for in their order; `near` says where each group was left.
    #[inline(always)]
    pub(crate) fn has(&self, candidate: u32, near: &mut [u32], programme: usize) -> bool
        ensures { (t : Tables) (id : ℕ) → SaysWhoIsRanked t self.now →
            Some programme ≡ position (λ p. nat_eq id p.id) t.programmes →
            result ≡ is_ranked t id candidate }
    {
        let Some(place) = self.places.get(programme) else {
            return false;
        };
        let place = *place as usize;
        let Some(ids) = self.candidates.get(place) else {
            return false;
        };
        is_there_by(ids.as_slice(), candidate, near, place)
    }
}

/// Whether each of these wishes is seen to have a candidate who is ranked. This is asked alone: a
/// loop of few steps waits for many of its reads at once, and most are of places in no order.
pub(crate) fn all_ranked(
    programmes: &RowIds,
    ranked: WhoIsRanked<'_>,
    near: &mut [u32],
    rows: &[WishRow],
) -> bool
    ensures { (t : Tables) → programmes.now.keys ≡ programme_ids t →
        SaysWhoIsRanked t ranked.entry → result ≡ true → All (IsRanked t) rows.now }
{
    for row in rows {
        let Some(place) = programmes.get_index_of(row.programme) else {
            return false;
        };
        if !ranked.has(row.candidate, near, place) {
            return false;
        }
    }
    true
}
