//! Who has a bed in each school.
ghost use Rattle.std.specs.Prelude.{◌≡◌, ℕ, ◌<◌, ◌&&◌, All, Bool, None, [], false, length, nat_eq, nat_le, not, replicate, slice_index_or, slice_set, IfOk};
ghost use Rattle.admit_core.specs.Lists.{is_among};
ghost use Rattle.linked_demand.specs.Housed.{kept, within, AreBare};
ghost use Rattle.linked_demand.specs.Lent.{left_of};
ghost use Rattle.linked_demand.specs.Links.{AllOpenWait};
ghost use Rattle.linked_demand.specs.Rounds.{HousesMore};
ghost use Rattle.linked_demand.specs.Rows.{AreByRankEach, AreEnds};

use crate::beds::left_in;
use crate::ends::front_in;
use crate::housed::Housed;
use crate::links::SeatLinks;
use crate::marks::Marks;
use crate::overfilled::Overfilled;
use crate::row_beds::RowBeds;
use crate::rows::RowWish;
use admit_core::OutOfMemory;
use proposals::wish_at;
use std::alloc::Global;

/// Rows of which all boarders up to the ends are known, and nobody has a bed.
pub fn bare_rows<'a>(
    alloc: Global,
    boarders: &'a [Vec<RowWish>],
    ends: &[usize],
) -> Result<Vec<Housed<'a>>, OutOfMemory>
    requires rows { AreByRankEach boarders.now }
    requires ends { AreEnds boarders.now ends.now }
    ensures { IfOk result (λ v. AreBare boarders.now ends.now v.items) }
{
    let count = boarders.len();
    let mut rows = Vec::with_capacity(alloc, count)?;
    for school in 0..count {
        let front = front_in(boarders, ends, school);
        let row = RowBeds::along(alloc, front)?;
        rows.push(Housed::of(row))?;
    }
    Ok(rows)
}

/// Takes away the beds of a school of those who rank past a bar.
pub fn cut_school(housed: &mut Vec<Housed<'_>>, overfilled: &mut Overfilled, school: u32, to: u32)
    requires housed { school < length housed.old.items }
    requires overfilled { school < length overfilled.old }
    ensures housed { housed.new.items ≡ slice_set housed.old.items school
        (kept (λ r. nat_le r to) (slice_index_or housed.old.items school [])) }
    ensures overfilled { overfilled.new ≡ slice_set overfilled.old school
        (within (λ r. nat_le r to) (slice_index_or overfilled.old school None)) }
{
    housed[school as usize].cut(to);
    let over = overfilled.get(school);
    overfilled.put(school, over.filter(|rank| *rank <= to));
}

/// Houses a wish where it demands a bed.
fn house_wish(
    links: &SeatLinks<'_, '_>,
    beds: &[u32],
    wish: u32,
    housed: &mut Vec<Housed<'_>>,
    overfilled: &mut Overfilled,
)
    requires wish { wish < length links.now.state.dossier.wishes }
    requires waits { AllOpenWait links.now.state links.now.opens }
    requires beds { length beds.now ≡ length links.now.state.dossier.schools }
    requires housed { length housed.old.items ≡ length links.now.state.dossier.schools }
    requires overfilled { length overfilled.old ≡ length links.now.state.dossier.schools }
    ensures as_many { length housed.new.items ≡ length housed.old.items }
    ensures as_long { length overfilled.new ≡ length overfilled.old }
    ensures all { (left : ℕ → Bool) → HousesMore links.now (left_of links.now.state beds.now)
        left (λ k. left k && not (nat_eq k wish))
        (record { overfilled = overfilled.old; housed = housed.old.items })
        (record { overfilled = overfilled.new; housed = housed.new.items }) }
{
    if let Some(school) = links.bed_sought(wish) {
        let state = links.state();
        let rank = wish_at(state, wish).board_rank;
        let free = left_in(state, beds, school);
        let over = housed[school as usize].house(rank, free);
        if over.is_some() {
            overfilled.put(school, over);
        }
    }
}

/// Houses the marked wishes that demand a bed, and takes the marks away.
pub fn house_marked(
    links: &SeatLinks<'_, '_>,
    beds: &[u32],
    marked: &mut Marks,
    housed: &mut Vec<Housed<'_>>,
    overfilled: &mut Overfilled,
)
    requires marked { length marked.old ≡ length links.now.state.dossier.wishes }
    requires waits { AllOpenWait links.now.state links.now.opens }
    requires beds { length beds.now ≡ length links.now.state.dossier.schools }
    requires housed { length housed.old.items ≡ length links.now.state.dossier.schools }
    requires overfilled { length overfilled.old ≡ length links.now.state.dossier.schools }
    ensures unmarked { marked.new ≡ replicate (length marked.old) false }
    ensures all { HousesMore links.now (left_of links.now.state beds.now)
        (λ k. slice_index_or marked.old k false) (λ k. false)
        (record { overfilled = overfilled.old; housed = housed.old.items })
        (record { overfilled = overfilled.new; housed = housed.new.items }) }
{
    while let Some(wish) = marked.take() {
        house_wish(links, beds, wish, housed, overfilled);
    }
}

/// Houses those of some wishes that demand a bed.
pub fn house_listed(
    links: &SeatLinks<'_, '_>,
    beds: &[u32],
    wishes: &[u32],
    housed: &mut Vec<Housed<'_>>,
    overfilled: &mut Overfilled,
)
    requires wishes { All (λ k. k < length links.now.state.dossier.wishes) wishes.now }
    requires waits { AllOpenWait links.now.state links.now.opens }
    requires beds { length beds.now ≡ length links.now.state.dossier.schools }
    requires housed { length housed.old.items ≡ length links.now.state.dossier.schools }
    requires overfilled { length overfilled.old ≡ length links.now.state.dossier.schools }
    ensures { HousesMore links.now (left_of links.now.state beds.now)
        (λ k. is_among k wishes.now) (λ k. false)
        (record { overfilled = overfilled.old; housed = housed.old.items })
        (record { overfilled = overfilled.new; housed = housed.new.items }) }
{
    for wish in wishes {
        house_wish(links, beds, *wish, housed, overfilled);
    }
}
