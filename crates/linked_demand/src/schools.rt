//! What a round keeps of the schools of a state: rows, answers and marks.
ghost use Rattle.std.specs.Prelude.{◌≡◌, length, IfOk};
ghost use Rattle.linked_demand.specs.Boarders.{AreBySchool};
ghost use Rattle.linked_demand.specs.Opens.{opens_of};
ghost use Rattle.linked_demand.specs.Rounds.{IsRoundAlong};

use crate::ends::ends_of;
use crate::housed::Housed;
use crate::housing::{bare_rows, house_listed};
use crate::links::SeatLinks;
use crate::marks::Marks;
use crate::overfilled::Overfilled;
use crate::rows::RowWish;
use crate::wishes::wish_count;
use admit_core::OutOfMemory;
use day_state::DayState;
use std::alloc::Global;

/// Of each school how many boarders rank at most at its bar, which ranks have a bed and the first
/// that has none; and a mark for each wish.
pub struct Schools<'a> {
    pub ends: Vec<usize>,
    pub overfilled: Overfilled,
    pub marked: Marks,
    pub housed: Vec<Housed<'a>>,
}

/// The number of schools.
pub fn school_count(state: &DayState<'_>) -> u32
    ensures { result ≡ length state.now.dossier.schools }
{
    state.dossier().schools.len() as u32
}

/// The schools with these beds, at the bars under which the wishes of these links are open.
pub fn schools_of<'a>(
    alloc: Global,
    links: &SeatLinks<'_, '_>,
    boarders: &'a [Vec<RowWish>],
    beds: &[u32],
    bars: &[u32],
) -> Result<Schools<'a>, OutOfMemory>
    requires boarders { AreBySchool links.now.state.dossier links.now.orders boarders.now }
    requires opens { links.now.opens ≡ opens_of links.now.state bars.now }
    requires beds { length beds.now ≡ length links.now.state.dossier.schools }
    requires bars { length bars.now ≡ length links.now.state.dossier.schools }
    ensures { IfOk result (λ x. IsRoundAlong links.now bars.now bars.now beds.now boarders.now
        x.ends.items (record {
          overfilled = x.overfilled;
          marked = x.marked;
          housed = x.housed.items;
        })) }
{
    let state = links.state();
    let _ = state.marks(); // one for each wish
    let mut overfilled = Overfilled::none(alloc, school_count(state))?;
    let marked = Marks::none(alloc, wish_count(state))?;
    let ends = ends_of(alloc, boarders, bars)?;
    let mut housed = bare_rows(alloc, boarders, &ends)?;
    let proposed = links.proposed_listed(alloc)?;
    house_listed(links, beds, &proposed, &mut housed, &mut overfilled);
    Ok(Schools {
        ends,
        overfilled,
        marked,
        housed,
    })
}
