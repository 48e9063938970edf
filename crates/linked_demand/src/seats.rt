//! Who has a seat while no wish is closed yet.
ghost use Rattle.std.specs.Prelude.{◌≡◌, ◌<◌, false, length, IfOk, slice_index_or};
ghost use Rattle.linked_demand.specs.Links.{AllOpenWait};
ghost use Rattle.linked_demand.specs.Lineups.{IsLineupOf, IsReachedIn};
ghost use Rattle.linked_demand.specs.Opens.{all_exempt, exempt_at};

use crate::line::reach_of;
use crate::lineup::Lineup;
use crate::notes::Notes;
use crate::open_wishes::OpenWishes;
use admit_core::{CallOrders, OutOfMemory};
use day_state::{DayState, seats_left};
use proposals::programme_count;
use std::alloc::Global;

/// Whether the candidate of the wish at a place is called by the limit of its programme, or is live
/// there, which is asked of the others alone.
fn is_exempt(state: &DayState<'_>, notes: &Notes, place: u32) -> bool
    requires place { place < length state.now.dossier.wishes }
    ensures { result ≡ exempt_at state.now notes.now.called_by_limit place }
{
    notes.is_called_by_limit(place) || state.is_live_in_its_programme(place)
}

/// Whether the candidate of the wish at a place needs no seat.
pub fn needs_no_seat(state: &DayState<'_>, notes: &Notes, place: u32) -> bool
    requires place { place < length state.now.dossier.wishes }
    ensures { result ≡ slice_index_or (all_exempt state.now notes.now.called_by_limit)
        place false }
{
    is_exempt(state, notes, place)
}

/// How many places of each programme's line are reached where these wishes are open.
pub fn reached_of(
    alloc: Global,
    state: &DayState<'_>,
    orders: &CallOrders,
    lineup: &Lineup,
    opens: &OpenWishes,
) -> Result<Vec<usize>, OutOfMemory>
    requires lineup { IsLineupOf state.now.dossier orders.now.orders lineup.now }
    requires opens { length opens.now ≡ length state.now.dossier.wishes }
    requires waits { AllOpenWait state.now opens.now }
    ensures { IfOk result (λ v. IsReachedIn state.now orders.now.orders opens.now
        v.items lineup.now) }
{
    let _ = state.marks(); // one for each wish
    let programmes = programme_count(state);
    let mut reached = Vec::with_capacity(alloc, programmes as usize)?;
    for programme in 0..programmes {
        let claims = &lineup.claims[programme as usize];
        let left = seats_left(state, programme) as usize;
        reached.push(reach_of(state, opens, claims, left))?;
    }
    Ok(reached)
}
