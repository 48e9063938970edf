//! Which wishes are open at the bars with which a round begins.
ghost use Rattle.std.specs.Prelude.{◌≡◌, ℕ, ◌<◌, ◌&&◌, true, false, length, not, slice_index_or, All, IfOk};
ghost use Rattle.admit_core.specs.Lists.{is_among};
ghost use Rattle.admit_core.specs.State.{is_waiting};
ghost use Rattle.day_state.specs.Kept.{has_bed_there, mark_in};
ghost use Rattle.linked_demand.specs.Opens.{opens_of};
ghost use Rattle.linked_demand.specs.Boarders.{AreBySchool, items_wishes};
ghost use Rattle.linked_demand.specs.Rows.{TellsOfSchool};

use crate::ends::end_of;
use crate::open_wishes::OpenWishes;
use crate::rows::{RowWish, has_item_bed};
use admit_core::{CallOrders, OutOfMemory};
use day_state::DayState;
use std::alloc::Global;

/// Closes the wishes of boarders of a school who have no bed there.
fn close_behind(state: &DayState<'_>, behind: &[RowWish], opens: &mut OpenWishes)
    requires wishes { All (TellsOfSchool state.now.dossier) behind.now }
    requires waits { (k : ℕ) → slice_index_or opens.old k false ≡ true
        → is_waiting (mark_in state.now.marks k) ≡ true }
    requires opens { length opens.old ≡ length state.now.dossier.wishes }
    ensures as_long { length opens.new ≡ length opens.old }
    ensures flags { (k : ℕ) → k < length opens.old → slice_index_or opens.new k false
        ≡ (slice_index_or opens.old k false && not (is_among k (items_wishes behind.now)
        && not (has_bed_there state.now k))) }
{
    for item in behind {
        let has_bed = has_item_bed(state, item);
        opens.close_if(item.wish, !has_bed);
    }
}

/// The open wishes under bars. Of each school the boarders behind its bar are gone along, and no
/// others.
pub fn open_under(
    alloc: Global,
    state: &DayState<'_>,
    orders: &CallOrders,
    boarders: &[Vec<RowWish>],
    bars: &[u32],
) -> Result<OpenWishes, OutOfMemory>
    requires boarders { AreBySchool state.now.dossier orders.now.orders boarders.now }
    requires bars { length bars.now ≡ length state.now.dossier.schools }
    ensures flags { IfOk result (λ o. o ≡ opens_of state.now bars.now) }
    ensures one_each { IfOk result (λ o. length o ≡ length state.now.dossier.wishes) }
{
    let dossier = state.dossier();
    let _ = &dossier.wishes; // learns the invariant
    let _ = state.marks(); // one for each wish
    let mut opens = OpenWishes::all_waiting(alloc, state)?;
    for school in 0..bars.len() {
        let own = boarders[school].as_slice();
        let end = end_of(own, bars[school]);
        close_behind(state, &own[end..], &mut opens);
    }
    Ok(opens)
}
