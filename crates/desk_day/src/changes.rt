//! What the automatic answers after a pass changed.
ghost use Rattle.std.specs.Prelude.{◌≡◌, ◌<◌, IfOk, ◌&&◌};
ghost use Rattle.day_state.specs.Others.{SameOthers};
ghost use Rattle.desk_day.specs.Changes.{answered_changes, is_answered_change, wishes_beside};
ghost use Rattle.desk_day.specs.DayPlaces.{AreWishesOf};

use admit_core::{Change, OutOfMemory, Status};
use day_state::DayState;
use std::alloc::Global;

/// The wishes whose status is neither that of the pass's opening nor `offered`, with their status.
/// Only an automatic answer can have led there.
pub(crate) fn answered_changes(
    alloc: Global,
    opening: &DayState<'_>,
    closing: &DayState<'_>,
) -> Result<Vec<Change>, OutOfMemory>
    requires { closing.now.dossier ≡ opening.now.dossier }
    ensures { IfOk result (λ v. v.items ≡ answered_changes opening.now closing.now) }
{
    let _ = opening.marks(); // one for each wish
    let _ = closing.marks();
    let mut changes = Vec::new(alloc);
    let count = opening.dossier().wishes.len() as u32;
    for wish in 0..count {
        let status = closing.status(wish);
        if is_answered_change(opening.status(wish), status) {
            changes.push(Change { wish, status })?;
        }
    }
    Ok(changes)
}

/// Lists what [`answered_changes`] does, at the wishes of a few candidates: those of these wishes.
/// Nobody else's may have changed.
pub(crate) fn changes_beside(
    alloc: Global,
    opening: &DayState<'_>,
    closing: &DayState<'_>,
    places: &[u32],
) -> Result<Vec<Change>, OutOfMemory>
    requires same { closing.now.dossier ≡ opening.now.dossier }
    requires within { AreWishesOf opening.now.dossier places.now }
    requires others { SameOthers places.now opening.now closing.now }
    ensures { IfOk result (λ v. v.items ≡ answered_changes opening.now closing.now) }
{
    let _ = opening.marks(); // one for each wish
    let _ = closing.marks();
    let own = wishes_beside(alloc, opening, places)?;
    let mut changes = Vec::new(alloc);
    for place in own.as_slice() {
        let wish = *place;
        let status = closing.status(wish);
        if is_answered_change(opening.status(wish), status) {
            changes.push(Change { wish, status })?;
        }
    }
    Ok(changes)
}

/// All wishes of the candidates of these wishes.
fn wishes_beside(
    alloc: Global,
    state: &DayState<'_>,
    places: &[u32],
) -> Result<Vec<u32>, OutOfMemory>
    requires { AreWishesOf state.now.dossier places.now }
    ensures { IfOk result (λ v. v.items ≡ wishes_beside state.now.dossier places.now) }
{
    let mut own = Vec::new(alloc);
    for place in places {
        own.extend_from_slice(state.own_wishes_beside(*place))?;
    }
    own.sort_unstable();
    own.dedup();
    Ok(own)
}

/// Whether an automatic answer led from the status in a pass's opening to that in its closing.
fn is_answered_change(opening: Status, closing: Status) -> bool
    ensures { result ≡ is_answered_change opening closing }
{
    opening != closing && closing != Status::Offered
}
