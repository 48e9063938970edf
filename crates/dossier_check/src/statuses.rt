//! The statuses of the wishes.
ghost use Rattle.std.specs.Prelude.{◌≡◌, ◌<◌, ◌∷◌, List, map, length, replicate, slice_set, IfOk, OnErr};
ghost use Rattle.admit_core.specs.declared.state.Status.TheVariants.{Waiting};
ghost use Rattle.admit_core.specs.declared.tables.StateRow.{StateRow};
ghost use Rattle.admit_core.specs.declared.tables.WishRow.{WishRow};
ghost use Rattle.admit_core.specs.Standing.{status_of_row};
ghost use Rattle.dossier_check.specs.Statuses.{status_in};

use crate::row_ids::RowIds;
use admit_core::{OutOfMemory, StateRow, Status, Tables};
use std::alloc::Global;

/// Puts a status at a place.
fn set_status(statuses: &mut Vec<Status>, place: usize, status: Status)
    requires { place < length statuses.old.items }
    ensures { statuses.new.items ≡ slice_set statuses.old.items place status }
{
    statuses[place] = status;
}

/// Puts the status of a row at the place of its wish.
fn put_status(statuses: &mut Vec<Status>, wishes: &RowIds, row: &StateRow)
    requires { length statuses.old.items ≡ length wishes.now.keys }
    ensures put { (ws : List WishRow) (rows : List StateRow) →
        wishes.now.keys ≡ map (λ w. w.id) ws →
        statuses.old.items ≡ map (status_in rows) ws →
        statuses.new.items ≡ map (status_in (row.now ∷ rows)) ws }
    ensures len { length statuses.new.items ≡ length statuses.old.items }
{
    let _ = wishes.len();
    if let Some(place) = wishes.get_index_of(row.wish) {
        set_status(statuses, place, row.status);
    }
}

/// Statuses of a number of wishes, all of which wait. It lacks memory only where there is a wish.
fn all_waiting(alloc: Global, wishes: usize) -> Result<Vec<Status>, OutOfMemory>
    ensures waiting { IfOk result (λ statuses. statuses.items ≡ replicate wishes Waiting) }
    ensures memory { OnErr result (0 < wishes) }
{
    if wishes == 0 {
        return Ok(Vec::new(alloc));
    }
    Ok(vec![in alloc; Status::Waiting; wishes]?)
}

/// The statuses of the wishes; one that no row names waits. Where two rows name a wish, the first
/// counts, so the last row is put first. It lacks memory only where there is a wish.
pub(crate) fn statuses_of(
    alloc: Global,
    tables: &Tables,
    wishes: &RowIds,
) -> Result<Vec<Status>, OutOfMemory>
    requires { wishes.now.keys ≡ map (λ w. w.id) tables.now.wishes }
    ensures statuses { IfOk result (λ statuses.
        statuses.items ≡ map (status_of_row tables.now) tables.now.wishes) }
    ensures memory { OnErr result (0 < length tables.now.wishes) }
{
    let rows = tables.state.as_slice();
    let mut statuses = all_waiting(alloc, tables.wishes.len())?;
    for after in 0..rows.len() {
        put_status(&mut statuses, wishes, &rows[rows.len() - 1 - after]);
    }
    Ok(statuses)
}
