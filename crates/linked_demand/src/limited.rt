//! The wishes that a limit calls.
ghost use Rattle.std.specs.Prelude.{◌≡◌, IfOk};
ghost use Rattle.linked_demand.specs.Seats.{AreNotes, limited_wishes};

use crate::notes::Notes;
use crate::wishes::wish_count;
use admit_core::{CallOrders, OutOfMemory};
use day_state::DayState;
use std::alloc::Global;

/// The wishes that are called by the limits of their programmes, by place.
pub fn limited_wishes(
    alloc: Global,
    state: &DayState<'_>,
    orders: &CallOrders,
    notes: &Notes,
) -> Result<Vec<u32>, OutOfMemory>
    requires { AreNotes state.now.dossier orders.now.orders notes.now }
    ensures { IfOk result (λ v. v.items
        ≡ limited_wishes state.now.dossier orders.now.orders) }
{
    let mut limited = Vec::new(alloc);
    for wish in 0..wish_count(state) {
        if notes.is_called_by_limit(wish) {
            limited.push(wish)?;
        }
    }
    Ok(limited)
}
