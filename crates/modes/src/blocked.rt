//! The mode `envy`: the wishes that block the evening after the days.
ghost use Rattle.std.specs.Prelude.{◌≡◌, IfOk};
ghost use Rattle.modes.specs.Blocked.{blocked_text};
ghost use Rattle.modes.specs.Endings.{IsDoneWith};

use crate::all_played::AllPlayed;
use crate::reply::{Reply, done};
use admit_core::OutOfMemory;
use day_state::DayState;
use envy::{blocking_pairs_along, envy_text};
use linked_demand::Roster;
use std::alloc::Global;

/// The lines of the wishes that block an evening.
fn blocked_text<'a, 'd>(
    alloc: Global,
    evening: &'a DayState<'d>,
    roster: &'a Roster<'_, 'd>,
) -> Result<Vec<u8>, OutOfMemory>
    requires { roster.now.dossier ≡ evening.now.dossier }
    ensures { IfOk result (λ text. text.items ≡ blocked_text evening.now roster.now.orders) }
{
    let blocks = blocking_pairs_along(alloc, evening, roster)?;
    envy_text(alloc, evening.dossier(), &blocks)
}

/// Replies to `envy`, along the roster of the days. All of the desk but its present state is given
/// up before the wishes are gone through.
pub(crate) fn reply_to_envy(alloc: Global, played: AllPlayed<'_, '_>) -> Result<Reply, OutOfMemory>
    ensures { IfOk result (λ reply. IsDoneWith
        (blocked_text played.entry.last.desk.present played.entry.last.orders)
        reply.exit reply.text.items) }
{
    let (evening, roster) = played.into_last().into_now_along(alloc)?;
    Ok(done(blocked_text(alloc, &evening, &roster)?))
}
