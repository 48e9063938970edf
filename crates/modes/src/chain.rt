//! The mode `chain`: the falls of the days.
ghost use Rattle.std.specs.Prelude.{All, IfOk};
ghost use Rattle.certificate.specs.ChainText.{HasPassesOf, chain_text};
ghost use Rattle.modes.specs.Endings.{IsDoneWith};

use crate::all_played::AllPlayed;
use crate::reply::{Reply, done};
use admit_core::{Dossier, OutOfMemory};
use certificate::write_chain;
use std::alloc::Global;

/// Replies to `chain`. The desk and the roster are given up before the text is made.
pub(crate) fn reply_to_chain(
    alloc: Global,
    dossier: &Dossier,
    played: AllPlayed<'_, '_>,
) -> Result<Reply, OutOfMemory>
    requires { All (HasPassesOf dossier.now) played.days.items }
    ensures { IfOk result (λ reply. IsDoneWith
        (chain_text dossier.now played.entry.days.items)
        reply.exit reply.text.items) }
{
    let days = played.into_days();
    Ok(done(write_chain(alloc, dossier, days.as_slice())?))
}
