//! The mode `sample`: what became of the days of a made-up dossier.
ghost use Rattle.std.specs.Prelude.{IfOk, length};
ghost use Rattle.modes.specs.Endings.{IsDoneWith};
ghost use Rattle.report.specs.SampleText.{sample_text};

use crate::all_played::AllPlayed;
use crate::reply::{Reply, done};
use admit_core::{Dossier, OutOfMemory};
use report::sample_text;
use std::alloc::Global;

/// Replies to `sample`, whose dossier was made up with so many candidates.
pub(crate) fn reply_to_sample(
    alloc: Global,
    dossier: &Dossier,
    number: u32,
    played: AllPlayed<'_, '_>,
) -> Result<Reply, OutOfMemory>
    ensures { IfOk result (λ reply. IsDoneWith
        (sample_text number (length dossier.now.wishes)
        played.entry.days.items played.entry.last.desk.present)
        reply.exit reply.text.items) }
{
    let (days, last) = played.into_parts();
    let evening = last.into_now(alloc)?;
    let wishes = dossier.wishes.len() as u32;
    let text = sample_text(alloc, number, wishes, days.as_slice(), &evening)?;
    Ok(done(text))
}
