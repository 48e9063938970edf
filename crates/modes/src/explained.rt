//! The mode `explain`: why a wish stands as it does after the days.
ghost use Rattle.std.specs.Prelude.{◌≡◌, ◌<◌, IfOk, IsTrue, length};
ghost use Rattle.admit_core.specs.EveningLaws.{last_bars};
ghost use Rattle.admit_core.specs.Lists.{is_among};
ghost use Rattle.modes.specs.AfterDays.{left_by, left_on};
ghost use Rattle.modes.specs.Endings.{IsDoneSaying};
ghost use Rattle.modes.specs.Explained.{IsExplained};
ghost use Rattle.played.specs.LastDays.{IsDeskAfter};

use crate::all_played::AllPlayed;
use crate::reply::{Reply, done};
use admit_core::{DayRecord, OutOfMemory, PassEnd};
use desk_day::ceilings_on;
use dossier_check::wish_place;
use explanations::explain_on_desk;
use intake::Input;
use played::DeskAlong;
use report::explain_text;
use std::alloc::Global;

/// The bars of the last pass.
fn last_bars(passes: &[PassEnd]) -> &[u32]
    ensures { result.now ≡ last_bars passes.now }
{
    match passes.last() {
        Some(last) => last.pass.bars.as_slice(),
        None => &[],
    }
}

/// The line that explains the wish of this id, along the roster of the days.
fn explained_text(
    alloc: Global,
    input: &Input,
    days: &[DayRecord],
    along: &DeskAlong<'_, '_>,
    wish: u32,
) -> Result<Vec<u8>, OutOfMemory>
    requires named { IsTrue (is_among wish input.now.index.wishes) }
    requires some_day { 0 < length days.now }
    requires desk { IsDeskAfter input.now.dossier along.now.orders days.now along.now.desk }
    ensures { IfOk result (λ text. IsExplained
        (left_on input.now days.now along.now) wish text.items) }
{
    // `take_in` found the wish in the index: `named`.
    let Some(place) = wish_place(&input.index, wish) else {
        unreachable!()
    };
    // The words of `explain` ask for a day at least: `some_day`.
    let Some(day) = days.last() else {
        unreachable!()
    };
    let ceilings = ceilings_on(alloc, &input.dossier, day.day)?;
    let bars = last_bars(day.passes.as_slice());
    let orders = along.roster().orders();
    let why = explain_on_desk(along.desk(), orders, &ceilings, bars, place);
    explain_text(alloc, &input.dossier, place, why)
}

/// Replies to `explain`, with the opening of the last pass.
pub(crate) fn reply_to_explain(
    alloc: Global,
    input: &Input,
    played: AllPlayed<'_, '_>,
    wish: u32,
) -> Result<Reply, OutOfMemory>
    requires named { IsTrue (is_among wish input.now.index.wishes) }
    requires some_day { 0 < length played.days.items }
    requires desk { IsDeskAfter
        input.now.dossier played.last.orders played.days.items played.last.desk }
    ensures { IfOk result (λ reply. IsDoneSaying
        (IsExplained (left_by input.now played.entry) wish) reply.exit reply.text.items) }
{
    let (days, along) = played.into_along(alloc)?;
    let text = explained_text(alloc, input, days.as_slice(), &along, wish)?;
    Ok(done(text))
}
