//! The mode `beds`: how many beds a school needs in the last pass, and how the bars stand then.
ghost use Rattle.std.specs.Prelude.{◌≡◌, ◌<◌, ◌≤◌, ◌+◌, ◌-◌, IfOk, IsTrue, OnErr, length};
ghost use Rattle.admit_core.specs.DossierRows.{beds_of};
ghost use Rattle.admit_core.specs.Lists.{is_among};
ghost use Rattle.bed_need.specs.Figures.{Figures, TellsOfFigures, question};
ghost use Rattle.modes.specs.AfterDays.{left_by, left_on};
ghost use Rattle.modes.specs.LentPicker.{TellsPicks};
ghost use Rattle.modes.specs.Beds.{BreaksFigures, BreaksFiguring, IsOnlyText, IsTextOf, PicksForFigures, TellsFigures};
ghost use Rattle.modes.specs.Endings.{IsDoneSaying};
ghost use Rattle.played.specs.LastDays.{IsDeskAfter};

use crate::all_played::AllPlayed;
use crate::reply::{Reply, done};
use admit_core::{DayRecord, Dossier, OutOfMemory};
use bar_fixpoint::Picker;
use bed_need::{BedQuestions, MoreBeds, beds_text};
use day_state::DayState;
use desk_day::ceilings_on;
use dossier_check::school_place;
use intake::Input;
use linked_demand::Roster;
use played::DeskAlong;
use std::alloc::Global;

/// How many beds the school at a place lacks, of those that it needs.
fn lacking(dossier: &Dossier, place: u32, need: u32) -> u32
    requires place { place < length dossier.now.schools }
    requires need { need ≤ 2000000000 }
    ensures value { result ≡ need - beds_of dossier.now place }
    ensures fits { beds_of dossier.now place + result ≤ 2000000000 }
{
    need.saturating_sub(dossier.schools.as_slice()[place as usize].beds)
}

/// The figures of the school at a place: the beds that it needs, and the bars before and after.
fn figures_of(
    alloc: Global,
    dossier: &Dossier,
    questions: &BedQuestions<'_, '_>,
    ceilings: &[u32],
    place: u32,
    picker: &mut dyn Picker,
) -> Result<Vec<u8>, OutOfMemory>
    requires dossier { questions.now.state.dossier ≡ dossier.now }
    requires ceilings { length ceilings.now ≡ length questions.now.state.dossier.schools }
    requires place { place < length questions.now.state.dossier.schools }

    ensures text { IfOk result (λ text. (figures : Figures)
        × IsTextOf dossier.now questions.now.state questions.now.orders ceilings.now place figures
        text.items
        × TellsOfFigures (question questions.now.state questions.now.orders ceilings.now place)
        figures.need (choice picker.old) (told picker.old) (told picker.new)) }
    ensures breaks { OnErr result (BreaksFiguring questions.now.state questions.now.orders
        ceilings.now place (choice picker.old) (told picker.old) (told picker.new)) }
    ensures choice { choice picker.new ≡ choice picker.old }
{
    let need = questions.least_beds(alloc, ceilings, place, picker)?;
    let more = lacking(dossier, place, need);
    let given = MoreBeds {
        school: place,
        beds: more,
    };
    let growth = questions.grown_bars(alloc, ceilings, ceilings, given, picker)?;
    beds_text(alloc, dossier, place, need, &growth)
}

/// Makes the figures of a school in the pass that opened with this state, along a roster of its
/// dossier.
fn figures_text<'a, 'd>(
    alloc: Global,
    dossier: &Dossier,
    opening: &'a DayState<'d>,
    roster: &'a Roster<'a, 'd>,
    ceilings: &[u32],
    place: u32,
    picker: &mut dyn Picker,
) -> Result<Vec<u8>, OutOfMemory>
    requires dossier { opening.now.dossier ≡ dossier.now }
    requires roster { roster.now.dossier ≡ opening.now.dossier }
    requires ceilings { length ceilings.now ≡ length opening.now.dossier.schools }
    requires place { place < length opening.now.dossier.schools }

    ensures text { IfOk result (λ text. (figures : Figures)
        × IsTextOf dossier.now opening.now roster.now.orders ceilings.now place figures text.items
        × TellsOfFigures (question opening.now roster.now.orders ceilings.now place)
        figures.need (choice picker.old) (told picker.old) (told picker.new)) }
    ensures breaks { OnErr result (BreaksFiguring opening.now roster.now.orders ceilings.now place
        (choice picker.old) (told picker.old) (told picker.new)) }
    ensures choice { choice picker.new ≡ choice picker.old }
{
    let questions = BedQuestions::along(opening, roster);
    figures_of(alloc, dossier, &questions, ceilings, place, picker)
}

/// The figures of the school of this id in the last pass. The picker has no say in them.
fn school_text(
    alloc: Global,
    input: &Input,
    days: &[DayRecord],
    along: &DeskAlong<'_, '_>,
    school: u32,
    picker: &mut dyn Picker,
) -> Result<Vec<u8>, OutOfMemory>
    requires named { IsTrue (is_among school input.now.index.schools) }
    requires some_day { 0 < length days.now }
    requires desk { IsDeskAfter input.now.dossier along.now.orders days.now along.now.desk }

    ensures text { IfOk result (λ text. TellsFigures
        (left_on input.now days.now along.now) school text.items) }
    ensures only { IfOk result (λ text. IsOnlyText
        (left_on input.now days.now along.now) school text.items) }
    ensures picks { IfOk result (λ text. TellsPicks (PicksForFigures
        (left_on input.now days.now along.now) school
        (choice picker.old) (told picker.old)) (told picker.old) (told picker.new)) }
    ensures breaks { OnErr result (BreaksFigures (left_on input.now days.now along.now) school
        (record {
          before = told picker.old;
          after = told picker.new;
          choice = choice picker.old;
        })) }
    ensures choice { choice picker.new ≡ choice picker.old }
{
    // `take_in` found the school in the index: `named`.
    let Some(place) = school_place(&input.index, school) else {
        unreachable!()
    };
    // The words of `beds` ask for a day at least: `some_day`.
    let Some(day) = days.last() else {
        unreachable!()
    };
    let ceilings = ceilings_on(alloc, &input.dossier, day.day)?;
    let opening = along.desk().opening();
    figures_text(
        alloc,
        &input.dossier,
        opening,
        along.roster(),
        &ceilings,
        place,
        picker,
    )
}

/// Replies to `beds`, with the opening of the last pass and along the roster of the days.
pub(crate) fn reply_to_beds(
    alloc: Global,
    input: &Input,
    played: AllPlayed<'_, '_>,
    school: u32,
    picker: &mut dyn Picker,
) -> Result<Reply, OutOfMemory>
    requires named { IsTrue (is_among school input.now.index.schools) }
    requires some_day { 0 < length played.days.items }
    requires desk { IsDeskAfter
        input.now.dossier played.last.orders played.days.items played.last.desk }

    ensures text { IfOk result (λ reply. IsDoneSaying
        (TellsFigures (left_by input.now played.entry) school) reply.exit reply.text.items) }
    ensures picks { IfOk result (λ _. TellsPicks (PicksForFigures
        (left_by input.now played.entry) school
        (choice picker.old) (told picker.old)) (told picker.old) (told picker.new)) }
    ensures breaks { OnErr result (BreaksFigures (left_by input.now played.entry) school
        (record {
          before = told picker.old;
          after = told picker.new;
          choice = choice picker.old;
        })) }
    ensures choice { choice picker.new ≡ choice picker.old }
{
    let (days, along) = played.into_along(alloc)?;
    let text = school_text(alloc, input, days.as_slice(), &along, school, picker)?;
    Ok(done(text))
}
