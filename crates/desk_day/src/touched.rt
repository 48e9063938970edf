//! Whose wishes the lapse and the answers of a day may change.
ghost use Rattle.std.specs.Prelude.{◌≡◌, ◌<◌, ◌++◌, All, IfOk, OnOk, length, map, take};
ghost use Rattle.std.specs.List.{flat_map};
ghost use Rattle.desk_day.specs.DayPlaces.{AreWishesOf};
ghost use Rattle.desk_day.specs.Touched.{touched, wishes_of_answer};

use crate::answers_on::answers_on;
use admit_core::{Answer, AnswerKind, Lapse, OutOfMemory};
use day_state::DayState;
use std::alloc::Global;

/// Wishes of all whose offers lapse, and of all who answer on the day.
pub(crate) fn list_touched(
    alloc: Global,
    state: &DayState<'_>,
    lapsed: &[Lapse],
    day: u32,
) -> Result<Vec<u32>, OutOfMemory>
    requires { All (λ l. l.wish < length state.now.dossier.wishes) lapsed.now }
    ensures listed { IfOk result (λ v. v.items ≡ touched state.now.dossier lapsed.now day) }
    ensures within { IfOk result (λ v. AreWishesOf state.now.dossier v.items) }
{
    let mut places = Vec::new(alloc);
    push_lapsed(&mut places, lapsed)?;
    let today = answers_on(state.dossier(), day);
    push_answered(&mut places, state, today.answers)?;
    Ok(places)
}

/// Adds the wishes of lapses.
fn push_lapsed(places: &mut Vec<u32>, lapsed: &[Lapse]) -> Result<(), OutOfMemory>
    ensures { OnOk result (places.new.items ≡ places.old.items ++ map (λ l. l.wish) lapsed.now) }
{
    for lapse in lapsed {
        places.push(lapse.wish)?;
    }
    Ok(())
}

/// Adds wishes of those who answer.
fn push_answered(
    places: &mut Vec<u32>,
    state: &DayState<'_>,
    answers: &[Answer],
) -> Result<(), OutOfMemory>
    ensures { OnOk result (places.new.items
        ≡ places.old.items ++ flat_map (wishes_of_answer state.now.dossier) answers.now) }
{
    for answer in answers {
        push_wishes_of(places, state, *answer)?;
    }
    Ok(())
}

/// The first of some wishes, or none where there is none.
fn first_of(wishes: &[u32]) -> &[u32]
    ensures { result.now ≡ take 1 wishes.now }
{
    &wishes[..wishes.len().min(1)]
}

/// Adds one wish of the candidate whose answer it is, where they have one.
fn push_wishes_of(
    places: &mut Vec<u32>,
    state: &DayState<'_>,
    answer: Answer,
) -> Result<(), OutOfMemory>
    ensures { OnOk result (places.new.items
        ≡ places.old.items ++ wishes_of_answer state.now.dossier answer) }
{
    match answer.kind {
        AnswerKind::Quit => places.extend_from_slice(first_of(state.own_wishes(answer.target)))?,
        AnswerKind::Accept | AnswerKind::Refuse | AnswerKind::Withdraw => {
            places.push(answer.target)?;
        }
    }
    Ok(())
}
