//! The answers of a day, and the refusal of the first that does not fit.
ghost use Rattle.std.specs.Prelude.{◌≡◌, ◌≤◌, ◌+◌, length, slice_range, nat_lt, nat_le, true, false};
ghost use Rattle.std.specs.List.Sorted.{IsNonDecreasingBy, IsPartitionPoint};
ghost use Rattle.desk_day.specs.AnswersOn.{AreAnswersOn, IsApplied, refusal_at};
ghost use Rattle.desk_day.specs.declared.refusal.DayRefusal.TheVariants as refusals;

use crate::refusal::DayRefusal;
use admit_core::{Answer, Dossier, FIRST_ROW, Reason, Refusal, Slot, Stamp};
use day_state::{DayState, UnfitAt};

/// The answers of one day, and the place of the first one.
#[derive(Clone, Copy)]
pub(crate) struct AnswersOn<'d> {
    first: usize,
    pub(crate) answers: &'d [Answer],
}

/// The place of the first answer whose day is not before this one.
fn first_not_before(answers: &[Answer], day: u32) -> usize
    requires { IsNonDecreasingBy (λ a. a.day) answers.now }
    ensures within { result ≤ length answers.now }
    ensures point { IsPartitionPoint (λ a. nat_lt a.day day ≡ true) (λ a. nat_lt a.day day ≡ false)
        answers.now result }
{
    answers.partition_point(|answer| answer.day < day)
}

/// The place of the first answer whose day is after this one.
fn first_after(answers: &[Answer], day: u32) -> usize
    requires { IsNonDecreasingBy (λ a. a.day) answers.now }
    ensures within { result ≤ length answers.now }
    ensures point { IsPartitionPoint (λ a. nat_le a.day day ≡ true) (λ a. nat_le a.day day ≡ false)
        answers.now result }
{
    answers.partition_point(|answer| answer.day <= day)
}

/// The answers from one place up to another, which is left out.
fn between(answers: &[Answer], from: usize, to: usize) -> &[Answer]
    requires rises { from ≤ to }
    requires within { to ≤ length answers.now }
    ensures { result.now ≡ slice_range answers.now from to }
{
    &answers[from..to]
}

/// The answers of a day, found in the order by day.
pub(crate) fn answers_on(dossier: &Dossier, day: u32) -> AnswersOn<'_>
    ensures { AreAnswersOn dossier.now day result.first result.answers.now }
{
    let all = dossier.answers.as_slice();
    let first = first_not_before(all, day);
    let end = first_after(all, day);
    AnswersOn {
        first,
        answers: between(all, first, end),
    }
}

/// The refusal of an answer that does not fit; `first` is the place of the day's first answer.
fn unfit(first: usize, at: UnfitAt) -> DayRefusal
    requires { first ≤ 16000000 }
    ensures { result ≡ refusals.Unfit (refusal_at (first + at.index) at.status) }
{
    DayRefusal::Unfit(Refusal {
        slot: Slot::Answers,
        row: first as u64 + u64::from(at.index) + FIRST_ROW,
        reason: Reason::UnfitAnswer(at.status),
    })
}

/// Applies the answers of a day, or refuses the first one that does not fit.
pub(crate) fn answer(state: &mut DayState<'_>, day: u32) -> Result<(), DayRefusal>
    ensures applied { IsApplied state.old day result state.new }
    ensures dossier { state.new.dossier ≡ state.old.dossier }
{
    let today = answers_on(state.dossier(), day);
    match state.apply_day(today.answers, Stamp { day, pass: 0 }) {
        Ok(()) => Ok(()),
        Err(at) => Err(unfit(today.first, at)),
    }
}
