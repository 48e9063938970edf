//! The morning of a day: its lapse and its answers, with which the passes begin.
ghost use Rattle.std.specs.Prelude.{◌≡◌, None, OnOk, IfErr, IfOk};
ghost use Rattle.std.specs.Option.{option_copied, IsSomeAnd};
ghost use Rattle.admit_core.specs.Days.{after_lapse, morning, unfit_on};
ghost use Rattle.admit_core.specs.Lapses.{AreTermsFor};
ghost use Rattle.admit_core.specs.Ranges.{IsDay as IsDayNumber};
ghost use Rattle.desk_day.specs.AnswersOn.{IsUnfitOf, unfit_refusal};
ghost use Rattle.desk_day.specs.Running.{IsBegun, TouchesOnly};
ghost use Rattle.desk_day.specs.declared.refusal.DayRefusal.TheVariants as refusals;

use crate::answers_on::answer;
use crate::lapses::lapses_by;
use crate::once::keep_one_of_each;
use crate::refusal::DayRefusal;
use crate::touched::list_touched;
use admit_core::{Lapse, Terms};
use day_state::DayState;
use std::alloc::Global;

/// Ends the offers whose deadline has passed, where terms are given.
fn lapse(state: &mut DayState<'_>, terms: Option<&Terms>, day: u32)
    requires { AreTermsFor state.old.dossier (option_copied terms) }
    ensures state { state.new ≡ after_lapse (option_copied terms.entry) day state.old }
    ensures dossier { state.new.dossier ≡ state.old.dossier }
{
    match terms {
        None => {}
        Some(terms) => state.lapse(terms, day),
    }
}

/// Leads from the evening before to the state in which the passes of a day begin. First the offers
/// whose deadline has passed end, where terms are given; then the answers of the day are applied.
/// Where one does not fit, those before it have been applied.
pub fn make_morning(
    state: &mut DayState<'_>,
    terms: Option<&Terms>,
    day: u32,
) -> Result<(), DayRefusal>
    requires { AreTermsFor state.old.dossier (option_copied terms) }
    ensures morning { OnOk result (state.new ≡ morning (option_copied terms.entry) day state.old) }
    ensures fits { OnOk result (unfit_on (option_copied terms.entry) day state.old ≡ None) }
    ensures unfit { IfErr result
        (λ refusal. IsSomeAnd (unfit_on (option_copied terms.entry) day state.old)
        (λ x. refusal ≡ refusals.Unfit (unfit_refusal state.old.dossier day x))) }
    ensures dossier { state.new.dossier ≡ state.old.dossier }
{
    lapse(state, terms, day);
    answer(state, day)
}

/// Makes the morning of a day as [`make_morning`] does, and lists the offers that lapsed, and one
/// wish of each candidate whom the lapse and the answers may have changed. Whether an answer fits
/// is found without taking memory, so one that does not is never told as want of memory.
pub(crate) fn touch_morning(
    alloc: Global,
    state: &mut DayState<'_>,
    terms: Option<&Terms>,
    day: u32,
) -> Result<(Vec<Lapse>, Vec<u32>), DayRefusal>
    requires before { AreTermsFor state.old.dossier (option_copied terms) }
    requires day { IsDayNumber day }

    ensures begun { IfOk result (λ parts. IsBegun (option_copied terms.entry) day state.old
        state.new parts.0.items) }
    ensures touched { IfOk result (λ parts. TouchesOnly parts.1.items state.old state.new) }
    ensures unfit { IfErr result
        (IsUnfitOf state.old.dossier day (unfit_on (option_copied terms.entry) day state.old)) }
    ensures dossier { state.new.dossier ≡ state.old.dossier }
{
    let _ = state.marks(); // one for each wish
    let lapsed = lapses_by(alloc, state, terms, day);
    make_morning(state, terms, day)?;
    let lapsed = lapsed?;
    let mut touched = list_touched(alloc, state, lapsed.as_slice(), day)?;
    keep_one_of_each(&mut touched, state);
    Ok((lapsed, touched))
}
