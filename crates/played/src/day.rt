//! One day of a run, with its picker.
ghost use Rattle.std.specs.Prelude.{◌≡◌, IsSome, option_copied};
ghost use Rattle.admit_core.specs.Lapses.{AreTermsFor};
ghost use Rattle.admit_core.specs.Ranges.{IsDay as IsDayNumber};
ghost use Rattle.desk_day.specs.KeptDays.{kept_result};
ghost use Rattle.played.specs.Lent.{AreThere, choice_in, lent, told_in};
ghost use Rattle.played.specs.OneDay.{DayEndsWith};
ghost use Rattle.played.specs.PlayedDays.{EndsNext};
ghost use Rattle.round.specs.KeptFalls.{IsKeptOf, are_kept};

use crate::pickers::Pickers;
use crate::wanted::Wanted;
use admit_core::{DayRecord, Terms};
use bar_fixpoint::Picker;
use desk_day::{DayPlan, DayRefusal, Desk, ceilings_on, run_day_by};
use linked_demand::Roster;
use request::{PickerName, picker_on};
use round::Falls;
use std::alloc::Global;

/// Runs a day under the ceilings of that day, with this picker.
fn run_with(
    alloc: Global,
    desk: &mut Desk<'_>,
    roster: &Roster<'_, '_>,
    terms: Option<&Terms>,
    day: u32,
    falls: Falls,
    picker: &mut dyn Picker,
) -> Result<DayRecord, DayRefusal>
    requires roster { roster.now.dossier ≡ desk.old.present.dossier }
    requires terms { AreTermsFor desk.old.present.dossier (option_copied terms) }
    requires day { IsDayNumber day }

    ensures { IsKeptOf (kept_result (are_kept falls))
        (DayEndsWith roster.now.orders (option_copied terms.entry) day
        (record { desk = desk.old; told = told picker.old; choice = choice picker.old })
        (record { desk = desk.new; told = told picker.new; choice = choice picker.new })) result }
{
    let Ok(ceilings) = ceilings_on(alloc, desk.now().dossier(), day) else {
        return Err(desk.refused(terms, day));
    };
    let plan = DayPlan {
        ceilings: &ceilings,
        terms,
        day,
        falls,
    };
    run_day_by(alloc, desk, roster, plan, picker)
}

/// Lends the picker in this place to a day, and puts it back.
fn run_lent(
    alloc: Global,
    desk: &mut Desk<'_>,
    roster: &Roster<'_, '_>,
    terms: Option<&Terms>,
    day: u32,
    falls: Falls,
    place: &mut Option<Box<dyn Picker>>,
) -> Result<DayRecord, DayRefusal>
    requires roster { roster.now.dossier ≡ desk.old.present.dossier }
    requires terms { AreTermsFor desk.old.present.dossier (option_copied terms) }
    requires day { IsDayNumber day }
    requires there { IsSome place.old }

    ensures there { IsSome place.new }
    ensures ends { IsKeptOf (kept_result (are_kept falls))
        (DayEndsWith roster.now.orders (option_copied terms.entry) day
        (record {
          desk = desk.old;
          told = told_in told place.old;
          choice = choice_in choice place.old;
        })
        (record {
          desk = desk.new;
          told = told_in told place.new;
          choice = choice_in choice place.new;
        })) result }
{
    // Pickers are in their places between two days: `there`.
    let Some(mut picker) = place.take() else {
        unreachable!()
    };
    let done = run_with(alloc, desk, roster, terms, day, falls, &mut *picker);
    *place = Some(picker);
    done
}

/// Runs a day with the picker whose turn it is. After an answer that does not fit the state is that
/// of the evening before.
pub(crate) fn next_day(
    alloc: Global,
    desk: &mut Desk<'_>,
    roster: &Roster<'_, '_>,
    terms: Option<&Terms>,
    wanted: Wanted,
    day: u32,
    pickers: &mut Pickers,
) -> Result<DayRecord, DayRefusal>
    requires roster { roster.now.dossier ≡ desk.old.present.dossier }
    requires terms { AreTermsFor desk.old.present.dossier (option_copied terms) }
    requires day { IsDayNumber day }
    requires there { AreThere pickers.old }

    ensures there { AreThere pickers.new }
    ensures ends { IsKeptOf (kept_result (are_kept wanted.falls)) (λ whole. EndsNext
        (record {
          orders = roster.now.orders;
          terms = option_copied terms.entry;
          who = wanted.who;
        }) day
        (record { desk = desk.old; pickers = lent told choice pickers.old }) whole
        (record { desk = desk.new; pickers = lent told choice pickers.new })) result }
{
    let falls = wanted.falls;
    match picker_on(wanted.who, day) {
        PickerName::First => run_lent(alloc, desk, roster, terms, day, falls, &mut pickers.first),
        PickerName::Last => run_lent(alloc, desk, roster, terms, day, falls, &mut pickers.last),
        PickerName::Turn => run_lent(alloc, desk, roster, terms, day, falls, &mut pickers.turn),
    }
}
