//! A day along a roster of its own.
ghost use Rattle.std.specs.Prelude.{◌≡◌, length, None, Some};
ghost use Rattle.std.specs.Option.{option_copied};
ghost use Rattle.admit_core.specs.CallOrder.{AreCallOrders};
ghost use Rattle.admit_core.specs.Lapses.{AreTermsFor};
ghost use Rattle.admit_core.specs.Ranges.{IsDay as IsDayNumber};
ghost use Rattle.desk_day.specs.RunDay.{EndsDay};

use admit_core::{CallOrders, DayRecord, Terms};
use bar_fixpoint::Picker;
use desk_day::{DayRefusal, Desk, run_day_along};
use linked_demand::Roster;
use std::alloc::Global;

/// Runs a day on the desk's present state: the answers, then passes until the automatic answers
/// free nothing. No offer lapses.
pub fn run_day(
    alloc: Global,
    desk: &mut Desk<'_>,
    orders: &CallOrders,
    ceilings: &[u32],
    day: u32,
    picker: &mut dyn Picker,
) -> Result<DayRecord, DayRefusal>
    requires orders { AreCallOrders desk.old.present.dossier.groups orders.now.orders }
    requires ceilings { length ceilings.now ≡ length desk.old.present.dossier.schools }
    requires day { IsDayNumber day }

    ensures { EndsDay None orders.now.orders ceilings.now day
        (record { desk = desk.old; told = told picker.old; choice = choice picker.old })
        (record { desk = desk.new; told = told picker.new; choice = choice picker.new }) result }
{
    run_alone(alloc, desk, orders, ceilings, None, day, picker)
}

/// Runs a day as `run_day` does, after the lapse of the offers whose deadline has passed.
pub fn run_dated_day(
    alloc: Global,
    desk: &mut Desk<'_>,
    orders: &CallOrders,
    ceilings: &[u32],
    terms: &Terms,
    day: u32,
    picker: &mut dyn Picker,
) -> Result<DayRecord, DayRefusal>
    requires orders { AreCallOrders desk.old.present.dossier.groups orders.now.orders }
    requires ceilings { length ceilings.now ≡ length desk.old.present.dossier.schools }
    requires before { length terms.now.before ≡ length desk.old.present.dossier.wishes }
    requires day { IsDayNumber day }

    ensures { EndsDay (Some terms.now) orders.now.orders ceilings.now day
        (record { desk = desk.old; told = told picker.old; choice = choice picker.old })
        (record { desk = desk.new; told = told picker.new; choice = choice picker.new }) result }
{
    run_alone(alloc, desk, orders, ceilings, Some(terms), day, picker)
}

/// Runs a day, with its lapse where terms are given, along a roster of its own.
fn run_alone(
    alloc: Global,
    desk: &mut Desk<'_>,
    orders: &CallOrders,
    ceilings: &[u32],
    terms: Option<&Terms>,
    day: u32,
    picker: &mut dyn Picker,
) -> Result<DayRecord, DayRefusal>
    requires orders { AreCallOrders desk.old.present.dossier.groups orders.now.orders }
    requires ceilings { length ceilings.now ≡ length desk.old.present.dossier.schools }
    requires before { AreTermsFor desk.old.present.dossier (option_copied terms) }
    requires day { IsDayNumber day }

    ensures { EndsDay (option_copied terms.entry) orders.now.orders ceilings.now day
        (record { desk = desk.old; told = told picker.old; choice = choice picker.old })
        (record { desk = desk.new; told = told picker.new; choice = choice picker.new }) result }
{
    match Roster::build(alloc, desk.now(), orders) {
        Ok(roster) => run_day_along(alloc, desk, &roster, ceilings, terms, day, picker),
        Err(_) => Err(desk.refused(terms, day)),
    }
}
