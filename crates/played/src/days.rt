//! The days of a run.
ghost use Rattle.std.specs.Prelude.{◌≡◌, ◌≤◌, ◌<◌, false, [], ◌∷◌, ◌++◌, MatchResult, Ok, OnOk, option_copied};
ghost use Rattle.admit_core.specs.CallOrder.{AreCallOrders};
ghost use Rattle.admit_core.specs.Lapses.{AreTermsFor};
ghost use Rattle.played.specs.KeptDays.{EndsWanted, PlaysDaysKept};
ghost use Rattle.played.specs.LastDesks.{EndsBy, IsUnasked};
ghost use Rattle.played.specs.Lent.{AreBack, AreThere, lent};
ghost use Rattle.played.specs.PlayedDays.{BreaksDays, IsPlayed, first_desk};
ghost use Rattle.round.specs.KeptFalls.{are_kept};

use crate::day::next_day;
use crate::last::{DeskAlong, LastDesk};
use crate::pickers::Pickers;
use crate::wanted::Wanted;
use admit_core::{CallOrders, DayRecord, Dossier, OutOfMemory, Refusal, Terms};
use desk_day::{DayRefusal, Desk};
use linked_demand::Roster;
use request::PickerChoice;
use round::Falls;
use std::alloc::Global;

/// What became of the days that were asked for.
#[derive(Drop)]
pub struct Played<'a, 'd> {
    /// The days that came about, from day 1 on.
    pub days: Vec<DayRecord>,
    /// The desk after all of them, or the refusal of the first answer that does not fit.
    pub end: Result<LastDesk<'a, 'd>, Refusal>,
}

/// Keeps the record of a day.
fn keep(days: &mut Vec<DayRecord>, day: DayRecord) -> Result<(), OutOfMemory>
    ensures { OnOk result (days.new.items ≡ days.old.items ++ day ∷ []) }
{
    days.push(day)?;
    Ok(())
}

/// Runs so many days, and keeps the records of those that come about.
fn play_days(
    alloc: Global,
    desk: &mut Desk<'_>,
    roster: &Roster<'_, '_>,
    terms: Option<&Terms>,
    wanted: Wanted,
    pickers: &mut Pickers,
    days: &mut Vec<DayRecord>,
) -> Result<(), DayRefusal>
    requires roster { roster.now.dossier ≡ desk.old.present.dossier }
    requires terms { AreTermsFor desk.old.present.dossier (option_copied terms) }
    requires number { wanted.number ≤ 366 }
    requires there { AreThere pickers.old }
    requires none { days.old.items ≡ [] }

    ensures there { AreThere pickers.new }
    ensures plays { PlaysDaysKept (are_kept wanted.falls)
        (record {
          orders = roster.now.orders;
          terms = option_copied terms.entry;
          who = wanted.who;
        }) wanted.number
        (record { desk = desk.old; pickers = lent told choice pickers.old })
        days.new.items result
        (record { desk = desk.new; pickers = lent told choice pickers.new }) }
{
    for played in 0..wanted.number {
        let day = next_day(alloc, desk, roster, terms, wanted, played + 1, pickers)?;
        keep(days, day)?;
    }
    Ok(())
}

/// What a run of no days leaves: its first desk, which is made only when it is asked for.
fn play_none<'a, 'd>(alloc: Global, dossier: &'d Dossier, orders: &'a CallOrders) -> Played<'a, 'd>
    requires { AreCallOrders dossier.now.groups orders.now.orders }
    ensures days { result.days.items ≡ [] }
    ensures end { result.end ≡ Ok (record {
      desk = first_desk dossier.now;
      orders = orders.now.orders;
      is_begun = false;
    }) }
{
    Played {
        days: Vec::new(alloc),
        end: Ok(LastDesk::first(dossier, orders)),
    }
}

/// Runs so many days of a dossier, at least one, along a roster that is made once. Where an answer
/// does not fit, the desk and the roster are given up.
fn play_some<'a, 'd>(
    alloc: Global,
    dossier: &'d Dossier,
    orders: &'a CallOrders,
    terms: Option<&Terms>,
    wanted: Wanted,
    pickers: &mut Pickers,
) -> Result<Played<'a, 'd>, OutOfMemory>
    requires orders { AreCallOrders dossier.now.groups orders.now.orders }
    requires terms { AreTermsFor dossier.now (option_copied terms) }
    requires some_day { 0 < wanted.number }
    requires number { wanted.number ≤ 366 }
    requires there { AreThere pickers.old }

    ensures there { AreThere pickers.new }
    ensures back { AreBack (lent told choice pickers.old) (lent told choice pickers.new) }
    ensures ends { EndsWanted wanted
        (record {
          dossier = dossier.now;
          orders = orders.now.orders;
          terms = option_copied terms.entry;
        })
        (lent told choice pickers.old) (lent told choice pickers.new)
        result (λ p. record { days = p.days.items; end = p.end }) }
{
    let (mut desk, roster) = DeskAlong::begin(alloc, dossier, orders)?.into_parts();
    let mut days = Vec::new(alloc);
    match play_days(alloc, &mut desk, &roster, terms, wanted, pickers, &mut days) {
        Ok(()) => Ok(Played {
            days,
            end: Ok(LastDesk::after_days(DeskAlong { desk, roster })),
        }),
        Err(DayRefusal::Unfit(refusal)) => Ok(Played {
            days,
            end: Err(refusal),
        }),
        Err(DayRefusal::OutOfMemory) => Err(OutOfMemory),
    }
}

/// Runs so many days of a dossier, each with the picker of the day, from the evening that it comes
/// in with: all of them, or those before one with an answer that does not fit. The call orders
/// (*ordres d'appel*) are those of the dossier. Where no day is asked for, no state is made.
pub fn play<'a, 'd>(
    alloc: Global,
    dossier: &'d Dossier,
    orders: &'a CallOrders,
    terms: Option<&Terms>,
    number: u32,
    who: PickerChoice,
    pickers: &mut Pickers,
) -> Result<Played<'a, 'd>, OutOfMemory>
    requires orders { AreCallOrders dossier.now.groups orders.now.orders }
    requires terms { AreTermsFor dossier.now (option_copied terms) }
    requires number { number ≤ 366 }
    requires there { AreThere pickers.old }

    ensures there { AreThere pickers.new }
    ensures back { AreBack (lent told choice pickers.old) (lent told choice pickers.new) }
    ensures idle { number ≡ 0 → IsUnasked (lent told choice pickers.old)
        (lent told choice pickers.new) result }
    ensures ends { MatchResult result
        (λ p. EndsBy orders.now.orders number
        (λ played. IsPlayed dossier.now (option_copied terms.entry) number who
        (lent told choice pickers.old) played
        (lent told choice pickers.new)) p.days.items p.end)
        (λ _. BreaksDays (record {
          orders = orders.now.orders;
          terms = option_copied terms.entry;
          who = who;
        }) number (first_desk dossier.now)
        (lent told choice pickers.old) (lent told choice pickers.new)) }
{
    let wanted = Wanted {
        number,
        who,
        falls: Falls::Kept,
    };
    play_wanted(alloc, dossier, orders, terms, wanted, pickers)
}

/// Runs days as [`play`] does. Where their falls are left out, the records have none, and the days
/// take no memory for them.
pub fn play_wanted<'a, 'd>(
    alloc: Global,
    dossier: &'d Dossier,
    orders: &'a CallOrders,
    terms: Option<&Terms>,
    wanted: Wanted,
    pickers: &mut Pickers,
) -> Result<Played<'a, 'd>, OutOfMemory>
    requires orders { AreCallOrders dossier.now.groups orders.now.orders }
    requires terms { AreTermsFor dossier.now (option_copied terms) }
    requires number { wanted.number ≤ 366 }
    requires there { AreThere pickers.old }

    ensures there { AreThere pickers.new }
    ensures back { AreBack (lent told choice pickers.old) (lent told choice pickers.new) }
    ensures idle { wanted.number ≡ 0 → IsUnasked (lent told choice pickers.old)
        (lent told choice pickers.new) result }
    ensures ends { EndsWanted wanted
        (record {
          dossier = dossier.now;
          orders = orders.now.orders;
          terms = option_copied terms.entry;
        })
        (lent told choice pickers.old) (lent told choice pickers.new)
        result (λ p. record { days = p.days.items; end = p.end }) }
{
    if wanted.number == 0 {
        return Ok(play_none(alloc, dossier, orders));
    }
    play_some(alloc, dossier, orders, terms, wanted, pickers)
}
