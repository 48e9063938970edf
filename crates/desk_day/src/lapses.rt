//! The offers that lapse on a day.
ghost use Rattle.std.specs.Prelude.{◌≡◌, ◌<◌, ◌≤◌, length, IfOk, pos, negsuc, ◌≤ℤ◌};
ghost use Rattle.std.specs.Option.{option_copied};
ghost use Rattle.admit_core.specs.Days.{lapsed_on};
ghost use Rattle.admit_core.specs.Lapses.{AreTermsFor, lapses_of};

use admit_core::{Lapse, OutOfMemory, Terms};
use day_state::{DayState, lapses, offer_day};
use std::alloc::Global;

/// The offers that lapse on a day, each with the day on which it was made. Without terms none
/// lapses.
pub(crate) fn lapses_by(
    alloc: Global,
    state: &DayState<'_>,
    terms: Option<&Terms>,
    day: u32,
) -> Result<Vec<Lapse>, OutOfMemory>
    requires before { AreTermsFor state.now.dossier (option_copied terms) }
    requires day { day ≤ 366 }
    ensures { IfOk result (λ v. v.items ≡ lapsed_on (option_copied terms.entry) day state.now) }
{
    match terms {
        None => Ok(Vec::new(alloc)),
        Some(terms) => lapses_on(alloc, state, terms, day),
    }
}

/// The offers whose deadline has passed, each with the day on which it was made.
fn lapses_on(
    alloc: Global,
    state: &DayState<'_>,
    terms: &Terms,
    day: u32,
) -> Result<Vec<Lapse>, OutOfMemory>
    requires before { length terms.now.before ≡ length state.now.dossier.wishes }
    requires day { day ≤ 366 }
    ensures { IfOk result (λ v. v.items ≡ lapses_of terms.now day state.now) }
{
    let marks = state.marks();
    let count = state.dossier().wishes.len() as u32;
    let mut lapsed = Vec::new(alloc);
    for wish in 0..count {
        let mark = marks.get(wish);
        if lapses(terms, day, wish, mark) {
            let offered = narrow(offer_day(terms, wish, mark));
            lapsed.push(Lapse { wish, offered })?;
        }
    }
    Ok(lapsed)
}

/// A day's number in 32 bits, where it fits.
fn narrow(number: i64) -> i32
    requires low { negsuc 2147483647 ≤ℤ number }
    requires high { number ≤ℤ pos 2147483647 }
    ensures { result ≡ number }
{
    number as i32
}
