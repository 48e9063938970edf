//! Dates by their numbers of days.
ghost use Rattle.std.specs.Prelude.{◌≡◌, ◌≤◌, pos, ◌+ℤ◌, ◌-ℤ◌, ◌≤ℤ◌, IfSome, IsTrue, Some};
ghost use Rattle.jiff.specs.Words.{epoch_day};
ghost use Rattle.calendar.specs.Dates.{IsCivil, IsRead, civil, date_of, day_number, is_date, last_day};

use jiff::ToSpan;
use jiff::civil::{Date, date};
use std::marker::Model;

/// The years of the dates that are read.
const FIRST_YEAR: u32 = 1900;

const LAST_READ_YEAR: u32 = 2299;

/// A civil date from 1900-01-01 to 2310-12-31. The dates that are read end with 2299, so that the
/// deadline of an offer is always a date.
#[derive(Clone, Copy, Debug, PartialEq, Eq, PartialOrd, Ord)]
pub struct Civil {
    days: i32,
}

impl Model for Civil {
    ghost use Rattle.std.specs.Prelude.{ℤ};
    ghost use Rattle.calendar.specs.Dates.{IsCivil};

    ghost Value = { ℤ };

    ghost view = { λ date. date.days };

    ghost invariant = { λ date. IsCivil date.days };

    ghost inverse = { λ number. record { days = number } };
}

/// The date with this year, month and day; none where these name no date of a year from 1900 to
/// 2299.
pub fn civil_of(year: u32, month: u32, day: u32) -> Option<Civil>
    ensures value { result ≡ civil year month day }
    ensures range { IfSome result IsRead }
{
    if year < FIRST_YEAR || year > LAST_READ_YEAR {
        return None;
    }
    let (month, day) = (i8::try_from(month).ok()?, i8::try_from(day).ok()?);
    match Date::new(year as i16, month, day) {
        Ok(date) => Some(Civil {
            days: date.to_plain().to_unix_epoch_day(),
        }),
        Err(_) => None,
    }
}

/// The calendar's date for a date.
fn in_calendar(civil: Civil) -> Date
    ensures day { epoch_day result ≡ civil }
    ensures range { IsCivil civil }
{
    date(1970, 1, 1) + i64::from(civil.days).days()
}

/// The year, the month and the day.
pub fn parts(date: Civil) -> (u32, u32, u32)
    ensures value { result ≡ date_of date }
    ensures years { (1900 ≤ result.0) × (result.0 ≤ 2310) }
    ensures is_date { IsTrue (is_date result.0 result.1 result.2) }
    ensures number { day_number result.0 result.1 result.2 ≡ date }
    ensures back { IsRead date → civil result.0 result.1 result.2 ≡ Some date }
{
    let date = in_calendar(date);
    (date.year() as u32, date.month() as u32, date.day() as u32)
}

/// The date so many days later, which may be 2310-12-31 at the latest.
pub fn deadline(date: Civil, days: u32) -> Civil
    requires { (date +ℤ pos days) ≤ℤ last_day }
    ensures { result ≡ date +ℤ pos days }
{
    Civil {
        days: date.days + days as i32,
    }
}

/// Which day a date is, where `start` is day 1; the day before is day 0.
pub fn day_of(start: Civil, date: Civil) -> i32
    ensures { result ≡ date -ℤ start +ℤ pos 1 }
{
    date.days - start.days + 1
}

/// The date of a day, where `start` is day 1. It may lie from 1900-01-01 to 2310-12-31.
pub fn on_day(start: Civil, day: i32) -> Civil
    requires { IsCivil (start +ℤ day -ℤ pos 1) }
    ensures { result ≡ start +ℤ day -ℤ pos 1 }
{
    Civil {
        days: start.days + (day - 1),
    }
}
