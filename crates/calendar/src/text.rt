//! Dates as texts.
ghost use Rattle.std.specs.Prelude.{◌≡◌, ◌+◌, ◌<◌, IfSome, Some, length};
ghost use Rattle.calendar.specs.Dates.{IsRead};
ghost use Rattle.calendar.specs.Texts as Texts;

use crate::civil::{Civil, civil_of, parts};

/// The number that the two digits from a place on make; none where they are not digits.
fn number_at(text: &[u8], place: usize) -> Option<u32>
    requires { place + 1 < length text.now }
    ensures value { result ≡ Texts.number_at text.now place }
    ensures range { IfSome result (λ number. number < 100) }
{
    let (tens, ones) = (text[place], text[place + 1]);
    if tens.is_ascii_digit() && ones.is_ascii_digit() {
        Some(u32::from(tens - b'0') * 10 + u32::from(ones - b'0'))
    } else {
        None
    }
}

/// The date that a text names in the form YYYY-MM-DD; none where it has another form, or names no
/// date of a year from 1900 to 2299.
#[tactic(auto, unfolding(crate::specs::Texts::date_in))]
pub fn read_date(text: &[u8]) -> Option<Civil>
    ensures value { result ≡ Texts.date_in text.now }
    ensures range { IfSome result IsRead }
{
    if text.len() != 10 || text[4] != b'-' || text[7] != b'-' {
        return None;
    }
    let year = number_at(text, 0)? * 100 + number_at(text, 2)?;
    civil_of(year, number_at(text, 5)?, number_at(text, 8)?)
}

/// The two digits of a number below 100.
fn two_digits(number: u32) -> [u8; 2]
    requires { number < 100 }
    ensures { result ≡ Texts.two_digits number }
{
    [b'0' + (number / 10) as u8, b'0' + (number % 10) as u8]
}

/// The text of a date in the form YYYY-MM-DD.
pub fn date_text(date: Civil) -> [u8; 10]
    ensures value { result ≡ Texts.date_text date }
    ensures back { IsRead date → Texts.date_in result ≡ Some date }
{
    let (year, month, day) = parts(date);
    let [y1, y2] = two_digits(year / 100);
    let [y3, y4] = two_digits(year % 100);
    let [m1, m2] = two_digits(month);
    let [d1, d2] = two_digits(day);
    [y1, y2, y3, y4, b'-', m1, m2, b'-', d1, d2]
}
