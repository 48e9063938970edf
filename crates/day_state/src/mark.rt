//! Tests of wishes and their marks.
ghost use Rattle.std.specs.Prelude.{◌≡◌, ◌<◌, ◌≤◌, ◌+◌, ◌^◌, ◌&&◌, ◌==◌, length, IsTrue, not, pos, negsuc, ◌≤ℤ◌, slice_index_or, if◌then◌else◌};
ghost use Rattle.admit_core.specs.State.{changed_to, has_school};
ghost use Rattle.admit_core.specs.Answers.{kind_fits};
ghost use Rattle.admit_core.specs.AutoAnswer.{auto_status};
ghost use Rattle.admit_core.specs.Days.{first_mark};
ghost use Rattle.admit_core.specs.Lapses.{lapses, offer_day};
ghost use Rattle.day_state.specs.Along.{changed_by};
ghost use Rattle.day_state.specs.Best.{better, live_preference};
ghost use Rattle.day_state.specs.Kept.{is_same_mark, mark_in, wish_in, lives_at, one_if};

use crate::marks::Marks;
use admit_core::{AnswerKind, Mark, Stamp, Status, Terms, Wish};

/// The mark of a wish that gets a status: the stamp changes only with the status.
pub fn changed_to(mark: Mark, status: Status, stamp: Stamp) -> Mark
    ensures { result ≡ changed_to status stamp mark }
{
    if mark.status == status {
        mark
    } else {
        Mark { status, stamp }
    }
}

/// Whether two marks are the same.
pub fn is_same_mark(one: Mark, other: Mark) -> bool
    ensures { result ≡ is_same_mark one other }
{
    one.status == other.status
        && one.stamp.day == other.stamp.day
        && one.stamp.pass == other.stamp.pass
}

/// Whether an answer of a kind fits a wish of this status.
pub fn kind_fits(kind: AnswerKind, status: Status) -> bool
    ensures { result ≡ kind_fits kind status }
{
    match kind {
        AnswerKind::Accept | AnswerKind::Refuse => status.is_live(),
        AnswerKind::Withdraw => status.is_waiting(),
        AnswerKind::Quit => true,
    }
}

/// The day of a wish's offer: its stamp's, or the one that it came in with.
pub fn offer_day(terms: &Terms, wish: u32, mark: Mark) -> i64
    requires { wish < length terms.now.before }
    ensures day { result ≡ offer_day (slice_index_or terms.now.before wish (pos 0)) mark }
    ensures low { negsuc 2147483647 ≤ℤ result }
    ensures high { result ≤ℤ pos 4294967295 }
{
    if mark.stamp.day > 0 {
        i64::from(mark.stamp.day)
    } else {
        i64::from(terms.before.as_slice()[wish as usize])
    }
}

/// Whether a wish's offer ends before a day.
pub fn lapses(terms: &Terms, day: u32, wish: u32, mark: Mark) -> bool
    requires { wish < length terms.now.before }
    ensures { result ≡ lapses terms.now.term day
        (slice_index_or terms.now.before wish (pos 0)) mark }
{
    matches!(mark.status, Status::Offered)
        && offer_day(terms, wish, mark) + i64::from(terms.term) < i64::from(day)
}

/// The mark of a status that a dossier comes in with.
pub fn first_mark(status: Status) -> Mark
    ensures { result ≡ first_mark status }
{
    Mark {
        status,
        stamp: Stamp { day: 0, pass: 0 },
    }
}

/// What is done with all wishes of a candidate at once.
///
/// `TakeBest` has the preference number of their best live wish: it is accepted, the other live
/// ones are given up, and so are the waiting ones behind it.
#[derive(Clone, Copy)]
pub enum OwnChange {
    RefuseLive,
    QuitOpen,
    TakeBest(u32),
}

/// What becomes of a wish's mark where this is done with all wishes of its candidate.
pub fn changed_by(change: OwnChange, wish: Wish, mark: Mark, stamp: Stamp) -> Mark
    ensures { result ≡ changed_by change stamp wish mark }
{
    match change {
        OwnChange::RefuseLive if mark.is_live() => changed_to(mark, Status::Refused, stamp),
        OwnChange::QuitOpen if mark.is_live() || mark.is_waiting() => {
            changed_to(mark, Status::Quit, stamp)
        }
        OwnChange::TakeBest(best) => {
            let is_best = wish.preference == best;
            let is_behind = best < wish.preference;
            changed_to(mark, auto_status(mark.status, is_best, is_behind), stamp)
        }
        OwnChange::RefuseLive | OwnChange::QuitOpen => mark,
    }
}

/// The status of a wish whose candidate is answered for: it is their best live one, or stands
/// behind that.
fn auto_status(status: Status, is_best: bool, is_behind: bool) -> Status
    ensures { result ≡ auto_status status is_best is_behind }
{
    match status {
        Status::Offered | Status::Accepted if is_best => Status::Accepted,
        Status::Offered | Status::Accepted => Status::AutoRefused,
        Status::Waiting if is_behind => Status::AutoWithdrawn,
        _ => status,
    }
}

/// The lesser of two preference numbers, either of which may be missing.
pub fn better(one: Option<u32>, other: Option<u32>) -> Option<u32>
    ensures { result ≡ better one other }
{
    match (one, other) {
        (Some(one), Some(other)) => Some(one.min(other)),
        (None, found) | (found, None) => found,
    }
}

/// The preference number of the wish at a place, where it is live and its candidate ranks their
/// wishes.
pub fn live_preference(wishes: &[Wish], marks: &Marks, place: u32) -> Option<u32>
    requires wish { place < length wishes.now }
    requires mark { place < length marks.now }
    ensures { result ≡ live_preference wishes.now marks.now place }
{
    if !marks.is_live(place) {
        return None; // without a look at its row
    }
    let preference = wishes[place as usize].preference;
    if preference > 0 {
        Some(preference)
    } else {
        None
    }
}

/// The wish at a place.
pub fn wish_at(wishes: &[Wish], place: u32) -> Wish
    requires { place < length wishes.now }
    ensures { result ≡ wish_in wishes.now place }
{
    wishes[place as usize]
}

/// Whether the wish at a place is live in a programme.
pub fn lives_in_programme(wishes: &[Wish], marks: &Marks, place: u32, programme: u32) -> bool
    requires wish { place < length wishes.now }
    requires mark { place < length marks.now }
    ensures { result ≡ lives_at wishes.now marks.now (λ w. w.programme == programme) place }
{
    marks.is_live(place) && wishes[place as usize].programme == programme
}

/// Whether the wish at a place is live in a school.
pub fn lives_in_school(wishes: &[Wish], marks: &Marks, place: u32, school: u32) -> bool
    requires wish { place < length wishes.now }
    requires mark { place < length marks.now }
    ensures { result ≡ lives_at wishes.now marks.now (λ w. has_school w school) place }
{
    marks.is_live(place) && wishes[place as usize].school == Some(school)
}

/// 1 where one who was counted no longer is.
pub fn lost(had: bool, has: bool) -> u32
    ensures { result ≡ one_if (had && not has) }
{
    u32::from(had && !has)
}

/// A count after one who was counted, or wasn't, is counted, or isn't.
pub fn counted(count: u32, had: bool, has: bool) -> u32
    requires comes { count + one_if has < 2 ^ 32 }
    requires goes { one_if had ≤ count + one_if has }
    ensures { result + one_if had ≡ count + one_if has }
{
    match (had, has) {
        (false, true) => count + 1,
        (true, false) => count - 1,
        _ => count,
    }
}
