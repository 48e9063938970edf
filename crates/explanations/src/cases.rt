//! The one case that holds of a wish.
ghost use Rattle.std.specs.Prelude.{◌≡◌, ◌<◌, length, Some};
ghost use Rattle.admit_core.specs.State.{is_gone};
ghost use Rattle.admit_core.specs.Proposals.{is_barred};
ghost use Rattle.admit_core.specs.Explanations.{explanation, barred_at, cause_of, no_seat};
ghost use Rattle.day_state.specs.Kept.{mark_in, wish_in};
ghost use Rattle.desk_day.specs.LastPasses.{IsLastPass, last_pass};
ghost use Rattle.explanations.specs.Sayings.{Explains, waiting_case};

use crate::ahead::{before, count_ahead};
use crate::closing::Closing;
use admit_core::{BarCause, CallOrders, Explanation, Mark, Wish};
use day_state::{DayState, seats_left};
use desk_day::Desk;
use proposals::{is_open, limit_of, mark_at};

/// The one case that says why the wish at a place stands as it does in the evening of a desk's last
/// day. That day must have come about. The ceilings are those of the day, and the bars those of its
/// last pass. After each such day the desk meets what is required here, as `desk_ends_so` in the
/// proofs of `desk_day` says.
pub fn explain_on_desk(
    desk: &Desk<'_>,
    orders: &CallOrders,
    ceilings: &[u32],
    bars: &[u32],
    wish: u32,
) -> Explanation
    requires last { IsLastPass
        (last_pass desk.now.opening orders.now.orders ceilings.now bars.now) desk.now.present }
    requires wish { wish < length desk.now.present.dossier.wishes }
    ensures { Explains
        (last_pass desk.now.opening orders.now.orders ceilings.now bars.now)
        desk.now.present wish result }
{
    let last = Closing::of_desk(desk, orders, ceilings, bars);
    explained(desk.now(), &last, wish)
}

/// The case that holds of a wish in an evening, after this last pass.
pub fn explained(evening: &DayState<'_>, last: &Closing<'_, '_>, wish: u32) -> Explanation
    requires last { IsLastPass last.now evening.now }
    requires wish { wish < length evening.now.dossier.wishes }
    ensures { Explains last.now evening.now wish result }
{
    let dossier = evening.dossier();
    let _ = &dossier.wishes; // learns that the dossier is valid
    let _ = last.opening.marks(); // one for each wish
    case_of(mark_at(evening, wish), last, wish)
}

/// The case that holds of the wish at a place, which has this mark in the evening.
fn case_of(now: Mark, last: &Closing<'_, '_>, place: u32) -> Explanation
    requires { place < length last.now.opening.dossier.wishes }
    ensures { result ≡ explanation last.now now
        (wish_in last.now.opening.dossier.wishes place) (mark_in last.now.opening.marks place) }
{
    let Mark { status, stamp } = now;
    if is_gone(now) {
        Explanation::Gone { status, stamp }
    } else if now.is_live() {
        Explanation::Live { status, stamp }
    } else {
        case_of_waiting(last, place)
    }
}

/// The case that holds of the wish at a place, which waits in the evening.
fn case_of_waiting(last: &Closing<'_, '_>, place: u32) -> Explanation
    requires { place < length last.now.opening.dossier.wishes }
    ensures { result ≡ waiting_case last.now (wish_in last.now.opening.dossier.wishes place)
        (mark_in last.now.opening.marks place) }
{
    let wish = last.wish_at(place);
    let Some(school) = wish.school else {
        return no_seat(last, wish);
    };
    if is_barred(last, place) {
        barred_at(last, wish.board_rank, school)
    } else {
        no_seat(last, wish)
    }
}

/// Whether a mark is that of a wish that is neither live nor waits.
fn is_gone(mark: Mark) -> bool
    ensures { result ≡ is_gone mark }
{
    !mark.is_live() && !mark.is_waiting()
}

/// Whether the wish at a place was barred in the opening.
fn is_barred(last: &Closing<'_, '_>, place: u32) -> bool
    requires { place < length last.now.opening.dossier.wishes }
    ensures { result ≡ is_barred last.now.opening last.now.bars
        (wish_in last.now.opening.dossier.wishes place) (mark_in last.now.opening.marks place) }
{
    mark_at(last.opening, place).is_waiting() && !is_open(last.opening, last.bars, place)
}

/// Explains a rank that a school bars: by its bar, and by why that is as low as it is.
fn barred_at(last: &Closing<'_, '_>, rank: u32, school: u32) -> Explanation
    requires { school < length last.now.opening.dossier.schools }
    ensures { result ≡ barred_at last.now rank (Some school) }
{
    Explanation::Barred {
        school,
        rank,
        bar: last.bars[school as usize],
        cause: cause_of(last, school),
    }
}

/// Whether a school's bar stands at its ceiling, or fell for its beds.
fn cause_of(last: &Closing<'_, '_>, school: u32) -> BarCause
    requires { school < length last.now.opening.dossier.schools }
    ensures { result ≡ cause_of last.now school }
{
    if last.bars[school as usize] == last.ceilings[school as usize] {
        BarCause::Ceiling
    } else {
        let dossier = last.opening.dossier();
        BarCause::Full {
            beds: dossier.schools.as_slice()[school as usize].beds,
        }
    }
}

/// Explains a wish without a seat: by how many stand ahead, how many seats are left, the position
/// and the call limit.
fn no_seat(last: &Closing<'_, '_>, wish: Wish) -> Explanation
    requires { wish.programme < length last.now.opening.dossier.programmes }
    ensures { result ≡ no_seat last.now wish }
{
    let before = before(last.order_of(wish.programme), wish.candidate);
    Explanation::NoSeat {
        ahead: count_ahead(last.opening, last.bars, wish.programme, before),
        left: seats_left(last.opening, wish.programme),
        position: before.len() as u32 + 1,
        limit: limit_of(last.opening, wish.programme),
    }
}
