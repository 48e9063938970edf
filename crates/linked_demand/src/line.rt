//! The line of those who wish for a programme, of which the first ones are reached: while fewer
//! than the seats that are left want one before them. Who wants a seat is asked as far as the seats
//! go.
ghost use Rattle.std.specs.Prelude.{◌≡◌, ◌+◌, ◌<◌, ◌≤◌, ◌&&◌, drop, length, not, nat_lt, if◌then◌else◌, All, IfSome};
ghost use Rattle.std.specs.List.{list_any};
ghost use Rattle.linked_demand.specs.Line.{next, reach, last_new};
ghost use Rattle.linked_demand.specs.Links.{NeedsSeatAlone};
ghost use Rattle.linked_demand.specs.Opens.{wanting_at};
ghost use Rattle.linked_demand.specs.Wants.{claim_at, wants_along, AreBelow, AllNeedSeatAlone};

use crate::claims::Claims;
use crate::open_wishes::OpenWishes;
use day_state::DayState;

/// Whether the wish at a place is open, by its flag, and its candidate is not live in its
/// programme.
fn is_wanting(state: &DayState<'_>, opens: &OpenWishes, place: u32) -> bool
    requires { place < length state.now.dossier.wishes }
    ensures { result ≡ wanting_at state.now opens.now place }
{
    opens.get(place) && !state.is_live_in_its_programme(place)
}

/// Whether one with this claim wants a seat.
fn wants_seat(state: &DayState<'_>, opens: &OpenWishes, claim: &[u32]) -> bool
    requires { All (λ k. k < length state.now.dossier.wishes) claim.now }
    ensures { result ≡ list_any (wanting_at state.now opens.now) claim.now }
{
    claim.iter().any(|place| is_wanting(state, opens, *place))
}

/// Whether one with this claim wants a seat, where an open wish that stands alone needs one: it is
/// then not asked who is live.
fn wants_alone(state: &DayState<'_>, opens: &OpenWishes, claim: &[u32]) -> bool
    requires claim { All (λ k. k < length state.now.dossier.wishes) claim.now }
    requires alone { NeedsSeatAlone state.now opens.now claim.now }
    ensures { result ≡ list_any (wanting_at state.now opens.now) claim.now }
{
    if claim.len() == 1 {
        opens.get(claim[0])
    } else {
        wants_seat(state, opens, claim)
    }
}

/// How many places of a line are reached: those with fewer who want a seat before them than there
/// are seats.
pub fn reach_of(state: &DayState<'_>, opens: &OpenWishes, claims: &Claims, seats: usize) -> usize
    requires claims { AreBelow (length state.now.dossier.wishes) claims.now }
    requires alone { AllNeedSeatAlone state.now opens.now claims.now }
    ensures { result ≡ reach seats (wants_along state.now opens.now claims.now) }
{
    let mut left = seats;
    let count = claims.count();
    for place in 0..count {
        if left == 0 {
            return place;
        }
        if wants_alone(state, opens, claims.at(place)) {
            left -= 1;
        }
    }
    count
}

/// How many places there are up to and with the first one, from a place on, that wants a seat; or
/// all of them.
pub fn next_wanting(state: &DayState<'_>, opens: &OpenWishes, claims: &Claims, from: usize) -> usize
    requires from { from ≤ length claims.now }
    requires claims { AreBelow (length state.now.dossier.wishes) claims.now }
    requires alone { AllNeedSeatAlone state.now opens.now claims.now }
    ensures place { result ≡ from + next (drop from (wants_along state.now opens.now claims.now)) }
    ensures within { result ≤ length claims.now }
{
    let count = claims.count();
    let mut at = from;
    while at < count {
        at += 1;
        if wants_alone(state, opens, claims.at(at - 1)) {
            return at;
        }
    }
    at
}

/// How many places are reached where so many were before one left their seat, or nobody did.
pub fn reached_after(
    state: &DayState<'_>,
    opens: &OpenWishes,
    claims: &Claims,
    before: usize,
    leaves: bool,
) -> usize
    requires from { before ≤ length claims.now }
    requires claims { AreBelow (length state.now.dossier.wishes) claims.now }
    requires alone { AllNeedSeatAlone state.now opens.now claims.now }
    ensures place { result ≡ (if leaves
        then before + next (drop before (wants_along state.now opens.now claims.now)) else before) }
    ensures within { result ≤ length claims.now }
{
    if leaves {
        return next_wanting(state, opens, claims, before);
    }
    before
}

/// The last place that is reached, where it was not reached before and wants a seat.
fn last_wanting(
    state: &DayState<'_>,
    opens: &OpenWishes,
    claims: &Claims,
    before: usize,
    reached: usize,
) -> Option<usize>
    requires reached { reached ≤ length claims.now }
    requires claims { AreBelow (length state.now.dossier.wishes) claims.now }
    requires alone { AllNeedSeatAlone state.now opens.now claims.now }
    ensures place { result ≡ last_new (wants_along state.now opens.now claims.now) before reached }
    ensures within { IfSome result (λ n. n < length claims.now) }
{
    if before < reached && wants_alone(state, opens, claims.at(reached - 1)) {
        Some(reached - 1)
    } else {
        None
    }
}

/// The claim at this place, or an empty one where there is no such place.
pub fn fresh_claim<'a>(
    state: &DayState<'_>,
    opens: &OpenWishes,
    claims: &'a Claims,
    before: usize,
    reached: usize,
) -> &'a [u32]
    requires reached { reached ≤ length claims.now }
    requires claims { AreBelow (length state.now.dossier.wishes) claims.now }
    requires alone { AllNeedSeatAlone state.now opens.now claims.now }
    ensures { result.now ≡ claim_at claims.now
        (last_new (wants_along state.now opens.now claims.now) before reached) }
{
    match last_wanting(state, opens, claims, before, reached) {
        None => &[],
        Some(place) => claims.at(place),
    }
}

/// Whether a place is one of the first ones that are reached.
pub fn is_reached(place: usize, reached: usize) -> bool
    ensures { result ≡ nat_lt place reached }
{
    place < reached
}
