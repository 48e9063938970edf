//! Who stands ahead of a candidate in a call order.
ghost use Rattle.std.specs.Prelude.{◌≡◌, ◌==◌, ◌≤◌, length, nat_eq, count_by, position};
ghost use Rattle.std.specs.List.{before_first};
ghost use Rattle.admit_core.specs.Proposals.{wants_seat};

use day_state::DayState;
use proposals::has_open_wish;

/// Whether a candidate has an open wish in a programme and is not live in it.
fn wants_seat(state: &DayState<'_>, bars: &[u32], programme: u32, candidate: u32) -> bool
    requires { length bars.now ≡ length state.now.dossier.schools }
    ensures { result ≡ wants_seat state.now bars.now programme candidate }
{
    has_open_wish(
        state,
        bars,
        programme,
        candidate,
        state.own_wishes(candidate),
    ) && !state.is_live_in_programme(candidate, programme)
}

/// How many of these candidates want a seat of a programme.
pub(crate) fn count_ahead(state: &DayState<'_>, bars: &[u32], programme: u32, before: &[u32]) -> u32
    requires bars { length bars.now ≡ length state.now.dossier.schools }
    requires few { length before.now ≤ 16000000 }
    ensures { result ≡ count_by (wants_seat state.now bars.now programme) before.now }
{
    before
        .iter()
        .filter(|candidate| wants_seat(state, bars, programme, **candidate))
        .count() as u32
}

/// The place of a candidate in a call order.
fn place_in(order: &[u32], candidate: u32) -> Option<usize>
    ensures { result ≡ position (λ called. candidate == called) order.now }
{
    order.iter().position(|called| candidate == *called)
}

/// Those who stand before a candidate in a call order; all of it where the candidate is not in it.
pub(crate) fn before(order: &[u32], candidate: u32) -> &[u32]
    ensures before { result.now ≡ before_first (nat_eq candidate) order.now }
    ensures no_longer { length result.now ≤ length order.now }
{
    match place_in(order, candidate) {
        None => order,
        Some(place) => &order[..place],
    }
}
