//! Which wishes are open under bars.
ghost use Rattle.std.specs.Prelude.{◌≡◌, ◌<◌, ◌&&◌, length, All};
ghost use Rattle.std.specs.Option.{ForSome};
ghost use Rattle.std.specs.List.{list_any};
ghost use Rattle.admit_core.specs.OwnWishes.{own_places};
ghost use Rattle.admit_core.specs.Proposals.{is_behind_bar, is_open, has_open_wish};
ghost use Rattle.day_state.specs.Kept.{mark_in, wish_in};
ghost use Rattle.proposals.specs.Open.{is_open_at};

use admit_core::{Mark, Wish};
use day_state::DayState;

/// The wish at a place.
pub fn wish_at(state: &DayState<'_>, place: u32) -> Wish
    requires { place < length state.now.dossier.wishes }
    ensures wish { result ≡ wish_in state.now.dossier.wishes place }
    ensures school { ForSome result.school (λ h. h < length state.now.dossier.schools) }
{
    let dossier = state.dossier();
    dossier.wishes.as_slice()[place as usize]
}

/// The mark at a place.
pub fn mark_at(state: &DayState<'_>, place: u32) -> Mark
    requires { place < length state.now.dossier.wishes }
    ensures { result ≡ mark_in state.now.marks place }
{
    state.marks().get(place)
}

/// Whether the candidate of the wish at a place, where they have no bed in its school, ranks
/// there behind the bar.
fn is_behind_bar(state: &DayState<'_>, bars: &[u32], place: u32) -> bool
    requires place { place < length state.now.dossier.wishes }
    requires bars { length bars.now ≡ length state.now.dossier.schools }
    ensures { result ≡ is_behind_bar state.now bars.now (wish_in state.now.dossier.wishes place)
        (wish_in state.now.dossier.wishes place).school }
{
    let wish = wish_at(state, place);
    match wish.school {
        None => false,
        Some(school) => {
            bars[school as usize] < wish.board_rank && !state.is_live_in_its_school(place)
        }
    }
}

/// Whether the wish at a place is open: it waits, and is not barred.
pub fn is_open(state: &DayState<'_>, bars: &[u32], place: u32) -> bool
    requires place { place < length state.now.dossier.wishes }
    requires bars { length bars.now ≡ length state.now.dossier.schools }
    ensures { result ≡ is_open state.now bars.now (wish_in state.now.dossier.wishes place)
        (mark_in state.now.marks place) }
{
    mark_at(state, place).is_waiting() && !is_behind_bar(state, bars, place)
}

/// Whether the wish at a place is an open one in a programme.
pub fn is_open_at(state: &DayState<'_>, bars: &[u32], programme: u32, place: u32) -> bool
    requires place { place < length state.now.dossier.wishes }
    requires bars { length bars.now ≡ length state.now.dossier.schools }
    ensures { result ≡ is_open_at state.now bars.now programme place }
{
    wish_at(state, place).programme == programme && is_open(state, bars, place)
}

/// Whether one of these wishes is an open one in a programme.
fn any_open(state: &DayState<'_>, bars: &[u32], programme: u32, own: &[u32]) -> bool
    requires own { All (λ k. k < length state.now.dossier.wishes) own.now }
    requires bars { length bars.now ≡ length state.now.dossier.schools }
    ensures { result ≡ list_any (is_open_at state.now bars.now programme) own.now }
{
    own.iter()
        .any(|place| is_open_at(state, bars, programme, *place))
}

/// Whether a candidate has an open wish in a programme; `own` has the places of their wishes.
pub fn has_open_wish(
    state: &DayState<'_>,
    bars: &[u32],
    programme: u32,
    candidate: u32,
    own: &[u32],
) -> bool
    requires own { own.now ≡ own_places state.now.dossier candidate }
    requires bars { length bars.now ≡ length state.now.dossier.schools }
    ensures { result ≡ has_open_wish state.now bars.now programme candidate }
{
    let _ = state.marks(); // one for each wish
    any_open(state, bars, programme, own)
}
