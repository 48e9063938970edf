//! The wishes of a state.
ghost use Rattle.std.specs.Prelude.{◌≡◌, ◌<◌, length};
ghost use Rattle.admit_core.specs.State.{is_waiting};
ghost use Rattle.day_state.specs.Kept.{mark_in};

use day_state::DayState;

/// The number of wishes.
pub fn wish_count(state: &DayState<'_>) -> u32
    ensures { result ≡ length state.now.dossier.wishes }
{
    let dossier = state.dossier();
    dossier.wishes.len() as u32
}

/// Whether the wish at a place waits.
pub fn waits(state: &DayState<'_>, wish: u32) -> bool
    requires { wish < length state.now.dossier.wishes }
    ensures { result ≡ is_waiting (mark_in state.now.marks wish) }
{
    let _ = state.marks(); // one for each wish
    state.waits().get(wish)
}
