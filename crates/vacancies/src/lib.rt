//! The seats and beds that are left in a state, and who needs one, under a name of their own.
//!
//! `let beds = beds_left(&state, school);`
#![tactic(auto)]

ghost use Rattle.std.specs.Prelude.{◌≡◌, ◌<◌, length};
ghost use Rattle.admit_core.specs.State.{free_beds, holds_bed, seats_left};
ghost use Rattle.day_state.specs.Needs.{needs_seat};

use day_state::DayState;

/// The seats of a programme less the candidates who are live there, and at least 0.
pub fn seats_left(state: &DayState<'_>, programme: u32) -> u32
    requires { programme < length state.now.dossier.programmes }
    ensures { result ≡ seats_left state.now programme }
{
    day_state::seats_left(state, programme)
}

/// The beds of a school less the candidates who are live there, and at least 0.
pub fn beds_left(state: &DayState<'_>, school: u32) -> u32
    requires { school < length state.now.dossier.schools }
    ensures { result ≡ free_beds state.now school }
{
    day_state::beds_left(state, school)
}

/// Whether a wish's candidate has no live wish in its programme.
pub fn needs_seat(state: &DayState<'_>, wish: u32) -> bool
    requires { wish < length state.now.dossier.wishes }
    ensures { result ≡ needs_seat state.now wish }
{
    day_state::needs_seat(state, wish)
}

/// Whether a candidate has a live wish with a school.
pub fn has_bed(state: &DayState<'_>, candidate: u32, school: u32) -> bool
    requires { school < length state.now.dossier.schools }
    ensures { result ≡ holds_bed state.now candidate school }
{
    day_state::has_bed(state, candidate, school)
}
