//! The seats and beds that are left in a state, and who needs one. Candidates are counted, not
//! wishes.
ghost use Rattle.std.specs.Prelude.{◌≡◌, ◌<◌, length};
ghost use Rattle.admit_core.specs.State.{holds_bed, seats_left, free_beds};
ghost use Rattle.day_state.specs.Needs.{needs_seat};

use crate::day::DayState;

/// The seats of a programme less the candidates who are live there, and at least 0.
pub fn seats_left(state: &DayState<'_>, programme: u32) -> u32
    requires { programme < length state.now.dossier.programmes }
    ensures { result ≡ seats_left state.now programme }
{
    let seats = state.dossier().programmes.as_slice()[programme as usize].seats;
    seats.saturating_sub(state.live_in_programme(programme))
}

/// The beds of a school less the candidates who are live there, and at least 0.
pub fn beds_left(state: &DayState<'_>, school: u32) -> u32
    requires { school < length state.now.dossier.schools }
    ensures { result ≡ free_beds state.now school }
{
    let beds = state.dossier().schools.as_slice()[school as usize].beds;
    beds.saturating_sub(state.live_in_school(school))
}

/// Whether a wish's candidate has no live wish in its programme.
pub fn needs_seat(state: &DayState<'_>, wish: u32) -> bool
    requires { wish < length state.now.dossier.wishes }
    ensures { result ≡ needs_seat state.now wish }
{
    let wish = state.dossier().wishes.as_slice()[wish as usize];
    !state.is_live_in_programme(wish.candidate, wish.programme)
}

/// Whether a candidate has a live wish with a school.
pub fn has_bed(state: &DayState<'_>, candidate: u32, school: u32) -> bool
    requires { school < length state.now.dossier.schools }
    ensures { result ≡ holds_bed state.now candidate school }
{
    state.is_live_in_school(candidate, school)
}
