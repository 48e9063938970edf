//! The beds that a round is lent.
ghost use Rattle.std.specs.Prelude.{◌≡◌, ◌<◌, length, IfOk};
ghost use Rattle.linked_demand.specs.Lent.{left_in, own_beds};

use admit_core::OutOfMemory;
use day_state::DayState;
use std::alloc::Global;

/// The beds of a state's dossier, by school.
pub fn own_beds(alloc: Global, state: &DayState<'_>) -> Result<Vec<u32>, OutOfMemory>
    ensures { IfOk result (λ v. v.items ≡ own_beds state.now.dossier) }
{
    let schools = state.dossier().schools.as_slice();
    Ok(schools.iter().map(|school| school.beds).collect(alloc)?)
}

/// How many of these beds are left in a school, in which those who are live there have one each.
pub fn left_in(state: &DayState<'_>, beds: &[u32], school: u32) -> u32
    requires beds { length beds.now ≡ length state.now.dossier.schools }
    requires school { school < length state.now.dossier.schools }
    ensures { result ≡ left_in state.now beds.now school }
{
    beds[school as usize].saturating_sub(state.live_in_school(school))
}
