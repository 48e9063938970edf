//! For each group the wishes for its programmes.
ghost use Rattle.std.specs.Prelude.{◌≡◌, ◌<◌, ◌≤◌, length, sum, IfOk};
ghost use Rattle.admit_core.specs.DossierRows.{group_of};
ghost use Rattle.linked_demand.specs.Claims.{AreApplicationsFrom};

use crate::rows::{put_in, rows_with_room};
use crate::wishes::wish_count;
use admit_core::OutOfMemory;
use day_state::DayState;
use proposals::{programme_count, wish_at};
use std::alloc::Global;

/// How many wishes there are for each programme: room is made by it, so the clause alone bounds
/// them.
pub fn counts_by_programme(alloc: Global, state: &DayState<'_>) -> Result<Vec<u32>, OutOfMemory>
    ensures one_each { IfOk result (λ v. length v.items ≡ length state.now.dossier.programmes) }
    ensures few { IfOk result (λ v. sum v.items ≤ length state.now.dossier.wishes) }
{
    let mut counts = vec![in alloc; 0u32; programme_count(state) as usize]?;
    for place in 0..wish_count(state) {
        let programme = wish_at(state, place).programme as usize;
        counts[programme] = counts[programme].saturating_add(1);
    }
    Ok(counts)
}

/// The number of groups.
pub fn group_count(state: &DayState<'_>) -> u32
    ensures { result ≡ length state.now.dossier.groups }
{
    let dossier = state.dossier();
    dossier.groups.len() as u32
}

/// The group of a programme.
fn group_of(state: &DayState<'_>, programme: u32) -> u32
    requires { programme < length state.now.dossier.programmes }
    ensures group { result ≡ group_of state.now.dossier programme }
    ensures within { result < length state.now.dossier.groups }
{
    let dossier = state.dossier();
    dossier.programmes.as_slice()[programme as usize].group
}

/// How many wishes there are for the programmes of each group, of those for each programme.
fn counts_by_group(
    alloc: Global,
    state: &DayState<'_>,
    by_programme: &[u32],
) -> Result<Vec<u32>, OutOfMemory>
    requires { length by_programme.now ≡ length state.now.dossier.programmes }
    ensures one_each { IfOk result (λ v. length v.items ≡ length state.now.dossier.groups) }
    ensures few { IfOk result (λ v. sum v.items ≤ sum by_programme.now) }
{
    let mut counts = vec![in alloc; 0u32; group_count(state) as usize]?;
    for programme in 0..programme_count(state) {
        let group = group_of(state, programme) as usize;
        counts[group] = counts[group].saturating_add(by_programme[programme as usize]);
    }
    Ok(counts)
}

/// A wish for a programme of a group, by its place, with the programme and the candidate.
#[derive(Clone, Copy)]
pub struct Application {
    pub wish: u32,
    pub programme: u32,
    pub candidate: u32,
}

/// The wishes for the programmes of each group, by candidate, those of one candidate ascending by
/// place.
pub fn wishes_by_group(
    alloc: Global,
    state: &DayState<'_>,
    by_programme: &[u32],
) -> Result<Vec<Vec<Application>>, OutOfMemory>
    requires { length by_programme.now ≡ length state.now.dossier.programmes }
    ensures { IfOk result (λ v. AreApplicationsFrom state.now.dossier 0 v.items) }
{
    let dossier = state.dossier();
    let _ = &dossier.wishes; // learns the invariant
    let counts = counts_by_group(alloc, state, by_programme)?;
    let places = state.places_by_candidate();
    let mut wishes = rows_with_room(alloc, &counts)?;
    for place in places {
        let wish = wish_at(state, *place);
        let group = group_of(state, wish.programme);
        let application = Application {
            wish: *place,
            programme: wish.programme,
            candidate: wish.candidate,
        };
        put_in(&mut wishes, group, application)?;
    }
    Ok(wishes)
}
