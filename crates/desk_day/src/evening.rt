//! What is left in the evening, and the record of the day.
ghost use Rattle.std.specs.Prelude.{◌≡◌, ◌<◌, IfOk, map};
ghost use Rattle.std.specs.List.{range_with_len};
ghost use Rattle.desk_day.specs.Evening.{site_count, left_at};
ghost use Rattle.desk_day.specs.RunDay.{recorded};

use admit_core::{DayRecord, Lapse, OutOfMemory, PassEnd, Sequence};
use day_state::{DayState, beds_left, seats_left};
use std::alloc::Global;

/// Who may have something left in the evening: programmes have seats, schools have beds.
#[derive(Clone, Copy)]
enum Sites {
    Programmes,
    Schools,
}

/// How many of them the dossier has.
fn site_count(state: &DayState<'_>, sites: Sites) -> u32
    ensures { result ≡ site_count state.now.dossier sites }
{
    let dossier = state.dossier();
    match sites {
        Sites::Programmes => dossier.programmes.len() as u32,
        Sites::Schools => dossier.schools.len() as u32,
    }
}

/// The seats that are left in the programme of this place, or the beds in the school.
fn left_at(state: &DayState<'_>, sites: Sites, place: u32) -> u32
    requires { place < site_count state.now.dossier sites }
    ensures { result ≡ left_at state.now sites place }
{
    match sites {
        Sites::Programmes => seats_left(state, place),
        Sites::Schools => beds_left(state, place),
    }
}

/// The seats that are left, by programme, or the beds, by school.
fn all_left(alloc: Global, state: &DayState<'_>, sites: Sites) -> Result<Sequence<u32>, OutOfMemory>
    ensures { IfOk result (λ s. s ≡ map (left_at state.now sites)
        (range_with_len 0 (site_count state.now.dossier sites))) }
{
    let mut left = Vec::new(alloc);
    for place in 0..site_count(state, sites) {
        left.push(left_at(state, sites, place))?;
    }
    Ok(Sequence::from_vec(left))
}

/// The record of a day that is over: what it did, and what is left in its evening.
pub(crate) fn record_day(
    alloc: Global,
    evening: &DayState<'_>,
    day: u32,
    passes: Vec<PassEnd>,
    lapsed: Vec<Lapse>,
) -> Result<DayRecord, OutOfMemory>
    ensures { IfOk result (λ done. done ≡ recorded day passes.items lapsed.items evening.now) }
{
    let left = all_left(alloc, evening, Sites::Programmes)?;
    let free = all_left(alloc, evening, Sites::Schools)?;
    Ok(DayRecord {
        day,
        passes: Sequence::from_vec(passes),
        left,
        free,
        lapsed: Sequence::from_vec(lapsed),
    })
}
