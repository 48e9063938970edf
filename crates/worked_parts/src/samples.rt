//! Samples, and what is left of seats and beds in them.

use crate::tables::{sampled, sampled_dossier};
use crate::texts::{numbers_in, rows_shown};
use admit_core::{InFault, OutOfMemory, Stamp, Tables, Wish};
use day_state::DayState;
use std::alloc::Global;
use vacancies::{beds_left, has_bed, needs_seat, seats_left};

/// How many rows a sample has in its slots.
fn counts_shown(alloc: Global, tables: &Tables) -> Result<String, OutOfMemory> {
    let (groups, programmes) = (tables.groups.len(), tables.programmes.len());
    let (schools, rankings) = (tables.schools.len(), tables.rankings.len());
    let (boarding, wishes) = (tables.boarding.len(), tables.wishes.len());
    Ok(format!(in alloc; "{groups} {programmes} {schools} {rankings} {boarding} {wishes}")?)
}

/// How many groups, programmes, schools, rankings, boarding ranks and wishes a sample has.
pub(crate) fn counts_in(alloc: Global, input: &str) -> Result<String, OutOfMemory> {
    match sampled(alloc, input.parse::<u32>().unwrap_or(0)) {
        Ok(Some(tables)) => counts_shown(alloc, &tables),
        _ => Ok(String::from_str(alloc, "none")?),
    }
}

/// The rows of a slot.
fn slot_shown(alloc: Global, tables: &Tables, slot: &str) -> Result<String, OutOfMemory> {
    match slot {
        "groups" => rows_shown(alloc, tables.groups.as_slice()),
        "programmes" => rows_shown(alloc, tables.programmes.as_slice()),
        "schools" => rows_shown(alloc, tables.schools.as_slice()),
        "rankings" => rows_shown(alloc, tables.rankings.as_slice()),
        "boarding" => rows_shown(alloc, tables.boarding.as_slice()),
        "wishes" => rows_shown(alloc, tables.wishes.as_slice()),
        _ => Ok(String::from_str(alloc, "no rows")?),
    }
}

/// The rows of a slot of a sample: its number, and the slot.
pub(crate) fn sample_in(alloc: Global, input: &str) -> Result<String, OutOfMemory> {
    let (number, slot) = input.split_once(" ").unwrap_or((input, ""));
    match sampled(alloc, number.parse::<u32>().unwrap_or(0)) {
        Ok(Some(tables)) => slot_shown(alloc, &tables, slot),
        _ => Ok(String::from_str(alloc, "none")?),
    }
}

/// Seats and beds that are left where a wish is for both, whether it needs a seat, and whether its
/// candidate has a bed.
fn left_for(alloc: Global, state: &DayState<'_>, place: u32) -> Result<String, OutOfMemory> {
    let dossier = state.dossier();
    if place as usize >= dossier.wishes.len() {
        return Ok(String::from_str(alloc, "no such wish")?);
    }
    let needs = needs_seat(state, place);
    let wish: Wish = dossier.wishes.as_slice()[place as usize];
    let (programme, school) = (wish.programme, wish.school.unwrap_or(u32::MAX));
    if programme as usize >= dossier.programmes.len() || school as usize >= dossier.schools.len() {
        return Ok(String::from_str(alloc, "no school")?);
    }
    let (seats, beds) = (seats_left(state, programme), beds_left(state, school));
    let has = has_bed(state, wish.candidate, school);
    Ok(format!(in alloc; "{seats} {beds} {needs} {has}")?)
}

/// The same before and after an offer to the wish.
fn around_offer(alloc: Global, number: u32, place: u32) -> Result<String, InFault> {
    let Some(dossier) = sampled_dossier(alloc, number)? else {
        return Ok(String::from_str(alloc, "none")?);
    };
    let mut state = DayState::begin(alloc, &dossier)?;
    let before = left_for(alloc, &state, place)?;
    if place as usize >= dossier.wishes.len() {
        return Ok(before);
    }
    state.offer_all(&[place], Stamp { day: 1, pass: 1 });
    let after = left_for(alloc, &state, place)?;
    Ok(format!(in alloc; "{before}, then {after}")?)
}

/// An offer in a sample: its number, and the place of the wish.
pub(crate) fn offer_in(alloc: Global, input: &str) -> Result<String, OutOfMemory> {
    let numbers = numbers_in(alloc, input)?;
    let number = numbers.first().copied().unwrap_or(0);
    let place = numbers.get(1).copied().unwrap_or(0);
    match around_offer(alloc, number, place) {
        Ok(text) => Ok(text),
        Err(_) => Ok(String::from_str(alloc, "no dossier")?),
    }
}
