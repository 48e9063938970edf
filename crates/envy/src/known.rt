//! What each candidate holds, and who of the last ones in each line is live.
ghost use Rattle.std.specs.Prelude.{◌≡◌, ◌||◌, ◌+◌, ◌<◌, ℕ, IfOk, IfSome, Some, length, nat_le, nat_lt, option_map};
ghost use Rattle.day_state.specs.Bundles.{number_in};
ghost use Rattle.day_state.specs.Kept.{wish_in};
ghost use Rattle.envy.specs.Known.{AreBest, AreBestTo, AreLast, AreLastTo, IsFor, first_own, is_below, place_at, reaches};

use admit_core::OutOfMemory;
use day_state::DayState;
use linked_demand::Roster;
use proposals::{mark_at, programme_count, wish_at};
use std::alloc::Global;

/// The number of wishes.
pub(crate) fn wish_count(state: &DayState<'_>) -> u32
    ensures { result ≡ length state.now.dossier.wishes }
{
    let dossier = state.dossier();
    dossier.wishes.len() as u32
}

/// The lesser of two preference numbers, the first of which may be missing.
fn lesser(known: Option<u32>, preference: u32) -> u32
    ensures { (q : ℕ) → nat_lt result q ≡ (is_below known q || nat_lt preference q) }
{
    match known {
        Some(known) if known < preference => known,
        _ => preference,
    }
}

/// The first wish of a wish's candidate: what is known of the candidate is kept at its place.
pub(crate) fn first_own(state: &DayState<'_>, wish: u32) -> u32
    requires { wish < length state.now.dossier.wishes }
    ensures first { result ≡ first_own state.now.dossier wish }
    ensures within { result < length state.now.dossier.wishes }
{
    state.own_wishes_beside(wish)[0]
}

/// Notes the wish at a place, where it is live.
fn note_best(best: &mut Vec<Option<u32>>, state: &DayState<'_>, place: u32)
    requires place { place < length state.now.dossier.wishes }
    requires best { AreBestTo state.now place best.old.items }
    ensures { AreBestTo state.now (place + 1) best.new.items }
{
    let _ = state.marks(); // one for each wish
    if mark_at(state, place).is_live() {
        let first = first_own(state, place) as usize;
        best[first] = Some(lesser(best[first], wish_at(state, place).preference));
    }
}

/// Of each candidate who is live the least preference number of a live wish, at the place of their
/// first wish.
pub(crate) fn best_wishes(
    alloc: Global,
    state: &DayState<'_>,
) -> Result<Vec<Option<u32>>, OutOfMemory>
    ensures { IfOk result (λ best. AreBest state.now best.items) }
{
    let _ = state.marks(); // one for each wish
    let count = wish_count(state);
    let mut best = vec![in alloc; None; count as usize]?;
    for place in 0..count {
        note_best(&mut best, state, place);
    }
    Ok(best)
}

/// Of a wish that may be missing and another one for its programme, the one whose candidate stands
/// later in the line.
fn later(roster: &Roster<'_, '_>, known: Option<u32>, wish: u32) -> u32
    requires known { IfSome known (λ k. k < length roster.now.dossier.wishes) }
    requires wish { wish < length roster.now.dossier.wishes }
    ensures place { (k : ℕ) → nat_le k (place_at roster.now.dossier roster.now.orders result)
        ≡ (reaches (option_map (place_at roster.now.dossier roster.now.orders) known) k
        || nat_le k (place_at roster.now.dossier roster.now.orders wish)) }
    ensures fits { (p : ℕ) → IfSome known (IsFor roster.now.dossier roster.now.orders p)
        → (wish_in roster.now.dossier.wishes wish).programme ≡ p
        → IsFor roster.now.dossier roster.now.orders p result }
{
    let place = roster.place_in_line(wish);
    match known {
        Some(known) if place < roster.place_in_line(known) => known,
        _ => wish,
    }
}

/// Notes the wish at a place, where it is live.
fn note_last(
    lasts: &mut Vec<Option<u32>>,
    state: &DayState<'_>,
    roster: &Roster<'_, '_>,
    place: u32,
)
    requires same { roster.now.dossier ≡ state.now.dossier }
    requires place { place < length state.now.dossier.wishes }
    requires lasts { AreLastTo state.now roster.now.orders place lasts.old.items }
    ensures { AreLastTo state.now roster.now.orders (place + 1) lasts.new.items }
{
    let _ = state.marks(); // one for each wish
    let _ = programme_count(state); // each wish is for one of them
    if mark_at(state, place).is_live() {
        let programme = wish_at(state, place).programme as usize;
        lasts[programme] = Some(later(roster, lasts[programme], place));
    }
}

/// Of each programme the live wish whose candidate stands last in its line.
pub(crate) fn last_live(
    alloc: Global,
    state: &DayState<'_>,
    roster: &Roster<'_, '_>,
) -> Result<Vec<Option<u32>>, OutOfMemory>
    requires { roster.now.dossier ≡ state.now.dossier }
    ensures { IfOk result (λ lasts. AreLast state.now roster.now.orders lasts.items) }
{
    let _ = state.marks(); // one for each wish
    let mut lasts = vec![in alloc; None; programme_count(state) as usize]?;
    for place in 0..wish_count(state) {
        note_last(&mut lasts, state, roster, place);
    }
    Ok(lasts)
}
