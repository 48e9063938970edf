//! What is seen of a system of boarding schools under its present bars, as lines.

use admit_core::{Dossier, OutOfMemory};
use bar_fixpoint::Falling;
use std::alloc::Global;
use std::fmt::Write;

/// The number of the school at a place; 0 past the last.
pub(crate) fn school_id(dossier: &Dossier, place: u32) -> u32 {
    match dossier.schools.as_slice().get(place as usize) {
        Some(school) => school.id,
        None => 0,
    }
}

/// The numbers of the wishes at these places.
pub(crate) fn push_wishes(
    text: &mut String,
    dossier: &Dossier,
    places: &[u32],
) -> Result<(), OutOfMemory> {
    for place in places {
        if let Some(wish) = dossier.wishes.as_slice().get(*place as usize) {
            write!(text, " {}", wish.id)?;
        }
    }
    text.push_str("\n")?;
    Ok(())
}

/// The line of a school: its bar, the first rank that finds no bed if there is one, and a wish for
/// each demanded rank.
fn push_school<F: Falling>(
    alloc: Global,
    text: &mut String,
    dossier: &Dossier,
    system: &F,
    place: u32,
) -> Result<(), OutOfMemory> {
    let schools = dossier.schools.as_slice();
    let Some(school) = schools.get(place as usize) else {
        return Ok(());
    };
    if place >= system.count() {
        return Ok(());
    }
    write!(text, "school {} bar {}", school.id, system.bar(place))?;
    if let Some(rank) = system.over(alloc, place)? {
        write!(text, " over {rank}")?;
    }
    text.push_str(" demanded by")?;
    push_wishes(
        text,
        dossier,
        system.names(alloc, place, u32::MAX)?.as_slice(),
    )
}

/// The lines of all schools, and of the wishes at the places that are proposed.
pub(crate) fn push_view<F: Falling>(
    alloc: Global,
    text: &mut String,
    dossier: &Dossier,
    system: &F,
    proposed: &[u32],
) -> Result<(), OutOfMemory> {
    for place in 0..system.count() {
        push_school(alloc, text, dossier, system, place)?;
    }
    text.push_str("proposed")?;
    push_wishes(text, dossier, proposed)
}
