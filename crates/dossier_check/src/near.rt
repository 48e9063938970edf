//! Where to look first. Nothing depends on it but how long a look-up takes.

use crate::tag::Tag;
use admit_core::OutOfMemory;
use std::alloc::Global;

/// The first place of each group, by the groups' places.
pub(crate) fn first_places(alloc: Global, groups: usize) -> Result<Vec<u32>, OutOfMemory> {
    Ok(vec![in alloc; 0; groups]?)
}

/// Where the tests found what a wish names. It is looked for there first once more. A school is not
/// kept: few wishes name one.
#[derive(Clone, Copy)]
pub(crate) struct NamedPlaces {
    pub(crate) programme: u32,
    /// The place of the candidate's rank in the school; 0 without a school.
    pub(crate) rank: u32,
}

/// The first places.
const FIRST: NamedPlaces = NamedPlaces {
    programme: 0,
    rank: 0,
};

/// A place as a number of 32 bits, and 0 for what is none.
pub(crate) fn small(place: usize) -> u32 {
    u32::try_from(place).unwrap_or(0)
}

impl NamedPlaces {
    /// These places.
    pub(crate) fn of(programme: usize, rank: usize) -> NamedPlaces {
        NamedPlaces {
            programme: small(programme),
            rank: small(rank),
        }
    }

    /// Those of a wish by its place in the file; the first ones where none were kept.
    pub(crate) fn at(kept: &[NamedPlaces], wish: usize) -> NamedPlaces {
        kept.get(wish).copied().unwrap_or(FIRST)
    }
}

/// Puts places at that of their wish, which its tag tells.
fn put_back(kept: &mut [NamedPlaces], tag: Tag, places: NamedPlaces) {
    if let Some(there) = kept.get_mut(tag.place() as usize) {
        *there = places;
    }
}

/// What is kept of wishes in another order, in that of the file, which their tags tell.
pub(crate) fn in_file_order(
    alloc: Global,
    tags: &[Tag],
    found: &[NamedPlaces],
) -> Result<Vec<NamedPlaces>, OutOfMemory> {
    let mut kept = vec![in alloc; FIRST; found.len()]?;
    for (tag, places) in tags.iter().zip(found) {
        put_back(kept.as_mut_slice(), *tag, *places);
    }
    Ok(kept)
}
