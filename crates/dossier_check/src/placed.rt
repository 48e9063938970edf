//! The places of what rows name, each found once.
ghost use Rattle.std.specs.Prelude.{◌≡◌, ◌<◌, ◌^◌, All, IfOk, length, true};
ghost use Rattle.admit_core.specs.Standing.{place_of};
ghost use Rattle.dossier_check.specs.Dealt.{places_by};

use crate::noted::Key;
use crate::row_ids::RowIds;
use admit_core::OutOfMemory;
use std::alloc::Global;

/// The place of an id, and the number of ids where it is none of them. It's looked for first where
/// `near` says, which becomes its place.
pub(crate) fn place_near(ids: &RowIds, id: u32, near: &mut usize) -> u32
    requires { length ids.now.keys < 2 ^ 32 }
    ensures { result ≡ place_of ids.now.keys id }
{
    ids.find_near(id, near).unwrap_or(ids.len()) as u32
}

/// The places of what rows name, row by row. Rows that name the same mostly stand together.
pub(crate) fn places_of<R, Q: Key<R, u32>>(
    alloc: Global,
    rule: &Q,
    rows: &[R],
    ids: &RowIds,
) -> Result<Vec<u32>, OutOfMemory>
    requires { length ids.now.keys < 2 ^ 32 }
    ensures { IfOk result (λ places. places.items ≡ places_by Q.key ids.now.keys rows.now) }
{
    let mut places = Vec::with_capacity(alloc, rows.len())?;
    let mut near = 0;
    for row in rows {
        places.push(place_near(ids, rule.key_of(row), &mut near))?;
    }
    Ok(places)
}

/// Whether there are more groups than each place says.
pub(crate) fn all_below(places: &[u32], groups: usize) -> bool
    ensures { result ≡ true → All (λ place. place < groups) places.now }
{
    for place in places {
        if groups <= *place as usize {
            return false;
        }
    }
    true
}
