//! The proposed wishes as a list: of the open wishes those that need no seat, and those in the
//! claims that the seats reach.
ghost use Rattle.std.specs.Prelude.{◌≤◌, ◌&&◌, false, length, take, slice_index_or, OnOk};
ghost use Rattle.admit_core.specs.Lists.{is_among};
ghost use Rattle.linked_demand.specs.Fronts.{claimed_open, reached_open, ListsAlso, AreFronts};

use crate::claims::Claims;
use crate::open_wishes::OpenWishes;
use admit_core::OutOfMemory;

/// Lists those of some wishes that are open.
pub fn list_open(
    opens: &OpenWishes,
    wishes: &[u32],
    found: &mut Vec<u32>,
) -> Result<(), OutOfMemory>
    ensures { OnOk result (ListsAlso
        (λ k. is_among k wishes.now && slice_index_or opens.now k false)
        found.old.items found.new.items) }
{
    for wish in wishes {
        if opens.get(*wish) {
            found.push(*wish)?;
        }
    }
    Ok(())
}

/// Lists the open wishes of the first claims of a line.
fn list_front(
    opens: &OpenWishes,
    claims: &Claims,
    reached: usize,
    found: &mut Vec<u32>,
) -> Result<(), OutOfMemory>
    requires { reached ≤ length claims.now }
    ensures { OnOk result (ListsAlso (claimed_open opens.now (take reached claims.now))
        found.old.items found.new.items) }
{
    for place in 0..reached {
        list_open(opens, claims.at(place), found)?;
    }
    Ok(())
}

/// Lists the open wishes of the claims that are reached, in each line.
pub fn list_fronts(
    opens: &OpenWishes,
    lines: &[Claims],
    reached: &[usize],
    found: &mut Vec<u32>,
) -> Result<(), OutOfMemory>
    requires { AreFronts lines.now reached.now }
    ensures { OnOk result (ListsAlso (reached_open opens.now lines.now reached.now
        (length lines.now)) found.old.items found.new.items) }
{
    let count = lines.len();
    for programme in 0..count {
        let claims = &lines[programme];
        let front = reached[programme];
        list_front(opens, claims, front, found)?;
    }
    Ok(())
}
