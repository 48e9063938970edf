//! Whether lists name programmes of a market, none twice.
ghost use Rattle.std.specs.Prelude.{◌≡◌, ◌≤◌, [], not, length, position, IfOk, IsOk};
ghost use Rattle.markets.specs.Markets.{is_list_below};
ghost use Rattle.markets.specs.Stamps.{AreUpTo};

use crate::stamps::stamp_list;
use admit_core::{OutOfMemory, Sequence};
use std::alloc::Global;

/// The first of these lists that has a number out of range, or one twice.
pub fn first_bad_list(
    alloc: Global,
    lists: &[Sequence<u32>],
    count: u32,
) -> Result<Option<u32>, OutOfMemory>
    requires { length lists.now ≤ 16000000 }
    ensures bad { IfOk result (λ bad. bad ≡ position
        (λ list. not (is_list_below count list)) lists.now) }
    ensures always { lists.now ≡ [] → IsOk result }
{
    if lists.is_empty() {
        return Ok(None);
    }
    let mut room = vec![in alloc; 0; count as usize]?;
    Ok(bad_among(lists, room.as_mut_slice()))
}

/// The first of these lists that has a number out of range, or one twice, by a stamp on each
/// number. It takes no memory.
pub fn bad_among(lists: &[Sequence<u32>], stamps: &mut [u32]) -> Option<u32>
    requires few { length lists.now ≤ 16000000 }
    requires fresh { AreUpTo 0 stamps.old }
    ensures { result ≡ position
        (λ list. not (is_list_below (length stamps.old) list)) lists.now }
{
    let mut stamp = 0;
    for list in lists {
        stamp += 1;
        if !stamp_list(list.as_slice(), stamp, stamps) {
            return Some(stamp - 1);
        }
    }
    None
}
