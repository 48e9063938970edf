//! Whether no candidate has the same wish twice.
ghost use Rattle.std.specs.Prelude.{◌≡◌, AllPairs, IfOk, map, true, false};
ghost use Rattle.admit_core.specs.Relations.{same_wish};
ghost use Rattle.dossier_check.specs.Wished.{wished};

use crate::made::{Makes, made_of};
use admit_core::{OutOfMemory, WishRow};
use std::alloc::Global;

/// The candidate, the programme and the school of a wish, or 0 without one.
#[derive(Drop)]
struct Wished;

impl Makes<WishRow, (u32, u32, u32)> for Wished {
    ghost can_make = { λ c. Unit {0} };

    ghost made = { λ c. wished };

    fn make(&self, row: &WishRow, _number: usize) -> (u32, u32, u32) {
        (row.candidate, row.programme, row.school.unwrap_or(0))
    }
}

/// What the rows are of, in their order.
fn all_wished(alloc: Global, rows: &[WishRow]) -> Result<Vec<(u32, u32, u32)>, OutOfMemory>
    ensures { IfOk result (λ keys. keys.items ≡ map wished rows.now) }
{
    made_of(alloc, &Wished, rows)
}

/// Whether order shows that no two rows are of the same wish.
pub(crate) fn wishes_apart(alloc: Global, rows: &[WishRow]) -> Result<bool, OutOfMemory>
    ensures { IfOk result (λ apart.
        apart ≡ true → AllPairs (λ r row. same_wish row r ≡ false) rows.now) }
{
    let mut keys = all_wished(alloc, rows)?;
    keys.sort_unstable();
    Ok(
        keys.as_slice()
            .is_sorted_by(|one, next| one.cmp(next).is_lt()),
    )
}
