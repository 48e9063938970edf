//! Whether no candidate has the same preference twice.
ghost use Rattle.std.specs.Prelude.{◌≡◌, ◌&&◌, AllPairs, IfOk, filter, map, nat_eq, nat_lt, true, false};
ghost use Rattle.dossier_check.specs.Wished.{has_preference, preferred};

use admit_core::{OutOfMemory, WishRow};
use std::alloc::Global;

/// Whether a wish has a preference.
fn has_preference(row: &WishRow) -> bool
    ensures { result ≡ has_preference row.now }
{
    0 < row.preference
}

/// The candidate and the preference of a wish.
fn preferred(row: &WishRow) -> (u32, u32)
    ensures { result ≡ preferred row.now }
{
    (row.candidate, row.preference)
}

/// The candidates and the preferences of the wishes that have one, in their order.
fn all_preferred(alloc: Global, rows: &[WishRow]) -> Result<Vec<(u32, u32)>, OutOfMemory>
    ensures { IfOk result (λ keys. keys.items ≡ map preferred (filter has_preference rows.now)) }
{
    let preferring = rows.iter().filter(|row| has_preference(row));
    Ok(preferring.map(|row| preferred(row)).collect(alloc)?)
}

/// Whether order shows that no candidate has the same preference twice.
pub(crate) fn preferences_apart(alloc: Global, rows: &[WishRow]) -> Result<bool, OutOfMemory>
    ensures { IfOk result (λ apart. apart ≡ true → AllPairs (λ r row. has_preference row ≡ true
        → (nat_eq row.candidate r.candidate && nat_eq row.preference r.preference) ≡ false)
        rows.now) }
{
    let mut keys = all_preferred(alloc, rows)?;
    keys.sort_unstable();
    Ok(
        keys.as_slice()
            .is_sorted_by(|one, next| one.cmp(next).is_lt()),
    )
}
