//! A list of what is made of each row of a slot.
ghost use Rattle.std.specs.Prelude.{◌≡◌, ◌<◌, IfOk, OnErr, length, map};

use admit_core::OutOfMemory;
use std::alloc::Global;

/// What an item is made of, beside its row.
pub(crate) trait Makes<R, T> {
    ghost can_make: { Self → Type 0 };

    ghost made: { Self → R → T };

    /// The item of a row. Nothing depends on the row's number, from 0, but how long that takes.
    fn make(&self, row: &R, number: usize) -> T
        requires { can_make self.now }
        ensures { result ≡ made self.now row.now };
}

/// The items of rows, in their order. It lacks memory only where there is a row.
pub(crate) fn made_of<R, T: Copy + Drop, M: Makes<R, T>>(
    alloc: Global,
    maker: &M,
    rows: &[R],
) -> Result<Vec<T>, OutOfMemory>
    requires { M.can_make maker.now }
    ensures made { IfOk result (λ items. items.items ≡ map (M.made maker.now) rows.now) }
    ensures memory { OnErr result (0 < length rows.now) }
{
    let mut items = Vec::with_capacity(alloc, rows.len())?;
    for (number, row) in rows.iter().enumerate() {
        items.push(maker.make(row, number))?;
    }
    Ok(items)
}
