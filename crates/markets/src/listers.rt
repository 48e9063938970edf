//! For each programme the candidates whose lists name it.
ghost use Rattle.std.specs.Prelude.{◌≡◌, ◌≤◌, [], length, IfOk, IsOk, OnOk, IsTrue};
ghost use Rattle.admit_core.specs.Lists.{is_among};
ghost use Rattle.markets.specs.Markets.{is_list_below};
ghost use Rattle.markets.specs.Listers.{AreLists, AreListers, ArePutIn};

use admit_core::{OutOfMemory, Sequence};
use std::alloc::Global;

/// For each number below a count the lists that have it, ascending.
pub fn listers_of(
    alloc: Global,
    lists: &[Sequence<u32>],
    count: u32,
) -> Result<Vec<Vec<u32>>, OutOfMemory>
    requires few { length lists.now ≤ 16000000 }
    requires lists { AreLists count lists.now }
    ensures listers { IfOk result (λ rows.
        AreListers lists.now count (length lists.now) rows.items) }
    ensures always { count ≡ 0 → IsOk result }
{
    let mut rows = empty_rows(alloc, count)?;
    for (place, list) in lists.iter().enumerate() {
        put_in_rows(&mut rows, list.as_slice(), place as u32)?;
    }
    Ok(rows)
}

/// So many empty rows.
pub fn empty_rows(alloc: Global, count: u32) -> Result<Vec<Vec<u32>>, OutOfMemory>
    ensures empty { IfOk result (λ rows. AreListers [] count 0 rows.items) }
    ensures always { count ≡ 0 → IsOk result }
{
    let mut rows = Vec::new(alloc);
    for _row in 0..count {
        let empty = Vec::new(alloc);
        rows.push(empty)?;
    }
    Ok(rows)
}

/// Puts an item at the end of the rows whose numbers stand in a list.
fn put_in_rows(rows: &mut Vec<Vec<u32>>, list: &[u32], item: u32) -> Result<(), OutOfMemory>
    requires { IsTrue (is_list_below (length rows.old.items) list.now) }
    ensures put { OnOk result (ArePutIn (λ p. is_among p list.now) (λ p. item) rows.old.items
        rows.new.items) }
    ensures always { list.now ≡ [] → IsOk result }
{
    for number in list {
        rows[*number as usize].push(item)?;
    }
    Ok(())
}
