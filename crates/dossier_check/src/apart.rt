//! Whether no two rows are of the same wish, and no candidate has a preference twice.
ghost use Rattle.std.specs.Prelude.{◌≡◌, ◌+◌, ◌≤◌, ◌<◌, ◌&&◌, AllPairs, IfOk, IfSome, Some, false, length, nat_eq, not, slice_get, true};
ghost use Rattle.std.specs.List.{list_all};
ghost use Rattle.admit_core.specs.Relations.{same_wish};
ghost use Rattle.dossier_check.specs.Runs.{IsRunUpTo, alike, clashes, run_with};
ghost use Rattle.dossier_check.specs.Wished.{has_preference};

use crate::preferred::preferences_apart;
use crate::wished::wishes_apart;
use admit_core::{OutOfMemory, WishRow};
use std::alloc::Global;

/// The most wishes of a candidate that are compared with one another.
const MOST: usize = 64;

/// Whether two wishes of one candidate are the same, or have the same preference.
fn alike(row: &WishRow, other: &WishRow) -> bool
    ensures { result ≡ alike row.now other.now }
{
    let same_wish = row.programme == other.programme && row.school == other.school;
    same_wish || 0 < row.preference && row.preference == other.preference
}

/// Whether a wish is like none of these.
fn is_apart(row: &WishRow, others: &[WishRow]) -> bool
    ensures { result ≡ list_all (λ r. not (alike row.now r)) others.now }
{
    others.iter().all(|other| !alike(row, other))
}

/// The wish at a place.
fn wish_at(rows: &[WishRow], place: usize) -> WishRow
    requires { place < length rows.now }
    ensures { slice_get rows.now place ≡ Some result }
{
    rows[place]
}

/// Wishes of one candidate that stand together, by the place of the first.
#[derive(Clone, Copy)]
pub(crate) struct Run {
    pub(crate) candidate: u32,
    pub(crate) from: usize,
}

impl Run {
    /// The run of the candidate of the next row; none where candidates don't rise.
    fn with(self, candidate: u32, place: usize) -> Option<Run>
        ensures { result ≡ run_with self candidate place }
    {
        if candidate == self.candidate {
            return Some(self);
        }
        if self.candidate < candidate {
            return Some(Run {
                candidate,
                from: place,
            });
        }
        None
    }

    /// The run that goes on to the next row, where that is seen not to clash.
    fn longer(self, rows: &[WishRow], place: usize) -> Option<Run>
        requires from { self.from ≤ place }
        requires within { place < length rows.now }
        ensures goes_on { IfSome result (λ next.
            IsRunUpTo rows.now self place → IsRunUpTo rows.now next (place + 1)) }
        ensures short { IfSome result (λ next. place < next.from + 64) }
    {
        let row = wish_at(rows, place);
        let next = self.with(row.candidate, place)?;
        let others = &rows[next.from..place];
        if others.len() < MOST && is_apart(&row, others) {
            return Some(next);
        }
        None
    }
}

/// Whether no two wishes clash, as a look at each candidate's shows where the candidates rise.
fn none_clash(rows: &[WishRow]) -> bool
    ensures { result ≡ true → AllPairs (λ r row. clashes row r ≡ false) rows.now }
{
    let mut run = Run {
        candidate: 0,
        from: 0,
    };
    for place in 0..rows.len() {
        match run.longer(rows, place) {
            Some(next) => run = next,
            None => return false,
        }
    }
    true
}

/// What is known of wishes before their rows are tested.
#[derive(Clone, Copy)]
pub(crate) struct Apart {
    /// No two rows are of the same wish.
    pub(crate) wishes: bool,
    /// No candidate has a preference twice.
    pub(crate) preferences: bool,
}

/// What order shows of wishes.
pub(crate) fn shown_apart(alloc: Global, rows: &[WishRow]) -> Result<Apart, OutOfMemory>
    ensures wishes { IfOk result (λ apart. apart.wishes ≡ true →
        AllPairs (λ r row. same_wish row r ≡ false) rows.now) }
    ensures preferences { IfOk result (λ apart. apart.preferences ≡ true →
        AllPairs (λ r row. has_preference row ≡ true
        → (nat_eq row.candidate r.candidate && nat_eq row.preference r.preference) ≡ false)
        rows.now) }
{
    if none_clash(rows) {
        return Ok(Apart {
            wishes: true,
            preferences: true,
        });
    }
    Ok(Apart {
        wishes: wishes_apart(alloc, rows)?,
        preferences: preferences_apart(alloc, rows)?,
    })
}
