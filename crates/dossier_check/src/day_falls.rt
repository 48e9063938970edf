//! Days that must not fall from one row to the next.
ghost use Rattle.std.specs.Prelude.{◌≡◌, ℕ};

use crate::row_tests::RowTest;
use admit_core::{AnswerRow, CeilingRow, OutOfMemory, Reason};

/// The day of a row.
pub(crate) trait HasDay<R> {
    ghost day: { R → ℕ };

    fn day_of(&self, row: &R) -> u32
        ensures { result ≡ day row.now };
}

/// The row's own day.
#[derive(Drop)]
pub(crate) struct ItsDay;

impl HasDay<CeilingRow> for ItsDay {
    ghost day = { λ r. r.day };

    fn day_of(&self, row: &CeilingRow) -> u32 {
        row.day
    }
}

impl HasDay<AnswerRow> for ItsDay {
    ghost day = { λ r. r.day };

    fn day_of(&self, row: &AnswerRow) -> u32 {
        row.day
    }
}

/// The day is less than that of the row before; `last` is 0 before the first row.
#[derive(Drop)]
pub(crate) struct DayFalls<Q> {
    pub(crate) last: u32,
    pub(crate) rule: Q,
}

impl<R, Q: HasDay<R>> RowTest<R> for DayFalls<Q> {
    ghost use Rattle.admit_core.specs.Relations.{day_falls};
    ghost use Rattle.dossier_check.specs.RowsBefore.{IsLastDay};

    ghost test = { λ c. day_falls Q.day };

    ghost has_seen = { λ c before. IsLastDay Q.day before c.last };

    ghost takes_memory = { ⊥ };

    fn stands(&mut self, row: &R, _number: u64) -> Result<Option<Reason>, OutOfMemory> {
        let day = self.rule.day_of(row);
        if day < self.last {
            return Ok(Some(Reason::DayFalls));
        }
        self.last = day;
        Ok(None)
    }
}
