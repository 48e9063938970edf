//! The rows of a slot, tested in turn.
ghost use Rattle.std.specs.Prelude.{◌≡◌, List, [], ◌∷◌, ◌++◌, ◌<◌, ◌^◌, length, None, IfOk, OnErr, OnOk};
ghost use Rattle.admit_core.specs.Faults.{Test, row_number, first_reason, first_in};
ghost use Rattle.dossier_check.specs.Outcome.{AnswersFault, LacksAt, MayLack};

use admit_core::{FIRST_ROW, InFault, OutOfMemory, Reason, Refusal, Slot};

/// The tests of a slot's rows, with what they need to know of the rows before.
pub(crate) trait RowChecks<R> {
    /// The tests, and the rows that went before.
    ghost tests: { Self → List (Test R) };

    ghost has_seen: { Self → List R → Type 0 };

    /// That some test takes memory, so that it may lack some.
    ghost takes_memory: { Type 0 };

    /// That the tests may lack memory at a row after these: one takes some, and neither it nor a
    /// test before it stands there.
    ghost lacks: { List (Test R) → List R → R → Type 0 };

    /// Tests the next row, which has this number, and answers the reason of the first test that
    /// stands.
    fn next(&mut self, row: &R, number: u64) -> Result<Option<Reason>, OutOfMemory>
        ensures reason { (before : List R) → has_seen self.old before →
            IfOk result (λ reason. reason ≡ first_reason (tests self.old) before row.now) }
        ensures seen { (before : List R) → has_seen self.old before → number
            ≡ row_number (length before) →
            IfOk result (λ reason. reason ≡ None → has_seen self.new (before ++ row.now ∷ [])) }
        ensures same_tests { tests self.new ≡ tests self.old }
        ensures memory { OnErr result takes_memory }
        ensures told { (before : List R) → has_seen self.old before →
            OnErr result (lacks (tests self.old) before row.now) };
}

/// Tests rows in turn, and refuses the first at which a test stands.
pub(crate) fn scan<R, C: RowChecks<R>>(
    slot: Slot,
    checks: &mut C,
    rows: &[R],
) -> Result<(), InFault>
    requires small { length rows.now < 2 ^ 32 }
    requires fresh { C.has_seen checks.old [] }
    ensures fault { AnswersFault result (first_in slot (C.tests checks.old) rows.now) }
    ensures seen { OnOk result (C.has_seen checks.new rows.now) }
    ensures memory { MayLack ((0 < length rows.now) × C.takes_memory) result }
    ensures told { MayLack (LacksAt C.lacks slot (C.tests checks.old) rows.now) result }
{
    for (place, row) in rows.iter().enumerate() {
        let number = place as u64 + FIRST_ROW;
        if let Some(reason) = checks.next(row, number)? {
            return Err(InFault::Refused(Refusal {
                slot,
                row: number,
                reason,
            }));
        }
    }
    Ok(())
}

/// Tests rows as `scan` does, and answers the tests with what they know of all rows. They are moved
/// in, so the caller holds nothing that a refusal would drop.
pub(crate) fn scanned<R, C: RowChecks<R> + Drop>(
    slot: Slot,
    mut checks: C,
    rows: &[R],
) -> Result<C, InFault>
    requires small { length rows.now < 2 ^ 32 }
    requires fresh { C.has_seen checks [] }
    ensures fault { AnswersFault result (first_in slot (C.tests checks) rows.now) }
    ensures seen { IfOk result (λ seen. C.has_seen seen rows.now) }
    ensures memory { MayLack ((0 < length rows.now) × C.takes_memory) result }
    ensures told { MayLack (LacksAt C.lacks slot (C.tests checks) rows.now) result }
{
    scan(slot, &mut checks, rows)?;
    Ok(checks)
}
