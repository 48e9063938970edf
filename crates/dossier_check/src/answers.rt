//! The tests of answers.
ghost use Rattle.std.specs.Prelude.{◌≡◌, ◌<◌, ◌^◌, length};
ghost use Rattle.admit_core.specs.declared.slot.Slot.TheVariants as slots;
ghost use Rattle.admit_core.specs.Faults.{first_in};
ghost use Rattle.admit_core.specs.Relations.{answer_tests, wish_ids};
ghost use Rattle.dossier_check.specs.Outcome.{AnswersFault, MayLack};
ghost use Rattle.dossier_check.specs.RowsBefore.{KnowsCandidates};

use crate::day_falls::{DayFalls, ItsDay};
use crate::row_ids::RowIds;
use crate::row_tests::{NoTest, RowTest, Then};
use crate::scan::scan;
use admit_core::{AnswerKind, AnswerRow, InFault, OutOfMemory, Reason, Slot, Tables};

/// The target isn't a wish, or for `Quit` a candidate who has one.
#[derive(Drop)]
pub(crate) struct TargetUnknown<'a> {
    pub(crate) tables: &'a Tables,
    pub(crate) wishes: &'a RowIds,
    pub(crate) candidates: &'a RowIds,
}

impl<'a> TargetUnknown<'a> {
    ghost use Rattle.admit_core.specs.Relations.{is_target};

    /// Whether a row's target is there.
    fn knows(&self, row: &AnswerRow) -> bool
        ensures { self.now.wishes.now.keys ≡ wish_ids self.now.tables.now →
            KnowsCandidates self.now.candidates.now.keys self.now.tables.now.wishes →
            result ≡ is_target self.now.tables.now row.now.kind row.now.target }
    {
        match row.kind {
            AnswerKind::Accept | AnswerKind::Refuse | AnswerKind::Withdraw => {
                self.wishes.contains(row.target)
            }
            AnswerKind::Quit => self.candidates.contains(row.target),
        }
    }
}

impl<'a> RowTest<AnswerRow> for TargetUnknown<'a> {
    ghost use Rattle.std.specs.Prelude.{nat_eq};
    ghost use Rattle.admit_core.specs.Faults.{names_unknown};
    ghost use Rattle.admit_core.specs.Relations.{is_target, wish_ids};
    ghost use Rattle.dossier_check.specs.RowsBefore.{KnowsCandidates};

    ghost test = { λ c. names_unknown 3 (λ row. is_target c.tables.now row.kind row.target) };

    ghost has_seen = { λ c before. (c.wishes.now.keys ≡ wish_ids c.tables.now)
        × KnowsCandidates c.candidates.now.keys c.tables.now.wishes };

    ghost takes_memory = { ⊥ };

    fn stands(&mut self, row: &AnswerRow, _number: u64) -> Result<Option<Reason>, OutOfMemory> {
        if self.knows(row) {
            return Ok(None);
        }
        Ok(Some(Reason::Unknown(3)))
    }
}

/// Checks the answers.
pub(crate) fn check_answers<'a>(
    tables: &'a Tables,
    wishes: &'a RowIds,
    candidates: &'a RowIds,
) -> Result<(), InFault>
    requires wishes { wishes.now.keys ≡ wish_ids tables.now }
    requires candidates { KnowsCandidates candidates.now.keys tables.now.wishes }
    requires small { length tables.now.answers < 2 ^ 32 }
    ensures fault { AnswersFault result
        (first_in slots.Answers (answer_tests tables.now) tables.now.answers) }
    ensures memory { MayLack ⊥ result }
{
    let mut checks = Then {
        first: TargetUnknown {
            tables,
            wishes,
            candidates,
        },
        rest: Then {
            first: DayFalls {
                last: 0,
                rule: ItsDay,
            },
            rest: NoTest,
        },
    };
    scan(Slot::Answers, &mut checks, tables.answers.as_slice())
}
