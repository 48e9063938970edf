//! The tests of statuses.
ghost use Rattle.std.specs.Prelude.{◌≡◌, ◌<◌, ◌^◌, length, map, IfOk};
ghost use Rattle.admit_core.specs.declared.slot.Slot.TheVariants as slots;
ghost use Rattle.admit_core.specs.Faults.{first_in};
ghost use Rattle.admit_core.specs.Relations.{state_tests, wish_ids};
ghost use Rattle.dossier_check.specs.Outcome.{AnswersFault, MayLack};

use crate::noted::{note_first, row_of};
use crate::row_ids::RowIds;
use crate::row_tests::{NamesUnknown, NoTest, RepeatsId, RowTest, Then};
use crate::rules::ItsWish;
use crate::scan::scanned;
use admit_core::{InFault, OutOfMemory, Reason, Slot, StateRow, Status, Tables};
use indexmap::IndexMap;
use keyed_hash::Keyed;
use std::alloc::Global;

/// An earlier row accepts another wish of the candidate.
pub(crate) struct TwoAccepted<'a> {
    pub(crate) tables: &'a Tables,
    pub(crate) wishes: &'a RowIds,
    pub(crate) rows: IndexMap<u32, u64, Keyed>,
}

// Not derived: so it is dropped in one step where it is held, and not by each list of the map.
impl<'a> Drop for TwoAccepted<'a> {
    fn drop(self) {
        let TwoAccepted {
            tables: _,
            wishes: _,
            rows: _,
        } = self;
    }
}

impl<'a> TwoAccepted<'a> {
    ghost use Rattle.std.specs.Prelude.{None, if◌then◌else◌};
    ghost use Rattle.admit_core.specs.Relations.{is_accepted, candidate_with};

    /// The candidate whose wish a row accepts.
    fn accepting_candidate(&self, row: &StateRow) -> Option<u32>
        ensures { self.now.wishes.now.keys ≡ wish_ids self.now.tables.now →
            result ≡ (if is_accepted row.now.status then candidate_with self.now.tables.now
            row.now.wish else None) }
    {
        if !matches!(row.status, Status::Accepted) {
            return None;
        }
        let wish = row_of(self.wishes, self.tables.wishes.as_slice(), row.wish)?;
        Some(wish.candidate)
    }
}

impl<'a> RowTest<StateRow> for TwoAccepted<'a> {
    ghost use Rattle.std.specs.Prelude.{nat_eq};
    ghost use Rattle.indexmap.specs.IndexMap.{get};
    ghost use Rattle.admit_core.specs.Relations.{two_accepted, wish_ids};
    ghost use Rattle.dossier_check.specs.RowsBefore.{AreFirstRows, is_accepted_of};

    ghost test = { λ c. two_accepted c.tables.now };

    ghost has_seen = { λ c before. (c.wishes.now.keys ≡ wish_ids c.tables.now)
        × AreFirstRows (is_accepted_of c.tables.now) (get nat_eq c.rows) before };

    ghost takes_memory = { Unit {0} };

    fn stands(&mut self, row: &StateRow, number: u64) -> Result<Option<Reason>, OutOfMemory> {
        let Some(candidate) = self.accepting_candidate(row) else {
            return Ok(None);
        };
        match note_first(&mut self.rows, candidate, number)? {
            Some(first) => Ok(Some(Reason::TwoAccepted(first))),
            None => Ok(None),
        }
    }
}

/// Checks the statuses, and answers the wishes that they are of, by place.
pub(crate) fn check_state<'a>(
    alloc: Global,
    keyed: Keyed,
    tables: &'a Tables,
    wishes: &'a RowIds,
) -> Result<RowIds, InFault>
    requires wishes { wishes.now.keys ≡ wish_ids tables.now }
    requires small { length tables.now.state < 2 ^ 32 }
    ensures fault { AnswersFault result
        (first_in slots.State (state_tests tables.now) tables.now.state) }
    ensures wishes { IfOk result (λ stated. stated.keys ≡ map (λ s. s.wish) tables.now.state) }
    ensures memory { MayLack (0 < length tables.now.state) result }
{
    let rows = tables.state.as_slice();
    let checks = Then {
        first: RepeatsId {
            alloc,
            keyed,
            ids: RowIds::with_room(alloc, rows.len())?,
            rule: ItsWish,
        },
        rest: Then {
            first: NamesUnknown {
                field: 1,
                ids: wishes,
                rule: ItsWish,
            },
            rest: Then {
                first: TwoAccepted {
                    tables,
                    wishes,
                    rows: IndexMap::with_hasher(alloc, keyed),
                },
                rest: NoTest,
            },
        },
    };
    let checks = scanned(Slot::State, checks, rows)?;
    Ok(checks.first.ids)
}
