//! The tests of each slot that needs no test of its own.
ghost use Rattle.std.specs.Prelude.{◌≡◌, ◌<◌, ◌^◌, ◌∷◌, ◌&&◌, [], AllPairs, false, length, map, nat_eq, true, IfOk};
ghost use Rattle.admit_core.specs.declared.slot.Slot.TheVariants as slots;
ghost use Rattle.admit_core.specs.Faults.{first_in, repeats};
ghost use Rattle.admit_core.specs.Relations.{programme_tests, ranking_tests, boarding_tests, ceiling_tests, group_ids, programme_ids, school_ids};
ghost use Rattle.dossier_check.specs.Outcome.{AnswersFault, MayLack};

use crate::day_falls::{DayFalls, ItsDay};
use crate::hashing::hashing_of_ranks;
use crate::noted::Key;
use crate::row_ids::RowIds;
use crate::row_tests::{NamesUnknown, NoTest, Repeats, RepeatsId, Shared, Then, Unless};
use crate::rules::{
    DayAndSchool, GroupAndCandidate, GroupAndRank, ItsGroup, ItsSchool, OwnId, SchoolAndCandidate,
    SchoolAndRank,
};
use crate::scan::{scan, scanned};
use crate::tag::Tag;
use admit_core::{BoardRow, InFault, Sequence, Slot, Tables};
use indexmap::IndexSet;
use keyed_hash::Keyed;
use std::alloc::Global;

/// Checks the ids of a slot whose rows name no others, and answers them by place.
pub(crate) fn check_ids<R, Q: Key<R, u32> + Drop>(
    alloc: Global,
    keyed: Keyed,
    slot: Slot,
    rule: Q,
    rows: &Sequence<R>,
) -> Result<RowIds, InFault>
    requires { length rows.now < 2 ^ 32 }
    ensures fault { AnswersFault result
        (first_in slot (repeats (λ row r. nat_eq (Q.key row) (Q.key r)) ∷ []) rows.now) }
    ensures ids { IfOk result (λ ids. ids.keys ≡ map Q.key rows.now) }
    ensures memory { MayLack (0 < length rows.now) result }
{
    let rows = rows.as_slice();
    let checks = Then {
        first: RepeatsId {
            alloc,
            keyed,
            ids: RowIds::with_room(alloc, rows.len())?,
            rule,
        },
        rest: NoTest,
    };
    let checks = scanned(slot, checks, rows)?;
    Ok(checks.first.ids)
}

/// Checks the programmes, and answers their ids by place.
pub(crate) fn check_programmes(
    alloc: Global,
    keyed: Keyed,
    tables: &Tables,
    groups: &RowIds,
) -> Result<RowIds, InFault>
    requires groups { groups.now.keys ≡ group_ids tables.now }
    requires small { length tables.now.programmes < 2 ^ 32 }
    ensures fault { AnswersFault result
        (first_in slots.Programmes (programme_tests tables.now) tables.now.programmes) }
    ensures ids { IfOk result (λ ids. ids.keys ≡ programme_ids tables.now) }
    ensures memory { MayLack (0 < length tables.now.programmes) result }
{
    let rows = tables.programmes.as_slice();
    let checks = Then {
        first: RepeatsId {
            alloc,
            keyed,
            ids: RowIds::with_room(alloc, rows.len())?,
            rule: OwnId,
        },
        rest: Then {
            first: NamesUnknown {
                field: 2,
                ids: groups,
                rule: ItsGroup,
            },
            rest: NoTest,
        },
    };
    let checks = scanned(Slot::Programmes, checks, rows)?;
    Ok(checks.first.ids)
}

/// Tests the rankings row by row, and answers the first fault.
pub(crate) fn find_rank_fault(
    alloc: Global,
    tables: &Tables,
    groups: &RowIds,
) -> Result<(), InFault>
    requires groups { groups.now.keys ≡ group_ids tables.now }
    requires small { length tables.now.rankings < 2 ^ 32 }
    ensures fault { AnswersFault result
        (first_in slots.Rankings (ranking_tests tables.now) tables.now.rankings) }
    ensures memory { MayLack (0 < length tables.now.rankings) result }
{
    let rows = tables.rankings.as_slice();
    let keyed = hashing_of_ranks(rows);
    let mut checks = Then {
        first: Repeats {
            keys: IndexSet::with_hasher(alloc, keyed),
            rule: GroupAndCandidate,
            shared: Shared::Item,
        },
        rest: Then {
            first: NamesUnknown {
                field: 1,
                ids: groups,
                rule: ItsGroup,
            },
            rest: Then {
                first: Repeats {
                    keys: IndexSet::with_hasher(alloc, keyed),
                    rule: GroupAndRank,
                    shared: Shared::Rank,
                },
                rest: NoTest,
            },
        },
    };
    scan(Slot::Rankings, &mut checks, rows)
}

/// Whether each row has a greater school than the one before it, or the same and a greater rank.
fn ranks_rise(rows: &[BoardRow]) -> bool
    ensures { result ≡ true → AllPairs (λ r row.
        (nat_eq row.school r.school && nat_eq row.rank r.rank) ≡ false) rows.now }
{
    rows.is_sorted_by(|one, next| {
        Tag::new(one.school, one.rank) < Tag::new(next.school, next.rank)
    })
}

/// Checks the boarding ranks, and answers the pairs of school and candidate by place.
pub(crate) fn check_boarding(
    alloc: Global,
    keyed: Keyed,
    tables: &Tables,
    schools: &RowIds,
) -> Result<IndexSet<(u32, u32), Keyed>, InFault>
    requires schools { schools.now.keys ≡ school_ids tables.now }
    requires small { length tables.now.boarding < 2 ^ 32 }
    ensures fault { AnswersFault result
        (first_in slots.Boarding (boarding_tests tables.now) tables.now.boarding) }
    ensures pairs { IfOk result (λ pairs.
        pairs.keys ≡ map (λ r. (r.school, r.candidate)) tables.now.boarding) }
    ensures memory { MayLack (0 < length tables.now.boarding) result }
{
    let rows = tables.boarding.as_slice();
    let pairs = IndexSet::with_capacity_and_hasher(alloc, rows.len(), keyed)?;
    let checks = Then {
        first: Repeats {
            keys: pairs,
            rule: SchoolAndCandidate,
            shared: Shared::Item,
        },
        rest: Then {
            first: NamesUnknown {
                field: 1,
                ids: schools,
                rule: ItsSchool,
            },
            rest: Then {
                first: Unless {
                    is_known: ranks_rise(rows),
                    test: Repeats {
                        keys: IndexSet::with_hasher(alloc, keyed),
                        rule: SchoolAndRank,
                        shared: Shared::Rank,
                    },
                },
                rest: NoTest,
            },
        },
    };
    let checks = scanned(Slot::Boarding, checks, rows)?;
    Ok(checks.first.into_keys())
}

/// Checks the ceilings.
pub(crate) fn check_ceilings(
    alloc: Global,
    keyed: Keyed,
    tables: &Tables,
    schools: &RowIds,
) -> Result<(), InFault>
    requires schools { schools.now.keys ≡ school_ids tables.now }
    requires small { length tables.now.ceilings < 2 ^ 32 }
    ensures fault { AnswersFault result
        (first_in slots.Ceilings (ceiling_tests tables.now) tables.now.ceilings) }
    ensures memory { MayLack (0 < length tables.now.ceilings) result }
{
    let mut checks = Then {
        first: Repeats {
            keys: IndexSet::with_hasher(alloc, keyed),
            rule: DayAndSchool,
            shared: Shared::Item,
        },
        rest: Then {
            first: NamesUnknown {
                field: 2,
                ids: schools,
                rule: ItsSchool,
            },
            rest: Then {
                first: DayFalls {
                    last: 0,
                    rule: ItsDay,
                },
                rest: NoTest,
            },
        },
    };
    scan(Slot::Ceilings, &mut checks, tables.ceilings.as_slice())
}
