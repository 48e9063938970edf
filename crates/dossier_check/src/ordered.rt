//! Wishes that are shown to have no fault by a look at them in order by candidate.
ghost use Rattle.std.specs.Prelude.{◌≡◌, ◌<◌, ◌^◌, ◌∷◌, [], IfOk, IfSome, IsSome, None, Ok, length};
ghost use Rattle.admit_core.specs.declared.slot.Slot.TheVariants as slots;
ghost use Rattle.admit_core.specs.Faults.{first_in};
ghost use Rattle.admit_core.specs.Relations.{wish_tests, wish_ids};
ghost use Rattle.dossier_check.specs.Known.{IsKnown};
ghost use Rattle.dossier_check.specs.RowsBefore.{KnowsCandidates};
ghost use Rattle.dossier_check.specs.WishTests.{id_repeats, other_tests};

use crate::apart::shown_apart;
use crate::by_key::by_key;
use crate::known::Known;
use crate::row_ids::RowIds;
use crate::rules::{ItsCandidate, OwnId};
use crate::scan::scanned;
use crate::slots::check_ids;
use crate::wishes::{Kept, WishKeys, kept_in, other_tests, ranked_in};
use admit_core::{InFault, OutOfMemory, Slot, Tables, WishRow};
use keyed_hash::Keyed;
use std::alloc::Global;

/// Whether no wish's candidate has a lesser id than that of the wish before it.
pub(crate) fn candidates_rise(rows: &[WishRow]) -> bool {
    rows.is_sorted_by(|one, next| one.candidate <= next.candidate)
}

/// What a check answers, or nothing where it refuses a row.
fn unless_refused<T>(checked: Result<T, InFault>) -> Result<Option<T>, OutOfMemory>
    ensures { IfOk result (λ found. IfSome found (λ value. checked ≡ Ok value)) }
{
    match checked {
        Ok(value) => Ok(Some(value)),
        Err(InFault::Refused(_)) => Ok(None),
        Err(InFault::OutOfMemory) => Err(OutOfMemory),
    }
}

/// The ids of the wishes, where none stands twice.
fn ids_apart(alloc: Global, keyed: Keyed, tables: &Tables) -> Result<Option<RowIds>, OutOfMemory>
    requires { length tables.now.wishes < 2 ^ 32 }
    ensures fault { IfOk result (λ found. IsSome found →
        first_in slots.Wishes (id_repeats ∷ []) tables.now.wishes ≡ None) }
    ensures ids { IfOk result (λ found. IfSome found (λ ids. ids.keys ≡ wish_ids tables.now)) }
{
    unless_refused(check_ids(alloc, keyed, Slot::Wishes, OwnId, &tables.wishes))
}

/// What the tests but that of ids keep, where they stand at no wish. They are tried in order by
/// candidate, in which each looks near where the one before found something.
fn kept_in_order<'a>(
    alloc: Global,
    tables: &'a Tables,
    known: Known<'a>,
) -> Result<Option<Kept>, OutOfMemory>
    requires known { IsKnown tables.now known }
    requires small { length tables.now.wishes < 2 ^ 32 }
    ensures fault { IfOk result (λ found. IsSome found →
        first_in slots.Wishes (other_tests tables.now) tables.now.wishes ≡ None) }
    ensures candidates { IfOk result (λ found. IfSome found (λ kept.
        KnowsCandidates kept.candidates.keys tables.now.wishes)) }
{
    let ordered = by_key(alloc, &ItsCandidate, tables.wishes.as_slice())?;
    let rows = ordered.rows.as_slice();
    let apart = shown_apart(alloc, rows)?;
    let ranked = ranked_in(alloc, known, rows)?;
    let tests = other_tests(alloc, apart, ranked, tables, known)?;
    let Some(tests) = unless_refused(scanned(Slot::Wishes, tests, rows))? else {
        return Ok(None);
    };
    let kept = kept_in(tests);
    Ok(Some(kept.by_file(alloc, ordered.tags.as_slice())?))
}

/// What the wishes are found by, where their order by candidate shows that they have no fault.
pub(crate) fn shown_in_order<'a>(
    alloc: Global,
    tables: &'a Tables,
    known: Known<'a>,
) -> Result<Option<WishKeys>, OutOfMemory>
    requires known { IsKnown tables.now known }
    requires small { length tables.now.wishes < 2 ^ 32 }
    ensures fault { IfOk result (λ found. IsSome found →
        first_in slots.Wishes (wish_tests tables.now) tables.now.wishes ≡ None) }
    ensures ids { IfOk result (λ found.
        IfSome found (λ keys. keys.ids.keys ≡ wish_ids tables.now)) }
    ensures candidates { IfOk result (λ found. IfSome found (λ keys.
        KnowsCandidates keys.candidates.keys tables.now.wishes)) }
{
    let Some(kept) = kept_in_order(alloc, tables, known)? else {
        return Ok(None);
    };
    let Some(ids) = ids_apart(alloc, known.keyed, tables)? else {
        return Ok(None);
    };
    Ok(Some(kept.into_keys(ids)))
}
