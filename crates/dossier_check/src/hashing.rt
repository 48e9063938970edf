//! How the rows' keys are hashed.
ghost use Rattle.std.specs.Prelude.{◌≡◌, fold, map};
ghost use Rattle.dossier_check.specs.Hashing.{alone, changes, in_order, numbers_of, numbers_of_ranks, numbers_of_wishes, whos};
ghost use Rattle.keyed_hash.specs.Keys.{keyed_by, mixed_in};

use crate::noted::Key;
use crate::rules::{
    DayAndSchool, GroupAndCandidate, GroupAndRank, ItsWish, OwnId, SchoolAndCandidate,
    SchoolAndPreference, SchoolAndRank, WhoWishes, WhoseProgramme,
};
use admit_core::{RankRow, Tables, WishRow};
use keyed_hash::{KeyMaker, Keyed};

/// Mixes a number of each row in.
fn mix_ids<R, Q: Key<R, u32>>(key: &mut KeyMaker, rule: &Q, rows: &[R])
    ensures { key.new ≡ fold mixed_in key.old (alone Q.key rows.now) }
{
    for row in rows {
        key.mix(rule.key_of(row), 0);
    }
}

/// Mixes two numbers of each row in.
fn mix_pairs<R, Q: Key<R, (u32, u32)>>(key: &mut KeyMaker, rule: &Q, rows: &[R])
    ensures { key.new ≡ fold mixed_in key.old (map Q.key rows.now) }
{
    for row in rows {
        let (one, other) = rule.key_of(row);
        key.mix(one, other);
    }
}

/// Whether the ids of wishes rise, and their candidates don't fall.
fn are_in_order(rows: &[WishRow]) -> bool
    ensures { result ≡ in_order 0 0 rows.now }
{
    let mut id = 0;
    let mut candidate = 0;
    for row in rows {
        if row.id <= id || row.candidate < candidate {
            return false;
        }
        id = row.id;
        candidate = row.candidate;
    }
    true
}

/// Mixes in the candidate of each wish that is not that of the wish before it.
fn mix_candidates(key: &mut KeyMaker, rows: &[WishRow])
    ensures { key.new ≡ fold mixed_in key.old (changes 0 rows.now) }
{
    let mut last = 0;
    for row in rows {
        if row.candidate != last {
            key.mix(row.candidate, 0);
            last = row.candidate;
        }
    }
}

/// Mixes in what wishes and their candidates are hashed by. Ids that rise are not hashed, and a
/// candidate whose wishes stand together is mixed in once.
fn mix_whos(key: &mut KeyMaker, rows: &[WishRow])
    ensures { key.new ≡ fold mixed_in key.old (whos rows.now) }
{
    if are_in_order(rows) {
        mix_candidates(key, rows);
        return;
    }
    mix_pairs(key, &WhoWishes, rows);
}

/// Hashing by a key of what wishes are of, and of the preferences.
pub(crate) fn hashing_of_wishes(rows: &[WishRow]) -> Keyed
    ensures { result ≡ keyed_by (numbers_of_wishes rows.now) }
{
    let mut key = KeyMaker::new();
    mix_pairs(&mut key, &WhoseProgramme, rows);
    mix_pairs(&mut key, &SchoolAndPreference, rows);
    key.done()
}

/// Hashing by a key of the rankings.
pub(crate) fn hashing_of_ranks(rows: &[RankRow]) -> Keyed
    ensures { result ≡ keyed_by (numbers_of_ranks rows.now) }
{
    let mut key = KeyMaker::new();
    mix_pairs(&mut key, &GroupAndCandidate, rows);
    mix_pairs(&mut key, &GroupAndRank, rows);
    key.done()
}

/// Hashing by a key of all numbers that rows are mostly found by. Rankings and what wishes are of
/// are put in order, and hashed by keys of their own only where that shows a fault.
pub(crate) fn hashing_of(tables: &Tables) -> Keyed
    ensures { result ≡ keyed_by (numbers_of tables.now) }
{
    let mut key = KeyMaker::new();
    mix_ids(&mut key, &OwnId, tables.groups.as_slice());
    mix_ids(&mut key, &OwnId, tables.programmes.as_slice());
    mix_ids(&mut key, &OwnId, tables.schools.as_slice());
    mix_pairs(&mut key, &SchoolAndCandidate, tables.boarding.as_slice());
    mix_pairs(&mut key, &SchoolAndRank, tables.boarding.as_slice());
    mix_whos(&mut key, tables.wishes.as_slice());
    mix_ids(&mut key, &ItsWish, tables.state.as_slice());
    mix_pairs(&mut key, &DayAndSchool, tables.ceilings.as_slice());
    key.done()
}
