//! What the rows of each slot must not share, and what they name.

ghost use Rattle.std.specs.Prelude.{unwrap_or};

use crate::noted::Key;
use admit_core::{
    BoardRow, CeilingRow, GroupRow, ProgrammeRow, RankRow, SchoolRow, StateRow, WishRow,
};

/// The row's own id.
#[derive(Drop)]
pub(crate) struct OwnId;

impl Key<GroupRow, u32> for OwnId {
    ghost key = { λ r. r.id };

    fn key_of(&self, row: &GroupRow) -> u32 {
        row.id
    }
}

impl Key<ProgrammeRow, u32> for OwnId {
    ghost key = { λ r. r.id };

    fn key_of(&self, row: &ProgrammeRow) -> u32 {
        row.id
    }
}

impl Key<SchoolRow, u32> for OwnId {
    ghost key = { λ r. r.id };

    fn key_of(&self, row: &SchoolRow) -> u32 {
        row.id
    }
}

impl Key<WishRow, u32> for OwnId {
    ghost key = { λ r. r.id };

    fn key_of(&self, row: &WishRow) -> u32 {
        row.id
    }
}

/// A group and a candidate.
#[derive(Drop)]
pub(crate) struct GroupAndCandidate;

impl Key<RankRow, (u32, u32)> for GroupAndCandidate {
    ghost key = { λ r. (r.group, r.candidate) };

    fn key_of(&self, row: &RankRow) -> (u32, u32) {
        (row.group, row.candidate)
    }
}

/// A group and a rank.
#[derive(Drop)]
pub(crate) struct GroupAndRank;

impl Key<RankRow, (u32, u32)> for GroupAndRank {
    ghost key = { λ r. (r.group, r.rank) };

    fn key_of(&self, row: &RankRow) -> (u32, u32) {
        (row.group, row.rank)
    }
}

/// A school and a candidate.
#[derive(Drop)]
pub(crate) struct SchoolAndCandidate;

impl Key<BoardRow, (u32, u32)> for SchoolAndCandidate {
    ghost key = { λ r. (r.school, r.candidate) };

    fn key_of(&self, row: &BoardRow) -> (u32, u32) {
        (row.school, row.candidate)
    }
}

/// A school and a rank.
#[derive(Drop)]
pub(crate) struct SchoolAndRank;

impl Key<BoardRow, (u32, u32)> for SchoolAndRank {
    ghost key = { λ r. (r.school, r.rank) };

    fn key_of(&self, row: &BoardRow) -> (u32, u32) {
        (row.school, row.rank)
    }
}

/// A candidate, a programme and a school.
#[derive(Drop)]
pub(crate) struct WhatIsWished;

impl Key<WishRow, (u32, u32, Option<u32>)> for WhatIsWished {
    ghost key = { λ r. (r.candidate, r.programme, r.school) };

    fn key_of(&self, row: &WishRow) -> (u32, u32, Option<u32>) {
        (row.candidate, row.programme, row.school)
    }
}

/// A wish and its candidate.
#[derive(Drop)]
pub(crate) struct WhoWishes;

impl Key<WishRow, (u32, u32)> for WhoWishes {
    ghost key = { λ r. (r.id, r.candidate) };

    fn key_of(&self, row: &WishRow) -> (u32, u32) {
        (row.id, row.candidate)
    }
}

/// The candidate and the programme of a wish.
#[derive(Drop)]
pub(crate) struct WhoseProgramme;

impl Key<WishRow, (u32, u32)> for WhoseProgramme {
    ghost key = { λ r. (r.candidate, r.programme) };

    fn key_of(&self, row: &WishRow) -> (u32, u32) {
        (row.candidate, row.programme)
    }
}

/// The school of a wish, or 0 without one, and its preference.
#[derive(Drop)]
pub(crate) struct SchoolAndPreference;

impl Key<WishRow, (u32, u32)> for SchoolAndPreference {
    ghost key = { λ r. (unwrap_or r.school 0, r.preference) };

    fn key_of(&self, row: &WishRow) -> (u32, u32) {
        (row.school.unwrap_or(0), row.preference)
    }
}

/// The candidate of a row.
#[derive(Drop)]
pub(crate) struct ItsCandidate;

impl Key<WishRow, u32> for ItsCandidate {
    ghost key = { λ r. r.candidate };

    fn key_of(&self, row: &WishRow) -> u32 {
        row.candidate
    }
}

/// The rank of a candidate in a group.
#[derive(Drop)]
pub(crate) struct ItsRank;

impl Key<RankRow, u32> for ItsRank {
    ghost key = { λ r. r.rank };

    fn key_of(&self, row: &RankRow) -> u32 {
        row.rank
    }
}

/// The wish of a status.
#[derive(Drop)]
pub(crate) struct ItsWish;

impl Key<StateRow, u32> for ItsWish {
    ghost key = { λ r. r.wish };

    fn key_of(&self, row: &StateRow) -> u32 {
        row.wish
    }
}

/// A day and a school.
#[derive(Drop)]
pub(crate) struct DayAndSchool;

impl Key<CeilingRow, (u32, u32)> for DayAndSchool {
    ghost key = { λ r. (r.day, r.school) };

    fn key_of(&self, row: &CeilingRow) -> (u32, u32) {
        (row.day, row.school)
    }
}

/// The group of a row.
#[derive(Drop)]
pub(crate) struct ItsGroup;

impl Key<ProgrammeRow, u32> for ItsGroup {
    ghost key = { λ r. r.group };

    fn key_of(&self, row: &ProgrammeRow) -> u32 {
        row.group
    }
}

impl Key<RankRow, u32> for ItsGroup {
    ghost key = { λ r. r.group };

    fn key_of(&self, row: &RankRow) -> u32 {
        row.group
    }
}

/// The school of a row.
#[derive(Drop)]
pub(crate) struct ItsSchool;

impl Key<BoardRow, u32> for ItsSchool {
    ghost key = { λ r. r.school };

    fn key_of(&self, row: &BoardRow) -> u32 {
        row.school
    }
}

impl Key<CeilingRow, u32> for ItsSchool {
    ghost key = { λ r. r.school };

    fn key_of(&self, row: &CeilingRow) -> u32 {
        row.school
    }
}
