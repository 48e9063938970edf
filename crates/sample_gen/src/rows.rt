//! The rows of a sample.
ghost use Rattle.std.specs.Prelude.{◌≡◌};
ghost use Rattle.sample_gen.specs.Choices.{IsSmall};
ghost use Rattle.sample_gen.specs.Samples.{group_row, programme_row, school_row, rank_in, rank_row, board_row, preference_of, wish_row};

use crate::choices::{CHOICES, Choice};
use admit_core::{BoardRow, GroupRow, ProgrammeRow, RankRow, SchoolRow, WishRow};

/// The number of ranks that are given out: a power of two, so that an odd multiplier gives no rank
/// to two candidates.
const RANKS: u64 = 1 << 30;

/// A group's multiplier of ranks is above this by an even number, and so odd.
const GROUP_RANKS: u32 = 1_000_001;

/// The same of a school's.
const SCHOOL_RANKS: u32 = 2_000_001;

/// The seats of each programme.
const SEATS: u32 = 200;

/// The beds of each school.
const BEDS: u32 = 40;

/// The ids that are kept for the wishes of a choice: without its school, and with it.
const WISHES_A_CHOICE: u32 = 2;

/// The ids that are kept for the wishes of a candidate.
const WISHES_A_CANDIDATE: u32 = WISHES_A_CHOICE * CHOICES;

pub(crate) fn group_row(id: u32) -> GroupRow
    ensures { result ≡ group_row id }
{
    GroupRow {
        id,
        scholar_pct: (7 * u64::from(id) % 31) as u32,
        resident_pct: (11 * u64::from(id) % 41) as u32,
    }
}

pub(crate) fn programme_row(id: u32) -> ProgrammeRow
    ensures { result ≡ programme_row id }
{
    ProgrammeRow {
        id,
        group: id,
        seats: SEATS,
        limit: 0,
    }
}

pub(crate) fn school_row(id: u32) -> SchoolRow
    ensures { result ≡ school_row id }
{
    SchoolRow {
        id,
        beds: BEDS,
        ceiling: RANKS as u32,
    }
}

/// A candidate's rank in a list with its own odd multiplier.
fn rank_in(multiplier: u32, candidate: u32) -> u32
    ensures { result ≡ rank_in multiplier candidate }
{
    1 + (u64::from(candidate) * u64::from(multiplier) % RANKS) as u32
}

pub(crate) fn rank_row(choice: Choice) -> RankRow
    requires { IsSmall choice }
    ensures { result ≡ rank_row choice }
{
    RankRow {
        group: choice.programme,
        candidate: choice.candidate,
        rank: rank_in(GROUP_RANKS + 2 * choice.programme, choice.candidate),
        scholar: choice.candidate % 5 == 0,
        resident: (choice.candidate + choice.programme) % 3 == 0,
    }
}

pub(crate) fn board_row(choice: Choice) -> BoardRow
    requires { IsSmall choice }
    ensures { result ≡ board_row choice }
{
    BoardRow {
        school: choice.school,
        candidate: choice.candidate,
        rank: rank_in(SCHOOL_RANKS + 2 * choice.school, choice.candidate),
    }
}

/// The preference of a choice's wish with or without the school.
fn preference_of(choice: Choice, boards: bool) -> u32
    requires { IsSmall choice }
    ensures { result ≡ preference_of choice boards }
{
    if choice.candidate % 4 == 0 {
        2 * choice.place + if boards { 1 } else { 2 }
    } else {
        0
    }
}

/// A choice's wish, without a school or with one.
pub(crate) fn wish_row(choice: Choice, school: Option<u32>) -> WishRow
    requires { IsSmall choice }
    ensures { result ≡ wish_row choice school }
{
    let number = if school.is_some() { 2 } else { 1 };
    WishRow {
        id: WISHES_A_CANDIDATE * (choice.candidate - 1) + WISHES_A_CHOICE * choice.place + number,
        candidate: choice.candidate,
        programme: choice.programme,
        school,
        preference: preference_of(choice, school.is_some()),
    }
}
