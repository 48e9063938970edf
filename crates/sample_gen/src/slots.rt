//! The slots of a sample, and the sample.
ghost use Rattle.std.specs.Prelude.{◌≡◌, ◌++◌, ◌≤◌, ◌<◌, ◌^◌, All, IfOk, OnOk, None, map, filter};
ghost use Rattle.std.specs.List.{flat_map};
ghost use Rattle.admit_core.specs.Ranges.{AreTables};
ghost use Rattle.admit_core.specs.Relations.{first_fault};
ghost use Rattle.sample_gen.specs.Choices.{numbers, IsSmall};
ghost use Rattle.sample_gen.specs.Samples.{group_row, programme_row, school_row, rank_row, board_row, has_board_row, wish_rows, sample_tables};

use crate::choices::{Choice, choices_of, programmes_of, school_of};
use crate::rows::{board_row, group_row, programme_row, rank_row, school_row, wish_row};
use admit_core::{
    BoardRow, GroupRow, OutOfMemory, ProgrammeRow, RankRow, SchoolRow, Sequence, Tables, WishRow,
};
use std::alloc::Global;

/// The greatest number of candidates of a sample.
pub const MAX_CANDIDATES: u32 = 1_000_000;

fn groups(alloc: Global, programmes: u32) -> Result<Vec<GroupRow>, OutOfMemory>
    requires { programmes ≤ 2001 }
    ensures { IfOk result (λ rows. rows.items ≡ map group_row (numbers programmes)) }
{
    Ok((1..programmes + 1).map(group_row).collect(alloc)?)
}

fn programmes(alloc: Global, programmes: u32) -> Result<Vec<ProgrammeRow>, OutOfMemory>
    requires { programmes ≤ 2001 }
    ensures { IfOk result (λ rows. rows.items ≡ map programme_row (numbers programmes)) }
{
    Ok((1..programmes + 1).map(programme_row).collect(alloc)?)
}

fn schools(alloc: Global, schools: u32) -> Result<Vec<SchoolRow>, OutOfMemory>
    requires { schools ≤ 1001 }
    ensures { IfOk result (λ rows. rows.items ≡ map school_row (numbers schools)) }
{
    Ok((1..schools + 1).map(school_row).collect(alloc)?)
}

fn rankings(alloc: Global, choices: &[Choice]) -> Result<Vec<RankRow>, OutOfMemory>
    requires { All IsSmall choices.now }
    ensures { IfOk result (λ rows. rows.items ≡ map rank_row choices.now) }
{
    let mut rows = Vec::new(alloc);
    for choice in choices {
        rows.push(rank_row(*choice))?;
    }
    Ok(rows)
}

fn boarding(
    alloc: Global,
    choices: &[Choice],
    programmes: u32,
) -> Result<Vec<BoardRow>, OutOfMemory>
    requires some { 1 ≤ programmes }
    requires small { All IsSmall choices.now }
    ensures { IfOk result (λ rows. rows.items ≡ map board_row
        (filter (has_board_row programmes) choices.now)) }
{
    let mut rows = Vec::new(alloc);
    for choice in choices {
        if choice.is_boarder() && choice.is_first_at_school(programmes) {
            rows.push(board_row(*choice))?;
        }
    }
    Ok(rows)
}

/// Adds the wishes of a choice.
fn add_wishes(rows: &mut Vec<WishRow>, choice: Choice) -> Result<(), OutOfMemory>
    requires { IsSmall choice }
    ensures { OnOk result (rows.new.items ≡ rows.old.items ++ wish_rows choice) }
{
    rows.push(wish_row(choice, None))?;
    if choice.is_boarder() {
        rows.push(wish_row(choice, Some(choice.school)))?;
    }
    Ok(())
}

fn wishes(alloc: Global, choices: &[Choice]) -> Result<Vec<WishRow>, OutOfMemory>
    requires { All IsSmall choices.now }
    ensures { IfOk result (λ rows. rows.items ≡ flat_map wish_rows choices.now) }
{
    let mut rows = Vec::new(alloc);
    for choice in choices {
        add_wishes(&mut rows, *choice)?;
    }
    Ok(rows)
}

/// All slots; those of the state, the ceilings and the answers have no rows.
fn tables_of(alloc: Global, number: u32) -> Result<Tables, OutOfMemory>
    requires { number ≤ MAX_CANDIDATES }
    ensures { IfOk result (λ tables. tables ≡ sample_tables number) }
{
    let choices = choices_of(alloc, number)?;
    let count = programmes_of(number);
    let groups = groups(alloc, count)?;
    let programmes = programmes(alloc, count)?;
    let schools = schools(alloc, school_of(count))?;
    let rankings = rankings(alloc, choices.as_slice())?;
    let boarding = boarding(alloc, choices.as_slice(), count)?;
    let wishes = wishes(alloc, choices.as_slice())?;
    Ok(Tables {
        groups: Sequence::from_vec(groups),
        programmes: Sequence::from_vec(programmes),
        schools: Sequence::from_vec(schools),
        rankings: Sequence::from_vec(rankings),
        boarding: Sequence::from_vec(boarding),
        wishes: Sequence::from_vec(wishes),
        state: Sequence::new(alloc),
        ceilings: Sequence::new(alloc),
        answers: Sequence::new(alloc),
    })
}

/// The tables of a sample of 1 to `MAX_CANDIDATES` candidates.
///
/// Each candidate chooses three programmes, or as many as there are, and every second one wishes
/// for their boarding schools as well. Nothing is drawn at random: the number tells every row.
pub fn sample(alloc: Global, number: u32) -> Result<Tables, OutOfMemory>
    requires some { 1 ≤ number }
    requires at_most { number ≤ MAX_CANDIDATES }
    ensures tables { IfOk result (λ tables. tables ≡ sample_tables number) }
    ensures ranges { IfOk result AreTables }
    ensures faultless { IfOk result (λ tables. first_fault tables ≡ None) }
{
    tables_of(alloc, number)
}
