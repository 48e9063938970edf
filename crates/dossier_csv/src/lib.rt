//! The slots as typed rows. A slot is a text of comma-separated records, the first of which is its
//! header. Each reader answers the rows under the header in file order, or the first refusal: row
//! by row, and in a row from left to right.
//!
//! `let wishes = read_wishes(alloc, bytes.as_slice())?;`
#![tactic(auto)]

ghost use Rattle.std.specs.Prelude.{All, IfOk};
ghost use Rattle.admit_core.specs.Ranges.{AreRows, IsAnswerRow, IsBoardRow, IsCeilingRow, IsGroupRow, IsProgrammeRow, IsRankRow, IsSchoolRow, IsStateRow, IsWishRow};
ghost use Rattle.dossier_csv.specs.Rows as Rows;
ghost use Rattle.dossier_csv.specs.Shape.{Answers, shape};

mod columns;
mod rows;
mod table;

use admit_core::{
    AnswerRow, BoardRow, CeilingRow, GroupRow, InFault, ProgrammeRow, RankRow, SchoolRow, StateRow,
    WishRow,
};
pub use columns::number_of;
use std::alloc::Global;

/// The rows of the groups slot.
pub fn read_groups(alloc: Global, bytes: &[u8]) -> Result<Vec<GroupRow>, InFault>
    ensures value { Answers (λ rows. rows.items) result (shape Rows.groups bytes.now) }
    ensures ranges { IfOk result (λ rows. AreRows IsGroupRow rows.items) }
{
    table::read_table(alloc, bytes)
}

/// The rows of the programmes slot. Under the header without call limits each limit is 0.
pub fn read_programmes(alloc: Global, bytes: &[u8]) -> Result<Vec<ProgrammeRow>, InFault>
    ensures value { Answers (λ rows. rows.items) result (shape Rows.programmes bytes.now) }
    ensures ranges { IfOk result (λ rows. AreRows IsProgrammeRow rows.items) }
{
    table::read_table(alloc, bytes)
}

/// The rows of the schools slot.
pub fn read_schools(alloc: Global, bytes: &[u8]) -> Result<Vec<SchoolRow>, InFault>
    ensures value { Answers (λ rows. rows.items) result (shape Rows.schools bytes.now) }
    ensures ranges { IfOk result (λ rows. AreRows IsSchoolRow rows.items) }
{
    table::read_table(alloc, bytes)
}

/// The rows of the rankings slot.
pub fn read_rankings(alloc: Global, bytes: &[u8]) -> Result<Vec<RankRow>, InFault>
    ensures value { Answers (λ rows. rows.items) result (shape Rows.rankings bytes.now) }
    ensures ranges { IfOk result (λ rows. AreRows IsRankRow rows.items) }
{
    table::read_table(alloc, bytes)
}

/// The rows of the boarding slot.
pub fn read_boarding(alloc: Global, bytes: &[u8]) -> Result<Vec<BoardRow>, InFault>
    ensures value { Answers (λ rows. rows.items) result (shape Rows.boarding bytes.now) }
    ensures ranges { IfOk result (λ rows. AreRows IsBoardRow rows.items) }
{
    table::read_table(alloc, bytes)
}

/// The rows of the wishes slot. A wish without a school has an empty field for it.
pub fn read_wishes(alloc: Global, bytes: &[u8]) -> Result<Vec<WishRow>, InFault>
    ensures value { Answers (λ rows. rows.items) result (shape Rows.wishes bytes.now) }
    ensures ranges { IfOk result (λ rows. AreRows IsWishRow rows.items) }
{
    table::read_table(alloc, bytes)
}

/// The rows of the state slot. Under the header without dates no row has a date.
pub fn read_state(alloc: Global, bytes: &[u8]) -> Result<Vec<StateRow>, InFault>
    ensures value { Answers (λ rows. rows.items) result (shape Rows.state bytes.now) }
    ensures ranges { IfOk result (λ rows. AreRows IsStateRow rows.items) }
    ensures dates { IfOk result (λ rows. All Rows.IsDatedRow rows.items) }
{
    table::read_table(alloc, bytes)
}

/// The rows of the ceilings slot.
pub fn read_ceilings(alloc: Global, bytes: &[u8]) -> Result<Vec<CeilingRow>, InFault>
    ensures value { Answers (λ rows. rows.items) result (shape Rows.ceilings bytes.now) }
    ensures ranges { IfOk result (λ rows. AreRows IsCeilingRow rows.items) }
{
    table::read_table(alloc, bytes)
}

/// The rows of the answers slot.
pub fn read_answers(alloc: Global, bytes: &[u8]) -> Result<Vec<AnswerRow>, InFault>
    ensures value { Answers (λ rows. rows.items) result (shape Rows.answers bytes.now) }
    ensures ranges { IfOk result (λ rows. AreRows IsAnswerRow rows.items) }
{
    table::read_table(alloc, bytes)
}
