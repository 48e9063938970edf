//! The rows of each slot, column by column.
ghost use Rattle.std.specs.Prelude.{◌≡◌};
ghost use Rattle.csv.specs.Records.{fields_of};
ghost use Rattle.admit_core.specs.Ranges.{IsAnswerRow, IsBoardRow, IsCeilingRow, IsGroupRow, IsProgrammeRow, IsRankRow, IsSchoolRow, IsStateRow, IsWishRow};
ghost use Rattle.dossier_csv.specs.Columns as Columns;
ghost use Rattle.dossier_csv.specs.Rows as Rows;

use crate::columns::{
    AMOUNT, DAY, ID, PERCENT, added_number, flag, number, optional_date, optional_number, word,
};
use crate::table::TableRow;
use admit_core::{
    AnswerKind, AnswerRow, BoardRow, CeilingRow, GroupRow, ProgrammeRow, RankRow, Reason,
    SchoolRow, Slot, StateRow, Status, WishRow,
};
use csv::ByteRecord;

impl TableRow for GroupRow {
    ghost layout = { Rows.groups };

    ghost in_range = { IsGroupRow };

    fn slot() -> Slot {
        Slot::Groups
    }

    fn headers() -> &'static [&'static [&'static str]] {
        &[&["group", "scholar_pct", "resident_pct"]]
    }

    #[tactic(auto, unfolding(crate::specs::Rows::group_row))]
    fn of_fields(row: &ByteRecord) -> Result<GroupRow, Reason> {
        Ok(GroupRow {
            id: number(row, 1, ID)?,
            scholar_pct: number(row, 2, PERCENT)?,
            resident_pct: number(row, 3, PERCENT)?,
        })
    }
}

impl TableRow for ProgrammeRow {
    ghost layout = { Rows.programmes };

    ghost in_range = { IsProgrammeRow };

    fn slot() -> Slot {
        Slot::Programmes
    }

    fn headers() -> &'static [&'static [&'static str]] {
        &[
            &["programme", "group", "seats"],
            &["programme", "group", "seats", "limit"],
        ]
    }

    #[tactic(auto, unfolding(crate::specs::Rows::programme_row))]
    fn of_fields(row: &ByteRecord) -> Result<ProgrammeRow, Reason> {
        Ok(ProgrammeRow {
            id: number(row, 1, ID)?,
            group: number(row, 2, ID)?,
            seats: number(row, 3, AMOUNT)?,
            limit: added_number(row, 4, AMOUNT)?,
        })
    }
}

impl TableRow for SchoolRow {
    ghost layout = { Rows.schools };

    ghost in_range = { IsSchoolRow };

    fn slot() -> Slot {
        Slot::Schools
    }

    fn headers() -> &'static [&'static [&'static str]] {
        &[&["school", "beds", "ceiling"]]
    }

    #[tactic(auto, unfolding(crate::specs::Rows::school_row))]
    fn of_fields(row: &ByteRecord) -> Result<SchoolRow, Reason> {
        Ok(SchoolRow {
            id: number(row, 1, ID)?,
            beds: number(row, 2, AMOUNT)?,
            ceiling: number(row, 3, AMOUNT)?,
        })
    }
}

impl TableRow for RankRow {
    ghost layout = { Rows.rankings };

    ghost in_range = { IsRankRow };

    fn slot() -> Slot {
        Slot::Rankings
    }

    fn headers() -> &'static [&'static [&'static str]] {
        &[&["group", "candidate", "rank", "scholar", "resident"]]
    }

    #[tactic(auto, unfolding(crate::specs::Rows::rank_row))]
    fn of_fields(row: &ByteRecord) -> Result<RankRow, Reason> {
        Ok(RankRow {
            group: number(row, 1, ID)?,
            candidate: number(row, 2, ID)?,
            rank: number(row, 3, ID)?,
            scholar: flag(row, 4)?,
            resident: flag(row, 5)?,
        })
    }
}

impl TableRow for BoardRow {
    ghost layout = { Rows.boarding };

    ghost in_range = { IsBoardRow };

    fn slot() -> Slot {
        Slot::Boarding
    }

    fn headers() -> &'static [&'static [&'static str]] {
        &[&["school", "candidate", "rank"]]
    }

    #[tactic(auto, unfolding(crate::specs::Rows::board_row))]
    fn of_fields(row: &ByteRecord) -> Result<BoardRow, Reason> {
        Ok(BoardRow {
            school: number(row, 1, ID)?,
            candidate: number(row, 2, ID)?,
            rank: number(row, 3, ID)?,
        })
    }
}

impl TableRow for WishRow {
    ghost layout = { Rows.wishes };

    ghost in_range = { IsWishRow };

    fn slot() -> Slot {
        Slot::Wishes
    }

    fn headers() -> &'static [&'static [&'static str]] {
        &[&["wish", "candidate", "programme", "school", "preference"]]
    }

    #[tactic(auto, unfolding(crate::specs::Rows::wish_row))]
    fn of_fields(row: &ByteRecord) -> Result<WishRow, Reason> {
        Ok(WishRow {
            id: number(row, 1, ID)?,
            candidate: number(row, 2, ID)?,
            programme: number(row, 3, ID)?,
            school: optional_number(row, 4, ID)?,
            preference: number(row, 5, AMOUNT)?,
        })
    }
}

/// What became of a wish, by its word.
fn status(row: &ByteRecord, position: u32) -> Result<Status, Reason>
    ensures { result ≡ Columns.word Rows.statuses (fields_of row.now) position }
{
    let words = [
        ("waiting", Status::Waiting),
        ("offered", Status::Offered),
        ("accepted", Status::Accepted),
        ("refused", Status::Refused),
        ("withdrawn", Status::Withdrawn),
        ("quit", Status::Quit),
        ("auto_refused", Status::AutoRefused),
        ("auto_withdrawn", Status::AutoWithdrawn),
        ("lapsed", Status::Lapsed),
    ];
    word(row, position, &words)
}

impl TableRow for StateRow {
    ghost layout = { Rows.state };

    ghost in_range = { λ row. IsStateRow row × Rows.IsDatedRow row };

    fn slot() -> Slot {
        Slot::State
    }

    fn headers() -> &'static [&'static [&'static str]] {
        &[&["wish", "status"], &["wish", "status", "since"]]
    }

    #[tactic(auto, unfolding(crate::specs::Rows::state_row))]
    fn of_fields(row: &ByteRecord) -> Result<StateRow, Reason> {
        Ok(StateRow {
            wish: number(row, 1, ID)?,
            status: status(row, 2)?,
            since: optional_date(row, 3)?,
        })
    }
}

impl TableRow for CeilingRow {
    ghost layout = { Rows.ceilings };

    ghost in_range = { IsCeilingRow };

    fn slot() -> Slot {
        Slot::Ceilings
    }

    fn headers() -> &'static [&'static [&'static str]] {
        &[&["day", "school", "ceiling"]]
    }

    #[tactic(auto, unfolding(crate::specs::Rows::ceiling_row))]
    fn of_fields(row: &ByteRecord) -> Result<CeilingRow, Reason> {
        Ok(CeilingRow {
            day: number(row, 1, DAY)?,
            school: number(row, 2, ID)?,
            ceiling: number(row, 3, AMOUNT)?,
        })
    }
}

/// What a candidate answers, by its word.
fn kind(row: &ByteRecord, position: u32) -> Result<AnswerKind, Reason>
    ensures { result ≡ Columns.word Rows.kinds (fields_of row.now) position }
{
    let words = [
        ("accept", AnswerKind::Accept),
        ("refuse", AnswerKind::Refuse),
        ("withdraw", AnswerKind::Withdraw),
        ("quit", AnswerKind::Quit),
    ];
    word(row, position, &words)
}

impl TableRow for AnswerRow {
    ghost layout = { Rows.answers };

    ghost in_range = { IsAnswerRow };

    fn slot() -> Slot {
        Slot::Answers
    }

    fn headers() -> &'static [&'static [&'static str]] {
        &[&["day", "kind", "target"]]
    }

    #[tactic(auto, unfolding(crate::specs::Rows::answer_row))]
    fn of_fields(row: &ByteRecord) -> Result<AnswerRow, Reason> {
        Ok(AnswerRow {
            day: number(row, 1, DAY)?,
            kind: kind(row, 2)?,
            target: number(row, 3, ID)?,
        })
    }
}
