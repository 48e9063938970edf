//! The rows of each slot, column by column.
ghost use Rattle.std.specs.Prelude.{◌≡◌, ◌++◌, ◌∷◌, []};
ghost use Rattle.std.specs.Fmt.{decimal};
ghost use Rattle.admit_core.specs.Lines.{status_word};
ghost use Rattle.dossier_csv.specs.Rows.{kind_word};
ghost use Rattle.report.specs.Pushes.{Pushes};
ghost use Rattle.report.specs.Words.{row};
ghost use Rattle.slot_text.specs.Texts as Texts;

use crate::table::WrittenRow;
use admit_core::{
    AnswerKind, AnswerRow, BoardRow, CeilingRow, GroupRow, ProgrammeRow, RankRow, SchoolRow, Since,
    StateRow, WishRow,
};
use report::Piece::{End, Number, Text, Word};
use report::{push_after, push_all, push_end};
use std::alloc::AllocError;

impl WrittenRow for GroupRow {
    ghost written = { Texts.groups };

    fn header() -> &'static str {
        "group,scholar_pct,resident_pct\n"
    }

    fn push(&self, text: &mut String) -> Result<(), AllocError> {
        let pieces = [
            Number(self.id),
            Text(","),
            Number(self.scholar_pct),
            Text(","),
            Number(self.resident_pct),
            End,
        ];
        push_all(text, &pieces)
    }
}

impl WrittenRow for ProgrammeRow {
    ghost written = { Texts.programmes };

    fn header() -> &'static str {
        "programme,group,seats,limit\n"
    }

    fn push(&self, text: &mut String) -> Result<(), AllocError> {
        let pieces = [
            Number(self.id),
            Text(","),
            Number(self.group),
            Text(","),
            Number(self.seats),
            Text(","),
            Number(self.limit),
            End,
        ];
        push_all(text, &pieces)
    }
}

impl WrittenRow for SchoolRow {
    ghost written = { Texts.schools };

    fn header() -> &'static str {
        "school,beds,ceiling\n"
    }

    fn push(&self, text: &mut String) -> Result<(), AllocError> {
        let (id, beds, ceiling) = (Number(self.id), Number(self.beds), Number(self.ceiling));
        push_all(text, &[id, Text(","), beds, Text(","), ceiling, End])
    }
}

/// A flag as a digit.
fn flag_word(flag: bool) -> &'static str
    ensures { result.now ≡ Texts.flag_word flag }
{
    match flag {
        true => "1",
        false => "0",
    }
}

impl WrittenRow for RankRow {
    ghost written = { Texts.rankings };

    fn header() -> &'static str {
        "group,candidate,rank,scholar,resident\n"
    }

    fn push(&self, text: &mut String) -> Result<(), AllocError> {
        let pieces = [
            Number(self.group),
            Text(","),
            Number(self.candidate),
            Text(","),
            Number(self.rank),
            Text(","),
            Text(flag_word(self.scholar)),
            Text(","),
            Text(flag_word(self.resident)),
            End,
        ];
        push_all(text, &pieces)
    }
}

impl WrittenRow for BoardRow {
    ghost written = { Texts.boarding };

    fn header() -> &'static str {
        "school,candidate,rank\n"
    }

    fn push(&self, text: &mut String) -> Result<(), AllocError> {
        let (school, candidate) = (Number(self.school), Number(self.candidate));
        let rank = Number(self.rank);
        push_all(text, &[school, Text(","), candidate, Text(","), rank, End])
    }
}

impl WrittenRow for WishRow {
    ghost written = { Texts.wishes };

    fn header() -> &'static str {
        "wish,candidate,programme,school,preference\n"
    }

    fn push(&self, text: &mut String) -> Result<(), AllocError> {
        let school = match self.school {
            Some(school) => Number(school),
            None => Text(""),
        };
        let pieces = [
            Number(self.id),
            Text(","),
            Number(self.candidate),
            Text(","),
            Number(self.programme),
            Text(","),
            school,
            Text(","),
            Number(self.preference),
            End,
        ];
        push_all(text, &pieces)
    }
}

/// Adds a dash and a month or a day, with a zero in front where it has one digit.
fn push_dashed(text: &mut String, number: u32) -> Result<(), AllocError>
    ensures { Pushes result text.old text.new (45 ∷ Texts.two_or_more number) }
{
    if number < 10 {
        push_after(text, "-0", number)
    } else {
        push_after(text, "-", number)
    }
}

/// Adds a date.
fn push_date(text: &mut String, date: Since) -> Result<(), AllocError>
    ensures { Pushes result text.old text.new (Texts.date_word date) }
{
    push_after(text, "", date.year)?;
    push_dashed(text, date.month)?;
    push_dashed(text, date.day)
}

/// Adds the date of a row, where it has one, and ends the line.
fn push_since(text: &mut String, since: Option<Since>) -> Result<(), AllocError>
    ensures { Pushes result text.old text.new (Texts.since_word since ++ 10 ∷ []) }
{
    match since {
        None => push_end(text),
        Some(date) => {
            push_date(text, date)?;
            push_end(text)
        }
    }
}

/// The line of a row of the state, with its date.
impl WrittenRow for StateRow {
    ghost written = { Texts.dated_state };

    fn header() -> &'static str {
        "wish,status,since\n"
    }

    fn push(&self, text: &mut String) -> Result<(), AllocError> {
        let (wish, status) = (Number(self.wish), Word(self.status));
        push_all(text, &[wish, Text(","), status, Text(",")])?;
        push_since(text, self.since)
    }
}

/// Adds the line of a row of the state, without a date.
pub(crate) fn push_plain(text: &mut String, state: &StateRow) -> Result<(), AllocError>
    ensures { Pushes result text.old text.new
        (row (decimal state.now.wish ∷ status_word state.now.status ∷ [])) }
{
    let (wish, status) = (Number(state.wish), Word(state.status));
    push_all(text, &[wish, Text(","), status, End])
}

impl WrittenRow for CeilingRow {
    ghost written = { Texts.ceilings };

    fn header() -> &'static str {
        "day,school,ceiling\n"
    }

    fn push(&self, text: &mut String) -> Result<(), AllocError> {
        let (day, school, ceiling) = (Number(self.day), Number(self.school), Number(self.ceiling));
        push_all(text, &[day, Text(","), school, Text(","), ceiling, End])
    }
}

/// The word of an answer.
fn kind_word(kind: AnswerKind) -> &'static str
    ensures { result.now ≡ kind_word kind }
{
    match kind {
        AnswerKind::Accept => "accept",
        AnswerKind::Refuse => "refuse",
        AnswerKind::Withdraw => "withdraw",
        AnswerKind::Quit => "quit",
    }
}

impl WrittenRow for AnswerRow {
    ghost written = { Texts.answers };

    fn header() -> &'static str {
        "day,kind,target\n"
    }

    fn push(&self, text: &mut String) -> Result<(), AllocError> {
        let (day, target) = (Number(self.day), Number(self.target));
        let kind = Text(kind_word(self.kind));
        push_all(text, &[day, Text(","), kind, Text(","), target, End])
    }
}
