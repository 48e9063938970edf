//! The rows of the slots, with ids as read.

use crate::dossier::AnswerKind;
use crate::sequence::Sequence;
use crate::state::Status;

/// A ranking group with its two minimum rates, from 0 to 100.
#[derive(Clone, Copy, Debug)]
pub struct GroupRow {
    pub id: u32,
    pub scholar_pct: u32,
    pub resident_pct: u32,
}

/// A programme; a `limit` of 0 is none.
#[derive(Clone, Copy, Debug)]
pub struct ProgrammeRow {
    pub id: u32,
    pub group: u32,
    pub seats: u32,
    pub limit: u32,
}

/// A boarding school with the highest rank that its bar may reach.
#[derive(Clone, Copy, Debug)]
pub struct SchoolRow {
    pub id: u32,
    pub beds: u32,
    pub ceiling: u32,
}

/// A candidate's rank in a group.
#[derive(Clone, Copy, Debug)]
pub struct RankRow {
    pub group: u32,
    pub candidate: u32,
    pub rank: u32,
    pub scholar: bool,
    pub resident: bool,
}

/// A candidate's rank in a boarding school.
#[derive(Clone, Copy, Debug)]
pub struct BoardRow {
    pub school: u32,
    pub candidate: u32,
    pub rank: u32,
}

/// A wish; a `preference` of 0 says that the candidate answers in person.
#[derive(Clone, Copy, Debug)]
pub struct WishRow {
    pub id: u32,
    pub candidate: u32,
    pub programme: u32,
    pub school: Option<u32>,
    pub preference: u32,
}

/// A civil date as read, of a year from 1900 to 2299.
#[derive(Clone, Copy, Debug)]
pub struct Since {
    pub year: u32,
    pub month: u32,
    pub day: u32,
}

/// The status that a wish comes in with, and since when it has had it.
#[derive(Clone, Copy, Debug)]
pub struct StateRow {
    pub wish: u32,
    pub status: Status,
    pub since: Option<Since>,
}

/// A school's ceiling from a day on.
#[derive(Clone, Copy, Debug)]
pub struct CeilingRow {
    pub day: u32,
    pub school: u32,
    pub ceiling: u32,
}

/// An answer; the target is a wish's id, or a candidate's id for `Quit`.
#[derive(Clone, Copy, Debug)]
pub struct AnswerRow {
    pub day: u32,
    pub kind: AnswerKind,
    pub target: u32,
}

/// The rows of the nine slots, in file order.
pub struct Tables {
    pub groups: Sequence<GroupRow>,
    pub programmes: Sequence<ProgrammeRow>,
    pub schools: Sequence<SchoolRow>,
    pub rankings: Sequence<RankRow>,
    pub boarding: Sequence<BoardRow>,
    pub wishes: Sequence<WishRow>,
    pub state: Sequence<StateRow>,
    pub ceilings: Sequence<CeilingRow>,
    pub answers: Sequence<AnswerRow>,
}

// Not derived, so that tables are dropped in one step where they are held, and not slot by slot.
impl Drop for Tables {
    fn drop(self) {
        let Tables {
            groups: _,
            programmes: _,
            schools: _,
            rankings: _,
            boarding: _,
            wishes: _,
            state: _,
            ceilings: _,
            answers: _,
        } = self;
    }
}
