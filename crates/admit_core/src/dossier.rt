//! The rows that a campaign works on, with places for ids.
ghost use Rattle.std.specs.Prelude.{◌≡◌};
ghost use Rattle.admit_core.specs.Faults.{row_number};

use crate::ranking::RankGroup;
use crate::sequence::Sequence;
use crate::state::Status;
use std::marker::Model;

/// The most rows of a list; the rankings of all groups count together.
pub const MAX_ROWS: u32 = 16_000_000;

/// The number of a slot's first row of values. Its header is row 1.
pub const FIRST_ROW: u64 = 2;

/// The greatest id, rank, preference, limit and number of seats or beds.
pub const MAX_NUMBER: u32 = 2_000_000_000;

/// The last day that a campaign may have; the first is 1.
pub const MAX_DAY: u32 = 366;

/// The limits of the code are those of the rules. It does nothing when it is called: its clauses
/// are theorems.
pub fn limits_of_rules()
    ensures rows { MAX_ROWS ≡ 16000000 }
    ensures first { FIRST_ROW ≡ row_number 0 }
    ensures numbers { MAX_NUMBER ≡ 2000000000 }
    ensures days { MAX_DAY ≡ 366 }
{}

/// A programme.
///
/// `group` is the place of its ranking group, and `limit` the position in the call order up to
/// which all are called (*rang limite*), counted from 1; 0 is none.
#[derive(Clone, Copy)]
pub struct Programme {
    pub id: u32,
    pub group: u32,
    pub seats: u32,
    pub limit: u32,
}

/// A boarding school (*internat*), with the greatest rank that its bar may reach.
#[derive(Clone, Copy)]
pub struct School {
    pub id: u32,
    pub beds: u32,
    pub ceiling: u32,
}

/// A wish (*vœu*).
///
/// `programme` and `school` are places, and `board_rank`, the candidate's rank in the school, is 0
/// without a school. A `preference` of 0 says that the candidate answers in person; else 1 is
/// the best.
#[derive(Clone, Copy)]
pub struct Wish {
    pub id: u32,
    pub candidate: u32,
    pub programme: u32,
    pub school: Option<u32>,
    pub board_rank: u32,
    pub preference: u32,
}

/// What a candidate answers to an offer, about a waiting wish, or about all their wishes.
#[derive(Clone, Copy, Debug, PartialEq, Eq)]
pub enum AnswerKind {
    Accept,
    Refuse,
    Withdraw,
    Quit,
}

/// A candidate's answer of a day; the target is a wish's place, or a candidate's id for `Quit`.
#[derive(Clone, Copy)]
pub struct Answer {
    pub day: u32,
    pub kind: AnswerKind,
    pub target: u32,
}

/// From its day on, a school's ceiling is this one.
#[derive(Clone, Copy)]
pub struct CeilingChange {
    pub day: u32,
    pub school: u32,
    pub ceiling: u32,
}

/// All rows of a campaign, by place. Each dossier is a valid one: contracts see its rows, and may
/// rest on all that `specs/Validity.antt` says of them.
pub struct Dossier {
    pub groups: Sequence<RankGroup>,
    pub programmes: Sequence<Programme>,
    pub schools: Sequence<School>,
    pub wishes: Sequence<Wish>,
    pub statuses: Sequence<Status>,
    pub ceilings: Sequence<CeilingChange>,
    pub answers: Sequence<Answer>,
}

// Not derived, so that a dossier is dropped in one step where it is held, and not slot by slot.
impl Drop for Dossier {
    fn drop(self) {
        let Dossier {
            groups: _,
            programmes: _,
            schools: _,
            wishes: _,
            statuses: _,
            ceilings: _,
            answers: _,
        } = self;
    }
}

impl Model for Dossier {
    ghost use Rattle.admit_core.specs.DossierRows.{DossierRows};
    ghost use Rattle.admit_core.specs.Validity.{IsValid};

    ghost Value = { DossierRows };

    ghost view = { λ d. record {
      groups = d.groups;
      programmes = d.programmes;
      schools = d.schools;
      wishes = d.wishes;
      statuses = d.statuses;
      ceilings = d.ceilings;
      answers = d.answers;
    } };

    ghost invariant = { λ d. IsValid
        (record {
          groups = d.groups;
          programmes = d.programmes;
          schools = d.schools;
          wishes = d.wishes;
          statuses = d.statuses;
          ceilings = d.ceilings;
          answers = d.answers;
        }) };
}
