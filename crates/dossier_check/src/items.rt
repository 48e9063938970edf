//! The items of the dossier, with places for ids.
ghost use Rattle.std.specs.Prelude.{◌≡◌, ◌<◌, ◌≤◌, ◌^◌, ℕ, find, length, map, nat_eq, option_map, IfOk};
ghost use Rattle.admit_core.specs.declared.tables.Tables.{Tables};
ghost use Rattle.admit_core.specs.Relations.{wish_ids};
ghost use Rattle.admit_core.specs.Standing.{place_of, programme_of_row, school_of_row, board_rank_of, wish_of_row, target_of, ceiling_of_row, answer_of_row};
ghost use Rattle.dossier_check.specs.Ids.{IsSmall};
ghost use Rattle.dossier_check.specs.Keys.{AreKeysOf};

use crate::index::Index;
use crate::made::{Makes, made_of};
use crate::near::NamedPlaces;
use crate::noted::{row_near, row_of};
use crate::placed::place_near;
use crate::row_ids::RowIds;
use admit_core::{
    Answer, AnswerKind, AnswerRow, CeilingChange, CeilingRow, OutOfMemory, Programme, ProgrammeRow,
    School, SchoolRow, StateRow, Tables, Wish, WishRow,
};
use indexmap::IndexSet;
use keyed_hash::Keyed;
use std::alloc::Global;

/// What the rows of the slots are found by, by place.
pub(crate) struct Keys {
    pub(crate) groups: RowIds,
    pub(crate) programmes: RowIds,
    pub(crate) schools: RowIds,
    pub(crate) boarding: IndexSet<(u32, u32), Keyed>,
    pub(crate) wishes: RowIds,
    pub(crate) state: RowIds,
    /// Where what the wishes name is looked for first, by the wishes' places.
    pub(crate) near: Vec<NamedPlaces>,
}

// Not derived: so keys are dropped in one step where they are held, and not by each list.
impl Drop for Keys {
    fn drop(self) {
        let Keys {
            groups,
            programmes,
            schools: _,
            boarding,
            wishes: _,
            state,
            near: _,
        } = self;
        give_back(groups, programmes, boarding, state);
    }
}

/// Gives back the room of keys that nothing more is found by.
fn give_back(
    _groups: RowIds,
    _programmes: RowIds,
    _boarding: IndexSet<(u32, u32), Keyed>,
    _state: RowIds,
) {}

impl Keys {
    /// The index alone; the room of the others is given back.
    pub(crate) fn into_index(self) -> Index
        requires { IsSmall (record { wishes = self.wishes.keys; schools = self.schools.keys }) }
        ensures { result ≡ record { wishes = self.wishes.keys; schools = self.schools.keys } }
    {
        let Keys {
            groups,
            programmes,
            schools,
            boarding,
            wishes,
            state,
            near: _,
        } = self;
        give_back(groups, programmes, boarding, state);
        Index { wishes, schools }
    }
}

/// The place of an id among ids, or the number of ids where it is not among them.
fn place_in(ids: &RowIds, id: u32) -> u32
    requires { length ids.now.keys < 2 ^ 32 }
    ensures { result ≡ place_of ids.now.keys id }
{
    ids.get_index_of(id).unwrap_or(ids.len()) as u32
}

/// The place of an id that may be missing, as `place_in` has it of one that is there.
fn place_in_any(ids: &RowIds, id: Option<u32>) -> Option<u32>
    requires { length ids.now.keys < 2 ^ 32 }
    ensures { result ≡ option_map (place_of ids.now.keys) id }
{
    match id {
        Some(id) => Some(place_in(ids, id)),
        None => None,
    }
}

/// The place of an id, which is looked for at a place first.
fn place_from(ids: &RowIds, id: u32, near: u32) -> u32
    requires { length ids.now.keys < 2 ^ 32 }
    ensures { result ≡ place_of ids.now.keys id }
{
    let mut near = near as usize;
    place_near(ids, id, &mut near)
}

/// The rank of a wish's candidate in its school; 0 without a school. Its row is looked for at a
/// place first.
fn board_rank_of(tables: &Tables, keys: &Keys, wish: &WishRow, near: u32) -> u32
    requires { AreKeysOf tables.now keys.now }
    ensures { result ≡ board_rank_of tables.now wish.now.candidate wish.now.school }
{
    let Some(school) = wish.school else { return 0 };
    let rows = tables.boarding.as_slice();
    let pair = (school, wish.candidate);
    match row_near(&keys.boarding, rows, pair, near as usize) {
        Some(row) => row.rank,
        None => 0,
    }
}

/// The row of a wish's status, where it has one.
pub(crate) fn state_row_of(tables: &Tables, keys: &Keys, wish: &WishRow) -> Option<StateRow>
    requires { AreKeysOf tables.now keys.now }
    ensures { result ≡ find (λ s. nat_eq wish.now.id s.wish) tables.now.state }
{
    row_of(&keys.state, tables.state.as_slice(), wish.id)
}

/// The target of an answer: a wish's place, or a candidate's id for `Quit`.
fn target_of(keys: &Keys, kind: AnswerKind, target: u32) -> u32
    requires { length keys.now.wishes.keys < 2 ^ 32 }
    ensures { (t : Tables) → keys.now.wishes.keys ≡ wish_ids t → result ≡ target_of t kind target }
{
    match kind {
        AnswerKind::Accept | AnswerKind::Refuse | AnswerKind::Withdraw => {
            place_in(&keys.wishes, target)
        }
        AnswerKind::Quit => target,
    }
}

/// Fault-free tables, and what their rows are found by: the items are made from these.
#[derive(Drop)]
pub(crate) struct Places<'a> {
    pub(crate) tables: &'a Tables,
    pub(crate) keys: &'a Keys,
}

impl<'a> Makes<ProgrammeRow, Programme> for Places<'a> {
    ghost can_make = { λ c. AreKeysOf c.tables.now c.keys.now };

    ghost made = { λ c. programme_of_row c.tables.now };

    fn make(&self, row: &ProgrammeRow, _number: usize) -> Programme {
        Programme {
            id: row.id,
            group: place_in(&self.keys.groups, row.group),
            seats: row.seats,
            limit: row.limit,
        }
    }
}

impl<'a> Makes<SchoolRow, School> for Places<'a> {
    ghost can_make = { λ c. Unit {0} };

    ghost made = { λ c. school_of_row };

    fn make(&self, row: &SchoolRow, _number: usize) -> School {
        School {
            id: row.id,
            beds: row.beds,
            ceiling: row.ceiling,
        }
    }
}

impl<'a> Makes<WishRow, Wish> for Places<'a> {
    ghost can_make = { λ c. AreKeysOf c.tables.now c.keys.now };

    ghost made = { λ c. wish_of_row c.tables.now };

    fn make(&self, row: &WishRow, number: usize) -> Wish {
        let near = NamedPlaces::at(self.keys.near.as_slice(), number);
        Wish {
            id: row.id,
            candidate: row.candidate,
            programme: place_from(&self.keys.programmes, row.programme, near.programme),
            school: place_in_any(&self.keys.schools, row.school),
            board_rank: board_rank_of(self.tables, self.keys, row, near.rank),
            preference: row.preference,
        }
    }
}

impl<'a> Makes<CeilingRow, CeilingChange> for Places<'a> {
    ghost can_make = { λ c. AreKeysOf c.tables.now c.keys.now };

    ghost made = { λ c. ceiling_of_row c.tables.now };

    fn make(&self, row: &CeilingRow, _number: usize) -> CeilingChange {
        CeilingChange {
            day: row.day,
            school: place_in(&self.keys.schools, row.school),
            ceiling: row.ceiling,
        }
    }
}

impl<'a> Makes<AnswerRow, Answer> for Places<'a> {
    ghost can_make = { λ c. AreKeysOf c.tables.now c.keys.now };

    ghost made = { λ c. answer_of_row c.tables.now };

    fn make(&self, row: &AnswerRow, _number: usize) -> Answer {
        Answer {
            day: row.day,
            kind: row.kind,
            target: target_of(self.keys, row.kind, row.target),
        }
    }
}

/// The programmes, with the places of their groups.
pub(crate) fn programmes_of(
    alloc: Global,
    tables: &Tables,
    keys: &Keys,
) -> Result<Vec<Programme>, OutOfMemory>
    requires { AreKeysOf tables.now keys.now }
    ensures { IfOk result (λ programmes.
        programmes.items ≡ map (programme_of_row tables.now) tables.now.programmes) }
{
    made_of(
        alloc,
        &Places { tables, keys },
        tables.programmes.as_slice(),
    )
}

/// The schools.
pub(crate) fn schools_of(
    alloc: Global,
    tables: &Tables,
    keys: &Keys,
) -> Result<Vec<School>, OutOfMemory>
    ensures { IfOk result (λ schools. schools.items ≡ map school_of_row tables.now.schools) }
{
    made_of(alloc, &Places { tables, keys }, tables.schools.as_slice())
}

/// The wishes, with the places of what they name and the candidates' ranks in the schools.
pub(crate) fn wishes_of(
    alloc: Global,
    tables: &Tables,
    keys: &Keys,
) -> Result<Vec<Wish>, OutOfMemory>
    requires { AreKeysOf tables.now keys.now }
    ensures { IfOk result (λ wishes.
        wishes.items ≡ map (wish_of_row tables.now) tables.now.wishes) }
{
    made_of(alloc, &Places { tables, keys }, tables.wishes.as_slice())
}

/// The ceilings, with the places of their schools.
pub(crate) fn ceilings_of(
    alloc: Global,
    tables: &Tables,
    keys: &Keys,
) -> Result<Vec<CeilingChange>, OutOfMemory>
    requires { AreKeysOf tables.now keys.now }
    ensures { IfOk result (λ ceilings.
        ceilings.items ≡ map (ceiling_of_row tables.now) tables.now.ceilings) }
{
    made_of(alloc, &Places { tables, keys }, tables.ceilings.as_slice())
}

/// The answers, with the places of their wishes.
pub(crate) fn answers_of(
    alloc: Global,
    tables: &Tables,
    keys: &Keys,
) -> Result<Vec<Answer>, OutOfMemory>
    requires { AreKeysOf tables.now keys.now }
    ensures { IfOk result (λ answers.
        answers.items ≡ map (answer_of_row tables.now) tables.now.answers) }
{
    made_of(alloc, &Places { tables, keys }, tables.answers.as_slice())
}
