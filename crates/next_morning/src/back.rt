//! Rows with their ids again, from the dossier that they stand for.
ghost use Rattle.std.specs.Prelude.{◌≡◌, ◌<◌, [], IfOk, IsOk, length, map};
ghost use Rattle.admit_core.specs.Validity.{IsTarget, IsValidAnswer, IsValidCeiling, IsValidWish};
ghost use Rattle.next_morning.specs.RowsBack as Back;
ghost use Rattle.next_morning.specs.RowsBack.{HasNoDailyRows, id_at, rows_back};

use admit_core::{
    Answer, AnswerKind, AnswerRow, CeilingChange, CeilingRow, Dossier, OutOfMemory, School,
    SchoolRow, Sequence, Tables, Wish, WishRow,
};
use std::alloc::{AllocError, Global};

/// The id of the programme at a place.
fn programme_id(dossier: &Dossier, place: u32) -> u32
    requires { place < length dossier.now.programmes }
    ensures { result ≡ id_at (λ p. p.id) dossier.now.programmes place }
{
    dossier.programmes.as_slice()[place as usize].id
}

/// The id of the school at a place.
fn school_id(dossier: &Dossier, place: u32) -> u32
    requires { place < length dossier.now.schools }
    ensures { result ≡ id_at (λ h. h.id) dossier.now.schools place }
{
    dossier.schools.as_slice()[place as usize].id
}

/// The id of the wish at a place.
fn wish_id(dossier: &Dossier, place: u32) -> u32
    requires { place < length dossier.now.wishes }
    ensures { result ≡ id_at (λ w. w.id) dossier.now.wishes place }
{
    dossier.wishes.as_slice()[place as usize].id
}

fn school_row(school: &School) -> SchoolRow
    ensures { result ≡ Back.school_row school.now }
{
    SchoolRow {
        id: school.id,
        beds: school.beds,
        ceiling: school.ceiling,
    }
}

fn wish_row(dossier: &Dossier, wish: &Wish) -> WishRow
    requires { IsValidWish dossier.now wish.now }
    ensures { result ≡ Back.wish_row dossier.now wish.now }
{
    WishRow {
        id: wish.id,
        candidate: wish.candidate,
        programme: programme_id(dossier, wish.programme),
        school: match wish.school {
            Some(school) => Some(school_id(dossier, school)),
            None => None,
        },
        preference: wish.preference,
    }
}

fn ceiling_row(dossier: &Dossier, change: &CeilingChange) -> CeilingRow
    requires { IsValidCeiling dossier.now change.now }
    ensures { result ≡ Back.ceiling_row dossier.now change.now }
{
    CeilingRow {
        day: change.day,
        school: school_id(dossier, change.school),
        ceiling: change.ceiling,
    }
}

/// What an answer names: a candidate who quits, or a wish.
fn target_row(dossier: &Dossier, kind: AnswerKind, target: u32) -> u32
    requires { IsTarget dossier.now kind target }
    ensures { result ≡ Back.target_row dossier.now kind target }
{
    match kind {
        AnswerKind::Quit => target,
        _ => wish_id(dossier, target),
    }
}

fn answer_row(dossier: &Dossier, answer: &Answer) -> AnswerRow
    requires { IsValidAnswer dossier.now answer.now }
    ensures { result ≡ Back.answer_row dossier.now answer.now }
{
    AnswerRow {
        day: answer.day,
        kind: answer.kind,
        target: target_row(dossier, answer.kind, answer.target),
    }
}

fn school_rows(alloc: Global, schools: &[School]) -> Result<Vec<SchoolRow>, AllocError>
    ensures rows { IfOk result (λ rows. rows.items ≡ map Back.school_row schools.now) }
    ensures always { schools.now ≡ [] → IsOk result }
{
    let mut rows = Vec::new(alloc);
    for school in schools {
        rows.push(school_row(school))?;
    }
    Ok(rows)
}

fn wish_rows(alloc: Global, dossier: &Dossier) -> Result<Vec<WishRow>, AllocError>
    ensures rows { IfOk result (λ rows. rows.items
        ≡ map (Back.wish_row dossier.now) dossier.now.wishes) }
    ensures always { dossier.now.wishes ≡ [] → IsOk result }
{
    let wishes = dossier.wishes.as_slice();
    let mut rows = Vec::new(alloc);
    for wish in wishes {
        rows.push(wish_row(dossier, wish))?;
    }
    Ok(rows)
}

fn ceiling_rows(alloc: Global, dossier: &Dossier) -> Result<Vec<CeilingRow>, AllocError>
    ensures rows { IfOk result (λ rows. rows.items
        ≡ map (Back.ceiling_row dossier.now) dossier.now.ceilings) }
    ensures always { dossier.now.ceilings ≡ [] → IsOk result }
{
    let changes = dossier.ceilings.as_slice();
    let mut rows = Vec::new(alloc);
    for change in changes {
        rows.push(ceiling_row(dossier, change))?;
    }
    Ok(rows)
}

fn answer_rows(alloc: Global, dossier: &Dossier) -> Result<Vec<AnswerRow>, AllocError>
    ensures rows { IfOk result (λ rows. rows.items
        ≡ map (Back.answer_row dossier.now) dossier.now.answers) }
    ensures always { dossier.now.answers ≡ [] → IsOk result }
{
    let answers = dossier.answers.as_slice();
    let mut rows = Vec::new(alloc);
    for answer in answers {
        rows.push(answer_row(dossier, answer))?;
    }
    Ok(rows)
}

/// The rows of the schools, the wishes, the ceilings and the answers of a dossier; the other lists
/// are empty.
pub(crate) fn rows_back(alloc: Global, dossier: &Dossier) -> Result<Tables, OutOfMemory>
    ensures rows { IfOk result (λ rows. rows ≡ rows_back dossier.now) }
    ensures always { HasNoDailyRows dossier.now → IsOk result }
{
    let school_rows = school_rows(alloc, dossier.schools.as_slice())?;
    let wish_rows = wish_rows(alloc, dossier)?;
    let ceiling_rows = ceiling_rows(alloc, dossier)?;
    let answer_rows = answer_rows(alloc, dossier)?;
    Ok(Tables {
        groups: Sequence::new(alloc),
        programmes: Sequence::new(alloc),
        schools: Sequence::from_vec(school_rows),
        rankings: Sequence::new(alloc),
        boarding: Sequence::new(alloc),
        wishes: Sequence::from_vec(wish_rows),
        state: Sequence::new(alloc),
        ceilings: Sequence::from_vec(ceiling_rows),
        answers: Sequence::from_vec(answer_rows),
    })
}
