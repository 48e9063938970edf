//! Ids in place of places.
ghost use Rattle.std.specs.Prelude.{◌≡◌, ◌<◌, ◌∷◌, [], ℕ, length};
ghost use Rattle.std.specs.Fmt.{decimal};
ghost use Rattle.report.specs.Ids.{numbers_text, school_id, wish_id};
ghost use Rattle.report.specs.Pushes.{Pushes};
ghost use Rattle.report.specs.Words.{line};

use crate::piece::{Piece, push_all};
use admit_core::{Dossier, Programme, School};
use std::alloc::AllocError;

/// What is named by an id.
pub(crate) trait HasId {
    ghost id_of: { Self → ℕ };

    fn id(&self) -> u32
        ensures { result ≡ id_of self.now };
}

impl HasId for Programme {
    ghost id_of = { λ p. p.id };

    fn id(&self) -> u32 {
        self.id
    }
}

impl HasId for School {
    ghost id_of = { λ h. h.id };

    fn id(&self) -> u32 {
        self.id
    }
}

/// The id of the wish at a place.
pub fn wish_id(dossier: &Dossier, place: u32) -> u32
    requires { place < length dossier.now.wishes }
    ensures { result ≡ wish_id dossier.now place }
{
    dossier.wishes.as_slice()[place as usize].id
}

/// The id of the school at a place.
pub(crate) fn school_id(dossier: &Dossier, place: u32) -> u32
    requires { place < length dossier.now.schools }
    ensures { result ≡ school_id dossier.now place }
{
    dossier.schools.as_slice()[place as usize].id
}

/// Adds a line of a word and two numbers.
pub(crate) fn push_line(
    text: &mut String,
    word: &str,
    id: u32,
    number: u32,
) -> Result<(), AllocError>
    ensures { Pushes result text.old text.new
        (line (word.now ∷ decimal id ∷ decimal number ∷ [])) }
{
    let pieces = [
        Piece::Text(word),
        Piece::Space,
        Piece::Number(id),
        Piece::Space,
        Piece::Number(number),
        Piece::End,
    ];
    push_all(text, &pieces)
}

/// Adds a line for each item with its number: a word, the id and the number.
pub(crate) fn push_numbers<T: HasId>(
    text: &mut String,
    word: &str,
    items: &[T],
    numbers: &[u32],
) -> Result<(), AllocError>
    ensures { Pushes result text.old text.new
        (numbers_text T.id_of word.now items.now numbers.now) }
{
    for place in 0..items.len().min(numbers.len()) {
        push_line(text, word, items[place].id(), numbers[place])?;
    }
    Ok(())
}
