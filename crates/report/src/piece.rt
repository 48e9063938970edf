//! The pieces of a line.
ghost use Rattle.std.specs.Prelude.{◌++◌, ◌∷◌, ◌<◌, []};
ghost use Rattle.std.specs.Fmt.{decimal};
ghost use Rattle.report.specs.Pieces.{all_text, piece_text};
ghost use Rattle.report.specs.Pushes.{Pushes};

use admit_core::Status;
use itoa::Buffer;
use std::alloc::AllocError;

/// A piece of a line: some text, a number in digits, the word of a status, a space, or the end of
/// the line. The last two cost less than a text of one character.
#[derive(Clone, Copy)]
pub enum Piece<'a> {
    Text(&'a str),
    Number(u32),
    Count(u64),
    Word(Status),
    Space,
    End,
}

/// Adds some text.
#[inline(always)]
pub fn push_text(text: &mut String, added: &str) -> Result<(), AllocError>
    ensures { Pushes result text.old text.new added.now }
{
    text.push_str(added)
}

/// Adds a character of one byte, which costs less than a text.
#[inline(always)]
pub fn push_ascii(text: &mut String, character: char) -> Result<(), AllocError>
    requires { character < 128 }
    ensures { Pushes result text.old text.new (character ∷ []) }
{
    text.push(character)
}

/// Ends the line.
#[inline(always)]
pub fn push_end(text: &mut String) -> Result<(), AllocError>
    ensures { Pushes result text.old text.new (10 ∷ []) }
{
    push_ascii(text, '\n')
}

/// Adds one text and then another.
#[inline(always)]
pub(crate) fn push_both(text: &mut String, one: &str, other: &str) -> Result<(), AllocError>
    ensures { Pushes result text.old text.new (one.now ++ other.now) }
{
    push_text(text, one)?;
    push_text(text, other)
}

/// Adds some text and a number.
#[inline(always)]
pub fn push_after(text: &mut String, before: &str, number: u32) -> Result<(), AllocError>
    ensures { Pushes result text.old text.new (before.now ++ decimal number) }
{
    push_both(text, before, Buffer::new().format(number))
}

/// Adds a space and a number.
#[inline(always)]
pub fn push_spaced(text: &mut String, number: u32) -> Result<(), AllocError>
    ensures { Pushes result text.old text.new (32 ∷ decimal number) }
{
    push_ascii(text, ' ')?;
    push_text(text, Buffer::new().format(number))
}

/// Adds a piece.
#[inline(always)]
fn push_piece(text: &mut String, piece: Piece<'_>) -> Result<(), AllocError>
    ensures { Pushes result text.old text.new (piece_text piece.entry) }
{
    match piece {
        Piece::Text(added) => push_text(text, added),
        Piece::Number(number) => push_text(text, Buffer::new().format(number)),
        Piece::Count(count) => push_text(text, Buffer::new().format(count)),
        Piece::Word(status) => push_text(text, status.word()),
        Piece::Space => push_ascii(text, ' '),
        Piece::End => push_end(text),
    }
}

/// Adds pieces, one after another. What is most of a long text has fewer and longer pieces, pushed
/// by calls of their own.
#[inline(always)]
pub fn push_all(text: &mut String, pieces: &[Piece<'_>]) -> Result<(), AllocError>
    ensures { Pushes result text.old text.new (all_text pieces.now) }
{
    for piece in pieces {
        push_piece(text, *piece)?;
    }
    Ok(())
}
