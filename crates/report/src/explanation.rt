//! The line that explains a wish.
ghost use Rattle.std.specs.Prelude.{◌≡◌, ◌<◌, ◌∷◌, IfOk, codes, length};
ghost use Rattle.std.specs.Fmt.{decimal};
ghost use Rattle.admit_core.specs.Lines.{status_word};
ghost use Rattle.report.specs.ExplainText.{NamesSchool, cause_words, explain_text, limit_words};
ghost use Rattle.report.specs.ExplainText.{stamp_words};
ghost use Rattle.report.specs.Pushes.{Pushes};
ghost use Rattle.report.specs.Words.{further, line};

use crate::ids::{school_id, wish_id};
use crate::piece::Piece::{End, Number, Space, Text, Word};
use crate::piece::{push_all, push_end};
use admit_core::{BarCause, Dossier, Explanation, OutOfMemory, Stamp, Status};
use std::alloc::{AllocError, Global};

/// Adds the line of a wish that has a status since a pass of a day.
fn push_status(
    text: &mut String,
    wish: u32,
    word: &str,
    status: Status,
    stamp: Stamp,
) -> Result<(), AllocError>
    ensures { Pushes result text.old text.new (line
        (codes "wish" ∷ decimal wish ∷ word.now ∷ status_word status ∷ stamp_words stamp)) }
{
    let pieces = [
        Text("wish "),
        Number(wish),
        Space,
        Text(word),
        Space,
        Word(status),
        Text(" day "),
        Number(stamp.day),
        Text(" pass "),
        Number(stamp.pass),
        End,
    ];
    push_all(text, &pieces)
}

/// Adds the end of a line: why a bar is as low as it is.
fn push_cause(text: &mut String, cause: BarCause) -> Result<(), AllocError>
    ensures { Pushes result text.old text.new (further 32 (cause_words cause)) }
{
    match cause {
        BarCause::Ceiling => push_all(text, &[Text(" ceiling"), End]),
        BarCause::Full { beds } => push_all(text, &[Text(" full "), Number(beds), End]),
    }
}

/// Adds the end of a line: the position and the call limit, where there is one.
fn push_limit(text: &mut String, position: u32, limit: u32) -> Result<(), AllocError>
    ensures { Pushes result text.old text.new (further 32 (limit_words position limit)) }
{
    if limit == 0 {
        return push_end(text);
    }
    let pieces = [
        Text(" position "),
        Number(position),
        Text(" limit "),
        Number(limit),
        End,
    ];
    push_all(text, &pieces)
}

/// Adds the line of a wish that a school's bar keeps from a bed.
fn push_barred(
    text: &mut String,
    wish: u32,
    school: u32,
    rank: u32,
    bar: u32,
    cause: BarCause,
) -> Result<(), AllocError>
    ensures { Pushes result text.old text.new (line
        (codes "wish" ∷ decimal wish ∷ codes "barred" ∷ codes "school" ∷ decimal school
        ∷ codes "rank" ∷ decimal rank ∷ codes "bar" ∷ decimal bar ∷ cause_words cause)) }
{
    let pieces = [
        Text("wish "),
        Number(wish),
        Text(" barred school "),
        Number(school),
        Text(" rank "),
        Number(rank),
        Text(" bar "),
        Number(bar),
    ];
    push_all(text, &pieces)?;
    push_cause(text, cause)
}

/// Adds the line of a wish for which no seat is left.
fn push_no_seat(
    text: &mut String,
    wish: u32,
    ahead: u32,
    left: u32,
    position: u32,
    limit: u32,
) -> Result<(), AllocError>
    ensures { Pushes result text.old text.new (line
        (codes "wish" ∷ decimal wish ∷ codes "noseat" ∷ codes "ahead" ∷ decimal ahead
        ∷ codes "left" ∷ decimal left ∷ limit_words position limit)) }
{
    let pieces = [
        Text("wish "),
        Number(wish),
        Text(" noseat ahead "),
        Number(ahead),
        Text(" left "),
        Number(left),
    ];
    push_all(text, &pieces)?;
    push_limit(text, position, limit)
}

/// Adds the line that explains why the wish at a place stands as it does.
fn push_explanation(
    text: &mut String,
    dossier: &Dossier,
    wish: u32,
    explanation: Explanation,
) -> Result<(), AllocError>
    requires wish { wish < length dossier.now.wishes }
    requires school { NamesSchool dossier.now explanation }
    ensures { Pushes result text.old text.new (explain_text dossier.now wish explanation) }
{
    let id = wish_id(dossier, wish);
    match explanation {
        Explanation::Gone { status, stamp } => push_status(text, id, "gone", status, stamp),
        Explanation::Live { status, stamp } => push_status(text, id, "live", status, stamp),
        Explanation::Barred {
            school,
            rank,
            bar,
            cause,
        } => push_barred(text, id, school_id(dossier, school), rank, bar, cause),
        Explanation::NoSeat {
            ahead,
            left,
            position,
            limit,
        } => push_no_seat(text, id, ahead, left, position, limit),
    }
}

/// The line that explains why the wish at a place stands as it does.
pub fn explain_text(
    alloc: Global,
    dossier: &Dossier,
    wish: u32,
    explanation: Explanation,
) -> Result<Vec<u8>, OutOfMemory>
    requires wish { wish < length dossier.now.wishes }
    requires school { NamesSchool dossier.now explanation }
    ensures { IfOk result (λ text. text.items ≡ explain_text dossier.now wish explanation) }
{
    let mut text = String::new(alloc);
    push_explanation(&mut text, dossier, wish, explanation)?;
    Ok(text.into_bytes())
}
