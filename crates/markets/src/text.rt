//! A market that is solved, as a text.
ghost use Rattle.std.specs.Prelude.{◌≡◌, ◌<◌, ◌∷◌, [], All, IfOk, codes, flat_map, length, zip};
ghost use Rattle.std.specs.Fmt.{decimal};
ghost use Rattle.std.specs.Option.{ForSome};
ghost use Rattle.std.specs.List.{enumerate_from};
ghost use Rattle.markets.specs.Text.{cut_line, market_text, match_line, programme_id};
ghost use Rattle.report.specs.Pushes.{Pushes};
ghost use Rattle.report.specs.Words.{line};

use crate::named::Named;
use crate::solution::Solved;
use admit_core::{Dossier, OutOfMemory, Programme};
use itoa::Buffer;
use report::push_text;
use std::alloc::{AllocError, Global};

/// Adds texts, one after another.
#[inline(always)]
fn push_texts(text: &mut String, texts: &[&str]) -> Result<(), AllocError>
    ensures { Pushes result text.old text.new (flat_map (λ t. t.now) texts.now) }
{
    for added in texts {
        push_text(text, added)?;
    }
    Ok(())
}

/// Adds the first line: how many candidates there are.
fn push_count(text: &mut String, count: usize) -> Result<(), AllocError>
    ensures { Pushes result text.old text.new (line (codes "market" ∷ decimal count ∷ [])) }
{
    push_texts(text, &["market ", Buffer::new().format(count), "\n"])
}

/// Adds the line of a programme with its bar.
fn push_cut(text: &mut String, id: u32, bar: u32) -> Result<(), AllocError>
    ensures { Pushes result text.old text.new
        (line (codes "cut" ∷ decimal id ∷ decimal bar ∷ [])) }
{
    let (mut first, mut second) = (Buffer::new(), Buffer::new());
    let (id, bar) = (first.format(id), second.format(bar));
    push_texts(text, &["cut ", id, " ", bar, "\n"])
}

/// Adds a line for each programme with its bar.
fn push_cuts(text: &mut String, programmes: &[Programme], bars: &[u32]) -> Result<(), AllocError>
    requires { length bars.now ≡ length programmes.now }
    ensures { Pushes result text.old text.new
        (flat_map (cut_line bars.now) (enumerate_from 0 programmes.now)) }
{
    for (place, programme) in programmes.iter().enumerate() {
        push_cut(text, programme.id, bars[place])?;
    }
    Ok(())
}

/// The id of the programme at a place.
fn programme_id(dossier: &Dossier, place: u32) -> u32
    requires { place < length dossier.now.programmes }
    ensures { result ≡ programme_id dossier.now place }
{
    dossier.programmes.as_slice()[place as usize].id
}

/// Adds the line of a candidate.
fn push_match(
    text: &mut String,
    dossier: &Dossier,
    candidate: u32,
    place: Option<u32>,
) -> Result<(), AllocError>
    requires { ForSome place (λ p. p < length dossier.now.programmes) }
    ensures { Pushes result text.old text.new (match_line dossier.now (candidate, place)) }
{
    let mut first = Buffer::new();
    let candidate = first.format(candidate);
    match place {
        Some(programme) => {
            let mut second = Buffer::new();
            let id = second.format(programme_id(dossier, programme));
            push_texts(text, &["match ", candidate, " ", id, "\n"])
        }
        None => push_texts(text, &["match ", candidate, " none\n"]),
    }
}

/// Adds a line for each candidate with their place.
fn push_matches(
    text: &mut String,
    dossier: &Dossier,
    candidates: &[u32],
    places: &[Option<u32>],
) -> Result<(), AllocError>
    requires { All (λ place. ForSome place (λ p. p < length dossier.now.programmes)) places.now }
    ensures { Pushes result text.old text.new
        (flat_map (match_line dossier.now) (zip candidates.now places.now)) }
{
    for at in 0..candidates.len().min(places.len()) {
        push_match(text, dossier, candidates[at], places[at])?;
    }
    Ok(())
}

/// The number of candidates, then the bar of each programme in file order, and then each candidate
/// with the programme of their place, or `none`. Programmes and candidates are named by their ids.
pub fn market_text(
    alloc: Global,
    dossier: &Dossier,
    named: &Named,
    solved: &Solved,
) -> Result<Vec<u8>, OutOfMemory>
    requires bars { length solved.now.bars.items ≡ length dossier.now.programmes }
    requires places { All (λ place. ForSome place (λ p. p < length dossier.now.programmes))
        solved.now.places.items }
    ensures { IfOk result (λ text. text.items ≡ market_text dossier.now named.now.candidates.items
        solved.now.bars.items solved.now.places.items) }
{
    let candidates = named.candidates.as_slice();
    let mut text = String::new(alloc);
    push_count(&mut text, candidates.len())?;
    push_cuts(
        &mut text,
        dossier.programmes.as_slice(),
        solved.bars.as_slice(),
    )?;
    push_matches(&mut text, dossier, candidates, solved.places.as_slice())?;
    Ok(text.into_bytes())
}
