//! The lines of a day.
ghost use Rattle.std.specs.Prelude.{◌≡◌, ◌<◌, ◌++◌, ◌∷◌, [], All, IfOk, IsOk, codes, flat_map};
ghost use Rattle.std.specs.Prelude.{length, map};
ghost use Rattle.std.specs.Fmt.{decimal};
ghost use Rattle.admit_core.specs.Lines.{status_word};
ghost use Rattle.report.specs.DayText.{IsFallOf, IsLapseOf, IsPassOf, auto_line, dated_day_text};
ghost use Rattle.report.specs.DayText.{day_text, evening_text, fall_line, freed_line, lapse_line};
ghost use Rattle.report.specs.DayText.{offer_line, pass_text, passes_text};
ghost use Rattle.report.specs.Ids.{numbers_text, wish_id};
ghost use Rattle.report.specs.Pushes.{Pushes};
ghost use Rattle.report.specs.Words.{further};

use crate::date::push_date;
use crate::ids::{push_line, push_numbers, school_id, wish_id};
use crate::piece::{Piece, push_after, push_all, push_end, push_spaced, push_text};
use crate::words::status_between;
use admit_core::{
    Change, DayRecord, Dossier, Fall, Lapse, OutOfMemory, PassEnd, PassRecord, Status, Terms,
};
use calendar::{Civil, deadline, on_day};
use std::alloc::{AllocError, Global};

/// Adds the id of each wish after a space, and ends the line.
fn push_wishes(text: &mut String, dossier: &Dossier, wishes: &[u32]) -> Result<(), AllocError>
    requires { All (λ w. w < length dossier.now.wishes) wishes.now }
    ensures { Pushes result text.old text.new
        (further 32 (map (λ w. decimal (wish_id dossier.now w)) wishes.now)) }
{
    for wish in wishes {
        push_spaced(text, wish_id(dossier, *wish))?;
    }
    push_end(text)
}

/// Adds the line of a fall.
fn push_fall(text: &mut String, dossier: &Dossier, fall: &Fall) -> Result<(), AllocError>
    requires { IsFallOf dossier.now fall.now }
    ensures { Pushes result text.old text.new (fall_line dossier.now fall.now) }
{
    let pieces = [
        Piece::Text("fall "),
        Piece::Number(school_id(dossier, fall.school)),
        Piece::Space,
        Piece::Number(fall.from),
        Piece::Space,
        Piece::Number(fall.to),
    ];
    push_all(text, &pieces)?;
    push_wishes(text, dossier, fall.wishes.as_slice())
}

/// Adds the lines of falls, each with the ids of its school and wishes.
pub fn push_falls(text: &mut String, dossier: &Dossier, falls: &[Fall]) -> Result<(), AllocError>
    requires { All (IsFallOf dossier.now) falls.now }
    ensures all { Pushes result text.old text.new (flat_map (fall_line dossier.now) falls.now) }
    ensures always { falls.now ≡ [] → IsOk result }
{
    for fall in falls {
        push_fall(text, dossier, fall)?;
    }
    Ok(())
}

/// Adds a line: some text, an id, and what stands behind it. Lines of offers and of automatic
/// answers are most of a day, so they aren't made of pieces.
#[inline(always)]
fn push_id(text: &mut String, before: &str, id: u32, end: &str) -> Result<(), AllocError>
    ensures { Pushes result text.old text.new (before.now ++ decimal id ++ end.now) }
{
    push_after(text, before, id)?;
    push_text(text, end)
}

/// Adds the line of the offer of a wish.
fn push_offer(text: &mut String, dossier: &Dossier, wish: u32) -> Result<(), AllocError>
    requires { wish < length dossier.now.wishes }
    ensures { Pushes result text.old text.new (offer_line dossier.now wish) }
{
    push_id(text, "offer ", wish_id(dossier, wish), "\n")
}

/// Adds the lines of the offers of wishes.
fn push_offers(text: &mut String, dossier: &Dossier, offers: &[u32]) -> Result<(), AllocError>
    requires { All (λ w. w < length dossier.now.wishes) offers.now }
    ensures { Pushes result text.old text.new (flat_map (offer_line dossier.now) offers.now) }
{
    for wish in offers {
        push_offer(text, dossier, *wish)?;
    }
    Ok(())
}

/// What stands behind the id in the line of a wish that comes to this status.
fn status_end(status: Status) -> &'static str
    ensures { result.now ≡ further 32 (status_word status ∷ []) }
{
    status_between!(status, " ", "\n")
}

/// Adds the line of a change that an automatic answer made.
fn push_auto(text: &mut String, dossier: &Dossier, change: Change) -> Result<(), AllocError>
    requires { change.wish < length dossier.now.wishes }
    ensures { Pushes result text.old text.new (auto_line dossier.now change) }
{
    let id = wish_id(dossier, change.wish);
    push_id(text, "auto ", id, status_end(change.status))
}

/// Adds the lines of the changes that automatic answers made.
fn push_autos(text: &mut String, dossier: &Dossier, autos: &[Change]) -> Result<(), AllocError>
    requires { All (λ c. c.wish < length dossier.now.wishes) autos.now }
    ensures { Pushes result text.old text.new (flat_map (auto_line dossier.now) autos.now) }
{
    for change in autos {
        push_auto(text, dossier, *change)?;
    }
    Ok(())
}

/// Adds the lines of a pass's falls, and of the bars that they end with.
fn push_fallen(text: &mut String, dossier: &Dossier, pass: &PassRecord) -> Result<(), AllocError>
    requires { All (IsFallOf dossier.now) pass.now.falls }
    ensures { Pushes result text.old text.new (flat_map (fall_line dossier.now) pass.now.falls
        ++ numbers_text (λ h. h.id) (codes "bar") dossier.now.schools pass.now.bars) }
{
    push_falls(text, dossier, pass.falls.as_slice())?;
    push_numbers(
        text,
        "bar",
        dossier.schools.as_slice(),
        pass.bars.as_slice(),
    )
}

/// Adds the last lines of a pass: the offers, the automatic answers, and what these freed.
fn push_made(text: &mut String, dossier: &Dossier, end: &PassEnd) -> Result<(), AllocError>
    requires { IsPassOf dossier.now end.now }
    ensures { Pushes result text.old text.new (flat_map (offer_line dossier.now) end.now.pass.offers
        ++ flat_map (auto_line dossier.now) end.now.autos ++ freed_line end.now.freed) }
{
    let pass = &end.pass;
    let (seats, beds) = (end.freed.seats, end.freed.beds);
    push_offers(text, dossier, pass.offers.as_slice())?;
    push_autos(text, dossier, end.autos.as_slice())?;
    push_line(text, "freed", seats, beds)
}

/// Adds a line of some text and a number.
fn push_numbered(text: &mut String, before: &str, number: usize) -> Result<(), AllocError>
    ensures { Pushes result text.old text.new (before.now ++ decimal number ++ 10 ∷ []) }
{
    let number = Piece::Count(number as u64);
    push_all(text, &[Piece::Text(before), number, Piece::End])
}

/// Adds the lines of a pass with its number.
fn push_pass(
    text: &mut String,
    dossier: &Dossier,
    number: usize,
    end: &PassEnd,
) -> Result<(), AllocError>
    requires { IsPassOf dossier.now end.now }
    ensures { Pushes result text.old text.new (pass_text dossier.now (number, end.now)) }
{
    push_numbered(text, "pass ", number)?;
    push_fallen(text, dossier, &end.pass)?;
    push_made(text, dossier, end)
}

/// Adds the lines of a day's passes, numbered from 1.
fn push_passes(text: &mut String, dossier: &Dossier, passes: &[PassEnd]) -> Result<(), AllocError>
    requires { All (IsPassOf dossier.now) passes.now }
    ensures { Pushes result text.old text.new (passes_text dossier.now passes.now) }
{
    for (index, pass) in passes.iter().enumerate() {
        push_pass(text, dossier, index + 1, pass)?;
    }
    Ok(())
}

/// Adds the lines of a day after the first and its lapses: its passes, and the seats and the beds
/// that are left in the evening.
fn push_rest(text: &mut String, dossier: &Dossier, day: &DayRecord) -> Result<(), AllocError>
    requires { All (IsPassOf dossier.now) day.now.passes }
    ensures { Pushes result text.old text.new
        (passes_text dossier.now day.now.passes ++ evening_text dossier.now day.now) }
{
    push_passes(text, dossier, day.passes.as_slice())?;
    push_numbers(
        text,
        "left",
        dossier.programmes.as_slice(),
        day.left.as_slice(),
    )?;
    push_numbers(
        text,
        "free",
        dossier.schools.as_slice(),
        day.free.as_slice(),
    )
}

/// Adds the lines of a day: its passes, and the seats and beds that are left in the evening.
pub fn push_day(text: &mut String, dossier: &Dossier, day: &DayRecord) -> Result<(), AllocError>
    requires { All (IsPassOf dossier.now) day.now.passes }
    ensures { Pushes result text.old text.new (day_text dossier.now day.now) }
{
    push_numbered(text, "day ", day.day as usize)?;
    push_rest(text, dossier, day)
}

/// The lines of a day, as a text of their own.
pub fn day_text(alloc: Global, dossier: &Dossier, day: &DayRecord) -> Result<Vec<u8>, OutOfMemory>
    requires { All (IsPassOf dossier.now) day.now.passes }
    ensures { IfOk result (λ text. text.items ≡ day_text dossier.now day.now) }
{
    let mut text = String::new(alloc);
    push_day(&mut text, dossier, day)?;
    Ok(text.into_bytes())
}

/// Adds the line of a lapsed offer.
fn push_lapse(
    text: &mut String,
    dossier: &Dossier,
    lapse: Lapse,
    start: Civil,
    term: u32,
) -> Result<(), AllocError>
    requires { IsLapseOf dossier.now start term lapse }
    ensures { Pushes result text.old text.new (lapse_line dossier.now start term lapse) }
{
    let id = Piece::Number(wish_id(dossier, lapse.wish));
    push_all(text, &[Piece::Text("lapse "), id, Piece::Space])?;
    push_date(text, deadline(on_day(start, lapse.offered), term))?;
    push_end(text)
}

/// Adds the lines of lapsed offers, each with the deadline that has passed.
fn push_lapses(
    text: &mut String,
    dossier: &Dossier,
    lapses: &[Lapse],
    start: Civil,
    term: u32,
) -> Result<(), AllocError>
    requires { All (IsLapseOf dossier.now start term) lapses.now }
    ensures { Pushes result text.old text.new
        (flat_map (lapse_line dossier.now start term) lapses.now) }
{
    for lapse in lapses {
        push_lapse(text, dossier, *lapse, start, term)?;
    }
    Ok(())
}

/// Adds the lines of a day where offers have dates, of which `start` is that of day 1: those of
/// `push_day`, with the lapses after the first.
pub fn push_dated_day(
    text: &mut String,
    dossier: &Dossier,
    day: &DayRecord,
    start: Civil,
    terms: &Terms,
) -> Result<(), AllocError>
    requires passes { All (IsPassOf dossier.now) day.now.passes }
    requires lapses { All (IsLapseOf dossier.now start terms.now.term) day.now.lapsed }
    ensures { Pushes result text.old text.new
        (dated_day_text dossier.now day.now start terms.now.term) }
{
    push_numbered(text, "day ", day.day as usize)?;
    push_lapses(text, dossier, day.lapsed.as_slice(), start, terms.term)?;
    push_rest(text, dossier, day)
}

/// The lines of a day where offers have dates, as a text of their own.
pub fn dated_day_text(
    alloc: Global,
    dossier: &Dossier,
    day: &DayRecord,
    start: Civil,
    terms: &Terms,
) -> Result<Vec<u8>, OutOfMemory>
    requires passes { All (IsPassOf dossier.now) day.now.passes }
    requires lapses { All (IsLapseOf dossier.now start terms.now.term) day.now.lapsed }
    ensures { IfOk result (λ text. text.items ≡ dated_day_text dossier.now day.now start
        terms.now.term) }
{
    let mut text = String::new(alloc);
    push_dated_day(&mut text, dossier, day, start, terms)?;
    Ok(text.into_bytes())
}
