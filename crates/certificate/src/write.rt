//! The text of the falls of days.
ghost use Rattle.std.specs.Prelude.{◌≡◌, All, IfOk, flat_map};
ghost use Rattle.certificate.specs.ChainText.{HasPassesOf, HasFallsOf, chain_text, day_lines, pass_lines, passes_lines};
ghost use Rattle.report.specs.Pushes.{Pushes};

use admit_core::{DayRecord, Dossier, OutOfMemory, PassEnd};
use report::{Piece, push_all, push_falls, push_text};
use std::alloc::{AllocError, Global};

/// Adds the lines of a pass with its number.
fn push_pass(
    text: &mut String,
    dossier: &Dossier,
    number: usize,
    end: &PassEnd,
) -> Result<(), AllocError>
    requires { HasFallsOf dossier.now end.now }
    ensures { Pushes result text.old text.new (pass_lines dossier.now (number, end.now)) }
{
    let number = Piece::Count(number as u64);
    push_all(text, &[Piece::Text("pass "), number, Piece::Text("\n")])?;
    push_falls(text, dossier, end.pass.falls.as_slice())
}

/// Adds the lines of a day's passes, numbered from 1.
fn push_passes(text: &mut String, dossier: &Dossier, passes: &[PassEnd]) -> Result<(), AllocError>
    requires { All (HasFallsOf dossier.now) passes.now }
    ensures { Pushes result text.old text.new (passes_lines dossier.now passes.now) }
{
    for (index, pass) in passes.iter().enumerate() {
        push_pass(text, dossier, index + 1, pass)?;
    }
    Ok(())
}

/// Adds the lines of a day.
fn push_day(text: &mut String, dossier: &Dossier, day: &DayRecord) -> Result<(), AllocError>
    requires { HasPassesOf dossier.now day.now }
    ensures { Pushes result text.old text.new (day_lines dossier.now day.now) }
{
    let number = Piece::Number(day.day);
    push_all(text, &[Piece::Text("day "), number, Piece::Text("\n")])?;
    push_passes(text, dossier, day.passes.as_slice())
}

/// Adds the lines of days.
fn push_days(text: &mut String, dossier: &Dossier, days: &[DayRecord]) -> Result<(), AllocError>
    requires { All (HasPassesOf dossier.now) days.now }
    ensures { Pushes result text.old text.new (flat_map (day_lines dossier.now) days.now) }
{
    for day in days {
        push_day(text, dossier, day)?;
    }
    Ok(())
}

/// Adds the chain of the falls of days.
fn push_chain(text: &mut String, dossier: &Dossier, days: &[DayRecord]) -> Result<(), AllocError>
    requires { All (HasPassesOf dossier.now) days.now }
    ensures { Pushes result text.old text.new (chain_text dossier.now days.now) }
{
    push_days(text, dossier, days)?;
    push_text(text, "end\n")
}

/// The chain of the falls of days, which name the wishes and the schools by their ids.
pub fn write_chain(
    alloc: Global,
    dossier: &Dossier,
    days: &[DayRecord],
) -> Result<Vec<u8>, OutOfMemory>
    requires { All (HasPassesOf dossier.now) days.now }
    ensures { IfOk result (λ text. text.items ≡ chain_text dossier.now days.now) }
{
    let mut text = String::new(alloc);
    push_chain(&mut text, dossier, days)?;
    Ok(text.into_bytes())
}
