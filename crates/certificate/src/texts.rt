//! The lines that tell why a chain is refused.
ghost use Rattle.std.specs.Prelude.{◌≡◌, ◌++◌, ◌∷◌, [], IfOk, length};
ghost use Rattle.admit_core.specs.ChainLines.{chain_fault_text};
ghost use Rattle.certificate.specs.VerdictText.{kept_id, verdict_text};
ghost use Rattle.certificate.specs.Verdicts.{KeepsSchool};
ghost use Rattle.report.specs.Pushes.{Pushes};
ghost use Rattle.report.specs.Words.{further};

use admit_core::{ChainFault, CheckReason, Dossier, OutOfMemory};
use report::{Piece, push_all, push_text};
use std::alloc::{AllocError, Global};

/// The line of a text that is no chain.
pub fn chain_fault_text(alloc: Global, fault: ChainFault) -> Result<Vec<u8>, OutOfMemory>
    ensures { IfOk result (λ text. text.items ≡ chain_fault_text fault ++ 10 ∷ []) }
{
    let mut text = String::new(alloc);
    fault.push_onto(&mut text)?;
    text.push_str("\n")?;
    Ok(text.into_bytes())
}

/// Ends the line of a chain that is not valid. Where a school is still overfilled, its id comes
/// first.
fn push_kept(text: &mut String, dossier: &Dossier, reason: CheckReason) -> Result<(), AllocError>
    requires { KeepsSchool (length dossier.now.schools) reason }
    ensures { Pushes result text.old text.new (further 32 (kept_id dossier.now reason)) }
{
    match reason {
        CheckReason::StillOver { school } => {
            let id = Piece::Number(dossier.schools.as_slice()[school as usize].id);
            push_all(text, &[Piece::Text(" "), id, Piece::Text("\n")])
        }
        _ => push_text(text, "\n"),
    }
}

/// Adds the line of a day's chain that is not valid.
pub fn push_verdict(
    text: &mut String,
    dossier: &Dossier,
    row: u64,
    reason: CheckReason,
) -> Result<(), AllocError>
    requires { KeepsSchool (length dossier.now.schools) reason }
    ensures { Pushes result text.old text.new (verdict_text dossier.now row reason) }
{
    let pieces = [
        Piece::Text("not proved row "),
        Piece::Count(row),
        Piece::Text(" reason "),
        Piece::Number(reason.number()),
        Piece::Text(" "),
        Piece::Text(reason.name()),
    ];
    push_all(text, &pieces)?;
    push_kept(text, dossier, reason)
}

/// The line of a day's chain that is not valid. A school that is still overfilled is told by its
/// id.
pub fn verdict_text(
    alloc: Global,
    dossier: &Dossier,
    row: u64,
    reason: CheckReason,
) -> Result<Vec<u8>, OutOfMemory>
    requires { KeepsSchool (length dossier.now.schools) reason }
    ensures { IfOk result (λ text. text.items ≡ verdict_text dossier.now row reason) }
{
    let mut text = String::new(alloc);
    push_verdict(&mut text, dossier, row, reason)?;
    Ok(text.into_bytes())
}
