//! The line of a refusal.
ghost use Rattle.std.specs.Prelude.{◌≡◌, IfOk};
ghost use Rattle.report.specs.RefusalText.{refusal_line};

use crate::piece::push_end;
use admit_core::{OutOfMemory, Refusal};
use std::alloc::Global;

/// The line of a refusal.
pub fn refusal_text(alloc: Global, refusal: Refusal) -> Result<Vec<u8>, OutOfMemory>
    ensures { IfOk result (λ text. text.items ≡ refusal_line refusal) }
{
    let mut text = String::new(alloc);
    refusal.push_onto(&mut text)?;
    push_end(&mut text)?;
    Ok(text.into_bytes())
}
