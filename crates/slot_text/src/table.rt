//! Any slot's text, by how its row type is written.
ghost use Rattle.std.specs.Prelude.{◌≡◌, flat_map};
ghost use Rattle.report.specs.Pushes.{Pushes};
ghost use Rattle.report.specs.Words.{row};
ghost use Rattle.slot_text.specs.Texts.{Written, table_text};

use report::push_text;
use std::alloc::AllocError;

/// A row of a slot.
pub(crate) trait WrittenRow {
    /// How the slot is written.
    ghost written: { Written Self };

    /// The line of the header.
    fn header() -> &'static str
        ensures { result.now ≡ row written.header };

    /// Adds the line of a row.
    fn push(&self, text: &mut String) -> Result<(), AllocError>
        ensures { Pushes result text.old text.new (row (written.fields self.now)) };
}

/// Adds the line of each row.
fn push_rows<R: WrittenRow>(text: &mut String, rows: &[R]) -> Result<(), AllocError>
    ensures { Pushes result text.old text.new
        (flat_map (λ x. row (R.written.fields x)) rows.now) }
{
    for row in rows {
        row.push(text)?;
    }
    Ok(())
}

/// Adds the text of a slot.
pub(crate) fn push_table<R: WrittenRow>(text: &mut String, rows: &[R]) -> Result<(), AllocError>
    ensures { Pushes result text.old text.new (table_text R.written rows.now) }
{
    push_text(text, R::header())?;
    push_rows(text, rows)
}
