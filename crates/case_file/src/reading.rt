//! The sections of a file.
ghost use Rattle.std.specs.Prelude.{◌≡◌, [], IfOk, OnOk, map, option_copied, string_bytes};
ghost use Rattle.std.specs.Str.Lines.{lines};
ghost use Rattle.case_file.specs.Sections.{AddsEnded, AddsLine, IsReplaced, TakesLine, TakesLines};
ghost use Rattle.case_file.specs.Sections.{after_other, behind_bar, is_remark, section_of, seen};

use std::alloc::{AllocError, Global};

/// A part of a file.
#[derive(Drop)]
pub struct Section<'a> {
    /// Its first line.
    pub line: &'a str,
    /// The first word of that line.
    pub name: &'a str,
    /// The other words of that line.
    pub words: &'a str,
    /// The lines below it, without their bars.
    pub text: String,
}

/// A text with another one in place of each of its marks.
fn replaced(alloc: Global, text: &str, mark: &str, other: &str) -> Result<String, AllocError>
    ensures { IfOk result (λ t. IsReplaced mark.now other.now text.now (string_bytes t)) }
{
    text.replace(alloc, mark, other)
}

/// Adds a line with its line feed, or what stands before its `{cut}`.
fn push_ended(text: &mut String, line: &str) -> Result<(), AllocError>
    ensures { OnOk result (AddsEnded line.now (string_bytes text.old) (string_bytes text.new)) }
{
    match line.strip_suffix("{cut}") {
        Some(cut) => text.push_str(cut),
        None => {
            text.push_str(line)?;
            text.push_str("\n")
        }
    }
}

/// Adds a line of a section's text. In it `{bom}` is a byte order mark and `{cr}` a carriage
/// return; where it ends with `{cut}`, no line feed follows.
fn add_line(alloc: Global, text: &mut String, line: &str) -> Result<(), AllocError>
    ensures { OnOk result (AddsLine line.now (string_bytes text.old) (string_bytes text.new)) }
{
    let line = replaced(alloc, line, "{bom}", "\u{feff}")?;
    let line = replaced(alloc, line.as_str(), "{cr}", "\r")?;
    push_ended(text, line.as_str())
}

/// The section that a line begins.
fn begun(alloc: Global, line: &str) -> Section<'_>
    ensures { seen result ≡ section_of line.now }
{
    let (name, words) = line.split_once(' ').unwrap_or((line, ""));
    Section {
        line,
        name,
        words,
        text: String::new(alloc),
    }
}

/// What stands behind the bar of a line of a text.
fn behind_bar(line: &str) -> Option<&str>
    ensures { option_copied result ≡ behind_bar line.now }
{
    line.strip_prefix("| ")
}

/// Whether a line tells the reader something, or is empty.
fn is_remark(line: &str) -> bool
    ensures { result ≡ is_remark line.now }
{
    line.is_empty() || line.starts_with('#')
}

/// Takes a line that is no line of a text: it begins a section, unless it is a remark.
fn take_other<'a>(
    alloc: Global,
    sections: &mut Vec<Section<'a>>,
    line: &'a str,
) -> Result<(), AllocError>
    ensures { OnOk result (map seen sections.new.items
        ≡ after_other line.now (map seen sections.old.items)) }
{
    if is_remark(line) {
        return Ok(());
    }
    sections.push(begun(alloc, line))?;
    Ok(())
}

/// Takes the next line of a file.
fn take_line<'a>(
    alloc: Global,
    sections: &mut Vec<Section<'a>>,
    line: &'a str,
) -> Result<(), AllocError>
    ensures { OnOk result (TakesLine line.now (map seen sections.old.items)
        (map seen sections.new.items)) }
{
    let Some(text) = behind_bar(line) else {
        return take_other(alloc, sections, line);
    };
    let Some(last) = sections.pop() else {
        return take_other(alloc, sections, line);
    };
    let mut section = last;
    add_line(alloc, &mut section.text, text)?;
    sections.push(section)?;
    Ok(())
}

/// The sections of a file, in order.
pub fn sections(alloc: Global, file: &str) -> Result<Vec<Section<'_>>, AllocError>
    ensures { IfOk result (λ sections. TakesLines (lines file.now) [] (map seen sections.items)) }
{
    let mut sections: Vec<Section<'_>> = Vec::new(alloc);
    for line in file.lines() {
        take_line(alloc, &mut sections, line)?;
    }
    Ok(sections)
}
