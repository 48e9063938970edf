//! The lines of what a school needs.
ghost use Rattle.std.specs.Prelude.{◌≡◌, ◌<◌, ◌∷◌, [], IfOk, codes, flat_map, length};
ghost use Rattle.std.specs.Fmt.{decimal};
ghost use Rattle.std.specs.List.{enumerate_from};
ghost use Rattle.bed_need.specs.Text.{bar_line, beds_text, need_line};
ghost use Rattle.report.specs.Pushes.{Pushes};
ghost use Rattle.report.specs.Words.{line};

use crate::growth::Growth;
use admit_core::{Dossier, OutOfMemory, School};
use report::{Piece, push_all};
use std::alloc::{AllocError, Global};

/// Adds the line of a school, by its id, with its bars before and after.
fn push_bar(text: &mut String, id: u32, before: u32, after: u32) -> Result<(), AllocError>
    ensures { Pushes result text.old text.new
        (line (codes "bar" ∷ decimal id ∷ decimal before ∷ decimal after ∷ [])) }
{
    let pieces = [
        Piece::Text("bar "),
        Piece::Number(id),
        Piece::Space,
        Piece::Number(before),
        Piece::Space,
        Piece::Number(after),
        Piece::End,
    ];
    push_all(text, &pieces)
}

/// Adds a line for each school with its bars before and after.
fn push_bars(
    text: &mut String,
    schools: &[School],
    before: &[u32],
    after: &[u32],
) -> Result<(), AllocError>
    requires before { length before.now ≡ length schools.now }
    requires after { length after.now ≡ length schools.now }
    ensures { Pushes result text.old text.new
        (flat_map (bar_line before.now after.now) (enumerate_from 0 schools.now)) }
{
    for (place, school) in schools.iter().enumerate() {
        push_bar(text, school.id, before[place], after[place])?;
    }
    Ok(())
}

/// Adds the line of a school with its beds and the beds that it needs.
fn push_need(text: &mut String, dossier: &Dossier, school: u32, need: u32) -> Result<(), AllocError>
    requires { school < length dossier.now.schools }
    ensures { Pushes result text.old text.new (need_line dossier.now school need) }
{
    let schools = dossier.schools.as_slice();
    let pieces = [
        Piece::Text("school "),
        Piece::Number(schools[school as usize].id),
        Piece::Text(" beds "),
        Piece::Number(schools[school as usize].beds),
        Piece::Text(" need "),
        Piece::Number(need),
        Piece::End,
    ];
    push_all(text, &pieces)
}

/// Adds the lines of what a school needs.
fn push_beds(
    text: &mut String,
    dossier: &Dossier,
    school: u32,
    need: u32,
    growth: &Growth,
) -> Result<(), AllocError>
    requires school { school < length dossier.now.schools }
    requires before { length growth.now.before.items ≡ length dossier.now.schools }
    requires after { length growth.now.after.items ≡ length dossier.now.schools }
    ensures { Pushes result text.old text.new
        (beds_text dossier.now school need growth.now.before.items growth.now.after.items) }
{
    push_need(text, dossier, school, need)?;
    push_bars(
        text,
        dossier.schools.as_slice(),
        growth.before.as_slice(),
        growth.after.as_slice(),
    )
}

/// The school with its beds and the beds that it needs, and then the bars of all schools: under the
/// present beds, and under those that are needed.
pub fn beds_text(
    alloc: Global,
    dossier: &Dossier,
    school: u32,
    need: u32,
    growth: &Growth,
) -> Result<Vec<u8>, OutOfMemory>
    requires school { school < length dossier.now.schools }
    requires before { length growth.now.before.items ≡ length dossier.now.schools }
    requires after { length growth.now.after.items ≡ length dossier.now.schools }
    ensures { IfOk result (λ text. text.items
        ≡ beds_text dossier.now school need growth.now.before.items growth.now.after.items) }
{
    let mut text = String::new(alloc);
    push_beds(&mut text, dossier, school, need, growth)?;
    Ok(text.into_bytes())
}
