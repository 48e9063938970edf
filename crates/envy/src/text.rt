//! The lines of blocks.
ghost use Rattle.std.specs.Prelude.{◌≡◌, ◌<◌, [], All, IfOk, IsOk, flat_map, length};
ghost use Rattle.report.specs.Pushes.{Pushes};
ghost use Rattle.report.specs.Words.{further};
ghost use Rattle.envy.specs.Text.{block_line, envied_words, envy_text};

use crate::blocks::Block;
use admit_core::{Dossier, OutOfMemory};
use report::{Piece, push_all, push_end, wish_id};
use std::alloc::{AllocError, Global};

/// Adds the end of a line: who is envied, where somebody is.
fn push_envied(text: &mut String, envied: Option<u32>) -> Result<(), AllocError>
    ensures { Pushes result text.old text.new (further 32 (envied_words envied)) }
{
    match envied {
        None => push_end(text),
        Some(candidate) => {
            let candidate = Piece::Number(candidate);
            push_all(text, &[Piece::Text(" envies "), candidate, Piece::End])
        }
    }
}

/// Adds the line of a block.
fn push_block(text: &mut String, dossier: &Dossier, block: Block) -> Result<(), AllocError>
    requires { block.wish < length dossier.now.wishes }
    ensures { Pushes result text.old text.new (block_line dossier.now block) }
{
    let pieces = [
        Piece::Text("block "),
        Piece::Number(wish_id(dossier, block.wish)),
        Piece::Text(" left "),
        Piece::Number(block.left),
    ];
    push_all(text, &pieces)?;
    push_envied(text, block.envied)
}

/// Adds a line for each block.
fn push_blocks(text: &mut String, dossier: &Dossier, blocks: &[Block]) -> Result<(), AllocError>
    requires { All (λ block. block.wish < length dossier.now.wishes) blocks.now }
    ensures all { Pushes result text.old text.new (flat_map (block_line dossier.now) blocks.now) }
    ensures always { blocks.now ≡ [] → IsOk result }
{
    for block in blocks {
        push_block(text, dossier, *block)?;
    }
    Ok(())
}

/// Adds the lines of blocks, and last their number.
fn push_envy(text: &mut String, dossier: &Dossier, blocks: &[Block]) -> Result<(), AllocError>
    requires { All (λ block. block.wish < length dossier.now.wishes) blocks.now }
    ensures { Pushes result text.old text.new (envy_text dossier.now blocks.now) }
{
    push_blocks(text, dossier, blocks)?;
    let count = Piece::Count(blocks.len() as u64);
    push_all(text, &[Piece::Text("blocks "), count, Piece::End])
}

/// A line for each block, with the id of its wish, the seats left of the wish's programme and the
/// last candidate who is envied; and last their number.
pub fn envy_text(alloc: Global, dossier: &Dossier, blocks: &[Block]) -> Result<Vec<u8>, OutOfMemory>
    requires { All (λ block. block.wish < length dossier.now.wishes) blocks.now }
    ensures { IfOk result (λ text. text.items ≡ envy_text dossier.now blocks.now) }
{
    let mut text = String::new(alloc);
    push_envy(&mut text, dossier, blocks)?;
    Ok(text.into_bytes())
}
