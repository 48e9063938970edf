//! The lines of a call order.
ghost use Rattle.std.specs.Prelude.{◌≡◌, IfOk};
ghost use Rattle.report.specs.OrderText.{order_text};
ghost use Rattle.report.specs.Pushes.{Pushes};

use crate::piece::{Piece, push_all};
use crate::words::{push_letters, push_list};
use admit_core::{CallOrder, OutOfMemory};
use std::alloc::{AllocError, Global};

/// Adds the two lines of a group's call order: the candidates, and the bound of each position.
pub fn push_order(text: &mut String, id: u32, order: &CallOrder) -> Result<(), AllocError>
    ensures { Pushes result text.old text.new (order_text id order.now) }
{
    let group = Piece::Number(id);
    push_all(text, &[Piece::Text("order "), group, Piece::Text(":")])?;
    push_list(text, order.list.as_slice())?;
    push_all(text, &[Piece::Text("rule "), group, Piece::Text(":")])?;
    push_letters(text, order.trace.as_slice())
}

/// The two lines of a group's call order, as a text of their own.
pub fn order_text(alloc: Global, id: u32, order: &CallOrder) -> Result<Vec<u8>, OutOfMemory>
    ensures { IfOk result (λ text. text.items ≡ order_text id order.now) }
{
    let mut text = String::new(alloc);
    push_order(&mut text, id, order)?;
    Ok(text.into_bytes())
}
