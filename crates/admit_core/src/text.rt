//! Numbers in a text.
ghost use Rattle.std.specs.Prelude.{◌≡◌, ◌++◌, OnErr, OnOk, string_bytes};
ghost use Rattle.admit_core.specs.Texts.{KeepsRoom, LacksRoom};
ghost use Rattle.std.specs.Fmt.{decimal};

use itoa::Buffer;
use std::alloc::AllocError;

/// Adds some text and a number.
pub fn push_after(text: &mut String, before: &str, number: u64) -> Result<(), AllocError>
    ensures all { OnOk result
        (string_bytes text.new ≡ string_bytes text.old ++ (before.now ++ decimal number)) }
    ensures full { OnErr result (LacksRoom text.old (before.now ++ decimal number)) }
    ensures room { KeepsRoom text.old text.new }
{
    text.push_str(before)?;
    text.push_str(Buffer::new().format(number))
}
