//! The words that the program is given.
ghost use Rattle.std.specs.Prelude.{◌≡◌, IfOk, drop};
ghost use Rattle.std.specs.Vec.Iter.{into_iter_items};
ghost use Rattle.replay_cli.specs.Words.{ReadsWords};

use std::alloc::{AllocError, Global};
use std::env::Args;
use std::io;

/// The words after the first, in their order.
fn after_first(alloc: Global, mut args: Args) -> Result<Vec<String>, AllocError>
    ensures { IfOk result (λ words. words.items ≡ drop 1 (into_iter_items args)) }
{
    args.next();
    args.collect(alloc)
}

/// The words after the program's name. Where one of them is no text, there are none: these are bad
/// words as well.
pub(crate) fn words_of(alloc: Global, args: io::Result<Args>) -> Result<Vec<String>, AllocError>
    ensures { ReadsWords args result }
{
    match args {
        Ok(args) => after_first(alloc, args),
        Err(error) if error.kind() == io::ErrorKind::OutOfMemory => Err(AllocError),
        Err(_) => Ok(Vec::new(alloc)),
    }
}
