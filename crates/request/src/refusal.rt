//! Why words are not read.

use clap::Error;
use clap::error::ErrorKind;
use std::alloc::AllocError;

/// Why the words after the program's name are not read.
#[derive(Clone, Copy, Debug, PartialEq, Eq)]
pub enum WordsRefusal {
    /// They name no run.
    Bad,
    OutOfMemory,
}

/// A value is missing, or fails its test.
#[derive(Clone, Copy)]
pub(crate) struct BadWords;

impl From<BadWords> for WordsRefusal {
    ghost use Rattle.std.specs.Prelude.{◌≡◌};
    ghost use Rattle.request.specs.declared.refusal.WordsRefusal.TheVariants as refusals;

    ghost from_gives = { λ _ refusal. refusal ≡ refusals.Bad };

    fn from(_words: BadWords) -> WordsRefusal {
        WordsRefusal::Bad
    }
}

impl From<AllocError> for WordsRefusal {
    ghost use Rattle.std.specs.Prelude.{◌≡◌};
    ghost use Rattle.request.specs.declared.refusal.WordsRefusal.TheVariants as refusals;

    ghost from_gives = { λ _ refusal. refusal ≡ refusals.OutOfMemory };

    fn from(_error: AllocError) -> WordsRefusal {
        WordsRefusal::OutOfMemory
    }
}

impl From<Error> for WordsRefusal {
    ghost use Rattle.std.specs.Prelude.{◌≡◌};
    ghost use Rattle.clap.specs.Words.{kind_of};
    ghost use Rattle.request.specs.Refusals.{refusal_of};

    ghost from_gives = { λ error refusal. refusal ≡ refusal_of (kind_of error) };

    fn from(error: Error) -> WordsRefusal {
        match error.kind() {
            ErrorKind::OutOfMemory => WordsRefusal::OutOfMemory,
            _ => WordsRefusal::Bad,
        }
    }
}
