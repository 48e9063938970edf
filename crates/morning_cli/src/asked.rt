//! What the words ask for: a slot, and the run after which it is written.
ghost use Rattle.std.specs.Prelude.{◌≡◌, IfOk, IfSome, IsTrue, Some, map, string_bytes};
ghost use Rattle.request.specs.Request.{IsRequest};
ghost use Rattle.morning_cli.specs.SlotWanted as Words;
ghost use Rattle.morning_cli.specs.SlotWanted.{IsAsked, ReadsAsked, asked_by, asked_with, is_daily};

use admit_core::Slot;
use request::{Mode, Request, WordsRefusal, read_request};
use std::alloc::Global;

/// A slot that a day changes, and a run of `replay`.
#[derive(Drop)]
pub(crate) struct Asked {
    pub(crate) slot: Slot,
    pub(crate) request: Request,
}

/// The slot that a word names, if a day changes it.
fn slot_named(word: &str) -> Option<Slot>
    ensures value { result ≡ Words.slot_named word.now }
    ensures daily { IfSome result (λ slot. IsTrue (is_daily slot)) }
{
    match word {
        "schools" => Some(Slot::Schools),
        "state" => Some(Slot::State),
        "ceilings" => Some(Slot::Ceilings),
        "answers" => Some(Slot::Answers),
        _ => None,
    }
}

/// The slot after a run of this request; only `replay` has a morning after it.
fn asked_with(slot: Slot, request: Request) -> Option<Asked>
    requires daily { IsTrue (is_daily slot) }
    requires known { IsRequest request }
    ensures value { result ≡ asked_with slot (Some request) }
    ensures known { IfSome result IsAsked }
{
    if let Mode::Replay = request.mode {
        Some(Asked { slot, request })
    } else {
        None
    }
}

/// The slot after a run whose words were read so. It takes no memory, and tells want of it only
/// where the reading did.
fn asked_by(slot: Slot, read: Result<Request, WordsRefusal>) -> Result<Asked, WordsRefusal>
    requires daily { IsTrue (is_daily slot) }
    requires known { IfOk read IsRequest }
    ensures value { result ≡ asked_by slot read }
    ensures known { IfOk result IsAsked }
{
    match read {
        Ok(request) => match asked_with(slot, request) {
            Some(asked) => Ok(asked),
            None => Err(WordsRefusal::Bad),
        },
        Err(refusal) => Err(refusal),
    }
}

/// What the words after the program's name ask for: the first names the slot, and the others are
/// those of a run.
pub(crate) fn read_asked(alloc: Global, words: &[String]) -> Result<Asked, WordsRefusal>
    ensures value { ReadsAsked result (map string_bytes words.now) }
    ensures known { IfOk result IsAsked }
{
    let Some((word, others)) = words.split_first() else {
        return Err(WordsRefusal::Bad);
    };
    let Some(slot) = slot_named(word.as_str()) else {
        return Err(WordsRefusal::Bad);
    };
    asked_by(slot, read_request(alloc, others))
}
