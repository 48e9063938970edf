//! The reply of a run, made before anything is written.
ghost use Rattle.std.specs.Prelude.{◌≡◌, MatchResult, map, string_bytes};
ghost use Rattle.certificate.specs.Checked.{ids_in};
ghost use Rattle.intake.specs.Input.{IsInputOf, IsJobOf, Job, NamesIn};
ghost use Rattle.intake.specs.Shelves.{on_shelf};
ghost use Rattle.modes.specs.Endings.{BreaksJob, IsEnding};
ghost use Rattle.modes.specs.Jobs.{IsIdle};
ghost use Rattle.played.specs.Lent.{AreBack, AreThere, Untold, standing};
ghost use Rattle.replay_cli.specs.Answering.{Replies, TakesAll};
ghost use Rattle.request.specs.Request.{IsRequest};

use admit_core::OutOfMemory;
use call_order::call_orders;
use intake::{Input, Stop, dated_terms, take_in};
use modes::{Reply, StopLine, deadlines_of, ending, stopped, terms_in, wanted_of};
use played::{Pickers, play_wanted};
use request::{Request, read_request};
use slot_io::Shelf;
use std::alloc::Global;

/// Reads the words, and takes in what they ask for.
fn take<S: Shelf>(alloc: Global, words: &[String], shelf: &mut S) -> Result<(Request, Input), Stop>
    ensures { TakesAll (map string_bytes words.now)
        (on_shelf S.left S.taken S.faults shelf.old)
        (on_shelf S.left S.taken S.faults shelf.new) result }
{
    let request = read_request(alloc, words)?;
    let input = take_in(alloc, &request, shelf)?;
    Ok((request, input))
}

/// Runs the days that are asked for, and makes the reply of the mode. The call orders are made here
/// and lent to both. So the roster of the days serves the reply too.
fn play_out(
    alloc: Global,
    request: &Request,
    input: &Input,
    pickers: &mut Pickers,
) -> Result<Reply, OutOfMemory>
    requires request { IsRequest request.now }
    requires named { NamesIn request.now.mode input.now.index }
    requires indexed { input.now.index ≡ ids_in input.now.dossier }
    requires there { AreThere pickers.old }

    ensures there { AreThere pickers.new }
    ensures back { AreBack (standing told choice pickers.old) (standing told choice pickers.new) }
    ensures idle { IsIdle request.now → Untold (standing told choice pickers.old)
        (standing told choice pickers.new) }
    ensures ends { (job : Job) → IsJobOf request.now job → IsInputOf job input.now
        → MatchResult result
        (λ reply. IsEnding job
        (standing told choice pickers.old) (standing told choice pickers.new)
        reply.exit reply.text.items)
        (λ _. BreaksJob job
        (standing told choice pickers.old) (standing told choice pickers.new)) }
{
    let dated = dated_terms(alloc, input, deadlines_of(request))?;
    let dated = dated.as_ref();
    let dossier = &input.dossier;
    let orders = call_orders(alloc, dossier.groups.as_slice())?;
    let terms = terms_in(dated);
    let played = play_wanted(alloc, dossier, &orders, terms, wanted_of(request), pickers)?;
    ending(alloc, request, input, dated, &orders, played, pickers)
}

/// Makes the reply of a run, or the line of what stopped it. Nothing is written here.
pub(crate) fn answer<S: Shelf>(
    alloc: Global,
    words: &[String],
    shelf: &mut S,
    pickers: &mut Pickers,
) -> Result<Reply, OutOfMemory>
    requires { AreThere pickers.old }
    ensures there { AreThere pickers.new }
    ensures replies { Replies (map string_bytes words.now)
        (on_shelf S.left S.taken S.faults shelf.old) (on_shelf S.left S.taken S.faults shelf.new)
        (standing told choice pickers.old) (standing told choice pickers.new) result }
{
    let line = StopLine::new(alloc)?;
    match take(alloc, words, shelf) {
        Ok((request, input)) => play_out(alloc, &request, &input, pickers),
        Err(stop) => stopped(line, stop),
    }
}
