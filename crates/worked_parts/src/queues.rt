//! The four queues of a group.
ghost use Rattle.std.specs.Prelude.{◌≡◌, ◌<◌, All};
ghost use Rattle.admit_core.specs.Validity.{IsRanking};

use crate::orders::group_in;
use crate::texts::{push_word, push_words, refusal_told};
use admit_core::{Dossier, InFault, OutOfMemory, RankGroup, Steps};
use call_order::call_order_queued;
use call_queues::{Kind, Queues};
use std::alloc::Global;
use std::marker::Brand;
use std::sync::ledger::{Blank, Ledger};

const KINDS: [Kind; 4] = [
    Kind::Neither,
    Kind::ScholarOnly,
    Kind::ResidentOnly,
    Kind::BothKinds,
];

/// Adds how many remain, and the head of each queue.
fn push_heads(text: &mut String, queues: &Queues) -> Result<(), OutOfMemory> {
    push_word(text, &queues.remaining())?;
    for kind in KINDS {
        match queues.peek(kind) {
            Some(head) => push_word(text, &head.candidate)?,
            None => push_word(text, &"-")?,
        }
    }
    Ok(())
}

/// Adds whom a queue gives until it is empty.
fn push_all_of<L: Ledger>(
    text: &mut String,
    queues: &mut Queues,
    kind: Kind,
    steps: &mut Steps<L>,
) -> Result<(), OutOfMemory> {
    for _ in 0..queues.remaining() {
        if let Some(head) = queues.pop(kind, steps) {
            push_word(text, &head.candidate)?;
        }
    }
    Ok(())
}

/// Adds whom the queues give when they are emptied one after another.
fn push_emptied<L: Ledger>(
    alloc: Global,
    text: &mut String,
    group: &RankGroup,
    steps: &mut Steps<L>,
) -> Result<(), OutOfMemory>
    requires { IsRanking group.now }
{
    let mut queues = Queues::build(alloc, group.list.as_slice())?;
    push_heads(text, &queues)?;
    for kind in KINDS {
        push_all_of(text, &mut queues, kind, steps)?;
    }
    push_heads(text, &queues)
}

/// Adds the call order, and what is left in the queues behind it.
fn push_called<L: Ledger>(
    alloc: Global,
    text: &mut String,
    group: &RankGroup,
    steps: &mut Steps<L>,
) -> Result<(), OutOfMemory>
    requires { IsRanking group.now }
{
    let mut queues = Queues::build(alloc, group.list.as_slice())?;
    let order = call_order_queued(
        alloc,
        &mut queues,
        group.scholar_pct,
        group.resident_pct,
        steps,
    )?;
    push_words(text, order.list.as_slice())?;
    push_heads(text, &queues)
}

/// Adds the queues of a group, emptied and called.
fn push_group<L: Ledger>(
    alloc: Global,
    blank: Blank,
    text: &mut String,
    group: &RankGroup,
) -> Result<(), OutOfMemory>
    requires ranking { IsRanking group.now }
    requires name { blank.name ≡ L.name }
    requires parts { blank.parts ≡ L.parts }
    requires shared { 0 < L.parts }
{
    let mut steps: Steps<L> = Steps::new(blank);
    push_emptied(alloc, text, group, &mut steps)?;
    push_word(text, &"called")?;
    push_called(alloc, text, group, &mut steps)
}

fn queues_shown(alloc: Global, groups: &[RankGroup]) -> Result<String, OutOfMemory>
    requires { All IsRanking groups.now }
{
    let mut text = String::new(alloc);
    for group in groups {
        push_group::<Brand>(alloc, Blank::new(1), &mut text, group)?;
    }
    Ok(text)
}

fn shown(alloc: Global, dossier: &Dossier) -> Result<String, OutOfMemory> {
    let groups = dossier.groups.as_slice();
    queues_shown(alloc, groups)
}

/// The queues of a group in words: how many remain and the heads, whom each queue gives, how many
/// remain then, and whom they give by the group's rates.
pub(crate) fn queues_in(alloc: Global, input: &str) -> Result<String, OutOfMemory> {
    match group_in(alloc, input) {
        Ok(dossier) => shown(alloc, &dossier),
        Err(InFault::Refused(refusal)) => refusal_told(alloc, &refusal),
        Err(InFault::OutOfMemory) => Err(OutOfMemory),
    }
}
