//! Verdicts on the chain of a first day.
ghost use Rattle.std.specs.Prelude.{◌≡◌, ◌<◌, ◌^◌, length, All};
ghost use Rattle.certificate.specs.Checked.{ids_in};

use crate::tables::{call_orders_of, tables_of};
use admit_core::{DayChain, InFault, OutOfMemory, Slot};
use case_file::Slots;
use certificate::{ChainRefusal, Verdict, check_day, read_chain};
use day_state::DayState;
use desk_day::ceilings_on;
use dossier_check::{Checked, check};
use std::alloc::{AllocError, Global};

/// What a verdict says, in words.
fn words_of(alloc: Global, verdict: &Verdict<'_>) -> Result<String, AllocError> {
    match verdict {
        Verdict::Proved { evening: _ } => String::from_str(alloc, "proved\n"),
        Verdict::Rejected { row, reason } => {
            format!(in alloc; "row {row} reason {}\n", reason.number())
        }
    }
}

/// What a check says of the chain of day 1, on which nobody answers.
fn verdict_on(alloc: Global, checked: &Checked, chain: &DayChain) -> Result<String, OutOfMemory>
    requires index { checked.now.index ≡ ids_in checked.now.dossier }
    requires passes { length chain.now.passes < 2 ^ 32 }
{
    let dossier = &checked.dossier;
    let orders = call_orders_of(alloc, dossier)?;
    let morning = DayState::begin(alloc, dossier)?;
    let ceilings = ceilings_on(alloc, dossier, 1)?;
    let verdict = check_day(
        alloc,
        &checked.index,
        &orders,
        &morning,
        &ceilings,
        1,
        chain,
    )?;
    Ok(words_of(alloc, &verdict)?)
}

/// What a check says of the days of a chain, each as day 1.
fn verdicts_on(alloc: Global, checked: &Checked, days: &[DayChain]) -> Result<String, OutOfMemory>
    requires index { checked.now.index ≡ ids_in checked.now.dossier }
    requires passes { All (λ day. length day.passes < 2 ^ 32) days.now }
{
    let mut text = String::new(alloc);
    for day in days {
        let verdict = verdict_on(alloc, checked, day)?;
        text.push_str(verdict.as_str())?;
    }
    Ok(text)
}

/// What a check says of the chain that stands in its slot, day by day, each as day 1.
pub(crate) fn verdict_in(alloc: Global, slots: &Slots) -> Result<String, InFault> {
    let tables = tables_of(alloc, slots)?;
    let checked = check(alloc, &tables)?;
    match read_chain(alloc, slots.bytes(Slot::Chain)) {
        Ok(chain) => Ok(verdicts_on(alloc, &checked, chain.days.as_slice())?),
        Err(ChainRefusal::Fault(fault)) => {
            Ok(format!(in alloc; "no chain at row {}\n", fault.row)?)
        }
        Err(ChainRefusal::OutOfMemory) => Err(InFault::OutOfMemory),
    }
}
