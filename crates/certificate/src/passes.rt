//! The passes of a day, tested one after another.
ghost use Rattle.std.specs.Prelude.{◌≡◌, ◌≢◌, ◌≤◌, ◌<◌, ◌^◌, [], Err, IfErr, IfOk, OnOk, drop, length};
ghost use Rattle.admit_core.specs.Chains.{bars_by, closing_by, day_fault, extra_pass, pass_fault};
ghost use Rattle.admit_core.specs.Days.{freed_after, frees_nothing};
ghost use Rattle.certificate.specs.Checked.{Finds};
ghost use Rattle.certificate.specs.ProvedDays.{IsProvedDay};
ghost use Rattle.certificate.specs.Verdicts.{StopsAt};
ghost use Rattle.certificate.specs.declared.stop.CheckStop.TheVariants as stops;

use crate::falls::offers_of;
use crate::grounds::Grounds;
use crate::stop::{CheckStop, rejected_at};
use admit_core::{CheckReason, DayChain, Freed, PassChain, Stamp, laws_of_chains};
use desk_day::{Present, frees_nothing};
use std::alloc::Global;

/// Tests the chain of a day from its morning on, which is the present state, and leaves the evening
/// of the day. Where the check stops, the state may be in the midst of the day.
pub fn check_day_on(
    alloc: Global,
    grounds: &Grounds<'_, '_>,
    present: &mut Present<'_>,
    ceilings: &[u32],
    day: u32,
    chain: &DayChain,
) -> Result<(), CheckStop>
    requires same { grounds.now.dossier ≡ present.old.dossier }
    requires ceilings { length ceilings.now ≡ length present.old.dossier.schools }
    requires passes { length chain.now.passes < 2 ^ 32 }

    ensures found { Finds result
        (day_fault grounds.now.orders ceilings.now day present.old chain.now) }
    ensures proved { OnOk result (IsProvedDay grounds.now.orders ceilings.now day chain.now
        present.old present.new) }

    // A day without a pass is rejected without memory.
    ensures memory { result ≡ Err stops.OutOfMemory → chain.now.passes ≢ [] }
    ensures school { IfErr result (StopsAt (length present.old.dossier.schools)) }
    ensures dossier { present.new.dossier ≡ present.old.dossier }
{
    laws_of_chains();
    let passes = chain.passes.as_slice();
    for (place, pass) in passes.iter().enumerate() {
        let number = place as u32 + 1;
        let stamp = Stamp { day, pass: number };
        let freed = check_pass(alloc, grounds, present, ceilings, stamp, pass)?;
        if frees_nothing(freed) {
            return no_pass_from(passes, place + 1);
        }
    }
    Err(rejected_at(chain.next_row, CheckReason::PassMissing))
}

/// Tests the falls of a pass, and makes its offers and the automatic answers.
fn check_pass(
    alloc: Global,
    grounds: &Grounds<'_, '_>,
    present: &mut Present<'_>,
    ceilings: &[u32],
    stamp: Stamp,
    pass: &PassChain,
) -> Result<Freed, CheckStop>
    requires same { grounds.now.dossier ≡ present.old.dossier }
    requires ceilings { length ceilings.now ≡ length present.old.dossier.schools }
    ensures found { Finds result
        (pass_fault present.old grounds.now.orders ceilings.now pass.now) }
    ensures state { OnOk result (present.new
        ≡ closing_by present.old grounds.now.orders ceilings.now stamp pass.now) }
    ensures freed { IfOk result (λ freed. freed ≡ freed_after present.old grounds.now.orders
        (bars_by present.old ceilings.now pass.now.falls) stamp) }
    ensures dossier { present.new.dossier ≡ present.old.dossier }
{
    let state = present.now();
    let _ = state.marks(); // one for each wish
    let offers = offers_of(alloc, state, grounds, ceilings, pass)?;
    Ok(present.offer(alloc, offers.as_slice(), stamp)?)
}

/// Tests that no pass stands at a place or behind it: none may follow one that frees nothing.
fn no_pass_from(passes: &[PassChain], from: usize) -> Result<(), CheckStop>
    requires { from ≤ length passes.now }
    ensures extra { Finds result (extra_pass (drop from passes.now)) }
    ensures last { OnOk result (drop from passes.now ≡ []) }
    ensures memory { result ≢ Err stops.OutOfMemory }
{
    if from == passes.len() {
        return Ok(());
    }
    Err(rejected_at(passes[from].row, CheckReason::PassExtra))
}
