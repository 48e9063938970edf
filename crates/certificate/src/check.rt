//! The verdict on the chain of a day.
ghost use Rattle.std.specs.Prelude.{◌≡◌, ◌<◌, ◌^◌, [], IfOk, IsOk, length};
ghost use Rattle.admit_core.specs.CallOrder.{AreCallOrders};
ghost use Rattle.admit_core.specs.Chains.{day_fault};
ghost use Rattle.certificate.specs.Checked.{ids_in};
ghost use Rattle.certificate.specs.ProvedDays.{IsProvedDay};
ghost use Rattle.certificate.specs.Verdicts.{IfProved, IfRejected, KeepsSchool, fault_told, missing_pass};

use crate::grounds::Grounds;
use crate::passes::check_day_on;
use crate::stop::CheckStop;
use admit_core::{CallOrders, CheckReason, DayChain, OutOfMemory};
use day_state::DayState;
use desk_day::Present;
use dossier_check::Index;
use linked_demand::Roster;
use std::alloc::Global;

/// The verdict on a day's chain: proved, with the evening of the day, or its first fault.
#[derive(Drop)]
pub enum Verdict<'d> {
    Proved { evening: DayState<'d> },
    Rejected { row: u64, reason: CheckReason },
}

/// Tests the chain of a day from its morning on, that is from the state after the day's answers.
/// Nothing is assumed of who made the chain.
///
/// It costs about as much as making the day: the bars are lowered line by line.
pub fn check_day<'d>(
    alloc: Global,
    index: &Index,
    orders: &CallOrders,
    morning: &DayState<'d>,
    ceilings: &[u32],
    day: u32,
    chain: &DayChain,
) -> Result<Verdict<'d>, OutOfMemory>
    requires index { index.now ≡ ids_in morning.now.dossier }
    requires orders { AreCallOrders morning.now.dossier.groups orders.now.orders }
    requires ceilings { length ceilings.now ≡ length morning.now.dossier.schools }
    requires passes { length chain.now.passes < 2 ^ 32 }

    // Proved exactly where no fault stands, else the first one.
    ensures exact { IfOk result (λ v.
        day_fault orders.now.orders ceilings.now day morning.now chain.now ≡ fault_told v) }
    ensures school { IfOk result (λ v.
        IfRejected v (KeepsSchool (length morning.now.dossier.schools))) }
    ensures proved { IfOk result (λ v.
        IfProved v (IsProvedDay orders.now.orders ceilings.now day chain.now morning.now)) }

    // A day without a pass is rejected without memory.
    ensures always { chain.now.passes ≡ [] → IsOk result }
{
    if let Some(verdict) = missing_pass(chain) {
        return Ok(verdict);
    }
    let roster = Roster::build(alloc, morning, orders)?;
    let grounds = Grounds::along(&roster, index);
    check_day_along(alloc, &grounds, morning, ceilings, day, chain)
}

/// Tests the chain of a day as [`check_day`] does, on grounds that are made once for all days of
/// the chain.
pub fn check_day_along<'d>(
    alloc: Global,
    grounds: &Grounds<'_, '_>,
    morning: &DayState<'d>,
    ceilings: &[u32],
    day: u32,
    chain: &DayChain,
) -> Result<Verdict<'d>, OutOfMemory>
    requires same { grounds.now.dossier ≡ morning.now.dossier }
    requires ceilings { length ceilings.now ≡ length morning.now.dossier.schools }
    requires passes { length chain.now.passes < 2 ^ 32 }

    ensures exact { IfOk result (λ v.
        day_fault grounds.now.orders ceilings.now day morning.now chain.now ≡ fault_told v) }
    ensures school { IfOk result (λ v.
        IfRejected v (KeepsSchool (length morning.now.dossier.schools))) }
    ensures proved { IfOk result (λ v.
        IfProved v (IsProvedDay grounds.now.orders ceilings.now day chain.now morning.now)) }
    ensures always { chain.now.passes ≡ [] → IsOk result }
{
    if let Some(verdict) = missing_pass(chain) {
        return Ok(verdict);
    }
    let mut present = Present::begin(morning.copy(alloc)?);
    match check_day_on(alloc, grounds, &mut present, ceilings, day, chain) {
        Ok(()) => Ok(Verdict::Proved {
            evening: present.into_now(),
        }),
        Err(CheckStop::Rejected(found)) => Ok(Verdict::Rejected {
            row: found.row,
            reason: found.reason,
        }),
        Err(CheckStop::OutOfMemory) => Err(OutOfMemory),
    }
}

/// The verdict on a day that has no pass.
fn missing_pass<'d>(chain: &DayChain) -> Option<Verdict<'d>>
    ensures { result ≡ missing_pass chain.now }
{
    if chain.passes.is_empty() {
        Some(Verdict::Rejected {
            row: chain.next_row,
            reason: CheckReason::PassMissing,
        })
    } else {
        None
    }
}
