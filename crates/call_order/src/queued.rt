//! Call orders by four queues: each call is chosen by the heads of the queues alone.
ghost use Rattle.std.specs.Prelude.{◌≡◌, ◌+◌, ◌<◌, ◌≤◌, ◌^◌, ◌&&◌, length, map, nat_eq, IfOk, OnErr};
ghost use Rattle.std.specs.List.{list_any, IsDistinct};
ghost use Rattle.admit_core.specs.CallOrder.{IsCallOrder};
ghost use Rattle.admit_core.specs.CallOrderLaws.{KeepsOrderLaws};
ghost use Rattle.call_order.specs.Kinds.{is_of};
ghost use Rattle.call_order.specs.QueueLists.{TakesAll, TakesNobody};
ghost use Rattle.call_order.specs.QueuedCalls.{ranking_in, more_called, too_few, bound_by, call_by};

use crate::kind::Kind;
use crate::queues::Queues;
use admit_core::{Bound, CallOrder, OutOfMemory, Ranked, Sequence, Steps};
use std::alloc::Global;
use std::sync::ledger::Ledger;

/// The minimum rates of scholars and of residents, in per cent.
#[derive(Clone, Copy)]
struct Rates {
    scholar_pct: u32,
    resident_pct: u32,
}

/// How many were called, and how many of them are scholars and residents.
#[derive(Clone, Copy)]
struct Tally {
    calls: usize,
    scholars: usize,
    residents: usize,
}

impl Tally {
    /// Counts one more call.
    fn count(self, called: &Ranked) -> Tally
        requires calls { self.calls + 1 < 2 ^ 64 }
        requires scholars { self.scholars ≤ self.calls }
        requires residents { self.residents ≤ self.calls }
        ensures { result ≡ more_called self called.now }
    {
        Tally {
            calls: self.calls + 1,
            scholars: self.scholars + usize::from(called.scholar),
            residents: self.residents + usize::from(called.resident),
        }
    }
}

/// Whether too few were called for one more call, at a minimum rate in per cent.
fn too_few(pct: u32, favoured: usize, calls: usize) -> bool
    ensures { result ≡ too_few pct favoured calls }
{
    100 * (favoured as u128) < u128::from(pct) * (calls as u128 + 1)
}

/// Whether someone of a kind remains.
fn any_remains(queues: &Queues, kind: Kind) -> bool
    ensures { result ≡ list_any (is_of kind) queues.now.remaining }
{
    queues.peek(kind).is_some()
}

/// Whether a scholar remains.
fn scholar_remains(queues: &Queues) -> bool
    ensures { result ≡ list_any (λ r. r.scholar) queues.now.remaining }
{
    any_remains(queues, Kind::ScholarOnly) || any_remains(queues, Kind::BothKinds)
}

/// Whether a resident remains.
fn resident_remains(queues: &Queues) -> bool
    ensures { result ≡ list_any (λ r. r.resident) queues.now.remaining }
{
    any_remains(queues, Kind::ResidentOnly) || any_remains(queues, Kind::BothKinds)
}

/// Whether a resident scholar remains.
fn both_remain(queues: &Queues) -> bool
    ensures { result ≡ list_any (λ r. r.scholar && r.resident) queues.now.remaining }
{
    any_remains(queues, Kind::BothKinds)
}

/// Which rates bind the next call.
fn bound_by(queues: &Queues, rates: Rates, tally: Tally) -> Bound
    ensures { result ≡ bound_by rates tally queues.now.remaining }
{
    let scholar_binds = scholar_remains(queues)
        && too_few(rates.scholar_pct, tally.scholars, tally.calls);
    let resident_binds = resident_remains(queues)
        && too_few(rates.resident_pct, tally.residents, tally.calls);
    match (scholar_binds, resident_binds) {
        (false, false) => Bound::Free,
        (true, false) => Bound::Scholar,
        (false, true) => Bound::Resident,
        (true, true) if both_remain(queues) => Bound::Both,
        (true, true) => Bound::Alone,
    }
}

/// The next candidate, with their bound. `None` where nobody remains.
fn next_call(queues: &Queues, rates: Rates, tally: Tally) -> Option<(Ranked, Bound)>
    ensures { result ≡ call_by rates tally queues.now.remaining }
{
    let bound = bound_by(queues, rates, tally);
    match queues.first_eligible(bound) {
        None => None,
        Some(ranked) => Some((ranked, bound)),
    }
}

/// The call order of those who remain in the queues, at these minimum rates in per cent. It takes
/// them all, in one step a candidate, and chooses by the heads.
pub fn call_order_queued<L: Ledger>(
    alloc: Global,
    queues: &mut Queues,
    scholar_pct: u32,
    resident_pct: u32,
    steps: &mut Steps<L>,
) -> Result<CallOrder, OutOfMemory>
    requires scholar_pct { scholar_pct ≤ 100 }
    requires resident_pct { resident_pct ≤ 100 }
    requires candidates { IsDistinct nat_eq (map (λ r. r.candidate) queues.old.remaining) }
    ensures order { IfOk result (IsCallOrder (ranking_in scholar_pct resident_pct queues.old)) }
    ensures laws { IfOk result (KeepsOrderLaws (ranking_in scholar_pct resident_pct queues.old)) }
    ensures all_taken { IfOk result (TakesAll queues.old queues.new steps.old steps.new) }
    ensures none_taken { OnErr result (TakesNobody queues.old queues.new steps.old steps.new) }
    ensures memory { OnErr result (0 < length queues.old.remaining) }
{
    let count = queues.remaining();
    let mut list = Vec::with_capacity(alloc, count)?;
    let mut trace = Vec::with_capacity(alloc, count)?;
    let rates = Rates {
        scholar_pct,
        resident_pct,
    };
    let mut tally = Tally {
        calls: 0,
        scholars: 0,
        residents: 0,
    };
    while let Some((ranked, bound)) = next_call(queues, rates, tally) {
        queues.pop(Kind::of(&ranked), steps);
        tally = tally.count(&ranked);
        list.push_reserved(ranked.candidate);
        trace.push_reserved(bound);
    }
    Ok(CallOrder {
        list: Sequence::from_vec(list),
        trace: Sequence::from_vec(trace),
    })
}
