//! Call orders by a plain scan: for each position all who remain are gone through.
ghost use Rattle.std.specs.Prelude.{IfOk, IsOk, ◌≡◌, [], ◌&&◌, find, count_by, option_copied};
ghost use Rattle.std.specs.List.{list_any};
ghost use Rattle.admit_core.specs.Lists.{is_among};
ghost use Rattle.admit_core.specs.CallOrder.{called, remaining, binds, bound_after, may_be_called, next_after, IsCallOrder};
ghost use Rattle.admit_core.specs.Validity.{IsRanking};
ghost use Rattle.scanned_order.specs.Favoured.{is_favoured, rate_of};

use admit_core::{Bound, CallOrder, OutOfMemory, RankGroup, Ranked, Sequence};
use std::alloc::Global;

/// Whom a minimum rate favours.
#[derive(Clone, Copy)]
enum Favoured {
    Scholars,
    Residents,
}

impl Favoured {
    /// Whether the candidate is one of them.
    fn includes(self, ranked: &Ranked) -> bool
        ensures { result ≡ is_favoured self ranked.now }
    {
        match self {
            Favoured::Scholars => ranked.scholar,
            Favoured::Residents => ranked.resident,
        }
    }

    /// Their minimum rate, in per cent.
    fn rate(self, group: &RankGroup) -> u32
        ensures { result ≡ rate_of self group.now }
    {
        match self {
            Favoured::Scholars => group.scholar_pct,
            Favoured::Residents => group.resident_pct,
        }
    }
}

/// Whether a candidate is among those who were called.
fn is_called(candidate: u32, before: &[u32]) -> bool
    ensures { result ≡ is_among candidate before.now }
{
    before.iter().any(|called| candidate == *called)
}

/// Whether some of the favoured remain.
fn any_remain(group: &RankGroup, before: &[u32], favoured: Favoured) -> bool
    ensures { result ≡ list_any (is_favoured favoured) (remaining group.now before.now) }
{
    group
        .list
        .as_slice()
        .iter()
        .filter(|ranked| !is_called(ranked.candidate, before))
        .any(|ranked| favoured.includes(ranked))
}

/// How many of the favoured were called.
fn count_called(group: &RankGroup, before: &[u32], favoured: Favoured) -> usize
    ensures { result ≡ count_by (is_favoured favoured) (called group.now before.now) }
{
    group
        .list
        .as_slice()
        .iter()
        .filter(|ranked| is_called(ranked.candidate, before))
        .filter(|ranked| favoured.includes(ranked))
        .count()
}

/// Whether the rate of the favoured binds.
fn rate_binds(group: &RankGroup, before: &[u32], favoured: Favoured) -> bool
    ensures { result ≡ binds (rate_of favoured group.now) (is_favoured favoured)
        group.now before.now }
{
    any_remain(group, before, favoured)
        && 100 * (count_called(group, before, favoured) as u128)
            < u128::from(favoured.rate(group)) * (before.len() as u128 + 1)
}

/// Whether a resident scholar remains.
fn both_remain(group: &RankGroup, before: &[u32]) -> bool
    ensures { result ≡ list_any (λ r. r.scholar && r.resident) (remaining group.now before.now) }
{
    group
        .list
        .as_slice()
        .iter()
        .filter(|ranked| !is_called(ranked.candidate, before))
        .any(|ranked| ranked.scholar && ranked.resident)
}

/// Which rates bind the next call.
fn bound_after(group: &RankGroup, before: &[u32]) -> Bound
    ensures { result ≡ bound_after group.now before.now }
{
    match (
        rate_binds(group, before, Favoured::Scholars),
        rate_binds(group, before, Favoured::Residents),
    ) {
        (false, false) => Bound::Free,
        (true, false) => Bound::Scholar,
        (false, true) => Bound::Resident,
        (true, true) if both_remain(group, before) => Bound::Both,
        (true, true) => Bound::Alone,
    }
}

/// Whether someone may be called under a bound.
fn may_be_called(bound: Bound, ranked: &Ranked) -> bool
    ensures { result ≡ may_be_called bound ranked.now }
{
    match bound {
        Bound::Free => true,
        Bound::Scholar | Bound::Alone => ranked.scholar,
        Bound::Resident => ranked.resident,
        Bound::Both => ranked.scholar && ranked.resident,
    }
}

/// The first who remains and may be called.
fn first_eligible<'a>(group: &'a RankGroup, before: &[u32], bound: Bound) -> Option<&'a Ranked>
    ensures { option_copied result ≡ find (may_be_called bound) (remaining group.now before.now) }
{
    group
        .list
        .as_slice()
        .iter()
        .filter(|ranked| !is_called(ranked.candidate, before))
        .find(|ranked| may_be_called(bound, ranked))
}

/// The next candidate, with their bound, or none where nobody remains.
#[tactic(auto, using(admit_core::proofs::LeastFirst::next_is_first))]
fn next_after(group: &RankGroup, before: &[u32]) -> Option<(u32, Bound)>
    requires { IsRanking group.now }
    ensures { result ≡ next_after group.now before.now }
{
    let bound = bound_after(group, before);
    match first_eligible(group, before, bound) {
        None => None,
        Some(ranked) => Some((ranked.candidate, bound)),
    }
}

/// The call order of a group by the plain scan, slowly: what `call_order` is compared with.
pub fn call_order_scanned(alloc: Global, group: &RankGroup) -> Result<CallOrder, OutOfMemory>
    requires { IsRanking group.now }
    ensures order { IfOk result (IsCallOrder group.now) }
    ensures always { group.now.list ≡ [] → IsOk result }
{
    let mut list = Vec::new(alloc);
    let mut trace = Vec::new(alloc);
    while let Some((candidate, bound)) = next_after(group, list.as_slice()) {
        list.push(candidate)?;
        trace.push(bound)?;
    }
    Ok(CallOrder {
        list: Sequence::from_vec(list),
        trace: Sequence::from_vec(trace),
    })
}
