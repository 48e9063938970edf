//! The call orders of ranking groups.
ghost use Rattle.std.specs.Prelude.{◌≡◌, ◌<◌, length, All, IfOk, OnErr};
ghost use Rattle.admit_core.specs.CallOrder.{AreCallOrders, IsCallOrder};
ghost use Rattle.admit_core.specs.CallOrderLaws.{KeepsOrderLaws};
ghost use Rattle.admit_core.specs.Validity.{IsRanking};

use crate::queued::call_order_queued;
use crate::queues::Queues;
use admit_core::{CallOrder, CallOrders, OutOfMemory, RankGroup, Sequence, Steps};
use std::alloc::Global;
use std::marker::Brand;
use std::sync::ledger::{Blank, Ledger};

/// The call order, with a counter that the blank opens.
fn counted<L: Ledger>(
    alloc: Global,
    blank: Blank,
    group: &RankGroup,
) -> Result<CallOrder, OutOfMemory>
    requires ranking { IsRanking group.now }
    requires name { blank.name ≡ L.name }
    requires parts { blank.parts ≡ L.parts }
    requires shared { 0 < L.parts }
    ensures order { IfOk result (IsCallOrder group.now) }
    ensures memory { OnErr result (0 < length group.now.list) }
{
    let mut steps: Steps<L> = Steps::new(blank);
    let mut queues = Queues::build(alloc, group.list.as_slice())?;
    call_order_queued(
        alloc,
        &mut queues,
        group.scholar_pct,
        group.resident_pct,
        &mut steps,
    )
}

/// The call order of a group, with the bound of each position.
pub fn call_order(alloc: Global, group: &RankGroup) -> Result<CallOrder, OutOfMemory>
    requires { IsRanking group.now }
    ensures order { IfOk result (IsCallOrder group.now) }
    ensures laws { IfOk result (KeepsOrderLaws group.now) }
    ensures memory { OnErr result (0 < length group.now.list) }
{
    counted::<Brand>(alloc, Blank::new(1), group)
}

/// The call order of each group, in the order of the groups.
pub fn call_orders(alloc: Global, groups: &[RankGroup]) -> Result<CallOrders, OutOfMemory>
    requires { All IsRanking groups.now }
    ensures orders { IfOk result (λ called. AreCallOrders groups.now called.orders) }
    ensures memory { OnErr result (0 < length groups.now) }
{
    let mut orders = Vec::new(alloc);
    for group in groups {
        orders.push(call_order(alloc, group)?)?;
    }
    Ok(CallOrders {
        orders: Sequence::from_vec(orders),
    })
}
