//! The mode `order`: the lines of the call orders.
ghost use Rattle.std.specs.Prelude.{◌≡◌, [], ◌++◌, IfOk, IsOk, OnOk, string_bytes};
ghost use Rattle.modes.specs.Endings.{IsDoneWith};
ghost use Rattle.modes.specs.Order.{orders_text};

use crate::all_played::AllPlayed;
use crate::reply::{Reply, done};
use admit_core::{CallOrder, Dossier, OutOfMemory, RankGroup};
use report::push_order;
use std::alloc::{AllocError, Global};

/// Adds the lines of all groups, in file order.
pub(crate) fn push_orders(
    text: &mut String,
    groups: &[RankGroup],
    orders: &[CallOrder],
) -> Result<(), AllocError>
    ensures adds { OnOk result
        (string_bytes text.new ≡ string_bytes text.old ++ orders_text groups.now orders.now) }
    ensures always { groups.now ≡ [] → IsOk result }
{
    for (group, order) in groups.iter().zip(orders) {
        push_order(text, group.id, order)?;
    }
    Ok(())
}

/// The lines of all groups. Where there is none, no memory is taken.
fn orders_text(
    alloc: Global,
    groups: &[RankGroup],
    orders: &[CallOrder],
) -> Result<Vec<u8>, OutOfMemory>
    ensures text { IfOk result (λ text. text.items ≡ orders_text groups.now orders.now) }
    ensures always { groups.now ≡ [] → IsOk result }
{
    let mut text = String::new(alloc);
    push_orders(&mut text, groups, orders)?;
    Ok(text.into_bytes())
}

/// Replies to `order`, which looks at no day.
pub(crate) fn reply_to_order(
    alloc: Global,
    dossier: &Dossier,
    played: AllPlayed<'_, '_>,
) -> Result<Reply, OutOfMemory>
    ensures ends { IfOk result (λ reply. IsDoneWith
        (orders_text dossier.now.groups played.entry.last.orders)
        reply.exit reply.text.items) }
    ensures always { dossier.now.groups ≡ [] → IsOk result }
{
    let called = played.into_orders().orders.as_slice();
    Ok(done(orders_text(alloc, dossier.groups.as_slice(), called)?))
}
