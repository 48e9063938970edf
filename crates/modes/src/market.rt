//! The mode `market`: the dossier's market, and its stable matching that is best for every
//! candidate.
ghost use Rattle.std.specs.Prelude.{◌≡◌, ◌<◌, IfOk, OnErr};
ghost use Rattle.admit_core.specs.CallOrder.{AreCallOrders};
ghost use Rattle.admit_core.specs.Falls.{IsGreatest};
ghost use Rattle.modes.specs.LentPicker.{TellsPicks};
ghost use Rattle.modes.specs.Endings.{IsDoneSaying};
ghost use Rattle.modes.specs.Market.{BreaksMarket, IsAskedFor, PicksForMarket, TellsMarket};
ghost use Rattle.markets.specs.Bars.{market_system, matched_under};
ghost use Rattle.markets.specs.Dossiers.{market_candidates, market_of};
ghost use Rattle.markets.specs.Matchings.{IsStable};

use crate::all_played::AllPlayed;
use crate::reply::{Reply, done};
use admit_core::{CallOrders, Dossier, OutOfMemory, Steps};
use bar_fixpoint::Picker;
use markets::{Market, Named, Solved, from_dossier, market_text, solve};
use std::alloc::Global;
use std::marker::Brand;
use std::sync::ledger::{Blank, Ledger};

/// The stable matching of a market, with a counter of falls that nobody reads.
fn solved<L: Ledger>(
    alloc: Global,
    blank: Blank,
    market: &Market,
    picker: &mut dyn Picker,
) -> Result<Solved, OutOfMemory>
    requires name { blank.name ≡ L.name }
    requires parts { blank.parts ≡ L.parts }
    requires shared { 0 < L.parts }

    ensures stable { IfOk result (λ solved. IsStable market.now solved.places.items) }
    ensures places { IfOk result (λ solved. solved.places.items
        ≡ matched_under market.now solved.bars.items) }
    ensures greatest { IfOk result (λ solved. IsGreatest
        (market_system market.now) solved.bars.items) }
    ensures asked { IsAskedFor market.now result
        (choice picker.old) (choice picker.new) (told picker.old) (told picker.new) }
{
    let mut steps: Steps<L> = Steps::new(blank);
    solve(alloc, market, picker, &mut steps)
}

/// The text of a dossier's market.
fn text_of(
    alloc: Global,
    dossier: &Dossier,
    orders: &CallOrders,
    named: &Named,
    picker: &mut dyn Picker,
) -> Result<Vec<u8>, OutOfMemory>
    requires orders { AreCallOrders dossier.now.groups orders.now.orders }
    requires market { named.now.market ≡ market_of dossier.now orders.now.orders }
    requires candidates { named.now.candidates.items ≡ market_candidates dossier.now }

    ensures text { IfOk result (λ text. TellsMarket dossier.now orders.now.orders text.items) }
    ensures picks { IfOk result (λ text. TellsPicks
        (PicksForMarket dossier.now orders.now.orders (choice picker.old) (told picker.old))
        (told picker.old) (told picker.new)) }
    ensures breaks { OnErr result (BreaksMarket dossier.now orders.now.orders
        (choice picker.old) (told picker.old) (told picker.new)) }
    ensures choice { choice picker.new ≡ choice picker.old }
{
    let _ = &dossier.wishes; // learns that the dossier is valid
    let solved = solved::<Brand>(alloc, Blank::new(1), &named.market, picker)?;
    market_text(alloc, dossier, named, &solved)
}

/// The stable matching of those who rank their wishes, over the wishes without boarding, that is
/// best for each of them. The picker has no say in it.
fn matched_text(
    alloc: Global,
    dossier: &Dossier,
    orders: &CallOrders,
    picker: &mut dyn Picker,
) -> Result<Vec<u8>, OutOfMemory>
    requires { AreCallOrders dossier.now.groups orders.now.orders }

    ensures text { IfOk result (λ text. TellsMarket dossier.now orders.now.orders text.items) }
    ensures picks { IfOk result (λ text. TellsPicks
        (PicksForMarket dossier.now orders.now.orders (choice picker.old) (told picker.old))
        (told picker.old) (told picker.new)) }
    ensures breaks { OnErr result (BreaksMarket dossier.now orders.now.orders
        (choice picker.old) (told picker.old) (told picker.new)) }
    ensures choice { choice picker.new ≡ choice picker.old }
{
    let named = from_dossier(alloc, dossier, orders)?;
    text_of(alloc, dossier, orders, &named, picker)
}

/// Replies to `market`, which looks at no day.
pub(crate) fn reply_to_market(
    alloc: Global,
    dossier: &Dossier,
    played: AllPlayed<'_, '_>,
    picker: &mut dyn Picker,
) -> Result<Reply, OutOfMemory>
    requires { AreCallOrders dossier.now.groups played.last.orders }

    ensures text { IfOk result (λ reply. IsDoneSaying
        (TellsMarket dossier.now played.entry.last.orders) reply.exit reply.text.items) }
    ensures picks { IfOk result (λ _. TellsPicks
        (PicksForMarket dossier.now played.entry.last.orders (choice picker.old) (told picker.old))
        (told picker.old) (told picker.new)) }
    ensures breaks { OnErr result (BreaksMarket dossier.now played.entry.last.orders
        (choice picker.old) (told picker.old) (told picker.new)) }
    ensures choice { choice picker.new ≡ choice picker.old }
{
    let orders = played.into_orders();
    let text = matched_text(alloc, dossier, orders, picker)?;
    Ok(done(text))
}
