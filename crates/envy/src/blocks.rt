//! The wishes that block a state.
ghost use Rattle.std.specs.Prelude.{◌≡◌, ◌<◌, [], All, IfOk, length};
ghost use Rattle.std.specs.List.{filter_map};
ghost use Rattle.admit_core.specs.CallOrder.{AreCallOrders};
ghost use Rattle.envy.specs.AutomaticDays.{IsFirstEvening, IsLaterEvening};
ghost use Rattle.envy.specs.Blocks.{blocks_of, envies_of, envy_in};

use crate::laws::laws_of_automatic_days;
use crate::noted::Noted;
use admit_core::{CallOrders, OutOfMemory};
use day_state::DayState;
use linked_demand::Roster;
use std::alloc::Global;

/// A wish that blocks: the seats left of its programme, and the last candidate behind its own who
/// is live there.
#[derive(Clone, Copy)]
pub struct Block {
    pub wish: u32,
    pub left: u32,
    pub envied: Option<u32>,
}

/// A wish whose candidate rightly envies another.
#[derive(Clone, Copy)]
pub struct Envy {
    pub wish: u32,
    pub envied: u32,
}

/// The blocks of a state, by place.
fn listed_blocks(alloc: Global, noted: &Noted<'_, '_, '_>) -> Result<Vec<Block>, OutOfMemory>
    ensures { IfOk result (λ blocks.
        blocks.items ≡ blocks_of noted.now.state noted.now.orders) }
{
    let mut blocks = Vec::new(alloc);
    for place in 0..noted.wish_count() {
        if let Some(block) = noted.found_at(place) {
            blocks.push(block)?;
        }
    }
    Ok(blocks)
}

/// The wishes that block a state, by place, along the roster of its dossier. There are none after
/// days without answers and deadlines where all wishes waited at first, are ranked, and have no
/// school.
///
/// It goes along the wishes three times: it notes what each candidate holds, then who is the last
/// live one of each programme, and then tells which wishes block.
pub fn blocking_pairs_along<'a, 'd>(
    alloc: Global,
    state: &'a DayState<'d>,
    roster: &'a Roster<'_, 'd>,
) -> Result<Vec<Block>, OutOfMemory>
    requires { roster.now.dossier ≡ state.now.dossier }
    ensures blocks { IfOk result (λ blocks.
        blocks.items ≡ blocks_of state.now roster.now.orders) }
    ensures within { IfOk result (λ blocks.
        All (λ block. block.wish < length state.now.dossier.wishes) blocks.items) }
    ensures first_evening { IsFirstEvening roster.now.orders state.now
        → IfOk result (λ blocks. blocks.items ≡ []) }
    ensures later_evening { IsLaterEvening roster.now.orders state.now
        → IfOk result (λ blocks. blocks.items ≡ []) }
{
    let dossier = state.dossier();
    let _ = &dossier.wishes; // learns that the dossier is valid
    let _ = roster.orders(); // those of the dossier
    laws_of_automatic_days();
    let noted = Noted::of(alloc, state, roster)?;
    listed_blocks(alloc, &noted)
}

/// Lists the wishes that block a state, along a roster that is made for it: a walk along the call
/// order of each group. Where days were run, theirs serves ([`blocking_pairs_along`]).
pub fn blocking_pairs(
    alloc: Global,
    state: &DayState<'_>,
    orders: &CallOrders,
) -> Result<Vec<Block>, OutOfMemory>
    requires { AreCallOrders state.now.dossier.groups orders.now.orders }
    ensures blocks { IfOk result (λ blocks. blocks.items ≡ blocks_of state.now orders.now.orders) }
    ensures within { IfOk result (λ blocks.
        All (λ block. block.wish < length state.now.dossier.wishes) blocks.items) }
    ensures first_evening { IsFirstEvening orders.now.orders state.now
        → IfOk result (λ blocks. blocks.items ≡ []) }
    ensures later_evening { IsLaterEvening orders.now.orders state.now
        → IfOk result (λ blocks. blocks.items ≡ []) }
{
    let roster = Roster::build(alloc, state, orders)?;
    blocking_pairs_along(alloc, state, &roster)
}

/// Who is envied in a block, where somebody is.
fn envy_in(block: Block) -> Option<Envy>
    ensures { result ≡ envy_in block }
{
    let envied = block.envied?;
    Some(Envy {
        wish: block.wish,
        envied,
    })
}

/// The blocks where somebody is envied, in their order.
fn envies_of(alloc: Global, blocks: &[Block]) -> Result<Vec<Envy>, OutOfMemory>
    ensures { IfOk result (λ envies. envies.items ≡ filter_map envy_in blocks.now) }
{
    let envies = blocks.iter().filter_map(|block| envy_in(*block));
    Ok(envies.collect(alloc)?)
}

/// The wishes that block a state whose candidates rightly envy somebody, by place, each with the
/// last one whom they envy.
pub fn envy_list(
    alloc: Global,
    state: &DayState<'_>,
    orders: &CallOrders,
) -> Result<Vec<Envy>, OutOfMemory>
    requires { AreCallOrders state.now.dossier.groups orders.now.orders }
    ensures { IfOk result (λ envies. envies.items ≡ envies_of state.now orders.now.orders) }
{
    let blocks = blocking_pairs(alloc, state, orders)?;
    envies_of(alloc, &blocks)
}
