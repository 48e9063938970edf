//! The stable matching that is best for every candidate.
ghost use Rattle.std.specs.Prelude.{◌≡◌, IfOk, OnErr};
ghost use Rattle.admit_core.specs.Falls.{IsGreatest};
ghost use Rattle.markets.specs.Matchings.{IsStable, IsBestForAll};
ghost use Rattle.markets.specs.Bars.{market_system, matched_under, place_codes};
ghost use Rattle.markets.specs.Placed.{ArePlacedInAll};
ghost use Rattle.markets.specs.Solving.{IsLedTo};
ghost use Rattle.bar_fixpoint.specs.Chosen.{TellsOfFalls};

use crate::laws::laws_of_markets;
use crate::market::Market;
use crate::round::MarketRound;
use admit_core::{OutOfMemory, Steps};
use bar_fixpoint::{Falling, Picker, law_of_runs, settle};
use std::alloc::Global;
use std::sync::ledger::Ledger;

/// A market's greatest bars, and the place of each candidate under them.
#[derive(Drop)]
pub struct Solved {
    /// The bar of each programme, on the positions in its order.
    pub bars: Vec<u32>,
    /// The programme of each candidate, if they have a place.
    pub places: Vec<Option<u32>>,
}

/// The stable matching in which every candidate has the best programme that they have in any.
///
/// Which picker is asked decides nothing but the order of the falls.
pub fn solve<L: Ledger>(
    alloc: Global,
    market: &Market,
    picker: &mut dyn Picker,
    steps: &mut Steps<L>,
) -> Result<Solved, OutOfMemory>
    ensures stable { IfOk result (λ solved. IsStable market.now solved.places.items) }
    ensures best { IfOk result (λ solved. IsBestForAll market.now solved.places.items) }
    ensures placed { IfOk result (λ solved. ArePlacedInAll market.now solved.places.items) }

    ensures greatest { IfOk result (λ solved. IsGreatest (market_system market.now)
        solved.bars.items) }
    ensures places { IfOk result (λ solved. solved.places.items ≡ matched_under market.now
        solved.bars.items) }

    ensures led { IfOk result (λ solved. IsLedTo (market_system market.now) (choice picker.old)
        (told picker.old) (told picker.new) solved.bars.items) }
    ensures told_by_then { OnErr result (TellsOfFalls (market_system market.now) (choice picker.old)
        (told picker.old) (told picker.new)) }
    ensures choice { choice picker.new ≡ choice picker.old }
{
    market.stands();
    laws_of_markets();
    law_of_runs();
    let mut round = MarketRound::build(alloc, market)?;
    settle(alloc, &mut round, picker, steps)?;
    Ok(solved_by(market, round))
}

/// The bars of a round of a market, and the places under them.
fn solved_by<'a>(market: &Market, round: MarketRound<'a>) -> Solved
    requires { ⟦<MarketRound<'a> as Falling>⟧.offers round ≡ place_codes market.now }
    ensures bars { result.bars.items ≡ ⟦<MarketRound<'a> as Falling>⟧.bars round.entry }
    ensures places { result.places.items ≡ matched_under market.now result.bars.items }
{
    let (bars, places) = round.into_parts();
    Solved { bars, places }
}
