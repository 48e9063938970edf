//! What holds of all stable matchings of a market, over definitions alone.
ghost use Rattle.markets.specs.Laws.{ThereIsABest, TheBestIsOne, TheSameHavePlaces};
ghost use Rattle.stable_market.specs.Truth.{TruthPays};
ghost use Rattle.stable_market.specs.Worked.{CrossedMarket, ContestedMarket, RefusedRows};

/// What the definitions give on small markets. The call does nothing.
pub fn worked_markets()
    ensures crossed { CrossedMarket }
    ensures contested { ContestedMarket }
    ensures refused { RefusedRows }
{}

/// Every market has one stable matching that is best for all its candidates, and in all its stable
/// matchings the same candidates have a place, and each programme has as many (the rural hospitals
/// theorem). And truth pays: whatever other list a candidate hands in, no stable matching of that
/// market gives them a programme that they prefer to their place in the best one by the true list.
/// The call does nothing.
pub fn laws_of_stable_matchings()
    ensures exists { ThereIsABest }
    ensures one { TheBestIsOne }
    ensures placed { TheSameHavePlaces }
    ensures truth { TruthPays }
{}
