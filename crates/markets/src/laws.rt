//! What holds of markets and their greatest bars, over definitions alone.
ghost use Rattle.markets.specs.Laws.{MarketsAreLawful, GreatestBarsAreStable, GreatestBarsAreBest, GreatestBarsPlaceTheSame};
ghost use Rattle.markets.specs.Laws.{TheSameWhicheverFallsFirst};

/// The greatest bars give a stable matching, the best one for every candidate, and the same
/// whichever programme falls first; who has a place in it has one in every stable matching. The
/// call does nothing.
pub fn laws_of_markets()
    ensures lawful { MarketsAreLawful }
    ensures stable { GreatestBarsAreStable }
    ensures best { GreatestBarsAreBest }
    ensures same { TheSameWhicheverFallsFirst }
    ensures placed { GreatestBarsPlaceTheSame }
{}
