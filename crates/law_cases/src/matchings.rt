//! Witnesses of the laws of markets.
ghost use Rattle.law_cases.specs.Markets.{GreatestBarsAreBestWitness, GreatestBarsAreStableWitness, GreatestBarsPlaceTheSameWitness, MarketsAreLawfulWitness, TheSameWhicheverFallsFirstWitness};
ghost use Rattle.law_cases.specs.Markets.{TheBestIsOneWitness, TheSameHavePlacesWitness, ThereIsABestWitness, TruthPaysWitness};
ghost use Rattle.law_cases.specs.Markets.{CrossedDossier};

/// Of the laws of markets and their greatest bars.
pub fn witnesses_of_markets()
    ensures lawful { MarketsAreLawfulWitness }
    ensures stable { GreatestBarsAreStableWitness }
    ensures best { GreatestBarsAreBestWitness }
    ensures same { TheSameWhicheverFallsFirstWitness }
    ensures placed { GreatestBarsPlaceTheSameWitness }
{}

/// Of the laws of all stable matchings.
pub fn witnesses_of_stable_matchings()
    ensures exists { ThereIsABestWitness }
    ensures one { TheBestIsOneWitness }
    ensures placed { TheSameHavePlacesWitness }
    ensures truth { TruthPaysWitness }
{}

/// The market of a dossier in which leaving a wish out pays on a day of automatic answers.
pub fn worked_market_of_dossier()
    ensures crossed { CrossedDossier }
{}
