//! Witnesses of the laws of passes, evenings and chains.
ghost use Rattle.law_cases.specs.Days.{ChainsTellTheDayWitness, EveningsAreClosedWitness, IsFilledWitness, SeatsAreFilledWitness};
ghost use Rattle.law_cases.specs.Days.{ChangesAreFewWitness, FallsAreFewWitness, FallsSpendTheRestWitness, FitsBedsWitness, GreatestBarsAreLoweredForBedsWitness, LowersForBedsWitness, OffersFitBedsWitness, OffersFitSeatsWitness};

/// Of the laws of evenings and chains.
pub fn witnesses_of_evenings()
    ensures filled { SeatsAreFilledWitness }
    ensures barred { IsFilledWitness }
    ensures closed { EveningsAreClosedWitness }
    ensures tells { ChainsTellTheDayWitness }
{}

/// Of the laws of passes, and of what falls change.
pub fn witnesses_of_passes()
    ensures seats { OffersFitSeatsWitness }
    ensures beds { OffersFitBedsWitness }
    ensures bed { FitsBedsWitness }
    ensures lowered { GreatestBarsAreLoweredForBedsWitness }
    ensures taken { LowersForBedsWitness }
    ensures few { FallsAreFewWitness }
    ensures spent { FallsSpendTheRestWitness }
    ensures changes { ChangesAreFewWitness }
{}
