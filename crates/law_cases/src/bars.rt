//! Witnesses of the laws of bars.
ghost use Rattle.law_cases.specs.Bars.{LoweredBarsAreFullWitness, NoMoreStandAheadWitness, RanksStandBelowBarsWitness, RanksStayDemandedOtherWitness, RanksStayDemandedWitness, RunsEndAtGreatestWitness, WishesStayOpenWitness, WishesStayProposedWitness};
ghost use Rattle.law_cases.specs.Bars.{AreAboveAllThatFitWitness, EveryRunEndsAtTheGreatestWitness, FallsStayAboveAllThatFitWitness, PicksFixTheFallsWitness, TheGreatestIsUniqueWitness};

/// Of the laws of demanded ranks, proposed wishes and greatest bars.
pub fn witnesses_of_bars()
    ensures below_bars { RanksStandBelowBarsWitness }
    ensures stay_demanded { RanksStayDemandedWitness }
    ensures of_two_schools { RanksStayDemandedOtherWitness }
    ensures stay_open { WishesStayOpenWitness }
    ensures ahead { NoMoreStandAheadWitness }
    ensures stay_proposed { WishesStayProposedWitness }
    ensures runs { RunsEndAtGreatestWitness }
    ensures full { LoweredBarsAreFullWitness }
{}

/// Of the laws of runs of falls.
pub fn witnesses_of_runs()
    ensures greatest { EveryRunEndsAtTheGreatestWitness }
    ensures above { FallsStayAboveAllThatFitWitness }
    ensures fitting { AreAboveAllThatFitWitness }
    ensures unique { TheGreatestIsUniqueWitness }
    ensures picks { PicksFixTheFallsWitness }
{}
