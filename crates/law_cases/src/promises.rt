//! Witnesses of what the rules promise a candidate.
ghost use Rattle.law_cases.specs.Fairness.{BetterIsNeverLaterOtherWitness, BetterIsNeverLaterWitness, CallsEachKindByRankWitness, CallsResidentScholarsByRankWitness};
ghost use Rattle.law_cases.specs.Fairness.{GoToBetterRanksBetterWitness, NoBedGoesToWorseRankWitness, NobodyIsPassedOverOtherWitness, NobodyIsPassedOverWitness};
ghost use Rattle.law_cases.specs.Fairness.{BetterBoardingRankCostsNoOfferWitness, BetterPositionCostsNoOfferOtherWitness, BetterPositionCostsNoOfferWitness};

/// Of the promises of a call order.
pub fn witnesses_of_places()
    ensures kinds { CallsEachKindByRankWitness }
    ensures resident_scholars { CallsResidentScholarsByRankWitness }
    ensures better { BetterIsNeverLaterWitness }
    ensures by_rank { BetterIsNeverLaterOtherWitness }
{}

/// Of the promises of a pass.
pub fn witnesses_of_offers()
    ensures passed_over { NobodyIsPassedOverWitness }
    ensures by_limit { NobodyIsPassedOverOtherWitness }
    ensures beds { NoBedGoesToWorseRankWitness }
    ensures better_rank { GoToBetterRanksBetterWitness }
{}

/// Of what a candidate keeps who changes places: in the first programme and in the last, and in a
/// school.
pub fn witnesses_of_exchanges()
    ensures first_programme { BetterPositionCostsNoOfferWitness }
    ensures last_programme { BetterPositionCostsNoOfferOtherWitness }
    ensures boarding_rank { BetterBoardingRankCostsNoOfferWitness }
{}
