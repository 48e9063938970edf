//! What the rules promise, as theorems over the definitions.
ghost use Rattle.admit_core.specs.CallOrderLaws.{OfCallOrders};
ghost use Rattle.fairness.specs.Exchanges.{BetterBoardingRankCostsNoOffer, BetterPositionCostsNoOffer};
ghost use Rattle.fairness.specs.OrderPromises.{BetterIsNeverLater, CallsEachKindByRank, CallsResidentScholarsByRank};
ghost use Rattle.fairness.specs.PassPromises.{NoBedGoesToWorseRank, NobodyIsPassedOver};

/// What a call order promises: those of one kind keep their ranking, and a resident scholar is
/// called no later than their rank says; and to be better never means to be called later.
pub fn laws_of_places()
    ensures kinds { OfCallOrders CallsEachKindByRank }
    ensures resident_scholars { OfCallOrders CallsResidentScholarsByRank }
    ensures better { BetterIsNeverLater }
{}

/// What a pass promises to those who wait after it: nobody is passed over in a call order, and no
/// bed goes to a worse boarding rank.
pub fn laws_of_offers()
    ensures passed_over { NobodyIsPassedOver }
    ensures beds { NoBedGoesToWorseRank }
{}

/// What a candidate keeps when they change places with the one just before them: a better position
/// in the call order of a programme that has its ranking to itself costs no offer there, and a
/// better boarding rank no offer with that school.
pub fn laws_of_exchanges()
    ensures position { BetterPositionCostsNoOffer }
    ensures boarding_rank { BetterBoardingRankCostsNoOffer }
{}
