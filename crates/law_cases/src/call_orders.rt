//! Witnesses of the laws of call orders.
ghost use Rattle.law_cases.specs.CallOrders.{CallOrdersKeepLawsOtherWitness, CallOrdersKeepLawsWitness, CallsResidentScholarsFirstWitness, EachRankingHasOneOrderWitness, KeepsOrderLawsOnlyWitness, KeepsRateAfterWitness, KeepsResidentRateWitness};
ghost use Rattle.law_cases.specs.CallOrders.{HasLesserRankWitness, IsLeastByResidentsWitness, IsLeastByScholarsWitness, IsLeastThatKeepsWitness};

/// Of the laws of call orders, and of the rates that they keep.
pub fn witnesses_of_call_orders()
    ensures laws { CallOrdersKeepLawsWitness }
    ensures scholarship_alone { CallOrdersKeepLawsOtherWitness }
    ensures one { EachRankingHasOneOrderWitness }
    ensures only { KeepsOrderLawsOnlyWitness }
    ensures rate { KeepsRateAfterWitness }
    ensures resident_rate { KeepsResidentRateWitness }
    ensures resident_scholars { CallsResidentScholarsFirstWitness }
{}

/// Of the laws by which a call order is the least list that keeps a rate.
pub fn witnesses_of_least_orders()
    ensures lesser { HasLesserRankWitness }
    ensures least { IsLeastThatKeepsWitness }
    ensures by_scholars { IsLeastByScholarsWitness }
    ensures by_residents { IsLeastByResidentsWitness }
{}
