//! The laws of call orders, as theorems over their definition.
ghost use Rattle.admit_core.specs.CallOrderLaws.{CallOrdersKeepLaws, EachRankingHasOneOrder};

/// What holds of every call order of every ranking. It does nothing when it is called: its clauses
/// are theorems.
pub fn laws_of_call_orders()
    ensures laws { CallOrdersKeepLaws }
    ensures one { EachRankingHasOneOrder }
{}
