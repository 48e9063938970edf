//! The laws of chains, as theorems over their definitions.
ghost use Rattle.admit_core.specs.ChainLaws.{NoFaultWhereValid, ChainsTellTheDay};

/// What a chain shows, whoever made it. It does nothing when it is called: its clauses are
/// theorems.
pub fn laws_of_chains()
    ensures no_fault { NoFaultWhereValid }
    ensures tells { ChainsTellTheDay }
{}
