//! Witnesses of the laws of written chains.
ghost use Rattle.law_cases.specs.WrittenChains.{OwnChainsAreProvedWitness, ReadsBackWitness};

/// Of the laws of written chains.
pub fn witnesses_of_written_chains()
    ensures reads_back { ReadsBackWitness }
    ensures proved { OwnChainsAreProvedWitness }
{}
