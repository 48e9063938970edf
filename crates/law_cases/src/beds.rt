//! Witnesses of the laws of beds.
ghost use Rattle.law_cases.specs.Beds.{FiguresAreFixedWitness, GreatestBarsDoNotFallWitness};

/// Of the laws of beds.
pub fn witnesses_of_beds()
    ensures bars { GreatestBarsDoNotFallWitness }
    ensures figures { FiguresAreFixedWitness }
{}
