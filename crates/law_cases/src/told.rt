//! Witnesses of the laws of days and explanations.
ghost use Rattle.law_cases.specs.Explanations.{CampaignsAreFixedWitness, OnlyFallsDifferWitness};
ghost use Rattle.law_cases.specs.Explanations.{CampaignsFixThemWitness, DaysEndSoWitness, DaysFixThemWitness, DesksEndSoWitness, EachIsListedWitness};

/// Of the laws of days.
pub fn witnesses_of_days()
    ensures day { OnlyFallsDifferWitness }
    ensures campaign { CampaignsAreFixedWitness }
{}

/// Of the laws of explanations.
pub fn witnesses_of_explanations()
    ensures listed { EachIsListedWitness }
    ensures days { DaysEndSoWitness }
    ensures desks { DesksEndSoWitness }
    ensures fixed_by_days { DaysFixThemWitness }
    ensures fixed_by_campaigns { CampaignsFixThemWitness }
{}
