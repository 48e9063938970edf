//! For each law a worked case that meets all its premises.
ghost use Rattle.cut_laws.specs.Witnesses.{AlikeStatesGoOnAlikeWitness, CampaignsMayBeCutWitness, CutDaysAreTheRestWitness, CutsAreValidWitness, OpenOffersDecideWitness, StampsDecideNothingWitness};
ghost use Rattle.cut_laws.specs.WorkedCampaign.{NextMorning};

/// Of the laws of stamps.
pub fn witnesses_of_stamps()
    ensures stamps { StampsDecideNothingWitness }
    ensures offers { OpenOffersDecideWitness }
{}

/// Of the laws of cuts, with the dossier and the terms of the next morning.
pub fn witnesses_of_cuts()
    ensures cut { CampaignsMayBeCutWitness }
    ensures alike { AlikeStatesGoOnAlikeWitness }
    ensures rest { CutDaysAreTheRestWitness }
    ensures morning { NextMorning }
{}

/// Of the law of next mornings.
pub fn witness_of_next_mornings()
    ensures valid { CutsAreValidWitness }
{}
