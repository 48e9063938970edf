//! What a day reads of the evening before, and what follows for a campaign that is cut there.
ghost use Rattle.cut_laws.specs.Cut.{AlikeStatesGoOnAlike, CampaignsMayBeCut, CutDaysAreTheRest, CutsAreValid, OpenOffersDecide};
ghost use Rattle.cut_laws.specs.StampsDecideNothing.{StampsDecideNothing};

/// Two states of one dossier with equal statuses have the same days, whatever their stamps are;
/// where offers have deadlines, two that have the same open offers as well.
pub fn laws_of_stamps()
    ensures stamps { StampsDecideNothing }
    ensures offers { OpenOffersDecide }
{}

/// What follows the evening of a day, in one run, is what follows it in a run of its own, from a
/// dossier that comes in with the statuses, the ceilings and the open offers of that evening; so
/// does any other way to say the ceilings and answers of the days to come. Whatever days the run of
/// its own has, they follow the evening.
pub fn laws_of_cuts()
    ensures cut { CampaignsMayBeCut }
    ensures alike { AlikeStatesGoOnAlike }
    ensures rest { CutDaysAreTheRest }
{}

/// The dossier of the morning after a cut is a valid one, so a run of its own takes it in.
pub fn law_of_next_mornings()
    ensures valid { CutsAreValid }
{}
