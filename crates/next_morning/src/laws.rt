//! What the tables of the next morning are, for a campaign that is cut there.
ghost use Rattle.next_morning.specs.DatedLaws.{DatedOffersStandAlike, DatedRunsAreTheRest, DatedTablesAreAccepted, DatedTablesAreOfTheCut, DatesAreOfTheEvening};
ghost use Rattle.next_morning.specs.DatedWitnesses.{DatedOffersStandAlikeWitness, DatedRunsAreTheRestWitness, DatedTablesAreAcceptedWitness, DatedTablesAreOfTheCutWitness, DatesAreOfTheEveningWitness, WorkedDatedMornings};
ghost use Rattle.next_morning.specs.Laws.{RunsAreTheRest, TablesAreAccepted, TablesAreOfTheCut, TablesAreValid};
ghost use Rattle.next_morning.specs.ReadLaws.{FinalLinesAreTheState, ReadStatesAreOfTheCut, ReadStatusesAreOfTheEvening};
ghost use Rattle.next_morning.specs.ReadWitnesses.{FinalLinesAreTheStateWitness, ReadStatesAreOfTheCutWitness, ReadStatusesAreOfTheEveningWitness};
ghost use Rattle.next_morning.specs.Witnesses.{RunsAreTheRestWitness, TablesAreAcceptedWitness, TablesAreOfTheCutWitness, TablesAreValidWitness};
ghost use Rattle.next_morning.specs.WorkedMorning.{WorkedMornings};

/// The tables stand for the dossier of the campaign that is cut in that evening; where each
/// candidate has one accepted wish at most, it is a valid one, and a check accepts them; and a run
/// over it is the rest of the campaign.
pub fn laws_of_next_mornings()
    ensures cut { TablesAreOfTheCut }
    ensures valid { TablesAreValid }
    ensures accepted { TablesAreAccepted }
    ensures rest { RunsAreTheRest }
{}

/// For each law a worked case that meets all its premises, and three mornings of a campaign.
pub fn witnesses_of_next_mornings()
    ensures cut { TablesAreOfTheCutWitness }
    ensures valid { TablesAreValidWitness }
    ensures accepted { TablesAreAcceptedWitness }
    ensures rest { RunsAreTheRestWitness }
    ensures worked { WorkedMornings }
{}

/// Where offers have deadlines, the tables stand for the same dossier, and a check accepts them;
/// their dates, read where day 1 is as many days later, are the days of the open offers; and a run
/// over them under the terms that come of these dates is the rest of the campaign.
pub fn laws_of_dated_mornings()
    ensures cut { DatedTablesAreOfTheCut }
    ensures accepted { DatedTablesAreAccepted }
    ensures dates { DatesAreOfTheEvening }
    ensures offers { DatedOffersStandAlike }
    ensures rest { DatedRunsAreTheRest }
{}

/// For each of them a worked case that meets all its premises, and two mornings row by row.
pub fn witnesses_of_dated_mornings()
    ensures cut { DatedTablesAreOfTheCutWitness }
    ensures accepted { DatedTablesAreAcceptedWitness }
    ensures dates { DatesAreOfTheEveningWitness }
    ensures offers { DatedOffersStandAlikeWitness }
    ensures rest { DatedRunsAreTheRestWitness }
    ensures worked { WorkedDatedMornings }
{}

/// The final lines of an evening's report are read as the state slot of the next morning's tables;
/// put into the tables of the day's own morning, what is read stands for the statuses of the
/// evening, and put into those of the next morning for the campaign that is cut there.
pub fn laws_of_read_states()
    ensures lines { FinalLinesAreTheState }
    ensures statuses { ReadStatusesAreOfTheEvening }
    ensures cut { ReadStatesAreOfTheCut }
{}

/// For each of them a worked case that meets all its premises.
pub fn witnesses_of_read_states()
    ensures lines { FinalLinesAreTheStateWitness }
    ensures statuses { ReadStatusesAreOfTheEveningWitness }
    ensures cut { ReadStatesAreOfTheCutWitness }
{}
