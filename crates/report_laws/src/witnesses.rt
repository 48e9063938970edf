//! For each law a worked case that meets all its premises.
ghost use Rattle.report_laws.specs.Witnesses.{AutosAreToldWitness, BarsAreToldWitness, DatedDaysAreToldWitness, DatedRunsAreToldWitness, DaysAreToldWitness, EveningsAreToldWitness, FallsAreToldWitness, FreedIsToldWitness, LapsesAreToldWitness, OffersAreToldWitness, OrdersAreToldWitness, PassesAreToldWitness, RunsAreToldWitness, SharedIdsHideFalls, ValidDossiersHaveNamesWitness};

/// Of the laws of lines.
pub fn witnesses_of_lines()
    ensures names { ValidDossiersHaveNamesWitness }
    ensures falls { FallsAreToldWitness }
    ensures offers { OffersAreToldWitness }
    ensures autos { AutosAreToldWitness }
    ensures freed { FreedIsToldWitness }
    ensures lapses { LapsesAreToldWitness }
    ensures bars { BarsAreToldWitness }
    ensures evenings { EveningsAreToldWitness }
{}

/// Of the laws of days, and that the ids have to stand once.
pub fn witnesses_of_days()
    ensures passes { PassesAreToldWitness }
    ensures days { DaysAreToldWitness }
    ensures dated { DatedDaysAreToldWitness }
    ensures shared { SharedIdsHideFalls }
{}

/// Of the laws of runs.
pub fn witnesses_of_runs()
    ensures orders { OrdersAreToldWitness }
    ensures runs { RunsAreToldWitness }
    ensures dated { DatedRunsAreToldWitness }
{}
