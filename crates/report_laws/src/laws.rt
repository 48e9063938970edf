//! What the texts of a report tell of its records.
ghost use Rattle.report_laws.specs.Days.{DatedDaysAreTold, DaysAreTold, PassesAreTold};
ghost use Rattle.report_laws.specs.Lines.{AutosAreTold, BarsAreTold, EveningsAreTold, FallsAreTold, FreedIsTold, LapsesAreTold, OffersAreTold};
ghost use Rattle.report_laws.specs.Told.{ValidDossiersHaveNames};
ghost use Rattle.report_laws.specs.Whole.{DatedRunsAreTold, OrdersAreTold, RunsAreTold};

/// Two records of one dossier with the same line are the same. The dossier's ids stand once, as
/// those of a valid one do; places are its own, and numbers have 32 bits.
pub fn laws_of_lines()
    ensures names { ValidDossiersHaveNames }
    ensures falls { FallsAreTold }
    ensures offers { OffersAreTold }
    ensures autos { AutosAreTold }
    ensures freed { FreedIsTold }
    ensures lapses { LapsesAreTold }
    ensures bars { BarsAreTold }
    ensures evenings { EveningsAreTold }
{}

/// The same of the text of a pass with its number, and of the days of a campaign one after another:
/// where one ends and the next begins is told by the first words of the lines.
pub fn laws_of_days()
    ensures passes { PassesAreTold }
    ensures days { DaysAreTold }
    ensures dated { DatedDaysAreTold }
{}

/// The same of a whole run, as the mode `replay` writes it: its call orders with their rules, its
/// days, and how each wish stands on the last evening.
pub fn laws_of_runs()
    ensures orders { OrdersAreTold }
    ensures runs { RunsAreTold }
    ensures dated { DatedRunsAreTold }
{}
