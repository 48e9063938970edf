//! The laws of evenings, as theorems over the definitions of passes and days.
ghost use Rattle.admit_core.specs.EveningLaws.{SeatsAreFilled, EveningsAreClosed};

/// What holds in the evening of every day of every dossier, whatever its answers and lapses were.
/// It does nothing when it is called: its clauses are theorems.
pub fn laws_of_evenings()
    ensures filled { SeatsAreFilled }
    ensures closed { EveningsAreClosed }
{}
