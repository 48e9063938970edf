//! Texts of small cases, as theorems.
ghost use Rattle.report.specs.WorkedTexts.{AutomaticDays, CascadeDay, DatedFinals, EdgesOfBars};
ghost use Rattle.report.specs.WorkedTexts.{Explanations, LapsingDays, OrderTexts, RealisticDays};
ghost use Rattle.report.specs.WorkedTexts.{RealisticFinal, Refusals, Samples};

/// What the definitions of the texts give on small cases. It does nothing when it is called: its
/// clauses are theorems.
pub fn worked_texts()
    ensures orders { OrderTexts }
    ensures realistic_days { RealisticDays }
    ensures realistic_final { RealisticFinal }
    ensures cascade { CascadeDay }
    ensures edges { EdgesOfBars }
    ensures automatic { AutomaticDays }
    ensures explanations { Explanations }
    ensures refusals { Refusals }
    ensures lapsing { LapsingDays }
    ensures dated { DatedFinals }
    ensures samples { Samples }
{}
