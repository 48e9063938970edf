//! What the texts of a final state are read as.
ghost use Rattle.text_laws.specs.ReadBack.{FinalDatedTextReadsBack, FinalTextReadsBack};

/// The lines behind `final` are a state slot with the statuses of the state, and where offers have
/// deadlines with the dates of the open offers.
pub fn laws_of_final_texts()
    ensures plain { FinalTextReadsBack }
    ensures dated { FinalDatedTextReadsBack }
{}
