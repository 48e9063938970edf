//! For each law a worked case that meets all its premises.
ghost use Rattle.text_laws.specs.Witnesses.{FinalDatedTextReadsBackWitness, FinalTextReadsBackWitness};

/// Of the laws of final texts.
pub fn witnesses_of_final_texts()
    ensures plain { FinalTextReadsBackWitness }
    ensures dated { FinalDatedTextReadsBackWitness }
{}
