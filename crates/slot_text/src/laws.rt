//! What the texts of slots are read as.
ghost use Rattle.slot_text.specs.ReadBack.{SlotsReadBack};
ghost use Rattle.slot_text.specs.Witnesses.{SlotsReadBackWitness, WorkedTexts};

/// The text of each slot of tables is read as its rows.
pub fn law_of_slot_texts()
    ensures back { SlotsReadBack }
{}

/// A worked case that meets the law's premises, and the texts of its slots.
pub fn witness_of_slot_texts()
    ensures back { SlotsReadBackWitness }
    ensures worked { WorkedTexts }
{}
