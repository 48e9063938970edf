//! Texts of small chains, as theorems.
ghost use Rattle.certificate.specs.WorkedTexts.{LinesOutOfPlace, NoEnds, NoLines, TextsOfChains};

/// What the grammar of chains says of small texts. It does nothing when it is called: its clauses
/// are theorems.
pub fn worked_chain_texts()
    ensures chains { TextsOfChains }
    ensures places { LinesOutOfPlace }
    ensures forms { NoLines }
    ensures ends { NoEnds }
{}
