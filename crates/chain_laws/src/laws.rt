//! The laws of written chains, as theorems over their definitions.
ghost use Rattle.certificate.specs.TextGrammar.{ReadsWhatIsWritten};
ghost use Rattle.chain_laws.specs.WrittenLaws.{OwnChainsAreProved, ReadsBack};

/// What joins the text that `write_chain` writes with `read_chain` and `check_day`: it is read as
/// it was written, and the chain of the engine's own days is always proved. It does nothing when it
/// is called: its clauses are theorems.
pub fn laws_of_written_chains()
    ensures reads_back { ReadsBack }
    ensures proved { OwnChainsAreProved }
{}

/// What joins the grammar of chains with the first fault of a text: a text is read as a chain
/// exactly where it writes it.
pub fn laws_of_grammar()
    ensures reads { ReadsWhatIsWritten }
{}
