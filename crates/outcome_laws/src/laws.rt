//! The laws of outcomes, and their witnesses.
ghost use Rattle.outcome_laws.specs.Checks.{OwnTextsAreProved};
ghost use Rattle.outcome_laws.specs.MarketTexts.{MarketsTellTheBest};
ghost use Rattle.outcome_laws.specs.OutcomeWitnesses.{ChainsAreProvedWitness, ChecksEndAsReplaysWitness};
ghost use Rattle.outcome_laws.specs.Outcomes.{ChainsAreProved, ChecksEndAsReplays};
ghost use Rattle.outcome_laws.specs.ReplayTexts.{DatedReplaysAreRunTexts, ReplaysAreRunTexts};
ghost use Rattle.outcome_laws.specs.Witnesses.{MarketsTellTheBestWitness, OwnTextsAreProvedWitness};

/// What joins the modes `chain`, `check` and `replay`: a check of the chain of a run's own days is
/// done, and ends with the final state of a replay of as many days.
pub fn laws_of_checks()
    ensures proved { OwnTextsAreProved }
{}

/// The same of whole runs, by their words and the slots' bytes: a check of the text of `chain` over
/// the same slots is done, and its final state is that of `replay`.
pub fn laws_of_outcomes()
    ensures chains { ChainsAreProved }
    ensures replays { ChecksEndAsReplays }
{}

/// What `replay` writes is the text of which `report_laws` says that two runs over one dossier with
/// the same text have the same orders, days and final statuses.
pub fn laws_of_replay_texts()
    ensures plain { ReplaysAreRunTexts }
    ensures dated { DatedReplaysAreRunTexts }
{}

/// What the mode `market` tells, beside the rule by which it finds it.
pub fn laws_of_market_texts()
    ensures best { MarketsTellTheBest }
{}

/// Of the laws of checks.
pub fn witnesses_of_checks()
    ensures proved { OwnTextsAreProvedWitness }
{}

/// Of the laws of outcomes, from the words and the bytes.
pub fn witnesses_of_outcomes()
    ensures chains { ChainsAreProvedWitness }
    ensures replays { ChecksEndAsReplaysWitness }
{}

/// Of the laws of market texts.
pub fn witnesses_of_market_texts()
    ensures best { MarketsTellTheBestWitness }
{}
