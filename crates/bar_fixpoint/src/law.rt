//! The laws of runs, over definitions alone.
ghost use Rattle.bar_fixpoint.specs.Runs.{EveryRunEndsAtTheGreatest, FallsStayAboveAllThatFit, TheGreatestIsUnique, PicksFixTheFalls};

/// The laws of runs of falls, for every lawful system. The call does nothing.
pub fn law_of_runs()
    ensures greatest { EveryRunEndsAtTheGreatest }
    ensures above { FallsStayAboveAllThatFit }
    ensures unique { TheGreatestIsUnique }
    ensures picks { PicksFixTheFalls }
{}
