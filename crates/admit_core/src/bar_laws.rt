//! The laws of bars, as theorems over their definitions.
ghost use Rattle.admit_core.specs.BarLaws.{RanksRise, RanksStandBelowBars, RanksStayDemanded, WishesStayOpen, NoMoreStandAhead, WishesStayProposed, RunsEndAtGreatest, LoweredBarsAreFull};

/// What holds of demanded ranks, proposed wishes and greatest bars in every state. It does nothing
/// when it is called: its clauses are theorems.
pub fn laws_of_bars()
    ensures ranks_rise { RanksRise }
    ensures below_bars { RanksStandBelowBars }
    ensures stay_demanded { RanksStayDemanded }
    ensures stay_open { WishesStayOpen }
    ensures ahead { NoMoreStandAhead }
    ensures stay_proposed { WishesStayProposed }
    ensures runs { RunsEndAtGreatest }
    ensures full { LoweredBarsAreFull }
{}
