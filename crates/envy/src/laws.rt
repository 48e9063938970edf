//! The laws of automatic days, over definitions alone.
ghost use Rattle.envy.specs.AutomaticDays.{DaysEndFair, PassesKeepFair, QuietDaysEndFair, WaitingIsFair};
ghost use Rattle.envy.specs.AutomaticDays.{FirstEveningsBlockNone, LaterEveningsBlockNone};

/// Why nobody has a blocking wish after days that are answered automatically alone. The call does
/// nothing: its clauses are theorems.
pub fn laws_of_automatic_days()
    ensures waiting { WaitingIsFair }
    ensures passes { PassesKeepFair }
    ensures days { DaysEndFair }
    ensures quiet_days { QuietDaysEndFair }
    ensures first_evenings { FirstEveningsBlockNone }
    ensures later_evenings { LaterEveningsBlockNone }
{}
