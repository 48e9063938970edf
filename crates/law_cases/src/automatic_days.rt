//! Witnesses of the laws of automatic days.
ghost use Rattle.law_cases.specs.AutomaticDays.{DaysEndFairWitness, FirstEveningsBlockNoneWitness, HoldsBetterWitness, LaterEveningsBlockNoneWitness, NobodyBehindWitness, PassesKeepFairWitness, QuietDaysEndFairWitness, WaitingIsFairWitness};

/// Of why nobody has a blocking wish after days that are answered automatically alone.
pub fn witnesses_of_automatic_days()
    ensures waiting { WaitingIsFairWitness }
    ensures behind { NobodyBehindWitness }
    ensures better { HoldsBetterWitness }
    ensures passes { PassesKeepFairWitness }
    ensures days { DaysEndFairWitness }
    ensures quiet_days { QuietDaysEndFairWitness }
    ensures first_evenings { FirstEveningsBlockNoneWitness }
    ensures later_evenings { LaterEveningsBlockNoneWitness }
{}
