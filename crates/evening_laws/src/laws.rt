//! What holds of each day and of its evening, as theorems over the definitions.
ghost use Rattle.evening_laws.specs.FewPasses.{PassesAreFew};
ghost use Rattle.evening_laws.specs.Idle.{SeatAndBedAreNeverBothIdle};
ghost use Rattle.evening_laws.specs.LastBars.{EveningBarsAreNoLower, LastBarsStillFit};

/// A day has at most one pass more than wishes that were live and given up automatically on it.
#[tactic(auto, using(crate::proofs::FewPasses::passes_are_few))]
pub fn law_of_passes()
    ensures few { PassesAreFew }
{}

/// In the evening of a day no wish waits for which a seat is left, and a bed that its candidate may
/// have by the ceiling.
#[tactic(auto, using(crate::proofs::LastPass::seat_and_bed_never_both_idle))]
pub fn law_of_idle_places()
    ensures idle { SeatAndBedAreNeverBothIdle }
{}

/// The bars of a day's last pass still fit in its evening, so the evening's greatest bars are no
/// lower.
#[tactic(auto, using(crate::proofs::LastPass::last_bars_still_fit, crate::proofs::LastPass::evening_bars_no_lower))]
pub fn laws_of_evening_bars()
    ensures fit { LastBarsStillFit }
    ensures no_lower { EveningBarsAreNoLower }
{}
