//! What falls cost.
ghost use Rattle.linked_demand.specs.Ticks.{FallsSpendTheRest, TheRestIsSmall, ChangesAreFew};

/// How many wishes become barred and proposed where bars fall: at each fall no more than the rest
/// falls, and over a list of falls no more than twice the waiting ones. The call does nothing.
pub fn law_of_changes()
    ensures spent { FallsSpendTheRest }
    ensures small { TheRestIsSmall }
    ensures few { ChangesAreFew }
{}
