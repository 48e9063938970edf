//! The laws of passes, over definitions alone.
ghost use Rattle.round.specs.PassLaws.{OffersFitSeats, OffersFitBeds, GreatestBarsAreLoweredForBeds, FallsAreFew};

/// What holds of every pass over every valid dossier. The call does nothing: its clauses are
/// theorems.
pub fn laws_of_passes()
    ensures seats { OffersFitSeats }
    ensures beds { OffersFitBeds }
    ensures lowered { GreatestBarsAreLoweredForBeds }
    ensures few { FallsAreFew }
{}
