//! Witnesses of the laws of changed dossiers.
ghost use Rattle.law_cases.specs.Changes.{IsNotHurtRankedWitness, IsNotHurtSilentWitness, MoreSeatsAndAnswersHurtNobodyWitness, OnePlaceUpKeepsEachOfferWitness, OrderAboveIsNeverReadWitness, UnbarredWishMayBeStruckOutWitness};

/// Of the law of kinder dossiers.
#[tactic(auto, using(crate::proofs::ChangeCases::kinder_here))]
pub fn witnesses_of_kinder_dossiers()
    ensures kinder { MoreSeatsAndAnswersHurtNobodyWitness }
    ensures silent { IsNotHurtSilentWitness }
    ensures ranked { IsNotHurtRankedWitness }
{}

/// Of the law of better places.
#[tactic(auto, using(crate::proofs::ChangeCases::better_place_here))]
pub fn witness_of_better_places()
    ensures place { OnePlaceUpKeepsEachOfferWitness }
{}

/// Of the law of unread orders.
#[tactic(auto, using(crate::proofs::ChangeCases::unread_here))]
pub fn witness_of_unread_orders()
    ensures unread { OrderAboveIsNeverReadWitness }
{}

/// Of the law of struck wishes.
#[tactic(auto, using(crate::proofs::ChangeCases::struck_here))]
pub fn witness_of_struck_wishes()
    ensures struck { UnbarredWishMayBeStruckOutWitness }
{}
