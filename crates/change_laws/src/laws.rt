//! What a change of a dossier does, as theorems over the definitions.
ghost use Rattle.change_laws.specs.Kinder.{MoreSeatsAndAnswersHurtNobody};
ghost use Rattle.change_laws.specs.OnePlaceUp.{OnePlaceUpKeepsEachOffer};
ghost use Rattle.change_laws.specs.StruckOut.{UnbarredWishMayBeStruckOut};
ghost use Rattle.change_laws.specs.Unread.{OrderAboveIsNeverRead};

/// Without boarding: with more seats or higher call limits, and more answers of candidates who
/// answer in person, no wish waits in an evening that did not; a candidate who gives no answer
/// still has each live wish, and one who ranks their wishes has one that is as good.
#[tactic(auto, using(crate::proofs::KinderDays::kindness_hurts_nobody))]
pub fn law_of_kinder_dossiers()
    ensures kinder { MoreSeatsAndAnswersHurtNobody }
{}

/// Without boarding: one place up in the call order of a programme that has it to itself keeps
/// each offer there, and brings it no later.
pub fn law_of_better_places()
    ensures place { OnePlaceUpKeepsEachOffer }
{}

/// For a candidate who gives no answer, the order of the wishes that wait to the end, above what
/// they have accepted then, is never read: with another order the days are the same.
pub fn law_of_unread_orders()
    ensures unread { OrderAboveIsNeverRead }
{}

/// A wish that no bar stops in any pass, and that waits to the end, might as well have been given
/// up before: the days are the same.
pub fn law_of_struck_wishes()
    ensures struck { UnbarredWishMayBeStruckOut }
{}
