//! The laws of automatic answers, over definitions alone.
ghost use Rattle.auto_answer.specs.Laws.{OwnWishesDecide, MayBeExchanged, AllIsEachAlone, OnceIsEnough, FreeingRefuses};

/// The laws of automatic answers, for every state with a mark for each wish. The call does nothing.
pub fn laws_of_automatic_answers()
    ensures own { OwnWishesDecide }
    ensures exchange { MayBeExchanged }
    ensures alone { AllIsEachAlone }
    ensures once { OnceIsEnough }
    ensures refuses { FreeingRefuses }
{}
