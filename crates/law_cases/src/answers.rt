//! Witnesses of the laws of answers.
ghost use Rattle.law_cases.specs.Answers.{AllIsEachAloneWitness, FreeingRefusesWitness, MayBeExchangedWitness, OnceIsEnoughWitness, OwnWishesDecideWitness, SameOwnMarksEachWitness};
ghost use Rattle.law_cases.specs.Answers.{AnswersStayApartWitness, AreOwnWitness, FitsApartWitness, MayExchangeWitness, OrderIsFreeWitness};

/// Of the laws of automatic answers.
pub fn witnesses_of_automatic_answers()
    ensures own { OwnWishesDecideWitness }
    ensures marks { SameOwnMarksEachWitness }
    ensures exchange { MayBeExchangedWitness }
    ensures alone { AllIsEachAloneWitness }
    ensures once { OnceIsEnoughWitness }
    ensures refuses { FreeingRefusesWitness }
{}

/// Of the laws by which candidates stand apart.
pub fn witnesses_of_answers()
    ensures marks { AnswersStayApartWitness }
    ensures own { AreOwnWitness }
    ensures fits { FitsApartWitness }
    ensures order { OrderIsFreeWitness }
    ensures exchange { MayExchangeWitness }
{}
