//! Laws of answers, as theorems.
ghost use Rattle.day_state.specs.Laws.{AnswersStayApart, FitsApart, OrderIsFree, MayExchange};

/// What one candidate answers touches no other: their wishes follow their own answers alone, and
/// answers of different candidates may come in any order. It does nothing when it is called: its
/// clauses are theorems.
pub fn candidates_stand_apart()
    ensures marks { AnswersStayApart }
    ensures fits { FitsApart }
    ensures order { OrderIsFree }
    ensures exchange { MayExchange }
{}
