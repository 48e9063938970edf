//! Sentences about whole days that seem to hold, and do not.
ghost use Rattle.campaign_laws.specs.NotPromised.{AcceptingCanCost, BedMoreCanPlaceFewer, SeatMoreCanPlaceFewer, AcceptingEarlierCanCost, AnswersCannotBeSplit, BedMoreCanLowerBar, BetterRankCanHarm, LeavingOutCanPay, QuittingCanCost, SeatMoreCanEmpty, WithdrawingCanCost, WithdrawingCanPay};

/// Twelve pairs of dossiers, alike but for one thing: somebody quits, a seat or a bed more, a wish
/// left out, a better rank, an answer given, given earlier or a day later. In each somebody loses
/// by what seems good, or what seems to change nothing changes the evening.
pub fn days_not_promised()
    ensures quitting_can_cost { QuittingCanCost }
    ensures seat_more_can_empty { SeatMoreCanEmpty }
    ensures leaving_out_can_pay { LeavingOutCanPay }
    ensures better_rank_can_harm { BetterRankCanHarm }
    ensures accepting_can_cost { AcceptingCanCost }
    ensures withdrawing_can_cost { WithdrawingCanCost }
    ensures withdrawing_can_pay { WithdrawingCanPay }
    ensures accepting_earlier_can_cost { AcceptingEarlierCanCost }
    ensures answers_cannot_be_split { AnswersCannotBeSplit }
    ensures bed_more_can_lower_bar { BedMoreCanLowerBar }
    ensures seat_more_can_place_fewer { SeatMoreCanPlaceFewer }
    ensures bed_more_can_place_fewer { BedMoreCanPlaceFewer }
{}
