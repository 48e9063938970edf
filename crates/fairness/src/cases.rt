//! Sentences that seem to hold, and do not.
ghost use Rattle.fairness.specs.NotPromised.{BetterBoardingRank, BetterRank, OneBedMore, OneSeatMore, SharedGroup, ToBeAScholar};

/// Six pairs of dossiers, alike but for one thing that seems good for a candidate: in each,
/// somebody loses an offer by it.
pub fn not_promised()
    ensures one_seat_more { OneSeatMore }
    ensures one_bed_more { OneBedMore }
    ensures better_rank { BetterRank }
    ensures better_boarding_rank { BetterBoardingRank }
    ensures to_be_a_scholar { ToBeAScholar }
    ensures shared_group { SharedGroup }
{}
