//! What holds of bars over whole campaigns, as theorems over the definitions.
ghost use Rattle.campaign_bars.specs.Ahead.{AheadGrowsOnlyWithABar};
ghost use Rattle.campaign_bars.specs.HeldBeds.{BedsEverHeldWouldDo};
ghost use Rattle.campaign_bars.specs.MoreBeds.{MoreBedsChangeNothing};
ghost use Rattle.campaign_bars.specs.Overnight.{NoBarFallsOvernight};

/// Where nobody answers, no offer lapses and no ceiling is lower, no bar of a day's first pass is
/// below that of the last pass of the day before.
pub fn law_of_nights()
    ensures overnight { NoBarFallsOvernight }
{}

/// How many stand ahead of a wish grows from one pass to the next only where a bar rose, if no
/// candidate has two wishes of one programme.
#[tactic(auto, using(crate::proofs::Ahead::ahead_grows_only_with_a_bar))]
pub fn law_of_those_ahead()
    ensures ahead { AheadGrowsOnlyWithABar }
{}

/// Where a school's bar stands at its ceiling in each pass, more beds there change nothing but the
/// free beds.
#[tactic(auto, using(crate::proofs::MoreBeds::more_beds_change_nothing))]
pub fn law_of_more_beds()
    ensures more_beds { MoreBedsChangeNothing }
{}

/// And as many beds there as were ever held at once would do.
#[tactic(auto, using(crate::proofs::MoreBeds::beds_ever_held_would_do))]
pub fn law_of_held_beds()
    ensures held { BedsEverHeldWouldDo }
{}
