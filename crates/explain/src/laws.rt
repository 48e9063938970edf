//! The laws of explanations, over definitions alone.
ghost use Rattle.explain.specs.Laws.{EachHasOne, EachIsListed};
ghost use Rattle.explain.specs.Laws.{DaysEndSo, DesksEndSo};
ghost use Rattle.explain.specs.Laws.{DaysFixThem, CampaignsFixThem};

/// The laws of explanations. The call does nothing: its clauses are theorems.
pub fn laws_of_explanations()
    ensures one { EachHasOne }
    ensures listed { EachIsListed }
    ensures days { DaysEndSo }
    ensures desks { DesksEndSo }
    ensures fixed_by_days { DaysFixThem }
    ensures fixed_by_campaigns { CampaignsFixThem }
{}
