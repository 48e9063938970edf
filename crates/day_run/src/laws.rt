//! The laws of days, over definitions alone.
ghost use Rattle.day_run.specs.CampaignLaws.{CampaignsAreFixed};
ghost use Rattle.desk_day.specs.DayLaws.{OnlyFallsDiffer};

/// The laws of days. The call does nothing.
pub fn laws_of_days()
    ensures day { OnlyFallsDiffer }
    ensures campaign { CampaignsAreFixed }
{}
