//! Witnesses of the laws of evenings, of nights, of call limits and of those who
//! stand ahead.
ghost use Rattle.law_cases.specs.Evenings.{AheadGrowsOnlyWithABarWitness, AheadOfThirteen, BedsEverHeldWouldDoWitness, EveningBarsAreNoLowerWitness, IsNotKeptWaitingWitness, LastBarsStillFitWitness, MoreBedsChangeNothingWitness, NeverMoreThanSeatsAndLimitWitness, NoBarFallsOvernightWitness, NoMoreAheadWitness, PassesAreFewWitness, SeatAndBedAreNeverBothIdleWitness, ThreeAreLive};

/// Of the laws of each day and its evening.
pub fn witnesses_of_days_and_evenings()
    ensures few { PassesAreFewWitness }
    ensures idle { SeatAndBedAreNeverBothIdleWitness }
    ensures waiting { IsNotKeptWaitingWitness }
    ensures fit { LastBarsStillFitWitness }
    ensures no_lower { EveningBarsAreNoLowerWitness }
{}

/// Of the laws of bars over whole campaigns.
pub fn witnesses_of_campaign_bars()
    ensures overnight { NoBarFallsOvernightWitness }
    ensures ahead { AheadGrowsOnlyWithABarWitness }
    ensures no_more { NoMoreAheadWitness }
    ensures thirteenth { AheadOfThirteen }
    ensures more_beds { MoreBedsChangeNothingWitness }
    ensures held { BedsEverHeldWouldDoWitness }
{}

/// Of the law of seats and call limits.
pub fn witness_of_limits()
    ensures limit { NeverMoreThanSeatsAndLimitWitness }
    ensures three { ThreeAreLive }
{}
