//! For each law a worked case that meets all its premises.
ghost use Rattle.campaign_laws.specs.Witnesses.{AutomaticAnswersClimbWitness, AutomaticEveningsAreStableWitness, CameByBetterRankWitness, CameFromBeforeWitness, GoesByTheTwoListsWitness, GoneStaysGoneWitness, IsKeptAcceptedWitness, IsKeptOfferedWitness, IsLaterMarkGoneStaysWitness, IsLaterMarkNeverAgainWitness, IsLaterMarkWaitedWitness, IsMatchingRoomWitness, NeverDescendsWitness, NeverMoreThanBedsWitness, NeverMoreThanSeatsWitness, NoBedGoesPastBarredWishesWitness, NobodyIsEverPassedOverWitness, NobodyIsPassedOverWithoutBoardingWitness, NotBothLiveWitness, OffersGoByTheTwoListsWitness, PlacesOfThirteen, QuietDaysChangeNothingWitness, StableMatchingsAreNoWorseWitness, WaitingPlaceNeverWorsensWitness, WhatIsYoursStaysWitness};

/// Of the laws of marks.
pub fn witnesses_of_marks()
    ensures gone { GoneStaysGoneWitness }
    ensures gone_stays { IsLaterMarkGoneStaysWitness }
    ensures never_again { IsLaterMarkNeverAgainWitness }
    ensures waited { IsLaterMarkWaitedWitness }
    ensures place { WaitingPlaceNeverWorsensWitness }
    ensures places { PlacesOfThirteen }
{}

/// Of the laws of turns.
pub fn witnesses_of_turns()
    ensures passed_over { NobodyIsEverPassedOverWitness }
    ensures without_boarding { NobodyIsPassedOverWithoutBoardingWitness }
    ensures came { CameFromBeforeWitness }
{}

/// Of the laws of beds and of the two lists.
pub fn witnesses_of_beds()
    ensures barred { NoBedGoesPastBarredWishesWitness }
    ensures came { CameByBetterRankWitness }
    ensures two_lists { OffersGoByTheTwoListsWitness }
    ensures same_wish { GoesByTheTwoListsWitness }
{}

/// Of the laws of silence.
pub fn witnesses_of_silence()
    ensures yours { WhatIsYoursStaysWitness }
    ensures accepted { IsKeptAcceptedWitness }
    ensures offered { IsKeptOfferedWitness }
    ensures climb { AutomaticAnswersClimbWitness }
    ensures descends { NeverDescendsWitness }
{}

/// Of the laws of room.
pub fn witnesses_of_room()
    ensures beds { NeverMoreThanBedsWitness }
    ensures seats { NeverMoreThanSeatsWitness }
{}

/// Of the laws of automatic days.
pub fn witnesses_of_automatic_days()
    ensures stable { AutomaticEveningsAreStableWitness }
    ensures not_both { NotBothLiveWitness }
    ensures room { IsMatchingRoomWitness }
    ensures no_worse { StableMatchingsAreNoWorseWitness }
{}

/// Of the law of quiet days.
pub fn witness_of_quiet_days()
    ensures quiet { QuietDaysChangeNothingWitness }
{}
