//! What holds of every campaign, as theorems over the definitions.
ghost use Rattle.campaign_laws.specs.AutomaticDay.{AutomaticEveningsAreStable, StableMatchingsAreNoWorse};
ghost use Rattle.campaign_laws.specs.Beds.{NoBedGoesPastBarredWishes, OffersGoByTheTwoLists};
ghost use Rattle.campaign_laws.specs.Kept.{AutomaticAnswersClimb, WhatIsYoursStays};
ghost use Rattle.campaign_laws.specs.OneMark.{GoneStaysGone};
ghost use Rattle.campaign_laws.specs.PassedOver.{NobodyIsEverPassedOver, NobodyIsPassedOverWithoutBoarding};
ghost use Rattle.campaign_laws.specs.QuietDays.{QuietDaysChangeNothing};
ghost use Rattle.campaign_laws.specs.Room.{NeverMoreThanBeds, NeverMoreThanSeats, NeverMoreThanSeatsAndLimit};
ghost use Rattle.campaign_laws.specs.WaitingPlace.{WaitingPlaceNeverWorsens};

/// What is gone stays gone, and what is live never waits again; and of those who stand before a
/// candidate in a call order, there are never more who wait for the programme than before.
pub fn laws_of_marks()
    ensures gone { GoneStaysGone }
    ensures place { WaitingPlaceNeverWorsens }
{}

/// While a wish waits that no bar ever stopped, whoever becomes live in its programme stands before
/// its candidate in the call order.
pub fn laws_of_turns()
    ensures passed_over { NobodyIsEverPassedOver }
    ensures without_boarding { NobodyIsPassedOverWithoutBoarding }
{}

/// While a wish is barred in every opening, whoever becomes live in its school ranks better there;
/// and whoever is offered the programme and school of a waiting wish stands before its candidate in
/// the call order or ranks better in the school.
pub fn laws_of_beds()
    ensures barred { NoBedGoesPastBarredWishes }
    ensures two_lists { OffersGoByTheTwoLists }
{}

/// A candidate who answers in person, and gives no answer, keeps what they accepted, and each offer
/// unless it lapses. One who is answered for automatically, and gives no answer, only ever loses an
/// accepted wish to one that they rank better.
pub fn laws_of_silence()
    ensures yours { WhatIsYoursStays }
    ensures climb { AutomaticAnswersClimb }
{}

/// At no moment are more live in a school than it has beds, or were live at first; nor in a
/// programme without a call limit than it has seats, or were live at first; nor in one with a
/// limit, of those whom the limit does not call.
pub fn laws_of_room()
    ensures beds { NeverMoreThanBeds }
    ensures seats { NeverMoreThanSeats }
    ensures limit { NeverMoreThanSeatsAndLimit }
{}

/// Where all answer automatically, all wait at first, no wish has a school and no programme a call
/// limit, the evening is a stable matching, and the worst one for every candidate.
pub fn laws_of_automatic_days()
    ensures stable { AutomaticEveningsAreStable }
    ensures no_worse { StableMatchingsAreNoWorse }
{}

/// A day on which nobody answers, no offer lapses and no ceiling is new, after another day, has one
/// pass, offers nothing and leaves the evening as it was.
pub fn law_of_quiet_days()
    ensures quiet { QuietDaysChangeNothing }
{}
