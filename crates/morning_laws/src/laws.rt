//! What the dates of a final state become.
ghost use Rattle.morning_laws.specs.ReadOffers.{ReadOffersStandAlike};

/// The dates that an evening's final lines have, read where the campaign begins as many days
/// later, are the days of its open offers.
pub fn law_of_read_offers()
    ensures offers { ReadOffersStandAlike }
{}
