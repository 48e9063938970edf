//! For the law a worked case that meets all its premises.
ghost use Rattle.morning_laws.specs.Witnesses.{ReadOffersStandAlikeWitness};

/// Of the law of read offers.
pub fn witness_of_read_offers()
    ensures offers { ReadOffersStandAlikeWitness }
{}
