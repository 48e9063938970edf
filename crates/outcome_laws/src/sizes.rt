//! The worked case of a slot's size.
ghost use Rattle.outcome_laws.specs.Sizes.{SizeFault};

/// The fault of shape that comes before a slot's header: a slot larger than a slot may be.
pub fn worked_sizes()
    ensures size { SizeFault }
{}
