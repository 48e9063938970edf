//! Worked cases of what is read and of what is made up: dates, slots and samples.
ghost use Rattle.law_cases.specs.Dates.{KnownDates, KnownNumbers, KnownTexts, LeapYears};
ghost use Rattle.law_cases.specs.Samples.{ChoicesOfTheFourth, SampleOfFour};
ghost use Rattle.law_cases.specs.Slots.{FieldCountFaults, FirstFaultOfShape, HeaderFaults, NumberFaults, RangeFaults, TooManyRowsFault, WordFaults};
ghost use Rattle.law_cases.specs.Slots.{OtherRows, ProgrammeRows, StateRows};

/// Known dates, with their numbers of days and their texts.
pub fn worked_dates()
    ensures leap_years { LeapYears }
    ensures numbers { KnownNumbers }
    ensures dates { KnownDates }
    ensures texts { KnownTexts }
{}

/// The rows of known slots.
pub fn worked_slots()
    ensures programmes { ProgrammeRows }
    ensures state { StateRows }
    ensures others { OtherRows }
{}

/// A slot of each fault of shape, as it is refused.
pub fn worked_shapes()
    ensures header { HeaderFaults }
    ensures field_count { FieldCountFaults }
    ensures number { NumberFaults }
    ensures range { RangeFaults }
    ensures word { WordFaults }
    ensures first { FirstFaultOfShape }
    ensures rows { TooManyRowsFault }
{}

/// The sample of four candidates, and the choices of a candidate among several programmes.
pub fn worked_samples()
    ensures four { SampleOfFour }
    ensures choices { ChoicesOfTheFourth }
{}
