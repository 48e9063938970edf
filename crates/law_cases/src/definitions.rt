//! Worked cases of definitions.
ghost use Rattle.law_cases.specs.Definitions.{FreedByOne, LimitExplained, NameOfRank, OneIsAnsweredFor, OwnAnswers, PickersChoose, StillOverBehind, UnfitRow};
ghost use Rattle.law_cases.specs.Definitions.{MixedTheOtherWay, RepeatedRows, UnknownNames};

/// What definitions give in cases that no other theorem has.
pub fn worked_definitions()
    ensures names { NameOfRank }
    ensures limit { LimitExplained }
    ensures still_over { StillOverBehind }
    ensures answered { OneIsAnsweredFor }
    ensures freed { FreedByOne }
    ensures own { OwnAnswers }
    ensures unfit { UnfitRow }
    ensures pickers { PickersChoose }
{}

/// What the first fault between rows is in cases that no other theorem has.
pub fn worked_relations()
    ensures mixed { MixedTheOtherWay }
    ensures repeats { RepeatedRows }
    ensures unknown { UnknownNames }
{}
