//! The laws of beds, over definitions alone.
ghost use Rattle.bed_need.specs.BedLaws.{GreatestBarsDoNotFall};
ghost use Rattle.bed_need.specs.Figures.{FiguresAreFixed};

/// What holds of beds and bars in every state. The call does nothing: its clauses are theorems.
pub fn laws_of_beds()
    ensures bars { GreatestBarsDoNotFall }
    ensures figures { FiguresAreFixed }
{}
