//! The ranks of a school's row that are known, and which of them have a bed.
ghost use Rattle.std.specs.Prelude.{◌≡◌, ◌≤◌, ◌<◌, length, nat_le, IfNone, IfSome};
ghost use Rattle.linked_demand.specs.Rungs.{housed_in, rungs_of};
ghost use Rattle.linked_demand.specs.Housed.{GivesUp, kept, noted};

use crate::row_beds::RowBeds;
use std::marker::Model;

/// The ranks of a row up to the first demanded one that has no bed, or all of them, seen without
/// the row along which they are kept.
pub struct Housed<'a> {
    beds: RowBeds<'a>,
}

// Not derived: so it is dropped in one step where it is held.
impl Drop for Housed<'_> {
    fn drop(self) {
        let Housed { beds: _ } = self;
    }
}

impl<'a> Model for Housed<'a> {
    ghost use Rattle.std.specs.Prelude.{List};
    ghost use Rattle.linked_demand.specs.Rungs.{rungs_of, Rung};

    ghost Value = { List Rung };

    ghost view = { λ h. rungs_of h.beds };
}

impl<'a> Housed<'a> {
    /// The ranks that are known along a row.
    pub fn of(beds: RowBeds<'a>) -> Housed<'a>
        ensures { result ≡ rungs_of beds.entry }
    {
        Housed { beds }
    }

    /// Forgets all ranks past a number.
    pub fn cut(&mut self, to: u32)
        ensures { self.new ≡ kept (λ r. nat_le r to) self.old }
    {
        self.beds.cut(to);
    }

    /// Gives a rank a bed, if it is known, where there are so many beds. If that is one too many,
    /// the last rank that has one gives it up, and is answered.
    pub fn house(&mut self, rank: u32, beds: u32) -> Option<u32>
        ensures stays { IfNone result (self.new ≡ noted rank self.old) }
        ensures few { IfNone result (length (housed_in self.new) ≤ beds) }
        ensures gives_up { IfSome result (GivesUp (noted rank self.old) self.new) }
        ensures many { IfSome result (λ o. beds < length (housed_in (noted rank self.old))) }
    {
        self.beds.house(rank, beds)
    }
}
