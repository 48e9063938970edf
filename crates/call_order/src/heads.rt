//! The places of the four heads.
ghost use Rattle.std.specs.Prelude.{◌≡◌};
ghost use Rattle.std.specs.List.{position_or_len};
ghost use Rattle.call_order.specs.Heads.{first_place, place_of, moved};
ghost use Rattle.call_order.specs.Kinds.{is_of};

use crate::kind::Kind;
use admit_core::{Bound, Ranked};

/// The place in a list of the first of each kind who remains, or the list's length.
#[derive(Clone, Copy)]
pub(crate) struct Heads {
    pub neither: usize,
    pub scholar_only: usize,
    pub resident_only: usize,
    pub both_kinds: usize,
}

/// The first places of the kinds in a list.
pub(crate) fn first_heads(list: &[Ranked]) -> Heads
    ensures { (kind : Kind) → place_of result kind ≡ position_or_len (is_of kind) list.now }
{
    Heads {
        neither: Kind::Neither.first_place(list),
        scholar_only: Kind::ScholarOnly.first_place(list),
        resident_only: Kind::ResidentOnly.first_place(list),
        both_kinds: Kind::BothKinds.first_place(list),
    }
}

impl Heads {
    /// The place of a kind's head.
    pub fn place(&self, kind: Kind) -> usize
        ensures { result ≡ place_of self.now kind }
    {
        match kind {
            Kind::Neither => self.neither,
            Kind::ScholarOnly => self.scholar_only,
            Kind::ResidentOnly => self.resident_only,
            Kind::BothKinds => self.both_kinds,
        }
    }

    /// The first place of the kinds that a bound lets be called.
    pub fn first(&self, bound: Bound) -> usize
        ensures { result ≡ first_place self.now bound }
    {
        match bound {
            Bound::Free => self
                .neither
                .min(self.scholar_only)
                .min(self.resident_only.min(self.both_kinds)),
            Bound::Scholar | Bound::Alone => self.scholar_only.min(self.both_kinds),
            Bound::Resident => self.resident_only.min(self.both_kinds),
            Bound::Both => self.both_kinds,
        }
    }

    /// Moves a kind's head.
    pub fn move_to(&mut self, kind: Kind, place: usize)
        ensures { self.new ≡ moved self.old kind place }
    {
        match kind {
            Kind::Neither => self.neither = place,
            Kind::ScholarOnly => self.scholar_only = place,
            Kind::ResidentOnly => self.resident_only = place,
            Kind::BothKinds => self.both_kinds = place,
        }
    }
}
