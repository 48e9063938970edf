//! The kinds of candidates.
ghost use Rattle.std.specs.Prelude.{◌≡◌, ◌<◌, ◌≤◌, length};
ghost use Rattle.std.specs.List.{position_or_len};
ghost use Rattle.call_order.specs.Kinds.{kind_of, is_of, next_place};

use admit_core::Ranked;

/// The kinds of candidates, by whether they are scholars and residents.
#[derive(Clone, Copy, Debug, PartialEq, Eq)]
pub enum Kind {
    Neither,
    ScholarOnly,
    ResidentOnly,
    BothKinds,
}

impl Kind {
    /// The kind of a candidate.
    pub fn of(ranked: &Ranked) -> Kind
        ensures { result ≡ kind_of ranked.now }
    {
        match (ranked.scholar, ranked.resident) {
            (false, false) => Kind::Neither,
            (true, false) => Kind::ScholarOnly,
            (false, true) => Kind::ResidentOnly,
            (true, true) => Kind::BothKinds,
        }
    }

    /// Whether a candidate is of this kind.
    pub fn includes(self, ranked: &Ranked) -> bool
        ensures { result ≡ is_of self ranked.now }
    {
        match self {
            Kind::Neither => !ranked.scholar && !ranked.resident,
            Kind::ScholarOnly => ranked.scholar && !ranked.resident,
            Kind::ResidentOnly => !ranked.scholar && ranked.resident,
            Kind::BothKinds => ranked.scholar && ranked.resident,
        }
    }

    /// The place of the first of this kind, or the list's length.
    pub(crate) fn first_place(self, list: &[Ranked]) -> usize
        ensures first { result ≡ position_or_len (is_of self) list.now }
        ensures within { result ≤ length list.now }
    {
        list.iter()
            .take_while(|ranked| !self.includes(ranked))
            .count()
    }

    /// The next place of this kind after a place, or the end of the list.
    pub(crate) fn next_place(self, list: &[Ranked], place: usize) -> usize
        requires { place < length list.now }
        ensures next { result ≡ next_place self place list.now }
        ensures within { result ≤ length list.now }
    {
        let next = place + 1;
        next + self.first_place(&list[next..])
    }
}
