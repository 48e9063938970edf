//! The candidates' first wishes.
ghost use Rattle.std.specs.Prelude.{◌≡◌, [], nat_eq};
ghost use Rattle.dossier_check.specs.RowsBefore.{AreAsMany, first_of};

use crate::row_ids::RowIds;
use admit_core::OutOfMemory;
use keyed_hash::Keyed;
use std::alloc::Global;

/// What is kept of a candidate's first wish: the row's number, and the preference.
#[derive(Clone, Copy)]
pub(crate) struct FirstWish {
    pub(crate) row: u64,
    pub(crate) preference: u32,
}

/// The first wish of each candidate, by the candidates' places. Where candidates rise, nothing is
/// hashed.
pub(crate) struct FirstWishes {
    pub(crate) alloc: Global,
    pub(crate) keyed: Keyed,
    pub(crate) candidates: RowIds,
    pub(crate) wishes: Vec<FirstWish>,
}

// Not derived: so it is dropped in one step where it is held, and not by each list.
impl Drop for FirstWishes {
    fn drop(self) {
        let FirstWishes {
            alloc: _,
            keyed: _,
            candidates: _,
            wishes: _,
        } = self;
    }
}

impl FirstWishes {
    ghost use Rattle.std.specs.Prelude.{ℕ, if◌then◌else◌, IfOk, IsSome, OnErr, None, Some, slice_get};

    /// Those of no candidates.
    pub(crate) fn new(alloc: Global, keyed: Keyed) -> FirstWishes
        ensures candidates { result.candidates.keys ≡ [] }
        ensures wishes { result.wishes.items ≡ [] }
    {
        FirstWishes {
            alloc,
            keyed,
            candidates: RowIds::new(alloc),
            wishes: Vec::new(alloc),
        }
    }

    /// The first wish of the candidate at a place.
    #[inline(always)]
    fn at(&self, place: usize) -> Option<FirstWish>
        ensures { result ≡ slice_get self.now.wishes.items place }
    {
        self.wishes.get(place).copied()
    }

    /// Notes a wish of a candidate, unless they had one before; then answers that one.
    #[inline(always)]
    pub(crate) fn note(
        &mut self,
        candidate: u32,
        own: FirstWish,
    ) -> Result<Option<FirstWish>, OutOfMemory>
        ensures first { IfOk result (λ first. first ≡ first_of self.old candidate) }
        ensures kept { IfOk result (λ first. IsSome first →
            (k : ℕ) → first_of self.new k ≡ first_of self.old k) }
        ensures noted { AreAsMany self.old → IfOk result (λ first. first ≡ None → (k : ℕ) →
            first_of self.new k ≡ (if nat_eq candidate k then Some own
            else first_of self.old k)) }
        ensures as_many { AreAsMany self.old → IfOk result (λ first. AreAsMany self.new) }
        ensures told { OnErr result (first_of self.old candidate ≡ None) }
    {
        if let Some(place) = self.candidates.add(self.alloc, self.keyed, candidate)? {
            return Ok(self.at(place));
        }
        self.wishes.push(own)?;
        Ok(None)
    }

    /// The candidates.
    pub(crate) fn into_candidates(self) -> RowIds
        ensures { result ≡ self.candidates }
    {
        let FirstWishes {
            alloc: _,
            keyed: _,
            candidates,
            wishes: _,
        } = self;
        candidates
    }
}
