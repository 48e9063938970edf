//! The first boarders of a school, up to which of them ranks are known, and which ranks have a bed.
ghost use Rattle.std.specs.Prelude.{◌≡◌, ℕ, ◌+◌, ◌≤◌, ◌<◌, ◌++◌, ◌∷◌, [], true, false, length, nat_le, nat_lt, replicate, IfNone, IfSome, IfOk};
ghost use Rattle.std.specs.List.Sorted.{IsNonDecreasingBy, IsPartitionPoint};
ghost use Rattle.admit_core.specs.Lists.{is_among};
ghost use Rattle.linked_demand.specs.Rungs.{housed_in, rungs_of, GoesBare, IsFirstOf};
ghost use Rattle.linked_demand.specs.Housed.{GivesUp, kept, last_rank, noted, ranks_of};

use crate::rows::RowWish;
use admit_core::OutOfMemory;
use std::alloc::Global;
use std::marker::Model;

/// The first boarders of a school by rank, how many of them are known, and a flag for each: it is
/// set at the first one of each known rank that has a bed. It counts these, and takes no memory
/// once it is made.
pub struct RowBeds<'a> {
    row: &'a [RowWish],
    known: usize,
    flags: Vec<bool>,
    count: usize,
}

// Not derived: so it is dropped in one step where it is held.
impl Drop for RowBeds<'_> {
    fn drop(self) {
        let RowBeds {
            row: _,
            known: _,
            flags: _,
            count: _,
        } = self;
    }
}

impl<'a> Model for RowBeds<'a> {
    ghost use Rattle.linked_demand.specs.Rungs.{AreBeds, BedRow};

    ghost Value = { BedRow };

    ghost view = { λ b. record { row = b.row.now; known = b.known; flags = b.flags.items } };

    ghost invariant = { λ b. AreBeds
        (record { row = b.row.now; known = b.known; flags = b.flags.items }) b.count };
}

/// The first item of a row that isn't below a rank.
fn first_item(row: &[RowWish], rank: u32) -> usize
    requires { IsNonDecreasingBy (λ x. x.rank) row.now }
    ensures within { result ≤ length row.now }
    ensures point { IsPartitionPoint (λ x. nat_lt x.rank rank ≡ true)
        (λ x. nat_lt x.rank rank ≡ false) row.now result }
{
    row.partition_point(|item| item.rank < rank)
}

impl<'a> RowBeds<'a> {
    /// A row of which everybody is known and nobody has a bed.
    pub fn along(alloc: Global, row: &'a [RowWish]) -> Result<RowBeds<'a>, OutOfMemory>
        requires { IsNonDecreasingBy (λ x. x.rank) row.now }
        ensures { IfOk result (λ b. b ≡ record {
          row = row.now;
          known = length row.now;
          flags = replicate (length row.now) false;
        }) }
    {
        let flags = vec![in alloc; false; row.len()]?;
        Ok(RowBeds {
            row,
            known: row.len(),
            flags,
            count: 0,
        })
    }

    /// How many ranks have a bed.
    fn count(&self) -> usize
        ensures { result ≡ length (housed_in (rungs_of self.now)) }
    {
        self.count
    }

    /// The last rank that is known, or 0.
    fn last(&self) -> u32
        ensures rank { result ≡ last_rank (rungs_of self.now) }
        ensures most { (r : ℕ) → is_among r (ranks_of (rungs_of self.now)) ≡ true → r ≤ result }
    {
        if self.known == 0 {
            return 0;
        }
        self.row[self.known - 1].rank
    }

    /// Makes the last boarder unknown, and answers their rank where it had a bed.
    fn step_back(&mut self) -> Option<u32>
        requires { 0 < self.old.known }
        ensures known { self.new.known + 1 ≡ self.old.known }
        ensures housed { IfSome result (λ r. rungs_of self.old
            ≡ rungs_of self.new ++ record { rank = r; housed = true } ∷ []) }
        ensures bare { IfNone result (GoesBare (rungs_of self.old) (rungs_of self.new)) }
    {
        let at = self.known - 1;
        self.known = at;
        if !self.flags[at] {
            return None;
        }
        self.flags[at] = false;
        self.count -= 1;
        Some(self.row[at].rank)
    }

    /// The first known boarder of a rank.
    fn place_of(&self, rank: u32) -> Option<usize>
        ensures found { IfSome result (IsFirstOf self.now rank) }
        ensures none { IfNone result (is_among rank (ranks_of (rungs_of self.now)) ≡ false) }
    {
        let at = first_item(&self.row[..self.known], rank);
        if rank == 0 {
            return None;
        }
        if at == self.known {
            return None;
        }
        if self.row[at].rank != rank {
            return None;
        }
        Some(at)
    }

    /// Notes that a rank has a bed, if it is known.
    fn note(&mut self, rank: u32)
        ensures rungs { rungs_of self.new ≡ noted rank (rungs_of self.old) }
        ensures same { self.new ≡ record self.old { flags = self.new.flags } }
    {
        if let Some(at) = self.place_of(rank) {
            if !self.flags[at] {
                self.flags[at] = true;
                self.count += 1;
            }
        }
    }

    /// Forgets all ranks past a number.
    pub fn cut(&mut self, to: u32)
        ensures { rungs_of self.new ≡ kept (λ r. nat_le r to) (rungs_of self.old) }
    {
        while self.last() > to {
            self.step_back();
        }
    }

    /// Forgets the last rank that has a bed, and all above it.
    fn give_up(&mut self) -> u32
        requires { 0 < length (housed_in (rungs_of self.old)) }
        ensures { GivesUp (rungs_of self.old) (rungs_of self.new) result }
    {
        let _ = &self.row; // learns the invariant
        'places: loop {
            if let Some(rank) = self.step_back() {
                return rank;
            }
        }
    }

    /// Gives a rank a bed, if it is known, where there are so many beds. If that is one too many,
    /// the last rank that has one gives it up, and is answered.
    pub fn house(&mut self, rank: u32, beds: u32) -> Option<u32>
        ensures stays { IfNone result (rungs_of self.new ≡ noted rank (rungs_of self.old)) }
        ensures few { IfNone result (length (housed_in (rungs_of self.new)) ≤ beds) }
        ensures gives_up { IfSome result (GivesUp (noted rank (rungs_of self.old))
            (rungs_of self.new)) }
        ensures many { IfSome result (λ o. beds
            < length (housed_in (noted rank (rungs_of self.old)))) }
        ensures same { IfNone result (self.new ≡ record self.old { flags = self.new.flags }) }
    {
        self.note(rank);
        if self.count() > beds as usize {
            return Some(self.give_up());
        }
        None
    }
}
