//! The wishes of each bundle of two wishes or more.
ghost use Rattle.std.specs.Prelude.{◌≡◌, ◌+◌, ◌<◌, ◌^◌, ℕ, length, map, IfOk};
ghost use Rattle.std.specs.List.Sorted.{IsNonDecreasingBy};
ghost use Rattle.day_state.specs.Members.{AreBegins, AreMembers, begin_in, members_at};

use crate::numbers::SharedWish;
use admit_core::OutOfMemory;
use std::alloc::Global;
use std::marker::Model;

/// The wishes of each bundle of two wishes or more, by the bundle's number. Those of one bundle
/// stand side by side, and each number has the place where its wishes begin.
pub struct Members {
    wishes: Vec<u32>,
    begins: Vec<usize>,
}

// Not derived: so members are dropped in one step where they are held.
impl Drop for Members {
    fn drop(self) {
        let Members {
            wishes: _,
            begins: _,
        } = self;
    }
}

impl Model for Members {
    ghost use Rattle.std.specs.Prelude.{ℕ, List, length};
    ghost use Rattle.day_state.specs.Members.{members_by, BeginsRise};

    ghost Value = { List (List ℕ) };

    ghost view = { λ m. members_by m.wishes.items m.begins.items };

    ghost invariant = { λ m. BeginsRise (length m.wishes.items) m.begins.items };
}

impl Members {
    /// The members of the bundles by the entries of their wishes.
    pub fn build(alloc: Global, entries: &[SharedWish]) -> Result<Members, OutOfMemory>
        ensures { IfOk result (AreMembers entries.now) }
    {
        let mut sorted = entries.to_vec(alloc)?;
        sorted.sort_unstable_by_key(|entry| entry.number);
        let begins = begins_of(alloc, &sorted)?;
        let wishes = wishes_of(alloc, &sorted)?;
        Ok(Members { wishes, begins })
    }

    /// The wishes of the bundle with a number; none where there is no such bundle.
    pub fn of(&self, number: usize) -> &[u32]
        requires { number + 1 < 2 ^ 64 }
        ensures { result.now ≡ members_at self.now number }
    {
        let count = self.wishes.len();
        let from = begin_in(&self.begins, count, number);
        let to = begin_in(&self.begins, count, number + 1);
        &self.wishes.as_slice()[from..to]
    }
}

/// Where the wishes of the bundle with a number begin: behind all of so many, past the last bundle.
fn begin_in(begins: &Vec<usize>, count: usize, number: usize) -> usize
    ensures { result ≡ begin_in count begins.now.items number }
{
    match begins.as_slice().get(number) {
        None => count,
        Some(begin) => *begin,
    }
}

/// The wishes of entries.
fn wishes_of(alloc: Global, entries: &[SharedWish]) -> Result<Vec<u32>, OutOfMemory>
    ensures { IfOk result (λ v. v.items ≡ map (λ e. e.wish) entries.now) }
{
    Ok(entries.iter().map(|entry| entry.wish).collect(alloc)?)
}

/// For each number up to the last one of an entry the place of the first entry that has it or a
/// greater one, where entries ascend by number.
fn begins_of(alloc: Global, entries: &[SharedWish]) -> Result<Vec<usize>, OutOfMemory>
    requires { IsNonDecreasingBy (λ e. e.number) entries.now }
    ensures { IfOk result (λ v. AreBegins entries.now v.items) }
{
    let mut begins = Vec::new(alloc);
    for (place, entry) in entries.iter().enumerate() {
        let numbers = entry.number as usize + 1;
        if begins.len() < numbers {
            begins.resize(numbers, place)?;
        }
    }
    Ok(begins)
}
