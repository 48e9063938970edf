//! The numbers of bundles: two flags a wish, and an entry for each wish that shares a bundle.
ghost use Rattle.std.specs.Prelude.{◌≡◌, ℕ, ◌+◌, ◌<◌, ◌^◌, ◌==◌, ◌/◌, All, length, slice_index, take, IfOk};
ghost use Rattle.std.specs.List.{find};
ghost use Rattle.admit_core.specs.Lists.{is_among};
ghost use Rattle.day_state.specs.Members.{has_number};
ghost use Rattle.day_state.specs.Bundles.{AreEntriesOf, AreStarts, number_at, count_of, number_found, numbers_with};

use crate::members::Members;
use admit_core::OutOfMemory;
use flags::Flags;
use std::alloc::Global;
use std::marker::Model;

/// The bundle of a wish: none without a site, the wish alone, or one of more wishes, with its
/// number.
#[derive(Clone, Copy)]
pub enum BundleNumber {
    NoSite,
    Alone,
    Shared(u32),
}

impl BundleNumber {
    /// The number of a bundle of two wishes or more.
    pub fn count(self) -> Option<u32>
        ensures { result ≡ count_of self }
    {
        match self {
            BundleNumber::NoSite | BundleNumber::Alone => None,
            BundleNumber::Shared(number) => Some(number),
        }
    }
}

/// A wish that shares its bundle with others, and the bundle's number.
#[derive(Clone, Copy)]
pub struct SharedWish {
    pub wish: u32,
    pub number: u32,
}

/// A block is so many wishes: their entries are sought from one place on.
const BLOCK: u32 = 64;

/// Of each wish the number of its bundle. Few wishes share a bundle, and only these have an entry.
pub struct Numbers {
    /// Whether a wish has a site.
    sited: Flags,
    /// Whether a wish has an entry.
    several: Flags,
    entries: Vec<SharedWish>,
    /// For each block a place before which none of its entries stands; without one, the first.
    starts: Vec<usize>,
    members: Members,
}

// Not derived: so numbers are dropped in one step where they are held.
impl Drop for Numbers {
    fn drop(self) {
        let Numbers {
            sited: _,
            several: _,
            entries: _,
            starts: _,
            members: _,
        } = self;
    }
}

impl Model for Numbers {
    ghost use Rattle.std.specs.Prelude.{List};
    ghost use Rattle.day_state.specs.declared.numbers.BundleNumber.{BundleNumber};
    ghost use Rattle.day_state.specs.Bundles.{numbers_with};
    ghost use Rattle.day_state.specs.Members.{AreNumbers};

    ghost Value = { List BundleNumber };

    ghost view = { λ n. numbers_with n.sited n.several n.entries.items };

    ghost invariant = { λ n. AreNumbers n.sited n.several n.entries.items n.starts.items
        n.members };
}

impl Numbers {
    /// Numbers by which wishes have a site, which have an entry, and the entries. Where these
    /// ascend by wish, a number is found among the entries of one block.
    pub fn new(
        alloc: Global,
        sited: Flags,
        several: Flags,
        entries: Vec<SharedWish>,
    ) -> Result<Numbers, OutOfMemory>
        requires { AreEntriesOf (numbers_with sited several entries.items) entries.items }
        ensures { IfOk result (λ n. n ≡ numbers_with sited several entries.items) }
    {
        let starts = starts_of(alloc, &entries)?;
        let members = Members::build(alloc, &entries)?;
        Ok(Numbers {
            sited,
            several,
            entries,
            starts,
            members,
        })
    }

    /// The wishes of the bundle with a number.
    pub fn members(&self, number: usize) -> &[u32]
        requires { number + 1 < 2 ^ 64 }
        ensures { (k : ℕ) → is_among k result.now ≡ has_number number (number_at self.now k) }
    {
        let _ = &self.several; // learns the invariant
        self.members.of(number)
    }

    /// The number of a wish.
    pub fn get(&self, wish: u32) -> BundleNumber
        requires { wish < length self.now }
        ensures { result ≡ number_at self.now wish }
    {
        if self.several.get(wish) {
            let start = start_of(&self.starts, wish);
            return BundleNumber::Shared(number_from(&self.entries, start, wish));
        }
        if self.sited.get(wish) {
            BundleNumber::Alone
        } else {
            BundleNumber::NoSite
        }
    }
}

/// For each block, up to the last one with an entry, a place before which none of its entries
/// stands. Where the entries ascend by wish, it is that of the first entry that is not before.
fn starts_of(alloc: Global, entries: &[SharedWish]) -> Result<Vec<usize>, OutOfMemory>
    ensures { IfOk result (λ v. AreStarts entries.now v.items) }
{
    let mut starts = Vec::new(alloc);
    for (place, entry) in entries.iter().enumerate() {
        let blocks = (entry.wish / BLOCK) as usize + 1;
        if starts.len() < blocks {
            starts.resize(blocks, place)?;
        }
    }
    Ok(starts)
}

/// Where the entries of a wish's block are sought from; past the last block that is 0.
fn start_of(starts: &Vec<usize>, wish: u32) -> usize
    ensures { result ≡ slice_index starts.now.items (wish / 64) }
{
    match starts.as_slice().get((wish / BLOCK) as usize) {
        None => 0,
        Some(start) => *start,
    }
}

/// The number of the bundle of a wish by its entry, which stands at a place or behind it.
fn number_from(entries: &Vec<SharedWish>, start: usize, wish: u32) -> u32
    requires { All (λ e. e.wish / 64 < wish / 64) (take start entries.now.items) }
    ensures { result ≡ number_found (find (λ e. e.wish == wish) entries.now.items) }
{
    for place in start..entries.len() {
        if entries[place].wish == wish {
            return entries[place].number;
        }
    }
    0
}
