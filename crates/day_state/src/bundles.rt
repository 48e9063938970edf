//! Bundles: the wishes of one candidate in one programme, or in one school.
ghost use Rattle.std.specs.Prelude.{◌≡◌, ℕ, ◌<◌, ◌≤◌, ◌+◌, ◌^◌, ◌&&◌, ◌||◌, false, length, nat_lt, slice_index, slice_index_or, IfOk, OnOk, replicate};
ghost use Rattle.admit_core.specs.Lists.{is_among};
ghost use Rattle.std.specs.Option.{ForSome};
ghost use Rattle.day_state.specs.Bundles.{AreLaters, all_numbers, bundles_of, number_at, count_of, count_at, has_live, shared_in_all};
ghost use Rattle.admit_core.specs.State.{is_live};
ghost use Rattle.day_state.specs.Kept.{mark_in, one_if, recount_some};

use crate::bundle_numbers::{Later, number_all, shared_firsts};
use crate::live_counts::LiveCounts;
use crate::marks::Marks;
use crate::numbers::{BundleNumber, Numbers};
use admit_core::{OutOfMemory, Wish};
use flags::Flags;
use std::alloc::Global;
use std::rc::Rc;

/// Where candidates are live.
#[derive(Clone, Copy)]
pub enum Sites {
    Programmes,
    Schools,
}

/// Of each wish the number of its bundle, and of each bundle of two wishes or more the number of
/// its live wishes: a wish that is alone in its bundle is live where its mark is. The numbers
/// follow from the wishes, so copies share them.
#[derive(Drop)]
pub struct Bundles {
    numbers: Rc<Numbers>,
    live: LiveCounts,
}

/// Whether a bundle had a live wish, and whether it has one.
#[derive(Clone, Copy)]
pub struct Turn {
    pub had: bool,
    pub has: bool,
}

impl Bundles {
    /// The bundles of wishes by those that are not the first ones of theirs; none is live.
    pub fn build(
        alloc: Global,
        sites: Sites,
        wishes: &[Wish],
        laters: &[Later],
    ) -> Result<Bundles, OutOfMemory>
        requires few { length wishes.now < 2 ^ 31 }
        requires laters { AreLaters (bundles_of sites wishes.now) laters.now }
        ensures numbers { IfOk result (λ b. b.numbers.value ≡ all_numbers sites wishes.now) }
        ensures live { IfOk result (λ b. b.live
            ≡ replicate (shared_in_all sites wishes.now) 0) }
    {
        let shared = shared_firsts(alloc, laters)?;
        let live = LiveCounts::none(alloc, shared.len())?;
        let numbers = number_all(alloc, sites, wishes, &shared, laters)?;
        Ok(Bundles {
            numbers: Rc::new(alloc, numbers)?,
            live,
        })
    }

    /// The same bundles again.
    pub fn copy(&self, alloc: Global) -> Result<Bundles, OutOfMemory>
        ensures numbers { IfOk result (λ b. b.numbers.value ≡ self.now.numbers.value) }
        ensures live { IfOk result (λ b. b.live ≡ self.now.live) }
    {
        Ok(Bundles {
            numbers: self.numbers.clone()?,
            live: self.live.copy(alloc)?,
        })
    }

    /// Takes over how many wishes are live in each bundle of the same wishes.
    pub fn set_from(&mut self, other: &Bundles)
        requires { length self.old.live ≡ length other.now.live }
        ensures numbers { self.new.numbers.value ≡ self.old.numbers.value }
        ensures live { self.new.live ≡ other.now.live }
    {
        self.live.set_from(&other.live);
    }

    /// Whether one of a wish's bundle is live. These are the marks; that of the wish is read where
    /// it is alone.
    pub fn is_live(&self, wish: u32, marks: &Marks) -> bool
        requires place { wish < length self.now.numbers.value }
        requires mark { wish < length marks.now }
        ensures { result ≡ has_live self.now.live
            (number_at self.now.numbers.value wish) (is_live (mark_in marks.now wish)) }
    {
        has_live_by(&self.live, self.numbers.get(wish), marks, wish)
    }

    /// The number of a wish's bundle.
    pub fn number(&self, wish: u32) -> BundleNumber
        requires { wish < length self.now.numbers.value }
        ensures { result ≡ number_at self.now.numbers.value wish }
    {
        self.numbers.get(wish)
    }

    /// How many bundles have two wishes or more.
    pub fn shared(&self) -> usize
        ensures { result ≡ length self.now.live }
    {
        self.live.len()
    }

    /// The wishes that these flags have, of the bundles with a live one.
    pub fn beside_live(&self, alloc: Global, flags: &Flags) -> Result<Vec<u32>, OutOfMemory>
        ensures { IfOk result (λ v. (k : ℕ) → is_among k v.items
            ≡ (slice_index_or flags.now k false
            && has_live self.now.live (number_at self.now.numbers.value k) false)) }
    {
        let mut found = Vec::new(alloc);
        let mut from = 0;
        while let Some(number) = self.live.next_some(from) {
            push_set(&mut found, self.numbers.members(number), flags)?;
            from = number + 1;
        }
        Ok(found)
    }

    /// Whether a bundle has a live wish, by its number; a wish of it that is not live asks.
    pub fn is_live_beside(&self, number: BundleNumber) -> bool
        ensures { result ≡ has_live self.now.live number false }
    {
        match number {
            BundleNumber::NoSite | BundleNumber::Alone => false,
            BundleNumber::Shared(number) => self.live.has_some(number),
        }
    }

    /// Counts a wish anew that was live, or wasn't, and is live, or isn't.
    pub fn turn(&mut self, wish: u32, was_live: bool, lives: bool) -> Turn
        requires place { wish < length self.old.numbers.value }
        requires number { ForSome (count_at self.old.numbers.value wish)
            (λ n. n < length self.old.live) }
        requires comes { ForSome (count_at self.old.numbers.value wish)
            (λ n. slice_index self.old.live n + one_if lives < 2 ^ 32) }
        requires goes { ForSome (count_at self.old.numbers.value wish)
            (λ n. one_if was_live ≤ slice_index self.old.live n + one_if lives) }
        ensures numbers { self.new.numbers.value ≡ self.old.numbers.value }
        ensures live { self.new.live ≡ recount_some self.old.live
            (count_at self.old.numbers.value wish) was_live lives }
        ensures had { result.had ≡ has_live self.old.live
            (number_at self.old.numbers.value wish) was_live }
        ensures has { result.has ≡ has_live self.new.live
            (number_at self.old.numbers.value wish) lives }
    {
        let number = self.numbers.get(wish);
        let had = has_live(&self.live, number, was_live);
        self.live.recount(number.count(), was_live, lives);
        let has = has_live(&self.live, number, lives);
        Turn { had, has }
    }
}

/// Whether a bundle has a live wish. Where a wish is alone in it, the mark of that wish tells it.
fn has_live_by(live: &LiveCounts, number: BundleNumber, marks: &Marks, wish: u32) -> bool
    requires { wish < length marks.now }
    ensures { result ≡ has_live live.now number (is_live (mark_in marks.now wish)) }
{
    match number {
        BundleNumber::NoSite => false,
        BundleNumber::Alone => marks.is_live(wish),
        BundleNumber::Shared(_) => has_live(live, number, false),
    }
}

/// Whether a bundle has a live wish; `lives` tells it of the wish that was asked about.
fn has_live(live: &LiveCounts, number: BundleNumber, lives: bool) -> bool
    ensures { result ≡ has_live live.now number lives }
{
    match number {
        BundleNumber::NoSite => false,
        BundleNumber::Alone => lives,
        BundleNumber::Shared(number) => live.has_some(number),
    }
}

/// Lists those of some places whose flags are set.
fn push_set(found: &mut Vec<u32>, places: &[u32], flags: &Flags) -> Result<(), OutOfMemory>
    ensures { OnOk result ((k : ℕ) → is_among k found.new.items ≡ (is_among k found.old.items
        || (is_among k places.now && slice_index_or flags.now k false))) }
{
    for place in places {
        if flags.get(*place) {
            found.push(*place)?;
        }
    }
    Ok(())
}
