//! Flags in words of 64 bits.
ghost use Rattle.std.specs.Prelude.{◌≡◌, ◌<◌, false, length, replicate, slice_index_or, slice_set, IfOk};
ghost use Rattle.flags.specs.Words.{IsNextBit, IsNextSet};

use std::alloc::{AllocError, Global};
use std::marker::Model;

/// A list of flags by place, counted from 0. It takes no memory once it is made.
pub struct Flags {
    /// The flag at a place is bit `place % 64` of word `place / 64`, counted from the least.
    words: Vec<u64>,
    count: usize,
}

// Not derived: so flags are dropped in one step where they are held.
impl Drop for Flags {
    fn drop(self) {
        let Flags { words: _, count: _ } = self;
    }
}

impl Model for Flags {
    ghost use Rattle.std.specs.Prelude.{◌≡◌, List, Bool, length};
    ghost use Rattle.std.specs.Int.{div_ceil};
    ghost use Rattle.flags.specs.Words.{flags_of};

    ghost Value = { List Bool };

    ghost view = { λ f. flags_of f.words.items f.count };

    ghost invariant = { λ f. length f.words.items ≡ div_ceil f.count 64 };
}

impl Flags {
    /// So many flags, all the same.
    pub fn all(alloc: Global, count: usize, flag: bool) -> Result<Flags, AllocError>
        ensures { IfOk result (λ f. f ≡ replicate count flag) }
    {
        let word = if flag { u64::MAX } else { 0 };
        let words = vec![in alloc; word; count.div_ceil(64)]?;
        Ok(Flags { words, count })
    }

    /// The same flags again.
    pub fn copy(&self, alloc: Global) -> Result<Flags, AllocError>
        ensures { IfOk result (λ f. f ≡ self.now) }
    {
        Ok(Flags {
            words: self.words.as_slice().to_vec(alloc)?,
            count: self.count,
        })
    }

    /// Takes over as many flags of another list.
    pub fn set_from(&mut self, other: &Flags)
        requires { length self.old ≡ length other.now }
        ensures { self.new ≡ other.now }
    {
        self.words
            .as_mut_slice()
            .copy_from_slice(other.words.as_slice());
    }

    /// How many flags there are.
    #[inline(always)]
    pub fn len(&self) -> usize
        ensures { result ≡ length self.now }
    {
        self.count
    }

    /// The flag at a place: none is set past the last one.
    #[inline(always)]
    pub fn get(&self, place: u32) -> bool
        ensures { result ≡ slice_index_or self.now place false }
    {
        let at = place as usize;
        at < self.count && (self.words[at / 64] >> (place % 64)) & 1 == 1
    }

    /// The first place whose flag is set, from one place on. The flags of a word are passed over
    /// together.
    pub fn next_set(&self, from: usize) -> Option<usize>
        ensures { IsNextSet self.now from result }
    {
        let count = self.len();
        let mut place = from;
        while place < count {
            if let Some(found) = next_bit(self.words[place / 64], place) {
                return (found < count).then_some(found);
            }
            place = place.saturating_add(64 - place % 64);
        }
        None
    }

    /// Changes the flag at a place.
    #[inline(always)]
    pub fn set(&mut self, place: u32, flag: bool)
        requires { place < length self.old }
        ensures { self.new ≡ slice_set self.old place flag }
    {
        let at = place as usize / 64;
        let bit = 1 << (place % 64);
        if flag {
            self.words[at] |= bit;
        } else {
            self.words[at] &= !bit;
        }
    }
}

/// The first place whose bit is set in its word, from one place of that word on.
fn next_bit(word: u64, place: usize) -> Option<usize>
    ensures { IsNextBit word place result }
{
    let rest = word >> (place % 64);
    if rest == 0 {
        return None;
    }
    Some(place + rest.trailing_zeros() as usize)
}
