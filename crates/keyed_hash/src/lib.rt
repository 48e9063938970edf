//! Hashing by a key that is made of what is hashed: whoever picks ids against a key changes it by
//! picking them. Which key it is, is proved; that no chosen ids crowd a table is only measured. Mix
//! all rows in first.
//!
//! `let ids = IndexSet::with_hasher(alloc, key_maker.done());`
#![tactic(auto)]

ghost use Rattle.std.specs.Prelude.{◌≡◌};
ghost use Rattle.keyed_hash.specs.Keys.{done, fresh, mixed_in};

use std::hash::{BuildHasher, DefaultHasher, FoldHasher, Hasher};

/// Mixes the numbers of rows into a key, one after another.
#[derive(Drop)]
pub struct KeyMaker {
    mixed: DefaultHasher,
}

impl KeyMaker {
    /// No number is mixed in yet.
    pub fn new() -> KeyMaker
        ensures { result ≡ fresh }
    {
        KeyMaker {
            mixed: DefaultHasher::new(),
        }
    }

    /// Mixes two numbers in.
    pub fn mix(&mut self, one: u32, other: u32)
        ensures { self.new ≡ mixed_in self.old (one, other) }
    {
        self.mixed
            .write_u64((u64::from(one) << 32) + u64::from(other));
    }

    /// The key with two numbers mixed in.
    pub fn with(mut self, one: u32, other: u32) -> KeyMaker
        ensures { result ≡ mixed_in self (one, other) }
    {
        self.mix(one, other);
        self
    }

    /// The hashing by the key of all that was mixed in.
    pub fn done(&self) -> Keyed
        ensures { result ≡ done self.now }
    {
        let mut begun = FoldHasher::default();
        begun.write_u64(self.mixed.finish());
        Keyed { begun }
    }
}

/// Begins each hash with a key.
#[derive(Clone, Copy)]
pub struct Keyed {
    begun: FoldHasher,
}

impl BuildHasher for Keyed {
    type Hasher = FoldHasher;

    ghost build_hasher = { λ k. k.begun };

    fn build_hasher(&self) -> FoldHasher {
        self.begun
    }
}
