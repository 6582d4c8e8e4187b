ghost use Rattle.std.specs.Prelude.{◌≡◌, fold};
ghost use Rattle.std.specs.Int.{IsPowerOfTwo};
ghost use Rattle.record_store.specs.Path.{mixed, hash_of};
ghost use Rattle.result_cache.specs.Place.{key_words, place_of};

use std::marker::Model;

/// An operation by its number, and the words of its two operands.
#[derive(Clone, Copy, Debug, PartialEq, Eq)]
pub struct CacheKey {
    pub op: u64,
    pub first: [u64; 5],
    pub second: [u64; 5],
}

/// A key with its hash, which serves a look and what is kept after it.
#[derive(Drop)]
pub struct HashedKey {
    key: CacheKey,
    hash: u64,
}

impl Model for HashedKey {
    ghost use Rattle.std.specs.Prelude.{◌≡◌};
    ghost use Rattle.record_store.specs.Path.{hash_of};
    ghost use Rattle.result_cache.specs.Place.{key_words};
    ghost use Rattle.result_cache.specs.declared.key.CacheKey.{CacheKey as Key};

    ghost Value = { Key };

    ghost view = { λ k. k.key };

    ghost invariant = { λ k. k.hash ≡ hash_of (key_words k.key) };
}

impl HashedKey {
    /// The place of the key among so many, whose number is a power of two, so that a mask takes the remainder.
    pub(crate) fn place(&self, places: usize) -> usize
        requires { IsPowerOfTwo places }
        ensures { result ≡ place_of self.now places }
    {
        self.hash as usize & (places - 1)
    }

    /// The key itself.
    pub(crate) fn key(&self) -> &CacheKey
        ensures { result.now ≡ self.now }
    {
        &self.key
    }
}

impl CacheKey {
    /// The key with its hash.
    pub fn hashed(self) -> HashedKey
        ensures { result ≡ self }
    {
        let hash = self.hash();
        HashedKey { key: self, hash }
    }

    /// The hash of the operation and the words of the operands.
    fn hash(&self) -> u64
        ensures { result ≡ hash_of (key_words self.now) }
    {
        let first = mix_all(mix(0, self.op), &self.first);
        mix_all(first, &self.second)
    }
}

/// One word goes into a hash.
#[tactic(auto, unfolding(record_store::specs::Path::mixed))]
fn mix(hash: u64, word: u64) -> u64
    ensures { result ≡ mixed hash word }
{
    let product = (hash ^ word).wrapping_mul(0x9E37_79B9_7F4A_7C15);
    product ^ (product >> 29)
}

/// Five words go into a hash, one after another.
fn mix_all(hash: u64, words: &[u64; 5]) -> u64
    ensures { result ≡ fold mixed hash words.now }
{
    let mut all = hash;
    for word in words {
        all = mix(all, *word);
    }
    all
}
