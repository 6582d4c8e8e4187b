ghost use Rattle.std.specs.Prelude.{◌≡◌, ◌^◌, ◌≤◌, None, replicate, IfOk};
ghost use Rattle.result_cache.specs.Cache.{Looks, kept};

use crate::key::{CacheKey, HashedKey};
use std::alloc::{AllocError, Global};
use std::marker::Model;

/// The logarithm of the greatest number of places.
pub const MAX_LOG: u32 = 20;

/// A key, and the value that was kept last for it.
#[derive(Clone, Copy, Debug, PartialEq, Eq)]
pub struct Entry {
    pub key: CacheKey,
    pub value: [u64; 5],
}

/// A cache of results: each key has one place, and what is kept there last stays.
#[derive(Drop)]
pub struct ResultCache {
    /// By place: 0 where it is empty, or the number of its entry, from 1 on.
    index: Vec<u32>,
    /// In the order in which their places were first used, so that none is filled before.
    entries: Vec<Entry>,
}

impl Model for ResultCache {
    ghost use Rattle.std.specs.Prelude.{vec_capacity};
    ghost use Rattle.result_cache.specs.Cache.{Places};
    ghost use Rattle.result_cache.specs.CacheInside.{places, IsSound};

    ghost Value = { Places };

    ghost view = { λ c. places c.index.items c.entries.items };

    ghost invariant = { λ c. IsSound c.index.items c.entries.items (vec_capacity c.entries) };
}

impl ResultCache {
    /// A cache of `2^log` empty places. It takes all its memory here.
    pub fn create(alloc: Global, log: u32) -> Result<ResultCache, AllocError>
        requires { log ≤ MAX_LOG }
        ensures { IfOk result (λ c. c ≡ replicate (2 ^ log) None) }
    {
        let places = 1usize << log;
        let index = vec![in alloc; 0; places]?;
        let entries = Vec::with_capacity(alloc, places)?;
        Ok(ResultCache { index, entries })
    }

    /// The value that was kept last for the key, where it is still at the key's place.
    pub fn look(&self, key: &HashedKey) -> Option<[u64; 5]>
        ensures { Looks self.now key.now result }
    {
        let place = key.place(self.index.len());
        let number = self.index[place] as usize;
        if number == 0 {
            return None;
        }
        let entry = &self.entries[number - 1];
        if entry.key == *key.key() {
            Some(entry.value)
        } else {
            None
        }
    }

    /// Writes the value at the key's place. What stood there is lost.
    pub fn keep(&mut self, key: &HashedKey, value: [u64; 5])
        ensures { self.new ≡ kept self.old key.now value }
    {
        let place = key.place(self.index.len());
        let number = self.index[place] as usize;
        let entry = Entry {
            key: *key.key(),
            value,
        };
        if number == 0 {
            if let Ok(()) = self.entries.push(entry) {
                self.index[place] = self.entries.len() as u32;
            }
        } else {
            self.entries[number - 1] = entry;
        }
    }
}
