//! The cache over a list ordered by last use.
ghost use Rattle.std.specs.Prelude.{◌≡◌, ◌≤◌, [], length, IfOk, OnOk, OnErr, IsOk, IsSome};
ghost use Rattle.computed_cache.specs.Entries.{value_at, touched, kept};

use crate::key::Key;
use bit_lists::OutOfMemory;
use lru::LruCache;
use std::alloc::Global;
use std::marker::Model;
use std::num::NonZeroUsize;

/// Answers under their keys. Where all entries are taken, a new one takes the place of the entry that
/// was not used for longest.
///
/// Each call takes expected constant time, but for `drop_all`, which takes the time of the entries
/// that are there. Memory is taken entry by entry, and none for the capacity.
#[derive(Drop)]
pub struct Cache {
    entries: LruCache<Key, u32>,
}

impl Model for Cache {
    ghost use Rattle.std.specs.Prelude.{◌≤◌};
    ghost use Rattle.computed_cache.specs.Entries.{Cached};

    ghost Value = { Cached };

    ghost view = { λ c. record { entries = c.entries.entries; capacity = c.entries.cap } };

    ghost invariant = { λ c. c.entries.cap ≤ 1048576 };
}

impl Cache {
    /// A cache without an entry, for at most `capacity` of them.
    pub fn new(alloc: Global, capacity: u32) -> Result<Cache, OutOfMemory>
        requires some { 1 ≤ capacity }
        requires most { capacity ≤ 1048576 }
        ensures empty { IfOk result (λ c. c.entries ≡ []) }
        ensures capacity { IfOk result (λ c. c.capacity ≡ capacity) }
    {
        let capacity = NonZeroUsize::new(capacity as usize).unwrap();
        Ok(Cache {
            entries: LruCache::sparse(alloc, capacity)?,
        })
    }

    /// The value under a key, whose entry goes to the front.
    pub fn look(&mut self, key: &Key) -> Option<u32>
        ensures value { result ≡ value_at self.old.entries key.now }
        ensures order { self.new.entries ≡ touched self.old.entries key.now }
        ensures capacity { self.new.capacity ≡ self.old.capacity }
    {
        self.entries.get(key).copied()
    }

    /// Keeps a value under a key, at the front.
    pub fn keep(&mut self, key: Key, value: u32) -> Result<(), OutOfMemory>
        ensures kept { OnOk result (self.new.entries ≡ kept self.old.capacity self.old.entries key value) }
        ensures refused { OnErr result (self.new.entries ≡ self.old.entries) }
        ensures there { IsSome (value_at self.old.entries key) → IsOk result }
        ensures capacity { self.new.capacity ≡ self.old.capacity }
    {
        self.entries.put(key, value)?;
        Ok(())
    }

    /// How many entries there are.
    pub fn len(&self) -> u32
        ensures count { result ≡ length self.now.entries }
        ensures most { result ≤ self.now.capacity }
    {
        self.entries.len() as u32
    }

    /// Takes all entries away.
    pub fn drop_all(&mut self)
        ensures empty { self.new.entries ≡ [] }
        ensures capacity { self.new.capacity ≡ self.old.capacity }
    {
        self.entries.clear();
    }
}
