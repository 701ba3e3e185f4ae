//! A cache of older materials.
ghost use Rattle.std.specs.Prelude.{◌≡◌, ◌⊎◌, [], Contains, IfOk, IfSome};
ghost use Rattle.std.specs.Map.{lookup};
ghost use Rattle.std.specs.NonZero.{non_zero_usize_get};
ghost use Rattle.hk_base.specs.declared.names.Dek.{Dek};
ghost use Rattle.key_index.specs.declared.cache.MaterialKey.{MaterialKey};
ghost use Rattle.lru.specs.LruCache.{lru_cache, promoted, put_entries};
ghost use Rattle.key_index.specs.Cache.{AreCached, IsOlder, is_key};
ghost use Rattle.key_index.specs.Index.{Index, Materials};

use hk_base::{Dek, NoMemory};
use lru::LruCache;
use std::alloc::Global;
use std::marker::Model;
use std::num::NonZeroUsize;

/// A version of a key, by the birth of the key and the number of the version. Unlike a name, it never
/// comes to mean another version.
#[derive(Clone, Copy, PartialEq, Eq, Hash)]
pub struct MaterialKey {
    pub birth: u64,
    pub number: u16,
}

/// The materials of versions that were asked for lately, up to a number of them. Contracts see the
/// entries, the most recently used first, and that number.
#[derive(Drop)]
pub struct MaterialCache {
    cache: LruCache<MaterialKey, Dek>,
}

impl Model for MaterialCache {
    ghost use Rattle.std.specs.Prelude.{ℕ, List};
    ghost use Rattle.lru.specs.LruCache.{LruCache as Entries};
    ghost use Rattle.key_index.specs.declared.cache.MaterialKey.{MaterialKey as Key};

    ghost Value = { Entries Key (List ℕ) };

    ghost view = { λ a. a.cache };
}

impl MaterialCache {
    /// Creates an empty cache for `size` materials. Memory for entries is taken as they come.
    pub fn new(alloc: Global, size: NonZeroUsize) -> Result<MaterialCache, NoMemory>
        ensures { IfOk result (λ cache. cache ≡ lru_cache [] (non_zero_usize_get size)) }
    {
        let cache = LruCache::sparse(alloc, size)?;
        Ok(MaterialCache { cache })
    }

    /// Returns the material of a version if it is in the cache. The version is then the most recently
    /// used one.
    pub fn get(&mut self, version: MaterialKey) -> Option<Dek>
        ensures value { result ≡ lookup (is_key version) self.old.entries }
        ensures entries { self.new ≡
            lru_cache (promoted (is_key version) self.old.entries) self.old.cap }
        // If each entry has the material of its version, the result is the version's, and they still do.
        ensures cached { (m : Materials) (x : Index) → AreCached m x self.old.entries →
            IfSome result (λ material. material ≡ m version.birth version.number) ×
            AreCached m x self.new.entries }
    {
        self.look(version)
    }

    fn look(&mut self, version: MaterialKey) -> Option<Dek>
        ensures value { result ≡ lookup (is_key version) self.old.entries }
        ensures entries { self.new ≡
            lru_cache (promoted (is_key version) self.old.entries) self.old.cap }
    {
        let found = self.cache.peek(&version).copied();
        self.cache.promote(&version);
        found
    }

    /// Adds the material of a version. If the cache is full, the version that was used least recently
    /// leaves it. If allocation fails, the cache is unchanged.
    pub fn put(&mut self, version: MaterialKey, material: Dek)
        ensures entries { (self.new ≡
            lru_cache (put_entries is_key self.old version material) self.old.cap) ⊎
            (self.new ≡ self.old) }
        // Each entry was there, or is the one that was put.
        ensures only { (entry : MaterialKey × Dek) → Contains self.new.entries entry →
            Contains self.old.entries entry ⊎ (entry ≡ (version, material)) }
        ensures cached { (m : Materials) (x : Index) → AreCached m x self.old.entries →
            material ≡ m version.birth version.number → IsOlder x version →
            AreCached m x self.new.entries }
    {
        self.keep(version, material)
    }

    fn keep(&mut self, version: MaterialKey, material: Dek)
        ensures { (self.new ≡
            lru_cache (put_entries is_key self.old version material) self.old.cap) ⊎
            (self.new ≡ self.old) }
    {
        match self.cache.put(version, material) {
            Ok(_) => {}
            Err(_) => {}
        }
    }
}
