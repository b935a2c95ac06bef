ghost use Rattle.std.specs.Prelude.{◌≡◌, ◌≤◌, [], OnOk, OnErr, IfOk, is_some};
ghost use Rattle.lru.specs.LruCache.{lru_cache};
ghost use Rattle.lease_cache.specs.Cache.{answered, used, kept, dropped};
ghost use Rattle.lease_cache.specs.Keys.{place_of, IsKey};

use crate::key::{Key, key_of};
use crate::lease::Lease;
use lru::LruCache;
use mds_base::{Attr, Name};
use std::alloc::{AllocError, Global};
use std::marker::Model;
use std::num::NonZeroUsize;

/// The leases that a client keeps of what it looked up, at most as many as its capacity
/// (`crates/lease_cache/README.md`, "Lease cache").
#[derive(Debug, Drop)]
pub struct LeaseCache {
    leases: LruCache<Vec<u8>, Lease>,
}

impl Model for LeaseCache {
    ghost use Rattle.std.specs.Coded.{codes};
    ghost use Rattle.lru.specs.LruCache.{lru_cache, lru_cache_code};
    ghost use Rattle.lease_cache.specs.Cache.{Cache};
    ghost use Rattle.lease_cache.specs.Keys.{by_places, AreKeyed};

    ghost Value = { Cache };

    ghost coded = { Prim.hlevel (codes, lru_cache_code) };

    ghost view = { λ a. lru_cache (by_places (λ k. k.items) a.leases.entries) a.leases.cap };

    ghost invariant = { λ a. AreKeyed (λ k. k.items) a.leases.entries };
}

impl LeaseCache {
    /// A cache that keeps at most so many leases, and none yet; at least 1.
    pub fn new(alloc: Global, capacity: u32) -> Result<LeaseCache, AllocError>
        requires { 1 ≤ capacity }
        ensures { IfOk result (λ cache. cache ≡ lru_cache [] capacity) }
    {
        let capacity = NonZeroUsize::new(capacity as usize).unwrap();
        Ok(LeaseCache {
            leases: LruCache::sparse(alloc, capacity)?,
        })
    }

    /// What is kept of a name of the directory: Some exactly where a lease is kept whose end is above the moment. That
    /// one is the last one used then; at None nothing changes, also where a lease is kept that ended. It takes no
    /// memory.
    pub fn answer(&mut self, dir: u64, name: &Name, now: u64) -> Option<Attr>
        ensures answer { result ≡ answered self.old (dir, name.now) now }
        ensures used { self.new ≡ used self.old (dir, name.now) now }
    {
        let key = key_of(dir, name);
        let attr = self.said(&key, now)?;
        self.leases.promote(key.as_slice());
        Some(attr)
    }

    /// Keeps a lease of a name of the directory in place of the one that is kept of it, as the last one used; where the
    /// cache is full the first one used goes. It is refused only where there is no memory for it, and nothing changes
    /// then.
    pub fn keep(
        &mut self,
        alloc: Global,
        dir: u64,
        name: &Name,
        attr: Attr,
        until: u64,
    ) -> Result<(), AllocError>
        ensures ok { OnOk result (self.new ≡ kept self.old (dir, name.now) (record { attr = attr; until = until })) }
        ensures err { OnErr result (self.new ≡ self.old) }
    {
        let key = Vec::from_slice(alloc, key_of(dir, name).as_slice())?;
        self.leases.put(key, Lease { attr, until })?;
        Ok(())
    }

    /// Drops what is kept of a name of the directory. It takes no memory.
    pub fn drop_name(&mut self, dir: u64, name: &Name)
        ensures { self.new ≡ dropped self.old (dir, name.now) }
    {
        let _ = self.leases.pop(key_of(dir, name).as_slice());
    }

    /// Whether `answer` would give Some. The order of use stays, and it takes no memory.
    pub fn live(&self, dir: u64, name: &Name, now: u64) -> bool
        ensures { result ≡ is_some (answered self.now (dir, name.now) now) }
    {
        self.said(&key_of(dir, name), now).is_some()
    }

    // What is kept under a key with an end above the moment.
    fn said(&self, key: &Key, now: u64) -> Option<Attr>
        requires { IsKey key.now.items }
        ensures { result ≡ answered self.now (place_of key.now.items) now }
    {
        match self.leases.peek(key.as_slice()) {
            Some(lease) if now < lease.until => Some(lease.attr),
            _ => None,
        }
    }
}
