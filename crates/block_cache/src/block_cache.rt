ghost use Rattle.std.specs.Prelude.{◌≡◌, ◌≤◌, [], length, OnOk, OnErr, IfOk, IfSome, IfNone, IsSome, option_map};
ghost use Rattle.lru.specs.LruCache.{lru_cache};
ghost use Rattle.block_cache.specs.Blocks.{held, used, kept, without, is_place, IsNoneOf};
ghost use Rattle.std.specs.Map.{remove_entry};

use crate::place::Place;
use frame_pool::FRAME_BYTES;
use lru::LruCache;
use std::alloc::{AllocError, Global};
use std::marker::Model;
use std::num::NonZeroUsize;

/// Blocks of files that are kept in memory, at most as many as its capacity (`crates/block_cache/README.md`).
#[derive(Debug, Drop)]
pub struct BlockCache {
    alloc: Global,
    blocks: LruCache<Place, Vec<u8>>,
}

impl Model for BlockCache {
    ghost use Rattle.std.specs.Coded.{codes};
    ghost use Rattle.lru.specs.LruCache.{lru_cache, lru_cache_code};
    ghost use Rattle.block_cache.specs.Blocks.{Blocks, by_bytes};

    ghost Value = { Blocks };

    ghost coded = { Prim.hlevel (codes, lru_cache_code) };

    ghost view = { λ a. lru_cache (by_bytes (λ bytes. bytes.items) a.blocks.entries) a.blocks.cap };
}

impl BlockCache {
    /// A cache that keeps at most so many blocks, and none yet; at least 1.
    pub fn new(alloc: Global, capacity: u32) -> Result<BlockCache, AllocError>
        requires { 1 ≤ capacity }
        ensures { IfOk result (λ cache. cache ≡ lru_cache [] capacity) }
    {
        let capacity = NonZeroUsize::new(capacity as usize).unwrap();
        Ok(BlockCache {
            alloc,
            blocks: LruCache::sparse(alloc, capacity)?,
        })
    }

    /// The bytes that are kept of a block. The order of use stays, and it takes no memory.
    pub fn find(&self, place: Place) -> Option<&[u8]>
        ensures { option_map (λ bytes. bytes.now) result ≡ held self.now place }
    {
        match self.blocks.peek(&place) {
            Some(bytes) => Some(bytes.as_slice()),
            None => None,
        }
    }

    /// Makes a block the last one used, where it is kept. It takes no memory.
    pub fn promote(&mut self, place: Place)
        ensures { self.new ≡ used self.old place }
    {
        let _ = self.blocks.promote(&place);
    }

    /// Keeps the bytes of a block in place of those that are kept of it, as the last one used; where the cache is full
    /// the first one used goes. It is refused only where there is no memory for it, and nothing changes then.
    pub fn keep(&mut self, place: Place, bytes: &[u8]) -> Result<(), AllocError>
        requires { length bytes.now ≡ FRAME_BYTES }
        ensures ok { OnOk result (self.new ≡ kept self.old place bytes.now) }
        ensures err { OnErr result (self.new ≡ self.old) }
    {
        let bytes = Vec::from_slice(self.alloc, bytes)?;
        self.blocks.put(place, bytes)?;
        Ok(())
    }

    /// Drops all blocks of a file: it is to come before the file is changed. The others stay, in their order. It takes
    /// no memory.
    pub fn leave(&mut self, file: u32)
        ensures { self.new ≡ without self.old file }
    {
        while let Some(place) = self.some_of(file) {
            self.drop_block(place);
        }
    }

    // Drops a block.
    fn drop_block(&mut self, place: Place)
        ensures { self.new ≡ lru_cache (remove_entry (is_place place) self.old.entries) self.old.cap }
    {
        let _ = self.blocks.pop(&place);
    }

    // The place of some block of a file that is kept.
    fn some_of(&self, file: u32) -> Option<Place>
        ensures some { IfSome result (λ place. (place.file ≡ file) × IsSome (held self.now place)) }
        ensures none { IfNone result (IsNoneOf self.now file) }
    {
        for (place, _bytes) in self.blocks.iter() {
            if place.file == file {
                return Some(*place);
            }
        }
        None
    }
}
