//! The blocks that are kept in memory: those that `get` read. A table's blocks leave before its file is cut.
ghost use Rattle.std.specs.Prelude.{◌≡◌, ◌∷◌, [], length, IfOk, option_map};
ghost use Rattle.mds_out.specs.Disk.{Contents};
ghost use Rattle.row_store.specs.Caching.{held_of, place_in, IsBlock, IsEmpty, HoldSame, HoldsMore, HaveLeft};
ghost use Rattle.sorted_table.specs.Tables.{TableState};

use block_cache::{BlockCache, Place};
use frame_pool::FRAME_BYTES;
use sorted_table::Table;
use std::alloc::{AllocError, Global};

/// A cache of so many blocks, which keeps none yet. There is none where there is no room for one.
pub(crate) fn new_cache(alloc: Global, blocks: u32) -> Result<Option<BlockCache>, AllocError>
    ensures { IfOk result IsEmpty }
{
    if blocks == 0 {
        return Ok(None);
    }
    Ok(Some(BlockCache::new(alloc, blocks)?))
}

/// The place of a table's block.
pub(crate) fn place_in(table: &Table, block: usize) -> Place
    ensures { result ≡ place_in table.now block }
{
    Place {
        file: table.file(),
        block: block as u64,
    }
}

/// The bytes that are kept of a block.
pub(crate) fn find(cache: &Option<BlockCache>, place: Place) -> Option<&[u8]>
    ensures { option_map (λ bytes. bytes.now) result ≡ held_of cache.now place }
{
    match cache {
        None => None,
        Some(cache) => cache.find(place),
    }
}

/// Makes a block the last one used, where it is kept.
pub(crate) fn promote(cache: &mut Option<BlockCache>, place: Place)
    ensures { HoldSame cache.old cache.new }
{
    if let Some(cache) = cache {
        cache.promote(place);
    }
}

/// Keeps the bytes of a table's block, where there is memory for them.
pub(crate) fn keep(cache: &mut Option<BlockCache>, table: &Table, block: usize, bytes: &[u8])
    requires { length bytes.now ≡ FRAME_BYTES }
    ensures { (seen : Contents) → IsBlock seen (place_in table.now block) bytes.now
        → HoldsMore cache.old cache.new (table.now ∷ []) seen }
{
    if let Some(cache) = cache {
        let _kept = cache.keep(place_in(table, block), bytes);
    }
}

/// The blocks of these tables leave, so that their files can be cut.
pub(crate) fn leave_all(cache: &mut Option<BlockCache>, tables: &[Table])
    ensures { HaveLeft tables.now cache.old cache.new }
{
    match tables {
        [] => {}
        [table, rest @ ..] => {
            leave(cache, table);
            leave_all(cache, rest);
        }
    }
}

fn leave(cache: &mut Option<BlockCache>, table: &Table)
    ensures { HaveLeft (table.now ∷ []) cache.old cache.new }
{
    if let Some(cache) = cache {
        cache.leave(table.file());
    }
}
