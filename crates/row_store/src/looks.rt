//! Looking through tables, the newest first: each answers by one block, which is kept in memory or is read.
ghost use Rattle.std.specs.Prelude.{◌≡◌, ◌+◌, ◌<◌, ◌≤◌, ◌∷◌, [], List, ℕ, length, IfOk, IfErr, OnOk, IsErrOf};
ghost use Rattle.std.specs.FinMap as map;
ghost use Rattle.frame_pool.specs.Frames.{free_frames};
ghost use Rattle.mds_out.specs.Disk.{Contents};
ghost use Rattle.mds_out.specs.Known.{OnTold};
ghost use Rattle.row_store.specs.Answers.{IsStoreReading, IsLookAnswer};
ghost use Rattle.row_store.specs.Caching.{place_in, IsBlock, AreRight, HoldSame, HoldsMore, IsWarm, AreWarm};
ghost use Rattle.row_store.specs.Rows.{rows_under};
ghost use Rattle.row_store.specs.Store.{TellsAll, reading};
ghost use Rattle.row_store.specs.Value.{AreReady, HaveRows};
ghost use Rattle.sorted_table.specs.Looks.{IsBlockFor};
ghost use Rattle.sorted_table.specs.TableRows.{held_in};
ghost use Rattle.sorted_table.specs.Tables.{IsReady, IsSomeTable, HasRows};
ghost use Rattle.sorted_table.specs.declared.table_row.TableRow.{TableRow};

use crate::caching::{find, keep, place_in, promote};
use crate::faults::of_table;
use block_cache::BlockCache;
use frame_pool::{Frame, Pool};
use mds_base::{Attr, RowKey, StoreFault};
use mds_out::Disk;
use sorted_table::{Held, Table};

/// What the tables say of a key: what the first says that has it. One frame of the pool is out at a time.
pub(crate) fn row_in<D: Disk>(
    disk: &mut D,
    pool: &mut Pool,
    cache: &mut Option<BlockCache>,
    tables: &[Table],
    key: &RowKey,
) -> Result<Option<Attr>, StoreFault>
    requires ready { AreReady tables.now (D.seen disk.old) (D.sizes disk.old) }
    requires frames { 1 ≤ free_frames pool.old }
    requires right { AreRight cache.old (D.seen disk.old) }
    ensures found { IfOk result
        (λ found. TellsAll (D.seen disk.old) → (rows : List (List TableRow))
        → HaveRows tables.now rows (reading (D.seen disk.old)) → found ≡ map.get (rows_under rows) key.now) }
    ensures frames { free_frames pool.new ≡ free_frames pool.old }
    ensures cache { HoldsMore cache.old cache.new tables.now (D.seen disk.old) }
    ensures warm { AreWarm cache.old key.now tables.now → disk.new ≡ disk.old }
    ensures asked { D.asked disk.new ≤ D.asked disk.old + length tables.now }
    ensures answer { IsLookAnswer (TellsAll (D.seen disk.old)) result }
    ensures call { IsStoreReading D.seen D.sizes D.images D.moment D.images_since D.faults D.lasts D.fails disk.old
        disk.new result }
{
    let Some(mut frame) = pool.take() else {
        unreachable!()
    };
    let found = row_through(disk, &mut frame, cache, tables, key);
    pool.give(frame);
    found
}

// The same, through a frame.
fn row_through<D: Disk>(
    disk: &mut D,
    frame: &mut Frame,
    cache: &mut Option<BlockCache>,
    tables: &[Table],
    key: &RowKey,
) -> Result<Option<Attr>, StoreFault>
    requires ready { AreReady tables.now (D.seen disk.old) (D.sizes disk.old) }
    requires right { AreRight cache.old (D.seen disk.old) }
    ensures found { IfOk result
        (λ found. TellsAll (D.seen disk.old) → (rows : List (List TableRow))
        → HaveRows tables.now rows (reading (D.seen disk.old)) → found ≡ map.get (rows_under rows) key.now) }
    ensures frame { frame.new.number ≡ frame.old.number }
    ensures cache { HoldsMore cache.old cache.new tables.now (D.seen disk.old) }
    ensures warm { AreWarm cache.old key.now tables.now → disk.new ≡ disk.old }
    ensures asked { D.asked disk.new ≤ D.asked disk.old + length tables.now }
    ensures answer { IsLookAnswer (TellsAll (D.seen disk.old)) result }
    ensures call { IsStoreReading D.seen D.sizes D.images D.moment D.images_since D.faults D.lasts D.fails disk.old
        disk.new result }
{
    match tables {
        [] => Ok(None),
        [table, older @ ..] => match look(disk, frame, cache, table, key)? {
            Held::Absent => row_through(disk, frame, cache, older, key),
            Held::Tomb => Ok(None),
            Held::Row(attr) => Ok(Some(attr)),
        },
    }
}

// What one table says.
fn look<D: Disk>(
    disk: &mut D,
    frame: &mut Frame,
    cache: &mut Option<BlockCache>,
    table: &Table,
    key: &RowKey,
) -> Result<Held, StoreFault>
    requires ready { IsReady table.now (D.seen disk.old) (D.sizes disk.old) }
    requires right { AreRight cache.old (D.seen disk.old) }
    ensures held { IfOk result
        (λ held. TellsAll (D.seen disk.old) → (rows : List TableRow)
        → HasRows table.now rows (reading (D.seen disk.old) table.now.file) → held ≡ held_in rows key.now) }
    ensures frame { frame.new.number ≡ frame.old.number }
    ensures cache { HoldsMore cache.old cache.new (table.now ∷ []) (D.seen disk.old) }
    ensures warm { IsWarm cache.old key.now table.now → (disk.new ≡ disk.old) × HoldSame cache.old cache.new }
    ensures asked { D.asked disk.new ≤ D.asked disk.old + 1 }
    ensures answer { IsLookAnswer (TellsAll (D.seen disk.old)) result }
    ensures call { IsStoreReading D.seen D.sizes D.images D.moment D.images_since D.faults D.lasts D.fails disk.old
        disk.new result }
{
    let Some(block) = table.block_for(key) else {
        return Ok(Held::Absent);
    };
    let place = place_in(table, block);
    promote(cache, place);
    if let Some(bytes) = find(cache, place) {
        return held_by(table, block, bytes, key);
    }
    look_at(disk, frame, cache, table, block, key)
}

// What a table says of a key by a block that is not kept: it is read, and kept from then on.
fn look_at<D: Disk>(
    disk: &mut D,
    frame: &mut Frame,
    cache: &mut Option<BlockCache>,
    table: &Table,
    block: usize,
    key: &RowKey,
) -> Result<Held, StoreFault>
    requires ready { IsReady table.now (D.seen disk.old) (D.sizes disk.old) }
    requires within { block < length table.now.firsts }
    requires block { IsBlockFor table.now key.now block }
    ensures held { IfOk result
        (λ held. TellsAll (D.seen disk.old) → (rows : List TableRow)
        → HasRows table.now rows (reading (D.seen disk.old) table.now.file) → held ≡ held_in rows key.now) }
    ensures frame { frame.new.number ≡ frame.old.number }
    ensures cache { HoldsMore cache.old cache.new (table.now ∷ []) (D.seen disk.old) }
    ensures asked { D.asked disk.new ≤ D.asked disk.old + 1 }
    ensures answer { IsLookAnswer (TellsAll (D.seen disk.old)) result }
    ensures call { IsStoreReading D.seen D.sizes D.images D.moment D.images_since D.faults D.lasts D.fails disk.old
        disk.new result }
{
    read_block(disk, frame, table, block)?;
    let read = frame.bytes();
    keep(cache, table, block, read);
    held_by(table, block, read, key)
}

// Reads a block of a table into a frame.
fn read_block<D: Disk>(
    disk: &mut D,
    frame: &mut Frame,
    table: &Table,
    block: usize,
) -> Result<(), StoreFault>
    requires ready { IsReady table.now (D.seen disk.old) (D.sizes disk.old) }
    requires within { block < length table.now.firsts }
    ensures block { OnOk result (IsBlock (D.seen disk.old) (place_in table.now block) frame.new.bytes) }
    ensures frame { frame.new.number ≡ frame.old.number }
    ensures asked { D.asked disk.new ≤ D.asked disk.old + 1 }
    ensures answer { IsLookAnswer (TellsAll (D.seen disk.old)) result }
    ensures call { IsStoreReading D.seen D.sizes D.images D.moment D.images_since D.faults D.lasts D.fails disk.old
        disk.new result }
{
    match table.read_block(disk, frame, block) {
        Ok(()) => Ok(()),
        Err(fault) => Err(of_table(table.file(), fault)),
    }
}

// What a table says of a key, by the bytes of the block that may have it.
fn held_by(table: &Table, block: usize, bytes: &[u8], key: &RowKey) -> Result<Held, StoreFault>
    requires within { block < length table.now.firsts }
    requires block { IsBlockFor table.now key.now block }
    ensures held { (seen : Contents) → IsBlock seen (place_in table.now block) bytes.now
        → IfOk result (λ held. TellsAll seen → (rows : List TableRow)
        → HasRows table.now rows (reading seen table.now.file) → held ≡ held_in rows key.now) }
    ensures answer { (seen : Contents) → IsBlock seen (place_in table.now block) bytes.now
        → OnTold (seen table.now.file) (IsSomeTable table.now) → IsLookAnswer (TellsAll seen) result }
    ensures no_fault { IsErrOf result StoreFault.Device → ⊥ }
{
    match table.held_by(block, bytes, key) {
        Ok(held) => Ok(held),
        Err(fault) => Err(of_table(table.file(), fault)),
    }
}
