//! The first row that is not before a start, of tables and what was said since the last flush.
ghost use Rattle.std.specs.Prelude.{◌≡◌, ◌≤◌, List, Option, IfOk, OnOk};
ghost use Rattle.std.specs.FinMap as map;
ghost use Rattle.frame_pool.specs.Frames.{free_frames};
ghost use Rattle.mds_base.specs.RowKeys.{RowMap};
ghost use Rattle.row_store.specs.Answers.{IsStoreReading, IsLookAnswer, IsCopyAnswer};
ghost use Rattle.row_store.specs.Rows.{rows_of, rows_under};
ghost use Rattle.row_store.specs.Seeks.{IsMapOf, PassesNone, IsFirst, lesser};
ghost use Rattle.row_store.specs.Store.{TellsAll, reading};
ghost use Rattle.row_store.specs.Value.{AreReady, HaveRows};
ghost use Rattle.sorted_table.specs.Starts.{is_before};
ghost use Rattle.sorted_table.specs.TableRows.{Rises, row_behind, key_of};
ghost use Rattle.sorted_table.specs.Tables.{IsReady, HasRows};
ghost use Rattle.sorted_table.specs.declared.table_row.TableRow.{TableRow};

use crate::behind::said_from;
use crate::faults::of_table;
use crate::fresh::last_said;
use crate::looks::row_in;
use frame_pool::{Frame, Pool};
use mds_base::{Attr, RowKey, StoreFault};
use mds_out::Disk;
use sorted_table::{Start, Table};
use std::alloc::Global;
use std::collections::BTreeMap;

/// The first row of the map that is not before a start: keys of which nothing stands any more are passed. One frame of
/// the pool is out at a time.
pub(crate) fn first_row<D: Disk>(
    alloc: Global,
    disk: &mut D,
    pool: &mut Pool,
    tables: &[Table],
    fresh: &BTreeMap<RowKey, Option<Attr>>,
    start: &Start<'_>,
) -> Result<Option<(RowKey, Attr)>, StoreFault>
    requires ready { AreReady tables.now (D.seen disk.old) (D.sizes disk.old) }
    requires frames { 1 ≤ free_frames pool.old }
    ensures found { IfOk result
        (λ found. TellsAll (D.seen disk.old) → (rows : RowMap)
        → IsMapOf tables.now fresh.now.entries rows (reading (D.seen disk.old))
        → IsFirst rows (is_before start.now) found) }
    ensures frames { free_frames pool.new ≡ free_frames pool.old }
    ensures answer { IsCopyAnswer (TellsAll (D.seen disk.old)) result }
    ensures call { IsStoreReading D.seen D.sizes D.images D.moment D.images_since D.faults D.lasts D.fails disk.old
        disk.new result }
{
    let Some(first) = key_from(alloc, disk, pool, tables, fresh, start)? else {
        return Ok(None);
    };
    let mut key = first;
    for _step in 0..u64::MAX {
        if let Some(attr) = row_at(disk, pool, tables, fresh, &key)? {
            return Ok(Some((key, attr)));
        }
        let Some(next) = key_from(alloc, disk, pool, tables, fresh, &Start::past(&key))? else {
            return Ok(None);
        };
        key = next;
    }
    // No map has so many keys.
    Err(StoreFault::OutOfMemory)
}

// What the map has at a key.
fn row_at<D: Disk>(
    disk: &mut D,
    pool: &mut Pool,
    tables: &[Table],
    fresh: &BTreeMap<RowKey, Option<Attr>>,
    key: &RowKey,
) -> Result<Option<Attr>, StoreFault>
    requires ready { AreReady tables.now (D.seen disk.old) (D.sizes disk.old) }
    requires frames { 1 ≤ free_frames pool.old }
    ensures found { IfOk result
        (λ found. TellsAll (D.seen disk.old) → (rows : RowMap)
        → IsMapOf tables.now fresh.now.entries rows (reading (D.seen disk.old)) → found ≡ map.get rows key.now) }
    ensures frames { free_frames pool.new ≡ free_frames pool.old }
    ensures answer { IsLookAnswer (TellsAll (D.seen disk.old)) result }
    ensures call { IsStoreReading D.seen D.sizes D.images D.moment D.images_since D.faults D.lasts D.fails disk.old
        disk.new result }
{
    if let Some(attr) = last_said(fresh, key) {
        return Ok(attr);
    }
    row_in(disk, pool, &mut None, tables, key)
}

// The least key that is not before a start of those of which something is said.
fn key_from<D: Disk>(
    alloc: Global,
    disk: &mut D,
    pool: &mut Pool,
    tables: &[Table],
    fresh: &BTreeMap<RowKey, Option<Attr>>,
    start: &Start<'_>,
) -> Result<Option<RowKey>, StoreFault>
    requires ready { AreReady tables.now (D.seen disk.old) (D.sizes disk.old) }
    requires frames { 1 ≤ free_frames pool.old }
    ensures found { IfOk result
        (λ found. TellsAll (D.seen disk.old) → (rows : RowMap)
        → IsMapOf tables.now fresh.now.entries rows (reading (D.seen disk.old))
        → PassesNone rows (is_before start.now) found) }
    ensures frames { free_frames pool.new ≡ free_frames pool.old }
    ensures answer { IsCopyAnswer (TellsAll (D.seen disk.old)) result }
    ensures call { IsStoreReading D.seen D.sizes D.images D.moment D.images_since D.faults D.lasts D.fails disk.old
        disk.new result }
{
    let said = said_from(alloc, fresh, start)?;
    let older = key_in(alloc, disk, pool, tables, start)?;
    Ok(lesser(said, older))
}

// The same of the tables alone.
fn key_in<D: Disk>(
    alloc: Global,
    disk: &mut D,
    pool: &mut Pool,
    tables: &[Table],
    start: &Start<'_>,
) -> Result<Option<RowKey>, StoreFault>
    requires ready { AreReady tables.now (D.seen disk.old) (D.sizes disk.old) }
    requires frames { 1 ≤ free_frames pool.old }
    ensures found { IfOk result
        (λ found. TellsAll (D.seen disk.old) → (rows : List (List TableRow))
        → HaveRows tables.now rows (reading (D.seen disk.old))
        → PassesNone (rows_under rows) (is_before start.now) found) }
    ensures frames { free_frames pool.new ≡ free_frames pool.old }
    ensures answer { IsCopyAnswer (TellsAll (D.seen disk.old)) result }
    ensures call { IsStoreReading D.seen D.sizes D.images D.moment D.images_since D.faults D.lasts D.fails disk.old
        disk.new result }
{
    let Some(mut frame) = pool.take() else {
        unreachable!()
    };
    let found = key_through(alloc, disk, &mut frame, tables, start);
    pool.give(frame);
    found
}

// The same, through a frame.
fn key_through<D: Disk>(
    alloc: Global,
    disk: &mut D,
    frame: &mut Frame,
    tables: &[Table],
    start: &Start<'_>,
) -> Result<Option<RowKey>, StoreFault>
    requires ready { AreReady tables.now (D.seen disk.old) (D.sizes disk.old) }
    ensures found { IfOk result
        (λ found. TellsAll (D.seen disk.old) → (rows : List (List TableRow))
        → HaveRows tables.now rows (reading (D.seen disk.old))
        → PassesNone (rows_under rows) (is_before start.now) found) }
    ensures frame { frame.new.number ≡ frame.old.number }
    ensures answer { IsCopyAnswer (TellsAll (D.seen disk.old)) result }
    ensures call { IsStoreReading D.seen D.sizes D.images D.moment D.images_since D.faults D.lasts D.fails disk.old
        disk.new result }
{
    match tables {
        [] => Ok(None),
        [table, older @ ..] => {
            let newer = key_of(alloc, disk, frame, table, start)?;
            let other = key_through(alloc, disk, frame, older, start)?;
            Ok(lesser(newer, other))
        }
    }
}

// The same of one table.
fn key_of<D: Disk>(
    alloc: Global,
    disk: &mut D,
    frame: &mut Frame,
    table: &Table,
    start: &Start<'_>,
) -> Result<Option<RowKey>, StoreFault>
    requires ready { IsReady table.now (D.seen disk.old) (D.sizes disk.old) }
    ensures found { IfOk result (λ found. TellsAll (D.seen disk.old) → (rows : List TableRow) → HasRows table.now rows
        (reading (D.seen disk.old) table.now.file) → found ≡ key_of (row_behind (is_before start.now) rows)) }
    ensures frame { frame.new.number ≡ frame.old.number }
    ensures answer { IsCopyAnswer (TellsAll (D.seen disk.old)) result }
    ensures call { IsStoreReading D.seen D.sizes D.images D.moment D.images_since D.faults D.lasts D.fails disk.old
        disk.new result }
{
    match table.seek_by(alloc, disk, frame, start) {
        Ok(found) => Ok(found),
        Err(fault) => Err(of_table(table.file(), fault)),
    }
}

fn lesser(one: Option<RowKey>, other: Option<RowKey>) -> Option<RowKey>
    ensures { result ≡ lesser one other }
{
    match (one, other) {
        (None, other) => other,
        (Some(one), None) => Some(one),
        (Some(one), Some(other)) => Some(if other < one { other } else { one }),
    }
}
