//! A page of the rows of a partition, one row after another.
ghost use Rattle.std.specs.Prelude.{◌≡◌, ◌≤◌, ◌-◌, IfOk, length};
ghost use Rattle.std.specs.List.{slice_get};
ghost use Rattle.frame_pool.specs.Frames.{free_frames};
ghost use Rattle.mds_base.specs.RowKeys.{RowMap, page_of, is_outside};
ghost use Rattle.mds_base.specs.declared.row_key.RowKey.{RowKey};
ghost use Rattle.row_store.specs.Answers.{IsStoreReading, IsCopyAnswer};
ghost use Rattle.row_store.specs.Seeks.{IsMapOf, before_next};
ghost use Rattle.sorted_table.specs.Starts.{before_at, is_before};
ghost use Rattle.row_store.specs.Store.{TellsAll, reading};
ghost use Rattle.row_store.specs.Value.{AreReady};

use crate::seeking::first_row;
use frame_pool::Pool;
use mds_base::{Attr, Cursor, Row, RowKey, RowList, StoreFault};
use mds_out::Disk;
use sorted_table::{Start, Table};
use std::alloc::Global;
use std::collections::BTreeMap;

/// Which rows a page has: those of a partition up to a reversed hash, and so many at most.
#[derive(Clone, Copy)]
pub(crate) struct Span {
    pub(crate) dir: u64,
    pub(crate) part: u32,
    pub(crate) last: u64,
    pub(crate) limit: u32,
}

impl Span {
    // Where a page past a cursor goes on that has these rows, of which the last has this reversed hash.
    fn start<'b>(&self, from: &'b Cursor, rev: u64, rows: &'b [Row]) -> Start<'b>
        ensures { (key : RowKey) → is_before result key
            ≡ before_next self.now.dir self.now.part from.now rev (slice_get rows.now (length rows.now - 1)) key }
    {
        match (rows.last(), &from.after) {
            (Some(row), _) => self.at(rev, row.name.bytes(), true),
            (None, Some(name)) => self.at(from.at, name.bytes(), true),
            (None, None) => self.at(from.at, &[], false),
        }
    }

    // At a reversed hash and a name of the partition, or past it.
    fn at<'b>(&self, rev: u64, name: &'b [u8], past: bool) -> Start<'b>
        ensures { (key : RowKey) → is_before result key
            ≡ before_at (record { dir = self.now.dir; part = self.now.part; rev = rev; name = name.now }) past key }
    {
        Start {
            dir: self.dir,
            part: self.part,
            rev,
            name,
            past,
        }
    }

    // Whether a key is not of the partition, or has a greater reversed hash.
    fn is_beyond(&self, key: &RowKey) -> bool
        ensures { result ≡ is_outside self.now.dir self.now.part self.now.last key.now }
    {
        key.dir != self.dir || key.part != self.part || key.rev > self.last
    }
}

/// The page that these rows are.
pub(crate) fn page<D: Disk>(
    alloc: Global,
    disk: &mut D,
    pool: &mut Pool,
    tables: &[Table],
    fresh: &BTreeMap<RowKey, Option<Attr>>,
    from: &Cursor,
    span: Span,
) -> Result<RowList, StoreFault>
    requires ready { AreReady tables.now (D.seen disk.old) (D.sizes disk.old) }
    requires frames { 1 ≤ free_frames pool.old }
    ensures listed { IfOk result
        (λ page. TellsAll (D.seen disk.old) → (rows : RowMap)
        → IsMapOf tables.now fresh.now.entries rows (reading (D.seen disk.old))
        → page ≡ page_of rows span.dir span.part from.now span.last span.limit) }
    ensures frames { free_frames pool.new ≡ free_frames pool.old }
    ensures answer { IsCopyAnswer (TellsAll (D.seen disk.old)) result }
    ensures call { IsStoreReading D.seen D.sizes D.images D.moment D.images_since D.faults D.lasts D.fails disk.old
        disk.new result }
{
    let mut page = RowList::new(alloc);
    let mut rev = from.at;
    for _row in 0..span.limit {
        let start = span.start(from, rev, page.rows());
        let Some((key, attr)) = first_row(alloc, disk, pool, tables, fresh, &start)? else {
            return Ok(page);
        };
        if span.is_beyond(&key) {
            return Ok(page);
        }
        rev = key.rev;
        page.push(Row {
            name: key.name,
            attr,
        })?;
    }
    Ok(page)
}
