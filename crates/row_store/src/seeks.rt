//! Looking through the map in the order of its keys.
ghost use Rattle.std.specs.Prelude.{◌≡◌, Option, Err, true, false, IfOk, IsErrOf};
ghost use Rattle.std.specs.Option.{option_map};
ghost use Rattle.frame_pool.specs.Frames.{free_frames};
ghost use Rattle.mds_base.specs.RowKeys.{RowMap, page_of};
ghost use Rattle.row_store.specs.Answers.{IsStoreReading, IsCopyAnswer};
ghost use Rattle.row_store.specs.Seeks.{least_from};
ghost use Rattle.row_store.specs.Store.{Kept, TellsAll, reading};
ghost use Rattle.row_store.specs.Value.{IsReady, Keeps, HasRoot};

use crate::RowStore;
use crate::ranges::{Span, page};
use crate::seeking::first_row;
use mds_base::{Attr, Cursor, RowKey, RowList, StoreFault};
use mds_out::Disk;
use sorted_table::Start;
use std::alloc::Global;

impl RowStore {
    /// The least key of the map that is not below this one; `None` exactly where there is none. It takes memory for
    /// long names alone, and one frame is out at a time.
    pub fn seek<D: Disk>(
        &mut self,
        alloc: Global,
        disk: &mut D,
        key: &RowKey,
    ) -> Result<Option<RowKey>, StoreFault>
        requires { self.old.stopped ≡ false
            → IsReady self.old (D.seen disk.old) (D.sizes disk.old) (D.images disk.old) }
        ensures found { IfOk result
            (λ found. TellsAll (D.seen disk.old) → (kept : Option Kept) → (rows : RowMap)
            → Keeps self.old kept rows (reading (D.seen disk.old)) → found ≡ least_from rows key.now) }
        ensures kept { (kept : Option Kept) → (rows : RowMap) → Keeps self.old kept rows (reading (D.seen disk.old))
            → Keeps self.new kept rows (reading (D.seen disk.new)) }
        ensures ready { self.new.stopped ≡ false
            → IsReady self.new (D.seen disk.new) (D.sizes disk.new) (D.images disk.new) }
        ensures root { HasRoot self.old → HasRoot self.new }
        ensures frames { free_frames self.new.pool ≡ free_frames self.old.pool }
        ensures answer { self.old.stopped ≡ false → IsCopyAnswer (TellsAll (D.seen disk.old)) result }
        ensures stopped { self.old.stopped ≡ true → (result ≡ Err StoreFault.Stopped) × (disk.new ≡ disk.old) }
        ensures stops { IsErrOf result StoreFault.Device → self.new.stopped ≡ true }
        ensures runs { (IsErrOf result StoreFault.Device → ⊥) → self.new.stopped ≡ self.old.stopped }
        ensures call { IsStoreReading D.seen D.sizes D.images D.moment D.images_since D.faults D.lasts D.fails disk.old
            disk.new result }
    {
        if self.stopped {
            return Err(StoreFault::Stopped);
        }
        let start = Start::at(key);
        match first_row(
            alloc,
            disk,
            &mut self.pool,
            &self.tables,
            &self.fresh,
            &start,
        ) {
            Ok(found) => Ok(key_of(found)),
            Err(fault) => {
                self.stop_at(&fault);
                Err(fault)
            }
        }
    }

    /// The first `limit` rows of a partition of a directory past the cursor whose reversed hash is at most `last`, in
    /// order: a page as that of `Rows`. It takes memory for its list and for long names alone, and one frame is out at
    /// a time.
    pub fn range<D: Disk>(
        &mut self,
        alloc: Global,
        disk: &mut D,
        dir: u64,
        part: u32,
        from: &Cursor,
        last: u64,
        limit: u32,
    ) -> Result<RowList, StoreFault>
        requires { self.old.stopped ≡ false
            → IsReady self.old (D.seen disk.old) (D.sizes disk.old) (D.images disk.old) }
        ensures listed { IfOk result
            (λ page. TellsAll (D.seen disk.old) → (kept : Option Kept) → (rows : RowMap)
            → Keeps self.old kept rows (reading (D.seen disk.old)) → page ≡ page_of rows dir part from.now last limit) }
        ensures kept { (kept : Option Kept) → (rows : RowMap) → Keeps self.old kept rows (reading (D.seen disk.old))
            → Keeps self.new kept rows (reading (D.seen disk.new)) }
        ensures ready { self.new.stopped ≡ false
            → IsReady self.new (D.seen disk.new) (D.sizes disk.new) (D.images disk.new) }
        ensures root { HasRoot self.old → HasRoot self.new }
        ensures frames { free_frames self.new.pool ≡ free_frames self.old.pool }
        ensures answer { self.old.stopped ≡ false → IsCopyAnswer (TellsAll (D.seen disk.old)) result }
        ensures stopped { self.old.stopped ≡ true → (result ≡ Err StoreFault.Stopped) × (disk.new ≡ disk.old) }
        ensures stops { IsErrOf result StoreFault.Device → self.new.stopped ≡ true }
        ensures runs { (IsErrOf result StoreFault.Device → ⊥) → self.new.stopped ≡ self.old.stopped }
        ensures call { IsStoreReading D.seen D.sizes D.images D.moment D.images_since D.faults D.lasts D.fails disk.old
            disk.new result }
    {
        if self.stopped {
            return Err(StoreFault::Stopped);
        }
        let span = Span {
            dir,
            part,
            last,
            limit,
        };
        match page(
            alloc,
            disk,
            &mut self.pool,
            &self.tables,
            &self.fresh,
            from,
            span,
        ) {
            Ok(rows) => Ok(rows),
            Err(fault) => {
                self.stop_at(&fault);
                Err(fault)
            }
        }
    }
}

fn key_of(row: Option<(RowKey, Attr)>) -> Option<RowKey>
    ensures { result ≡ option_map (λ row. row.0) row }
{
    let (key, _attr) = row?;
    Some(key)
}
