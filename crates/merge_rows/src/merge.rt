ghost use Rattle.std.specs.Prelude.{◌≡◌, ◌+◌, ◌<◌, ◌≤◌, List, IfOk, OnOk};
ghost use Rattle.std.specs.Option.{option_map};
ghost use Rattle.mds_out.specs.Disk.{Contents, Lengths};
ghost use Rattle.merge_rows.specs.Answers.{IsMergeAnswer};
ghost use Rattle.merge_rows.specs.Merging.{AreApart, IsMerging};
ghost use Rattle.merge_rows.specs.Runs.{WritesOnly, StayReadable};
ghost use Rattle.merge_rows.specs.Steps.{IsPut, IsPassed, IsPassAnswer, Steps};
ghost use Rattle.merge_rows.specs.Telling.{AllTell, AreReady};
ghost use Rattle.merge_rows.specs.Turns.{IfMore, IfFinished, HoldsMerged};
ghost use Rattle.sorted_table.specs.Blocks.{is_above};
ghost use Rattle.sorted_table.specs.Answers.{IsMemoryAnswer};
ghost use Rattle.sorted_table.specs.Building.{IsBuilt, IsGrowing};
ghost use Rattle.sorted_table.specs.TableRows.{IsMarked};
ghost use Rattle.sorted_table.specs.Tables.{IsReady, HasRows, HoldsRows, IsDurable};
ghost use Rattle.sorted_table.specs.declared.table_row.TableRow.{TableRow};

use crate::cursor::Cursor;
use crate::cursors::{cursors_of, fill_all, least, pass_all};
use frame_pool::Frame;
use mds_base::{Attr, RowKey};
use mds_out::Disk;
use sorted_table::{Builder, Table, TableDamage, TableFault};
use std::alloc::{AllocError, Global};

/// A merge of tables that is under way.
#[derive(Drop)]
pub struct Merge {
    builder: Builder,
    cursors: Vec<Cursor>,
    last: Option<RowKey>,
}

/// What a turn of a merge came to.
#[derive(Drop)]
pub enum Turn {
    /// So many blocks were written, and rows are left to write.
    More(Merge),
    /// The table of all rows, in the file of the merge.
    Finished(Table),
}

impl Merge {
    /// A merge of these tables, newest first, into a file that none of them is in. Nothing is read or written yet.
    pub fn start(alloc: Global, tables: &[Table], file: u32) -> Result<Merge, AllocError>
        requires apart { AreApart tables.now file }
        ensures file { IfOk result (λ merge. merge.builder.file ≡ file) }
        ensures merging { IfOk result
            (λ merge. (seen : Contents) (sizes : Lengths) → IsMerging merge tables.now seen sizes) }
        ensures begun { IfOk result (λ merge. merge.builder.written ≡ 0) }
    {
        Ok(Merge {
            builder: Builder::new(alloc, file)?,
            cursors: cursors_of(alloc, tables.len())?,
            last: None,
        })
    }

    /// Goes on by so many blocks, or to the end: then the table of all rows stands in the file of the merge, of each
    /// key the newest row, without tombstones, and every crash leaves it. Tables, newest first, are those that the
    /// merge was started with. After a refusal the file is of no use, and the tables are as they were.
    pub fn turn<D: Disk>(
        mut self,
        alloc: Global,
        disk: &mut D,
        frame: &mut Frame,
        tables: &[Table],
        blocks: u32,
    ) -> Result<Turn, TableFault>
        requires some { 1 ≤ blocks }
        requires ready { AreReady tables.now (D.seen disk.old) (D.sizes disk.old) }
        requires merging { IsMerging self tables.now (D.seen disk.old) (D.sizes disk.old) }
        ensures file { IfMore result (λ merge. merge.builder.file ≡ self.builder.file) }
        ensures merging { IfMore result (λ merge. IsMerging merge tables.now (D.seen disk.new) (D.sizes disk.new)) }
        ensures wrote { IfMore result (λ merge. merge.builder.written ≡ self.builder.written + blocks) }
        ensures left { IfMore result (λ merge. 0 < merge.builder.count) }
        ensures finished { IfFinished result (λ table. table.file ≡ self.builder.file) }
        ensures rows { IfFinished result
            (λ table. (lists : List (List TableRow)) → AllTell HasRows tables.now (D.seen disk.old) lists
            → HoldsMerged table (D.seen disk.new) lists) }
        ensures ready { IfFinished result (λ table. IsReady table (D.seen disk.new) (D.sizes disk.new)) }
        ensures durable { IfFinished result
            (λ table. IsDurable self.builder.file (D.seen disk.new) (D.images disk.new)) }
        ensures frame { frame.new.number ≡ frame.old.number }
        ensures tables { AreReady tables.now (D.seen disk.new) (D.sizes disk.new) }
        ensures readable { StayReadable D.moment D.images_since disk.old disk.new (D.seen disk.old) (D.images disk.old)
            tables.now }
        ensures writes { WritesOnly D.seen D.sizes D.images D.moment D.images_since D.faults D.lasts D.fails
            self.builder.file disk.old disk.new result }
        ensures answer { IsMergeAnswer tables.now (D.seen disk.old) result }
    {
        let before = self.builder.written();
        'rows: while self.builder.written() - before < blocks {
            let some = self.step(alloc, disk, frame, tables)?;
            if !some {
                return self.end(disk);
            }
        }
        Ok(Turn::More(self))
    }

    // Passes the least key that is left: adds its newest row, or drops its tombstone. False where no row is left.
    fn step<D: Disk>(
        &mut self,
        alloc: Global,
        disk: &mut D,
        frame: &mut Frame,
        tables: &[Table],
    ) -> Result<bool, TableFault>
        requires ready { AreReady tables.now (D.seen disk.old) (D.sizes disk.old) }
        requires merging { IsMerging self.old tables.now (D.seen disk.old) (D.sizes disk.old) }
        ensures merging { OnOk result (IsMerging self.new tables.now (D.seen disk.new) (D.sizes disk.new)) }
        ensures steps { IfOk result (λ some. Steps self.old self.new some tables.now (D.seen disk.old)) }
        ensures frame { frame.new.number ≡ frame.old.number }
        ensures writes { WritesOnly D.seen D.sizes D.images D.moment D.images_since D.faults D.lasts D.fails
            self.old.builder.file disk.old disk.new result }
        ensures answer { IsMergeAnswer tables.now (D.seen disk.old) result }
    {
        fill_all(alloc, disk, frame, tables, self.cursors.as_mut_slice())?;
        let Some(row) = least(&self.cursors) else {
            return Ok(false);
        };
        let attr = row.attr;
        let key = row.key.copy(alloc)?;
        self.pass(alloc, disk, key, attr)?;
        Ok(true)
    }

    // Passes a key, which is above the last one: adds its row, but for a tombstone.
    fn pass<D: Disk>(
        &mut self,
        alloc: Global,
        disk: &mut D,
        key: RowKey,
        attr: Option<Attr>,
    ) -> Result<(), TableFault>
        requires attr { IsMarked attr }
        requires growing { IsGrowing self.old.builder (D.sizes disk.old) }
        ensures passed { OnOk result
            (IsPassed self.old self.new key attr (D.seen disk.old self.old.builder.file)
            (D.seen disk.new self.old.builder.file)) }
        ensures growing { OnOk result (IsGrowing self.new.builder (D.sizes disk.new)) }
        ensures writes { WritesOnly D.seen D.sizes D.images D.moment D.images_since D.faults D.lasts D.fails
            self.old.builder.file disk.old disk.new result }
        ensures answer { IsPassAnswer (is_above self.old.last key) result }
    {
        if !is_above(self.last.as_ref(), &key) {
            return Err(TableFault::Damaged {
                offset: 0,
                damage: TableDamage::Spelling,
            });
        }
        put(&mut self.builder, alloc, disk, &key, attr)?;
        pass_all(self.cursors.as_mut_slice(), &key);
        self.last = Some(key);
        Ok(())
    }

    // Makes the table of all rows that were added.
    fn end<D: Disk>(self, disk: &mut D) -> Result<Turn, TableFault>
        requires growing { IsGrowing self.builder (D.sizes disk.old) }
        ensures last { IfMore result (λ merge. ⊥) }
        ensures file { IfFinished result (λ table. table.file ≡ self.builder.file) }
        ensures ready { IfFinished result
            (λ table. (rows : List TableRow) → IsBuilt self.builder rows (D.seen disk.old self.builder.file)
            → IsReady table (D.seen disk.new) (D.sizes disk.new)) }
        ensures rows { IfFinished result
            (λ table. (rows : List TableRow) → IsBuilt self.builder rows (D.seen disk.old self.builder.file)
            → HoldsRows table (D.seen disk.new) rows) }
        ensures durable { IfFinished result
            (λ table. IsDurable self.builder.file (D.seen disk.new) (D.images disk.new)) }
        ensures writes { WritesOnly D.seen D.sizes D.images D.moment D.images_since D.faults D.lasts D.fails
            self.builder.file disk.old disk.new result }
        ensures answer { IsMemoryAnswer result }
    {
        let table = self.builder.finish(disk)?;
        Ok(Turn::Finished(table))
    }
}

// Adds a row, but for a tombstone.
fn put<D: Disk>(
    builder: &mut Builder,
    alloc: Global,
    disk: &mut D,
    key: &RowKey,
    attr: Option<Attr>,
) -> Result<(), TableFault>
    requires attr { IsMarked attr }
    requires growing { IsGrowing builder.old (D.sizes disk.old) }
    ensures put { OnOk result
        (IsPut builder.old builder.new key.now attr (D.seen disk.old builder.old.file)
        (D.seen disk.new builder.old.file)) }
    ensures growing { OnOk result (IsGrowing builder.new (D.sizes disk.new)) }
    ensures writes { WritesOnly D.seen D.sizes D.images D.moment D.images_since D.faults D.lasts D.fails
        builder.old.file disk.old disk.new result }
    ensures answer { IsMemoryAnswer result }
{
    match attr {
        None => Ok(()),
        Some(attr) => builder.add(alloc, disk, key, Some(&attr)),
    }
}

// Whether the key is above the last one.
fn is_above(last: Option<&RowKey>, key: &RowKey) -> bool
    ensures { result ≡ is_above (option_map (λ last. last.now) last.entry) key.now }
{
    match last {
        None => true,
        Some(last) => last.cmp(key).is_lt(),
    }
}
