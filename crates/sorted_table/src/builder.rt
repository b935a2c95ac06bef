ghost use Rattle.std.specs.Prelude.{◌≡◌, ◌+◌, ◌*◌, ◌<◌, ◌≤◌, ◌^◌, ◌++◌, ◌∷◌, [], List, ℕ, Option, OnOk, IfOk, IsErrOf};
ghost use Rattle.std.specs.Prelude.{length};
ghost use Rattle.std.specs.Option.{option_map};
ghost use Rattle.gate_log.specs.LogState.{IsElsewhereOld};
ghost use Rattle.mds_out.specs.Disk.{LeavesOnly, IsElsewhereUnchanged, StaysTold};
ghost use Rattle.sorted_table.specs.Answers.{IsMemoryAnswer, HasTableCause};
ghost use Rattle.sorted_table.specs.Building.{Builds, IsBuilt, HasRoom, IsGrowing, AllBelow, closed};
ghost use Rattle.sorted_table.specs.TableRows.{IsMarked, row_spelling, key_spelling, marked_spelling};
ghost use Rattle.sorted_table.specs.Tables.{IsReady, HoldsRows, IsDurable};
ghost use Rattle.sorted_table.specs.declared.table_row.TableRow.{TableRow};

use crate::spelling::{fill_block, put_counts, put_row, row_size};
use crate::writes::{put_block, put_end};
use crate::{BLOCK_BYTES, ROW_BYTES, Table, TableFault};
use md5::{Digest, Md5};
use mds_base::{Attr, RowKey};
use mds_out::Disk;
use std::alloc::{AllocError, Global};

/// Makes a table in a file, row by row. After a refusal the file is of no use, and the builder is dropped.
#[derive(Drop)]
pub struct Builder {
    file: u32,
    rows: Vec<u8>,
    count: u16,
    block: Vec<u8>,
    written: u32,
    number: u64,
    firsts: Vec<RowKey>,
    sum: Md5,
}

impl Builder {
    /// A builder of a table that has no row yet. What the file held is gone once a block is written.
    pub fn new(alloc: Global, file: u32) -> Result<Builder, AllocError>
        ensures file { IfOk result (λ builder. builder.file ≡ file) }
        ensures built { IfOk result (λ builder. (seen : Option (List ℕ)) → IsBuilt builder [] seen) }
        ensures begun { IfOk result (λ builder. builder.written ≡ 0) }
    {
        Ok(Builder {
            file,
            rows: Vec::with_capacity(alloc, ROW_BYTES)?,
            count: 0,
            block: Vec::with_capacity(alloc, BLOCK_BYTES)?,
            written: 0,
            number: 0,
            firsts: Vec::new(alloc),
            sum: Md5::new(),
        })
    }

    /// How many blocks it has written.
    pub fn written(&self) -> u32
        ensures { result ≡ self.now.written }
    {
        self.written
    }

    /// Adds a row behind the others: its key is above theirs. `None` is a tombstone. Where the row does not fit into
    /// the present block, that is written: one call of the disk, and for the first block one more.
    pub fn add<D: Disk>(
        &mut self,
        alloc: Global,
        disk: &mut D,
        key: &RowKey,
        attr: Option<&Attr>,
    ) -> Result<(), TableFault>
        requires attr { IsMarked (option_map (λ a. a.now) attr) }
        requires growing { IsGrowing self.old (D.sizes disk.old) }
        ensures file { self.new.file ≡ self.old.file }
        ensures written { OnOk result
            ((self.old.written ≤ self.new.written) × (self.new.written ≤ self.old.written + 1)) }
        ensures some { OnOk result (0 < self.new.count) }
        ensures built { OnOk result
            ((rows : List TableRow) → IsBuilt self.old rows (D.seen disk.old self.old.file) → AllBelow rows key.now
            → IsBuilt self.new (rows ++ record { key = key.now; attr = option_map (λ a. a.now) attr.entry } ∷ [])
            (D.seen disk.new self.old.file)) }
        ensures growing { OnOk result (IsGrowing self.new (D.sizes disk.new)) }
        ensures any_moment { LeavesOnly D.moment D.images_since disk.old disk.new
            (IsElsewhereOld self.old.file (D.images disk.old)) }
        ensures elsewhere { IsElsewhereUnchanged self.old.file (D.seen disk.old) (D.seen disk.new) (D.sizes disk.old)
            (D.sizes disk.new) }
        ensures stays_told { StaysTold (D.seen disk.old self.old.file) (D.seen disk.new self.old.file) }
        ensures answer { IsMemoryAnswer result }
        ensures cause { HasTableCause (D.faults disk.old) (D.faults disk.new) result }
        ensures lasts { D.lasts disk.old disk.new }
        ensures failed { IsErrOf result TableFault.Device → D.fails disk.old disk.new }
        ensures asked { D.asked disk.new ≤ D.asked disk.old + 2 }
    {
        let size = row_size(key, attr);
        self.make_room(disk, size)?;
        self.append(alloc, key, attr)?;
        Ok(())
    }

    /// Writes what is left, syncs the file, and gives the table of the rows that were added: at most five calls of the
    /// disk. After `Ok` every crash leaves the table.
    pub fn finish<D: Disk>(mut self, disk: &mut D) -> Result<Table, TableFault>
        requires growing { IsGrowing self (D.sizes disk.old) }
        ensures file { IfOk result (λ table. table.file ≡ self.file) }
        ensures ready { IfOk result
            (λ table. (rows : List TableRow) → IsBuilt self rows (D.seen disk.old self.file)
            → IsReady table (D.seen disk.new) (D.sizes disk.new)) }
        ensures rows { IfOk result
            (λ table. (rows : List TableRow) → IsBuilt self rows (D.seen disk.old self.file)
            → HoldsRows table (D.seen disk.new) rows) }
        ensures durable { OnOk result (IsDurable self.file (D.seen disk.new) (D.images disk.new)) }
        ensures any_moment { LeavesOnly D.moment D.images_since disk.old disk.new
            (IsElsewhereOld self.file (D.images disk.old)) }
        ensures elsewhere { IsElsewhereUnchanged self.file (D.seen disk.old) (D.seen disk.new) (D.sizes disk.old)
            (D.sizes disk.new) }
        ensures stays_told { StaysTold (D.seen disk.old self.file) (D.seen disk.new self.file) }
        ensures answer { IsMemoryAnswer result }
        ensures cause { HasTableCause (D.faults disk.old) (D.faults disk.new) result }
        ensures lasts { D.lasts disk.old disk.new }
        ensures failed { IsErrOf result TableFault.Device → D.fails disk.old disk.new }
        ensures asked { D.asked disk.new ≤ D.asked disk.old + 5 }
    {
        self.write_last(disk)?;
        self.seal(disk)
    }

    // Writes the present block where a row of so many bytes does not fit into it.
    fn make_room<D: Disk>(&mut self, disk: &mut D, size: usize) -> Result<(), TableFault>
        requires some { 1 ≤ size }
        requires small { size ≤ 307 }
        requires growing { IsGrowing self.old (D.sizes disk.old) }
        ensures file { self.new.file ≡ self.old.file }
        ensures count { OnOk result
            ((self.old.written ≤ self.new.written) × (self.new.written ≤ self.old.written + 1)) }
        ensures room { OnOk result
            ((rows : List TableRow) → IsBuilt self.old rows (D.seen disk.old self.old.file)
            → HasRoom self.new size rows (D.seen disk.new self.old.file)) }
        ensures growing { OnOk result (IsGrowing self.new (D.sizes disk.new)) }
        ensures any_moment { LeavesOnly D.moment D.images_since disk.old disk.new
            (IsElsewhereOld self.old.file (D.images disk.old)) }
        ensures elsewhere { IsElsewhereUnchanged self.old.file (D.seen disk.old) (D.seen disk.new) (D.sizes disk.old)
            (D.sizes disk.new) }
        ensures stays_told { StaysTold (D.seen disk.old self.old.file) (D.seen disk.new self.old.file) }
        ensures answer { IsMemoryAnswer result }
        ensures cause { HasTableCause (D.faults disk.old) (D.faults disk.new) result }
        ensures lasts { D.lasts disk.old disk.new }
        ensures failed { IsErrOf result TableFault.Device → D.fails disk.old disk.new }
        ensures asked { D.asked disk.new ≤ D.asked disk.old + 2 }
    {
        if self.rows.as_slice().len() + size <= ROW_BYTES {
            return Ok(());
        }
        self.write_block(disk)
    }

    // Appends a row to the present block, into which it fits.
    fn append(&mut self, alloc: Global, key: &RowKey, attr: Option<&Attr>) -> Result<(), AllocError>
        requires { IsMarked (option_map (λ a. a.now) attr) }
        ensures file { self.new.file ≡ self.old.file }
        ensures written { self.new.written ≡ self.old.written }
        ensures some { OnOk result (0 < self.new.count) }
        ensures built { OnOk result
            ((rows : List TableRow) (seen : Option (List ℕ))
            → HasRoom self.old (length (key_spelling key.now ++ marked_spelling (option_map (λ a. a.now) attr.entry)))
            rows seen → AllBelow rows key.now
            → IsBuilt self.new (rows ++ record { key = key.now; attr = option_map (λ a. a.now) attr.entry } ∷ [])
            seen) }
    {
        let Some(count) = self.count.checked_add(1) else {
            return Err(AllocError);
        };
        let Some(number) = self.number.checked_add(1) else {
            return Err(AllocError);
        };
        self.keep_first(alloc, key)?;
        put_row(&mut self.rows, key, attr)?;
        self.count = count;
        self.number = number;
        Ok(())
    }

    // Keeps the key of a row that begins a block.
    fn keep_first(&mut self, alloc: Global, key: &RowKey) -> Result<(), AllocError>
        ensures first { OnOk result
            (self.old.count ≡ 0 → self.new.firsts.items ≡ self.old.firsts.items ++ key.now ∷ []) }
        ensures later { 0 < self.old.count → self.new.firsts ≡ self.old.firsts }
        ensures others { self.new ≡ record self.old { firsts = self.new.firsts } }
    {
        if self.count > 0 {
            return Ok(());
        }
        self.firsts.push(key.copy(alloc)?)?;
        Ok(())
    }

    // Writes the present block where it has rows.
    fn write_last<D: Disk>(&mut self, disk: &mut D) -> Result<(), TableFault>
        requires growing { IsGrowing self.old (D.sizes disk.old) }
        ensures file { self.new.file ≡ self.old.file }
        ensures written { OnOk result
            ((full : List (List TableRow)) (present rows : List TableRow)
            → Builds self.old full present rows (D.seen disk.old self.old.file)
            → Builds self.new (closed full present) [] rows (D.seen disk.new self.old.file)) }
        ensures growing { OnOk result (IsGrowing self.new (D.sizes disk.new)) }
        ensures any_moment { LeavesOnly D.moment D.images_since disk.old disk.new
            (IsElsewhereOld self.old.file (D.images disk.old)) }
        ensures elsewhere { IsElsewhereUnchanged self.old.file (D.seen disk.old) (D.seen disk.new) (D.sizes disk.old)
            (D.sizes disk.new) }
        ensures stays_told { StaysTold (D.seen disk.old self.old.file) (D.seen disk.new self.old.file) }
        ensures answer { IsMemoryAnswer result }
        ensures cause { HasTableCause (D.faults disk.old) (D.faults disk.new) result }
        ensures lasts { D.lasts disk.old disk.new }
        ensures failed { IsErrOf result TableFault.Device → D.fails disk.old disk.new }
        ensures asked { D.asked disk.new ≤ D.asked disk.old + 2 }
    {
        if self.count == 0 {
            return Ok(());
        }
        self.write_block(disk)
    }

    // Writes the present block, and begins the next one.
    fn write_block<D: Disk>(&mut self, disk: &mut D) -> Result<(), TableFault>
        requires growing { IsGrowing self.old (D.sizes disk.old) }
        ensures file { self.new.file ≡ self.old.file }
        ensures written { OnOk result
            ((full : List (List TableRow)) (present rows : List TableRow)
            → Builds self.old full present rows (D.seen disk.old self.old.file) → 0 < length present
            → Builds self.new (full ++ present ∷ []) [] rows (D.seen disk.new self.old.file)) }
        ensures empty { OnOk result (length self.new.rows.items ≡ 0) }
        ensures count { OnOk result (self.new.written ≡ self.old.written + 1) }
        ensures growing { OnOk result (IsGrowing self.new (D.sizes disk.new)) }
        ensures any_moment { LeavesOnly D.moment D.images_since disk.old disk.new
            (IsElsewhereOld self.old.file (D.images disk.old)) }
        ensures elsewhere { IsElsewhereUnchanged self.old.file (D.seen disk.old) (D.seen disk.new) (D.sizes disk.old)
            (D.sizes disk.new) }
        ensures stays_told { StaysTold (D.seen disk.old self.old.file) (D.seen disk.new self.old.file) }
        ensures answer { IsMemoryAnswer result }
        ensures cause { HasTableCause (D.faults disk.old) (D.faults disk.new) result }
        ensures lasts { D.lasts disk.old disk.new }
        ensures failed { IsErrOf result TableFault.Device → D.fails disk.old disk.new }
        ensures asked { D.asked disk.new ≤ D.asked disk.old + 2 }
    {
        let Some(written) = self.written.checked_add(1) else {
            return Err(TableFault::OutOfMemory);
        };
        fill_block(&mut self.block, self.count, &self.rows)?;
        put_block(disk, self.file, self.written, &self.block)?;
        self.sum.update(self.block.as_slice());
        self.rows.clear();
        self.count = 0;
        self.written = written;
        Ok(())
    }

    // Writes the counts and the sum behind the blocks, and syncs the file.
    fn seal<D: Disk>(mut self, disk: &mut D) -> Result<Table, TableFault>
        requires growing { IsGrowing self (D.sizes disk.old) }
        ensures file { IfOk result (λ table. table.file ≡ self.file) }
        ensures ready { IfOk result
            (λ table. (full : List (List TableRow)) (rows : List TableRow)
            → Builds self full [] rows (D.seen disk.old self.file)
            → IsReady table (D.seen disk.new) (D.sizes disk.new)) }
        ensures rows { IfOk result
            (λ table. (full : List (List TableRow)) (rows : List TableRow)
            → Builds self full [] rows (D.seen disk.old self.file) → HoldsRows table (D.seen disk.new) rows) }
        ensures durable { OnOk result (IsDurable self.file (D.seen disk.new) (D.images disk.new)) }
        ensures any_moment { LeavesOnly D.moment D.images_since disk.old disk.new
            (IsElsewhereOld self.file (D.images disk.old)) }
        ensures elsewhere { IsElsewhereUnchanged self.file (D.seen disk.old) (D.seen disk.new) (D.sizes disk.old)
            (D.sizes disk.new) }
        ensures stays_told { StaysTold (D.seen disk.old self.file) (D.seen disk.new self.file) }
        ensures answer { IsMemoryAnswer result }
        ensures cause { HasTableCause (D.faults disk.old) (D.faults disk.new) result }
        ensures lasts { D.lasts disk.old disk.new }
        ensures failed { IsErrOf result TableFault.Device → D.fails disk.old disk.new }
        ensures asked { D.asked disk.new ≤ D.asked disk.old + 3 }
    {
        put_counts(&mut self.block, self.written, self.number)?;
        self.sum.update(self.block.as_slice());
        let Builder {
            file,
            mut block,
            written,
            firsts,
            sum,
            ..
        } = self;
        block.extend_from_slice(&sum.finalize())?;
        put_end(disk, file, written, &block)?;
        Ok(Table { file, firsts })
    }
}
