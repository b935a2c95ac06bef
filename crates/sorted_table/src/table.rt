ghost use Rattle.std.specs.Prelude.{◌≡◌, ◌+◌, ◌*◌, ◌<◌, ◌≤◌, ◌^◌, List, ℕ, Option, Some, Ok, true, false, IfOk, OnOk};
ghost use Rattle.std.specs.Prelude.{IfSome, IfNone, IsErrOf, MatchOption, length, take, drop};
ghost use Rattle.std.specs.List.{AllByRecursion, slice_get};
ghost use Rattle.std.specs.List.Sorted.{IsPartitionedBy, IsPartitionPoint};
ghost use Rattle.std.specs.Ordering.{is_le};
ghost use Rattle.mds_base.specs.RowKeys.{row_key_cmp};
ghost use Rattle.mds_out.specs.Disk.{AreSame, LeavesOnly, IsUnchanged, HasDiskCause};
ghost use Rattle.mds_out.specs.Calls.{next_number};
ghost use Rattle.mds_out.specs.Known.{OnTold};
ghost use Rattle.sorted_table.specs.Answers.{IsOpenAnswer, IsLookAnswer, IsCopyAnswer, IsDeviceAnswer, IsHeldAnswer};
ghost use Rattle.sorted_table.specs.Answers.{HasTableCause};
ghost use Rattle.sorted_table.specs.Looks.{held_first, bytes_at, IsBlockFor, IsThis, IsPlain};
ghost use Rattle.sorted_table.specs.Openings.{AsksByBlock};
ghost use Rattle.sorted_table.specs.Reading.{block_at};
ghost use Rattle.sorted_table.specs.TableFiles.{HoldsOneTable, IsEitherTableOrDamaged};
ghost use Rattle.sorted_table.specs.TableRows.{IsRow, held_of, held_in, row_behind, row_from, key_of};
ghost use Rattle.sorted_table.specs.Starts.{is_before};
ghost use Rattle.sorted_table.specs.Tables.{IsReady, IsSomeTable, HasRows, HoldsRows, HoldsBlocks};
ghost use Rattle.sorted_table.specs.declared.table_row.TableRow.{TableRow};

use crate::block::{block_behind, block_from, block_rows};
use crate::opening::{open_in, read_at};
use crate::{BLOCK_BYTES, Held, Start, TableDamage, TableFault, TableRow};
use frame_pool::Frame;
use mds_base::{Attr, RowKey};
use mds_out::{Disk, DiskFault};
use std::alloc::Global;
use std::marker::Model;

/// An open table in a file of a disk: rows in the order of their keys. It keeps the first key of each block, and reads
/// a block as it is asked for one of its keys.
#[derive(Drop)]
pub struct Table {
    pub(crate) file: u32,
    pub(crate) firsts: Vec<RowKey>,
}

impl Model for Table {
    ghost use Rattle.sorted_table.specs.Tables.{TableState};

    ghost Value = { TableState };

    ghost view = { λ t. record { file = t.file; firsts = t.firsts.items } };
}

impl Table {
    /// The number of its file.
    pub fn file(&self) -> u32
        ensures { result ≡ self.now.file }
    {
        self.file
    }

    /// How many blocks it has.
    pub fn blocks(&self) -> usize
        ensures { result ≡ length self.now.firsts }
    {
        self.firsts.len()
    }

    /// Opens the table in a file: reads all of it, through the frame, in three calls of the disk and one for each whole
    /// block at most. `Damaged` comes exactly where the file is too short for the counts and the sum, where its sum is
    /// another, or where it spells no table, in this order.
    pub fn open_file<D: Disk>(
        alloc: Global,
        disk: &mut D,
        frame: &mut Frame,
        file: u32,
    ) -> Result<Table, TableFault>
        ensures opened { IfOk result (λ table. table.file ≡ file) }
        ensures ready { IfOk result (λ table. IsReady table (D.seen disk.new) (D.sizes disk.new)) }
        ensures frame { frame.new.number ≡ frame.old.number }
        ensures unchanged { IsUnchanged (D.seen disk.old) (D.seen disk.new) (D.sizes disk.old) (D.sizes disk.new) }
        ensures crash { AreSame (D.images disk.old) (D.images disk.new) }
        ensures any_moment { LeavesOnly D.moment D.images_since disk.old disk.new (D.images disk.old) }
        ensures answer { IsOpenAnswer (D.seen disk.old file) result }
        ensures cause { HasTableCause (D.faults disk.old) (D.faults disk.new) result }
        ensures lasts { D.lasts disk.old disk.new }
        ensures failed { IsErrOf result TableFault.Device → D.fails disk.old disk.new }
        ensures asked { OnTold (D.sizes disk.new file) (λ size. AsksByBlock 3 size (D.asked disk.old)
            (D.asked disk.new)) }
        ensures changes { D.changes_asked disk.new ≡ D.changes_asked disk.old }
    {
        open_in(alloc, disk, file, frame.bytes_mut())
    }

    /// What the table says of a key. It reads one block at most, and takes no memory.
    pub fn get<D: Disk>(
        &self,
        disk: &mut D,
        frame: &mut Frame,
        key: &RowKey,
    ) -> Result<Held, TableFault>
        requires ready { IsReady self.now (D.seen disk.old) (D.sizes disk.old) }
        ensures held { IfOk result
            (λ held. (rows : List TableRow) → HoldsRows self.now (D.seen disk.old) rows
            → OnTold (D.seen disk.old self.now.file) (λ _. held ≡ held_in rows key.now)) }
        ensures frame { frame.new.number ≡ frame.old.number }
        ensures unchanged { IsUnchanged (D.seen disk.old) (D.seen disk.new) (D.sizes disk.old) (D.sizes disk.new) }
        ensures crash { AreSame (D.images disk.old) (D.images disk.new) }
        ensures any_moment { LeavesOnly D.moment D.images_since disk.old disk.new (D.images disk.old) }
        ensures answer { IsLookAnswer (D.seen disk.old self.now.file) result }
        ensures cause { HasTableCause (D.faults disk.old) (D.faults disk.new) result }
        ensures lasts { D.lasts disk.old disk.new }
        ensures failed { IsErrOf result TableFault.Device → D.fails disk.old disk.new }
        ensures asked { D.asked disk.new ≤ D.asked disk.old + 1 }
        ensures changes { D.changes_asked disk.new ≡ D.changes_asked disk.old }
    {
        let upto = blocks_upto(&self.firsts, key);
        if upto == 0 {
            return Ok(Held::Absent);
        }
        read_block(disk, self.file, upto - 1, frame)?;
        held_at(frame.bytes(), key)
    }

    /// The block that may have a key; `None` where no block begins with a key up to it, so that no row has it.
    pub fn block_for(&self, key: &RowKey) -> Option<usize>
        ensures within { IfSome result (λ place. place < length self.now.firsts) }
        ensures some { IfSome result (IsBlockFor self.now key.now) }
        ensures none { IfNone result
            ((rows : List TableRow) → (bytes : List ℕ) → HasRows self.now rows bytes
            → held_in rows key.now ≡ Held.Absent) }
    {
        let upto = blocks_upto(&self.firsts, key);
        if upto == 0 {
            return None;
        }
        Some(upto - 1)
    }

    /// Reads a block of the table's file into a frame.
    pub fn read_block<D: Disk>(
        &self,
        disk: &mut D,
        frame: &mut Frame,
        place: usize,
    ) -> Result<(), TableFault>
        requires ready { IsReady self.now (D.seen disk.old) (D.sizes disk.old) }
        requires within { place < length self.now.firsts }
        ensures block { OnOk result
            (OnTold (D.seen disk.old self.now.file) (λ bytes. frame.new.bytes ≡ bytes_at place bytes)) }
        ensures frame { frame.new.number ≡ frame.old.number }
        ensures unchanged { IsUnchanged (D.seen disk.old) (D.seen disk.new) (D.sizes disk.old) (D.sizes disk.new) }
        ensures crash { AreSame (D.images disk.old) (D.images disk.new) }
        ensures any_moment { LeavesOnly D.moment D.images_since disk.old disk.new (D.images disk.old) }
        ensures answer { IsDeviceAnswer result }
        ensures cause { HasTableCause (D.faults disk.old) (D.faults disk.new) result }
        ensures lasts { D.lasts disk.old disk.new }
        ensures failed { IsErrOf result TableFault.Device → D.fails disk.old disk.new }
        ensures asked { D.asked disk.new ≡ next_number (D.asked disk.old) }
        ensures changes { D.changes_asked disk.new ≡ D.changes_asked disk.old }
    {
        read_block(disk, self.file, place, frame)?;
        Ok(())
    }

    /// What the table says of a key, by the bytes of the block that may have it.
    pub fn held_by(&self, place: usize, block: &[u8], key: &RowKey) -> Result<Held, TableFault>
        requires within { place < length self.now.firsts }
        requires place { IsBlockFor self.now key.now place }
        ensures held { IfOk result
            (λ held. (rows : List TableRow) → (bytes : List ℕ) → HasRows self.now rows bytes
            → block.now ≡ bytes_at place bytes → held ≡ held_in rows key.now) }
        ensures answer { IsHeldAnswer ((bytes : List ℕ) → IsSomeTable self.now bytes
            → block.now ≡ bytes_at place bytes → ⊥) result }
    {
        held_at(block, key)
    }

    /// The least key of the table that is not below this one; `None` exactly where there is none. It reads one block at
    /// most, and takes memory for the name that it gives alone.
    pub fn seek<D: Disk>(
        &self,
        alloc: Global,
        disk: &mut D,
        frame: &mut Frame,
        key: &RowKey,
    ) -> Result<Option<RowKey>, TableFault>
        requires ready { IsReady self.now (D.seen disk.old) (D.sizes disk.old) }
        ensures found { IfOk result
            (λ found. (rows : List TableRow) → HoldsRows self.now (D.seen disk.old) rows
            → OnTold (D.seen disk.old self.now.file) (λ _. found ≡ key_of (row_from rows key.now))) }
        ensures frame { frame.new.number ≡ frame.old.number }
        ensures unchanged { IsUnchanged (D.seen disk.old) (D.seen disk.new) (D.sizes disk.old) (D.sizes disk.new) }
        ensures crash { AreSame (D.images disk.old) (D.images disk.new) }
        ensures any_moment { LeavesOnly D.moment D.images_since disk.old disk.new (D.images disk.old) }
        ensures answer { IsCopyAnswer (D.seen disk.old self.now.file) result }
        ensures cause { HasTableCause (D.faults disk.old) (D.faults disk.new) result }
        ensures lasts { D.lasts disk.old disk.new }
        ensures failed { IsErrOf result TableFault.Device → D.fails disk.old disk.new }
        ensures asked { D.asked disk.new ≤ D.asked disk.old + 1 }
        ensures changes { D.changes_asked disk.new ≡ D.changes_asked disk.old }
    {
        self.seek_by(alloc, disk, frame, &Start::at(key))
    }

    /// The least key of the table that is not before a start; `None` exactly where there is none. It reads one block at
    /// most, and takes memory for the name that it gives alone.
    pub fn seek_by<D: Disk>(
        &self,
        alloc: Global,
        disk: &mut D,
        frame: &mut Frame,
        start: &Start<'_>,
    ) -> Result<Option<RowKey>, TableFault>
        requires ready { IsReady self.now (D.seen disk.old) (D.sizes disk.old) }
        ensures found { IfOk result
            (λ found. (rows : List TableRow) → HoldsRows self.now (D.seen disk.old) rows
            → OnTold (D.seen disk.old self.now.file) (λ _. found ≡ key_of (row_behind (is_before start.now) rows))) }
        ensures frame { frame.new.number ≡ frame.old.number }
        ensures unchanged { IsUnchanged (D.seen disk.old) (D.seen disk.new) (D.sizes disk.old) (D.sizes disk.new) }
        ensures crash { AreSame (D.images disk.old) (D.images disk.new) }
        ensures any_moment { LeavesOnly D.moment D.images_since disk.old disk.new (D.images disk.old) }
        ensures answer { IsCopyAnswer (D.seen disk.old self.now.file) result }
        ensures cause { HasTableCause (D.faults disk.old) (D.faults disk.new) result }
        ensures lasts { D.lasts disk.old disk.new }
        ensures failed { IsErrOf result TableFault.Device → D.fails disk.old disk.new }
        ensures asked { D.asked disk.new ≤ D.asked disk.old + 1 }
        ensures changes { D.changes_asked disk.new ≡ D.changes_asked disk.old }
    {
        let firsts = self.firsts.as_slice();
        let upto = blocks_before(firsts, start);
        if upto == 0 {
            return first_of(alloc, firsts, 0);
        }
        read_block(disk, self.file, upto - 1, frame)?;
        match key_in(alloc, frame.bytes(), start) {
            Ok(found) => found_or(alloc, found, firsts, upto),
            Err(fault) => Err(fault),
        }
    }

    /// The rows of the block at a place, from 0 up, and one at least: the rows of all blocks, one after another, are
    /// the table's. It reads this block alone.
    pub fn block_rows<D: Disk>(
        &self,
        alloc: Global,
        disk: &mut D,
        frame: &mut Frame,
        place: usize,
    ) -> Result<Vec<TableRow>, TableFault>
        requires ready { IsReady self.now (D.seen disk.old) (D.sizes disk.old) }
        requires within { place < length self.now.firsts }
        ensures block { IfOk result
            (λ rows. (blocks : List (List TableRow)) → HoldsBlocks self.now (D.seen disk.old) blocks
            → OnTold (D.seen disk.old self.now.file) (λ _. slice_get blocks place ≡ Some rows.items)) }
        ensures rows { IfOk result (λ rows. AllByRecursion IsRow rows.items) }
        ensures some { IfOk result (λ rows. 0 < length rows.items) }
        ensures few { IfOk result (λ rows. length rows.items ≤ BLOCK_BYTES) }
        ensures frame { frame.new.number ≡ frame.old.number }
        ensures unchanged { IsUnchanged (D.seen disk.old) (D.seen disk.new) (D.sizes disk.old) (D.sizes disk.new) }
        ensures crash { AreSame (D.images disk.old) (D.images disk.new) }
        ensures any_moment { LeavesOnly D.moment D.images_since disk.old disk.new (D.images disk.old) }
        ensures answer { IsCopyAnswer (D.seen disk.old self.now.file) result }
        ensures cause { HasTableCause (D.faults disk.old) (D.faults disk.new) result }
        ensures lasts { D.lasts disk.old disk.new }
        ensures failed { IsErrOf result TableFault.Device → D.fails disk.old disk.new }
        ensures asked { D.asked disk.new ≤ D.asked disk.old + 1 }
        ensures changes { D.changes_asked disk.new ≡ D.changes_asked disk.old }
    {
        read_block(disk, self.file, place, frame)?;
        rows_of(alloc, frame.bytes())
    }
}

/// The law that makes a table's rows and `Damaged` exact: a file holds the rows of one table at most, and a damaged
/// file holds none.
pub fn one_table_law()
    ensures one_table { HoldsOneTable }
    ensures either { IsEitherTableOrDamaged }
{}

/// How many blocks begin with a key that is not above this one.
fn blocks_upto(firsts: &[RowKey], key: &RowKey) -> usize
    ensures bound { result ≤ length firsts.now }
    ensures point { IsPartitionedBy (λ first. is_le (row_key_cmp first key.now)) firsts.now
        → IsPartitionPoint (λ first. is_le (row_key_cmp first key.now) ≡ true)
        (λ first. is_le (row_key_cmp first key.now) ≡ false) firsts.now result }
{
    firsts.partition_point(|first| first.cmp(key).is_le())
}

/// How many blocks begin before a start.
fn blocks_before(firsts: &[RowKey], start: &Start<'_>) -> usize
    ensures bound { result ≤ length firsts.now }
    ensures point { IsPartitionedBy (is_before start.now) firsts.now
        → IsPartitionPoint (λ first. is_before start.now first ≡ true) (λ first. is_before start.now first ≡ false)
        firsts.now result }
{
    firsts.partition_point(|first| start.has_before(first))
}

/// Reads a block of a table's file into a frame.
fn read_block<D: Disk>(
    disk: &mut D,
    file: u32,
    place: usize,
    frame: &mut Frame,
) -> Result<(), DiskFault>
    requires short { BLOCK_BYTES * place + BLOCK_BYTES < 2 ^ 63 }
    requires within { OnTold (D.sizes disk.old file) (λ size. BLOCK_BYTES * place + BLOCK_BYTES ≤ size) }
    ensures bytes { OnOk result
        (OnTold (D.seen disk.old file)
        (λ bytes. frame.new.bytes ≡ take BLOCK_BYTES (drop (BLOCK_BYTES * place) bytes))) }
    ensures frame { frame.new.number ≡ frame.old.number }
    ensures unchanged { IsUnchanged (D.seen disk.old) (D.seen disk.new) (D.sizes disk.old) (D.sizes disk.new) }
    ensures crash { AreSame (D.images disk.old) (D.images disk.new) }
    ensures any_moment { LeavesOnly D.moment D.images_since disk.old disk.new (D.images disk.old) }
    ensures no_memory { IsErrOf result DiskFault.OutOfMemory → ⊥ }
    ensures cause { HasDiskCause (D.faults disk.old) (D.faults disk.new) result }
    ensures lasts { D.lasts disk.old disk.new }
    ensures failed { IsErrOf result DiskFault.Device → D.fails disk.old disk.new }
    ensures asked { D.asked disk.new ≡ next_number (D.asked disk.old) }
    ensures changes { D.changes_asked disk.new ≡ D.changes_asked disk.old }
{
    let at = BLOCK_BYTES as u64 * place as u64;
    read_at(disk, file, at, frame.bytes_mut())
}

/// What a block says of a key.
fn held_at(block: &[u8], key: &RowKey) -> Result<Held, TableFault>
    ensures held { (rows : List TableRow) → block_at block.now ≡ Some rows
        → result ≡ Ok (held_first (row_from rows key.now) key.now) }
    ensures no_fault { IsErrOf result TableFault.Device → ⊥ }
    ensures no_memory { IsErrOf result TableFault.OutOfMemory → ⊥ }
{
    let Some(first) = block_from(block, key) else {
        return Err(TableFault::Damaged {
            offset: 0,
            damage: TableDamage::Spelling,
        });
    };
    let Some(line) = first else {
        return Ok(Held::Absent);
    };
    if line.key.compare(key).is_eq() {
        Ok(held_of(line.attr))
    } else {
        Ok(Held::Absent)
    }
}

fn held_of(attr: Option<Attr>) -> Held
    ensures { result ≡ held_of attr }
{
    match attr {
        None => Held::Tomb,
        Some(attr) => Held::Row(attr),
    }
}

/// The least key of a block that is not before a start.
fn key_in(alloc: Global, block: &[u8], start: &Start<'_>) -> Result<Option<RowKey>, TableFault>
    ensures found { (rows : List TableRow) → block_at block.now ≡ Some rows
        → IsThis (key_of (row_behind (is_before start.now) rows)) result }
    ensures no_fault { IsErrOf result TableFault.Device → ⊥ }
{
    let Some(first) = block_behind(block, start) else {
        return Err(TableFault::Damaged {
            offset: 0,
            damage: TableDamage::Spelling,
        });
    };
    let Some(line) = first else {
        return Ok(None);
    };
    let found = line.key.copy(alloc)?;
    Ok(Some(found))
}

/// The key that was found, or else the first key of a block.
fn found_or(
    alloc: Global,
    found: Option<RowKey>,
    firsts: &[RowKey],
    place: usize,
) -> Result<Option<RowKey>, TableFault>
    ensures found { MatchOption found (IsThis (slice_get firsts.now place) result) (λ key. result ≡ Ok (Some key)) }
    ensures plain { IsPlain result }
{
    match found {
        Some(found) => Ok(Some(found)),
        None => first_of(alloc, firsts, place),
    }
}

/// The first key of a block; `None` where there is no such block.
fn first_of(alloc: Global, firsts: &[RowKey], place: usize) -> Result<Option<RowKey>, TableFault>
    ensures first { IsThis (slice_get firsts.now place) result }
    ensures plain { IsPlain result }
{
    let Some(first) = firsts.get(place) else {
        return Ok(None);
    };
    let found = first.copy(alloc)?;
    Ok(Some(found))
}

/// The rows of a block of a table, which has one at least.
fn rows_of(alloc: Global, block: &[u8]) -> Result<Vec<TableRow>, TableFault>
    requires { length block.now ≡ BLOCK_BYTES }
    ensures read { IfOk result (λ rows. block_at block.now ≡ Some rows.items) }
    ensures rows { IfOk result (λ rows. AllByRecursion IsRow rows.items) }
    ensures some { IfOk result (λ rows. 0 < length rows.items) }
    ensures few { IfOk result (λ rows. length rows.items ≤ BLOCK_BYTES) }
    ensures plain { (there : List TableRow) → block_at block.now ≡ Some there → 0 < length there → IsPlain result }
    ensures no_fault { IsErrOf result TableFault.Device → ⊥ }
{
    let Some((rows, _size)) = block_rows(alloc, block)? else {
        return Err(TableFault::Damaged {
            offset: 0,
            damage: TableDamage::Spelling,
        });
    };
    if rows.is_empty() {
        return Err(TableFault::Damaged {
            offset: 0,
            damage: TableDamage::Spelling,
        });
    }
    Ok(rows)
}
