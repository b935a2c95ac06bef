//! Reading the file of a table, block by block.
ghost use Rattle.std.specs.Prelude.{◌≡◌, ◌+◌, ◌*◌, ◌-◌, ◌<◌, ◌≤◌, ◌^◌, ◌++◌, List, ℕ, Option, Some, IfOk, OnOk};
ghost use Rattle.std.specs.Prelude.{IsErrOf, IsTrue, ◌↔◌, take, drop, length};
ghost use Rattle.mds_out.specs.Disk.{AreSame, LeavesOnly, IsUnchanged, HasDiskCause};
ghost use Rattle.mds_out.specs.Calls.{next_number};
ghost use Rattle.mds_out.specs.Known.{OnTold};
ghost use Rattle.sorted_table.specs.Answers.{IsMemoryAnswer, IsOpenAnswer, HasTableCause};
ghost use Rattle.sorted_table.specs.Checks.{IsRead};
ghost use Rattle.md5.specs.Md5.{md5};
ghost use Rattle.sorted_table.specs.Openings.{IsOpening, KeepsAtMost, AsksByBlock, counts_at, IsVerdict};
ghost use Rattle.sorted_table.specs.Openings.{IsVerdictAnswer};
ghost use Rattle.sorted_table.specs.Tables.{IsReady, IsSomeTable};

use crate::block::block_rows;
use crate::checked::Checked;
use crate::reading::{u32_at, u64_at};
use crate::table::Table;
use crate::{BLOCK_BYTES, FIXED_BYTES, SUM_BYTES, TableDamage, TableFault};
use md5::{Digest, Md5};
use mds_out::{Disk, DiskFault};
use std::alloc::{AllocError, Global};

/// What was read of a file up to a place: the sum of the bytes, and what is kept of the blocks that they spell.
#[derive(Drop)]
pub(crate) struct Opening {
    at: u64,
    sum: Md5,
    checked: Option<Checked>,
}

/// What is kept of the blocks so far and a block more; nothing where they can't be those of a table.
fn next(
    alloc: Global,
    checked: Option<Checked>,
    block: &[u8],
) -> Result<Option<Checked>, AllocError>
    requires { length block.now ≡ BLOCK_BYTES }
    ensures read { IfOk result (λ after. (bytes : List ℕ) → IsRead checked bytes → IsRead after (bytes ++ block.now)) }
    ensures count { IfOk result (λ after. (n : ℕ) → KeepsAtMost n checked → KeepsAtMost (n + 1) after) }
{
    let Some(mut checked) = checked else {
        return Ok(None);
    };
    let Some((rows, size)) = block_rows(alloc, block)? else {
        return Ok(None);
    };
    let good = checked.push(alloc, &rows, size)?;
    if good { Ok(Some(checked)) } else { Ok(None) }
}

/// Reads the blocks of a file up to a place, as many as there are whole.
fn read_blocks<D: Disk>(
    alloc: Global,
    disk: &mut D,
    file: u32,
    end: u64,
    block: &mut [u8],
) -> Result<Opening, TableFault>
    requires block { length block.old ≡ BLOCK_BYTES }
    requires short { end < 2 ^ 63 }
    requires known { D.sizes disk.old file ≡ Some (end + SUM_BYTES) }
    ensures opening { IfOk result (λ opening. OnTold (D.seen disk.old file) (IsOpening opening)) }
    ensures aligned { IfOk result
        (λ opening. (n : ℕ) × (opening.at ≡ BLOCK_BYTES * n) × KeepsAtMost n opening.checked) }
    ensures at { IfOk result (λ opening. (opening.at ≤ end) × (end < opening.at + BLOCK_BYTES)) }
    ensures unchanged { IsUnchanged (D.seen disk.old) (D.seen disk.new) (D.sizes disk.old) (D.sizes disk.new) }
    ensures crash { AreSame (D.images disk.old) (D.images disk.new) }
    ensures any_moment { LeavesOnly D.moment D.images_since disk.old disk.new (D.images disk.old) }
    ensures answer { IsMemoryAnswer result }
    ensures cause { HasTableCause (D.faults disk.old) (D.faults disk.new) result }
    ensures lasts { D.lasts disk.old disk.new }
    ensures failed { IsErrOf result TableFault.Device → D.fails disk.old disk.new }
    ensures asked { AsksByBlock 0 end (D.asked disk.old) (D.asked disk.new) }
    ensures changes { D.changes_asked disk.new ≡ D.changes_asked disk.old }
{
    let mut at = 0;
    let mut sum = Md5::new();
    let mut checked = Some(Checked::new(alloc));
    'whole: while end - at >= BLOCK_BYTES as u64 {
        read_at(disk, file, at, block)?;
        sum.update(&*block);
        checked = next(alloc, checked, block)?;
        at += BLOCK_BYTES as u64;
    }
    Ok(Opening { at, sum, checked })
}

/// A read that says of each moment that it changed no image.
pub(crate) fn read_at<D: Disk>(
    disk: &mut D,
    file: u32,
    at: u64,
    into: &mut [u8],
) -> Result<(), DiskFault>
    requires short { at + length into.old < 2 ^ 63 }
    requires within { OnTold (D.sizes disk.old file) (λ size. at + length into.old ≤ size) }
    ensures bytes { OnOk result
        (OnTold (D.seen disk.old file) (λ bytes. into.new ≡ take (length into.old) (drop at bytes))) }
    ensures unchanged { IsUnchanged (D.seen disk.old) (D.seen disk.new) (D.sizes disk.old) (D.sizes disk.new) }
    ensures crash { AreSame (D.images disk.old) (D.images disk.new) }
    ensures any_moment { LeavesOnly D.moment D.images_since disk.old disk.new (D.images disk.old) }
    ensures no_memory { IsErrOf result DiskFault.OutOfMemory → ⊥ }
    ensures cause { HasDiskCause (D.faults disk.old) (D.faults disk.new) result }
    ensures lasts { D.lasts disk.old disk.new }
    ensures failed { IsErrOf result DiskFault.Device → D.fails disk.old disk.new }
    ensures asked { D.asked disk.new ≡ next_number (D.asked disk.old) }
    ensures changes { D.changes_asked disk.new ≡ D.changes_asked disk.old }
{
    disk.read(file, at, into)
}

/// The counts of blocks and of rows; `None` where the bytes are not just these.
fn counts_at(bytes: &[u8]) -> Option<(u32, u64)>
    ensures { result ≡ counts_at bytes.now }
{
    let (blocks, rest) = u32_at(bytes)?;
    let (rows, rest) = u64_at(rest)?;
    if rest.is_empty() {
        Some((blocks, rows))
    } else {
        None
    }
}

/// Whether these bytes are the counts of the blocks that were read.
fn has_counts(checked: &Checked, bytes: &[u8]) -> bool
    ensures { IsTrue result ↔ (counts_at bytes.now ≡ Some (length checked.now.firsts.items, checked.now.rows)) }
{
    match counts_at(bytes) {
        Some((blocks, rows)) => blocks as usize == checked.firsts.len() && rows == checked.rows,
        None => false,
    }
}

fn is_same(a: &[u8], b: &[u8]) -> bool
    ensures { IsTrue result ↔ (a.now ≡ b.now) }
{
    a == b
}

/// What a file is whose last bytes are the counts and the sum, and whose blocks were read so.
fn verdict(
    file: u32,
    end: u64,
    checked: Option<Checked>,
    counts: &[u8],
    kept: [u8; SUM_BYTES],
    found: [u8; SUM_BYTES],
) -> Result<Table, TableFault>
    requires small { length counts.now < BLOCK_BYTES }
    requires sum { length kept ≡ SUM_BYTES }
    ensures verdict { (bytes front : List ℕ) → IsRead checked front → (k : ℕ) → length front ≡ 4096 * k
        → bytes ≡ (front ++ counts.now) ++ kept → found ≡ md5 (front ++ counts.now) → end ≡ length (front ++ counts.now)
        → 28 ≤ length bytes → IsVerdict file bytes result }
    ensures answer { IsVerdictAnswer result }
    ensures file { IfOk result (λ table. table.file ≡ file) }
    ensures firsts { IfOk result (λ table. (n : ℕ) → KeepsAtMost n checked → length table.firsts ≤ n) }
{
    if !is_same(&kept, &found) {
        let damage = TableDamage::Sum { kept, found };
        return Err(TableFault::Damaged {
            offset: end,
            damage,
        });
    }
    let Some(checked) = checked else {
        return Err(TableFault::Damaged {
            offset: 0,
            damage: TableDamage::Spelling,
        });
    };
    if !has_counts(&checked, counts) {
        return Err(TableFault::Damaged {
            offset: 0,
            damage: TableDamage::Spelling,
        });
    }
    Ok(Table {
        file,
        firsts: checked.firsts,
    })
}

/// Opens the table in a file: reads all of it, block by block.
pub(crate) fn open_in<D: Disk>(
    alloc: Global,
    disk: &mut D,
    file: u32,
    block: &mut [u8],
) -> Result<Table, TableFault>
    requires { length block.old ≡ BLOCK_BYTES }
    ensures opened { IfOk result (λ table. table.file ≡ file) }
    ensures ready { IfOk result (λ table. IsReady table (D.seen disk.new) (D.sizes disk.new)) }
    ensures unchanged { IsUnchanged (D.seen disk.old) (D.seen disk.new) (D.sizes disk.old) (D.sizes disk.new) }
    ensures crash { AreSame (D.images disk.old) (D.images disk.new) }
    ensures any_moment { LeavesOnly D.moment D.images_since disk.old disk.new (D.images disk.old) }
    ensures answer { IsOpenAnswer (D.seen disk.old file) result }
    ensures cause { HasTableCause (D.faults disk.old) (D.faults disk.new) result }
    ensures lasts { D.lasts disk.old disk.new }
    ensures failed { IsErrOf result TableFault.Device → D.fails disk.old disk.new }
    ensures asked { OnTold (D.sizes disk.new file) (λ size. AsksByBlock 3 size (D.asked disk.old) (D.asked disk.new)) }
    ensures changes { D.changes_asked disk.new ≡ D.changes_asked disk.old }
{
    let size = disk.length(file)?;
    if size < FIXED_BYTES as u64 {
        return Err(TableFault::Damaged {
            offset: 0,
            damage: TableDamage::Spelling,
        });
    }
    let end = size - SUM_BYTES as u64;
    let opening = read_blocks(alloc, disk, file, end, block)?;
    let rest = (end - opening.at) as usize;
    open_rest(disk, file, end, opening, &mut block[..rest])
}

// Reads the counts and the sum behind the blocks of a file.
fn open_rest<D: Disk>(
    disk: &mut D,
    file: u32,
    end: u64,
    opening: Opening,
    counts: &mut [u8],
) -> Result<Table, TableFault>
    requires counts { opening.at + length counts.old ≡ end }
    requires few { length counts.old < BLOCK_BYTES }
    requires short { end + SUM_BYTES < 2 ^ 63 }
    requires long { FIXED_BYTES ≤ end + SUM_BYTES }
    requires known { D.sizes disk.old file ≡ Some (end + SUM_BYTES) }
    requires opening { OnTold (D.seen disk.old file) (IsOpening opening) }
    requires aligned { (n : ℕ) × (opening.at ≡ BLOCK_BYTES * n) × KeepsAtMost n opening.checked }
    ensures opened { IfOk result (λ table. table.file ≡ file) }
    ensures ready { IfOk result (λ table. IsReady table (D.seen disk.new) (D.sizes disk.new)) }
    ensures unchanged { IsUnchanged (D.seen disk.old) (D.seen disk.new) (D.sizes disk.old) (D.sizes disk.new) }
    ensures crash { AreSame (D.images disk.old) (D.images disk.new) }
    ensures any_moment { LeavesOnly D.moment D.images_since disk.old disk.new (D.images disk.old) }
    ensures answer { IsOpenAnswer (D.seen disk.old file) result }
    ensures cause { HasTableCause (D.faults disk.old) (D.faults disk.new) result }
    ensures lasts { D.lasts disk.old disk.new }
    ensures failed { IsErrOf result TableFault.Device → D.fails disk.old disk.new }
    ensures asked { D.asked disk.new ≤ D.asked disk.old + 2 }
    ensures changes { D.changes_asked disk.new ≡ D.changes_asked disk.old }
{
    let Opening {
        at,
        mut sum,
        checked,
    } = opening;
    read_at(disk, file, at, counts)?;
    sum.update(&*counts);
    let mut kept = [0; SUM_BYTES];
    read_at(disk, file, end, &mut kept)?;
    verdict(file, end, checked, counts, kept, sum.finalize())
}
