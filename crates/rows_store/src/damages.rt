//! The table of damages: each byte of a table's file changed in turn.
ghost use Rattle.std.specs.Prelude.{◌≡◌};

use frame_pool::Frame;
use mds_out::Disk;
use row_words::{Answer, RowFault};
use sorted_table::{Table, TableFault};
use std::alloc::Global;

/// How many of the bytes of a file are named as damage of the table, each changed by its lowest bit while the others
/// are as they were.
pub(crate) fn damages<D: Disk>(alloc: Global, disk: &mut D, frame: &mut Frame, file: u32) -> Answer
    ensures { frame.new.number ≡ frame.old.number }
{
    let size = disk.length(file)?;
    let mut named: u64 = 0;
    for offset in 0..size {
        let byte = byte_at(disk, file, offset)?;
        put_byte(disk, file, offset, byte ^ 1)?;
        if is_damaged(alloc, disk, frame, file)? {
            named += 1;
        }
        put_byte(disk, file, offset, byte)?;
    }
    Ok(format!(in alloc; "{named} of {size}")?)
}

/// A byte of a file.
pub(crate) fn byte_at<D: Disk>(disk: &mut D, file: u32, offset: u64) -> Result<u8, RowFault> {
    let size = disk.length(file)?;
    if offset >= size {
        return Err(RowFault::Refused);
    }
    let mut byte = [0; 1];
    disk.read(file, offset, &mut byte)?;
    Ok(byte[0])
}

/// Writes a byte of a file.
pub(crate) fn put_byte<D: Disk>(
    disk: &mut D,
    file: u32,
    offset: u64,
    byte: u8,
) -> Result<(), RowFault> {
    let size = disk.length(file)?;
    if offset >= size {
        return Err(RowFault::Refused);
    }
    disk.write_at(file, offset, &[byte])?;
    Ok(())
}

fn is_damaged<D: Disk>(
    alloc: Global,
    disk: &mut D,
    frame: &mut Frame,
    file: u32,
) -> Result<bool, RowFault>
    ensures { frame.new.number ≡ frame.old.number }
{
    match Table::open_file(alloc, disk, frame, file) {
        Ok(_) => Ok(false),
        Err(TableFault::Damaged { .. }) => Ok(true),
        Err(TableFault::Device) => Err(RowFault::Device),
        Err(TableFault::OutOfMemory) => Err(RowFault::OutOfMemory),
    }
}
