//! The rows: keys in no order, in partition 0 of directory 1.
ghost use Rattle.std.specs.Prelude.{IfOk};
ghost use Rattle.sorted_table.specs.TableRows.{IsMarked};

use mds_base::{Attr, FILE_MODE, Name, NameFault, RowKey};
use row_words::RowFault;
use std::alloc::Global;

/// What the numbers of keys are spread by.
const SPREAD: u64 = 0x9E37_79B9_7F4A_7C15;

/// What the rounds are spread over the keys by.
const STEP: u64 = 2_654_435_761;

/// The key of this number. Its name takes no memory of its own.
pub(crate) fn key_of(alloc: Global, number: u64) -> Result<RowKey, RowFault> {
    let rev = SPREAD.wrapping_mul(number);
    let text = format!(in alloc; "f{number}")?;
    match Name::read(alloc, text.as_str().as_bytes()) {
        Ok(name) => Ok(RowKey {
            dir: 1,
            part: 0,
            rev,
            name,
        }),
        Err(NameFault::BadName) => Err(RowFault::Refused),
        Err(NameFault::OutOfMemory) => Err(RowFault::OutOfMemory),
    }
}

/// The row of this number.
pub(crate) fn attr_of(number: u64) -> Option<Attr>
    ensures { IsMarked result }
{
    Some(Attr {
        dir: 0,
        mode: FILE_MODE,
        size: number,
        owner: 0,
        mtime: 0,
    })
}

/// The number of the key that a round asks for, of so many.
pub(crate) fn asked_at(round: u32, count: u64) -> u64 {
    if count == 0 {
        return 0;
    }
    STEP.wrapping_mul(round as u64 + 1) % count
}
