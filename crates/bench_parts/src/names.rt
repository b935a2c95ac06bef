//! Names in no order.
use mds_base::{Name, NameFault};
use row_words::RowFault;
use std::alloc::Global;

/// What the numbers of names are spread by.
const SPREAD: u64 = 0x9E37_79B9_7F4A_7C15;

/// The name of this number; it takes no memory of its own.
pub(crate) fn name_of(alloc: Global, number: u32) -> Result<Name, RowFault> {
    let text = format!(in alloc; "f{}", SPREAD.wrapping_mul(number as u64))?;
    match Name::read(alloc, text.as_str().as_bytes()) {
        Ok(name) => Ok(name),
        Err(NameFault::BadName) => Err(RowFault::Refused),
        Err(NameFault::OutOfMemory) => Err(RowFault::OutOfMemory),
    }
}
