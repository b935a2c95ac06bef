//! The bytes of a file, as a reader wants to see them.
use mds_out::{Disk, Fuse};
use row_words::{Answer, Words, bytes_of};
use std::alloc::Global;
use std::fmt::Write;

/// The bytes of a line.
const LINE: usize = 16;

/// How many bytes a file has, and a line for each 16 of them, which begins with their place; all in hexadecimal. A line
/// of zeros is left out.
pub(crate) fn dump<D: Disk>(alloc: Global, disk: &mut Fuse<D>, mut words: Words<'_>) -> Answer {
    let file = words.small()?;
    words.end()?;
    let bytes = bytes_of(alloc, disk, file)?;
    let mut out = format!(in alloc; "{:04x} bytes", bytes.len())?;
    let mut place: usize = 0;
    for line in bytes.chunks(LINE) {
        if line.iter().any(|byte| *byte != 0) {
            write!(out, "\n  {place:04x} ")?;
            for byte in line {
                write!(out, " {byte:02x}")?;
            }
        }
        place = place.saturating_add(LINE);
    }
    Ok(out)
}
