//! Damages of a whole store: each byte of each of its files changed in turn.
use crate::damages::{byte_at, put_byte};
use crate::keeping::{keep, tell};
use mds_out::{Disk, Memory, Outcome};
use row_words::{Answer, RowFault, Words, text};
use std::alloc::{AllocError, Global};
use std::fmt::Write;

/// The files of a small store have smaller numbers.
const FILES: u32 = 16;

/// How often the store answered in one way.
#[derive(Drop)]
struct Count {
    said: String,
    times: u64,
}

/// `MASK STEPS`: the steps are carried out on a new disk. Then each byte of each file is changed in turn by the bits of
/// the mask, while the others are as they were, and the store is opened. Of each file it says how often which damage is
/// named, how often the store is the `same` as before, and how often it is an `other`, or `new`.
pub(crate) fn changed(alloc: Global, mut words: Words<'_>) -> Answer {
    let Ok(mask) = u8::try_from(words.hex_number()?) else {
        return Err(RowFault::NotARow);
    };
    let mut disk = Memory::new(alloc, Outcome::Old, Vec::new(alloc))?;
    let mut out = keep(alloc, &mut disk, words)?;
    let whole = tell(alloc, &mut disk)?;
    write!(out, "; {whole}")?;
    for file in 0..FILES {
        push_file(alloc, &mut out, &mut disk, file, mask, whole.as_str())?;
    }
    Ok(out)
}

// What the changes of a file that has a byte come to.
fn push_file<D: Disk>(
    alloc: Global,
    out: &mut String,
    disk: &mut D,
    file: u32,
    mask: u8,
    whole: &str,
) -> Result<(), RowFault> {
    let size = disk.length(file)?;
    if size == 0 {
        return Ok(());
    }
    let mut counts = Vec::new(alloc);
    for offset in 0..size {
        let byte = byte_at(disk, file, offset)?;
        put_byte(disk, file, offset, byte ^ mask)?;
        add(&mut counts, said_now(alloc, disk, whole)?)?;
        put_byte(disk, file, offset, byte)?;
    }
    write!(out, "\n  file {file}:")?;
    for count in &counts {
        let Count { said, times } = count;
        write!(out, " {times} {said},")?;
    }
    write!(out, " of {size}")?;
    Ok(())
}

fn add(counts: &mut Vec<Count>, said: String) -> Result<(), AllocError> {
    for place in 0..counts.len() {
        if counts[place].said == said {
            counts[place].times = counts[place].times.saturating_add(1);
            return Ok(());
        }
    }
    counts.push(Count { said, times: 1 })?;
    Ok(())
}

// The damage that the store names now, `same` where it is this, `new`, or `other`.
fn said_now<D: Disk>(alloc: Global, disk: &mut D, whole: &str) -> Answer {
    match tell(alloc, disk) {
        Ok(said) => short_of(alloc, said, whole),
        Err(RowFault::OutOfMemory) => Err(RowFault::OutOfMemory),
        Err(_) => text(alloc, "other"),
    }
}

fn short_of(alloc: Global, said: String, whole: &str) -> Answer {
    if said.as_str() == whole {
        return text(alloc, "same");
    }
    if said.as_str().starts_with("state") {
        return text(alloc, "other");
    }
    Ok(said)
}
