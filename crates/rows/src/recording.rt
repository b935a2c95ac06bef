//! Rows of `records`.
use crate::values::record_text;
use records::{RecordFault, read, write};
use row_words::{Answer, RowFault, Words, hex_text, text};
use std::alloc::Global;

/// `read BYTES`, and `write BYTES`, which writes the record that was read.
pub(crate) fn answer(alloc: Global, mut words: Words<'_>) -> Answer {
    match words.word()? {
        "read" => read_row(alloc, words),
        "write" => write_row(alloc, words),
        _ => Err(RowFault::NotARow),
    }
}

/// The record with which the bytes begin, behind its length; or `short`, or `bad` and the offset.
fn read_row(alloc: Global, mut words: Words<'_>) -> Answer {
    let bytes = words.hex(alloc)?;
    words.end()?;
    match read(alloc, bytes.as_slice()) {
        Ok((item, len)) => {
            let said = record_text(alloc, &item)?;
            Ok(format!(in alloc; "{len} bytes: {said}")?)
        }
        Err(RecordFault::Short) => text(alloc, "short"),
        Err(RecordFault::Bad { offset }) => Ok(format!(in alloc; "bad {offset}")?),
        Err(RecordFault::OutOfMemory) => Err(RowFault::OutOfMemory),
    }
}

/// The bytes that are written for the record with which the bytes begin; behind a byte `09` that was there before.
fn write_row(alloc: Global, mut words: Words<'_>) -> Answer {
    let bytes = words.hex(alloc)?;
    words.end()?;
    match read(alloc, bytes.as_slice()) {
        Ok((item, _)) => {
            let mut out = Vec::new(alloc);
            out.push(9)?;
            write(&item, &mut out)?;
            hex_text(alloc, out.as_slice())
        }
        Err(RecordFault::OutOfMemory) => Err(RowFault::OutOfMemory),
        Err(_) => Err(RowFault::Refused),
    }
}
