//! The rows, as `bench_rows` has them: a key is directory 1, partition 0, reversed hash and name, all in one blob.
use std::alloc::{AllocError, Global};

/// What the numbers of keys are spread by.
const SPREAD: u64 = 0x9E37_79B9_7F4A_7C15;

/// What the rounds are spread over the keys by.
const STEP: u64 = 2_654_435_761;

/// The mode of a file.
const MODE: u16 = 420;

/// The key of this number.
pub(crate) fn key_of(alloc: Global, number: u64) -> Result<Vec<u8>, AllocError> {
    let name = format!(in alloc; "f{number}")?;
    let mut key = Vec::new(alloc);
    key.extend_from_slice(&1_u64.to_be_bytes())?;
    key.extend_from_slice(&0_u32.to_be_bytes())?;
    key.extend_from_slice(&SPREAD.wrapping_mul(number).to_be_bytes())?;
    key.extend_from_slice(name.as_str().as_bytes())?;
    Ok(key)
}

/// The row of this number: no directory, mode and size.
pub(crate) fn row_of(alloc: Global, number: u64) -> Result<Vec<u8>, AllocError> {
    let mut row = Vec::new(alloc);
    row.extend_from_slice(&0_u64.to_be_bytes())?;
    row.extend_from_slice(&MODE.to_be_bytes())?;
    row.extend_from_slice(&number.to_be_bytes())?;
    Ok(row)
}

/// The number of the key that a round asks for, of so many.
pub(crate) fn asked_at(round: u64, count: u64) -> u64 {
    if count == 0 {
        return 0;
    }
    STEP.wrapping_mul(round.wrapping_add(1)) % count
}
