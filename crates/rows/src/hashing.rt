//! Rows of `name_hash`.
ghost use Rattle.std.specs.Prelude.{◌≡◌};

use chains::{chain_next, reverse};
use mds_base::RADIX;
use name_hash::hash;
use row_words::{Answer, RowFault, Words, list_text};
use std::alloc::{AllocError, Global};

/// `hash NAME`, `reverse HASH`, `chain HASH`.
pub(crate) fn answer(alloc: Global, mut words: Words<'_>) -> Answer {
    match words.word()? {
        "hash" => hash_row(alloc, words),
        "reverse" => reverse_row(alloc, words),
        "chain" => chain_row(alloc, words),
        _ => Err(RowFault::NotARow),
    }
}

fn hash_row(alloc: Global, mut words: Words<'_>) -> Answer {
    let name = words.name(alloc)?;
    words.end()?;
    let hash = hash(&name);
    Ok(format!(in alloc; "{hash:016x}")?)
}

fn reverse_row(alloc: Global, mut words: Words<'_>) -> Answer {
    let hash = words.hex_number()?;
    words.end()?;
    let reversed = reverse(hash);
    Ok(format!(in alloc; "{reversed:016x}")?)
}

fn chain_row(alloc: Global, mut words: Words<'_>) -> Answer {
    let hash = words.hex_number()?;
    words.end()?;
    let chain = chain_of(alloc, hash)?;
    list_text(alloc, chain.as_slice())
}

/// The chain of a hash, one step after another.
fn chain_of(alloc: Global, hash: u64) -> Result<Vec<u32>, AllocError> {
    let mut part = 0;
    let mut chain = Vec::new(alloc);
    chain.push(part)?;
    while let Some(next) = chain_next(RADIX, hash, part) {
        chain.push(next)?;
        part = next;
    }
    Ok(chain)
}
