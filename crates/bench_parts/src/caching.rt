//! Work of `lease_cache`.
use crate::names::name_of;
use lease_cache::LeaseCache;
use mds_base::{Attr, Name};
use row_words::RowFault;
use std::alloc::Global;

/// The directory of the names.
const DIR: u64 = 1;

/// Looks up, of a cache with so many leases, the one that was used first; a round for each look-up. How many were
/// answered.
pub(crate) fn answer(alloc: Global, size: u32, rounds: u32) -> Result<u64, RowFault> {
    if size == 0 {
        return Err(RowFault::Refused);
    }
    let mut cache = LeaseCache::new(alloc, size)?;
    let mut names = Vec::new(alloc);
    for number in 0..size {
        let name = name_of(alloc, number)?;
        cache.keep(alloc, DIR, &name, Attr::new_file(), 1)?;
        names.push(name)?;
    }
    Ok(answered(&mut cache, names.as_slice(), rounds))
}

fn answered(cache: &mut LeaseCache, names: &[Name], rounds: u32) -> u64 {
    let mut answered: u64 = 0;
    if names.is_empty() {
        return answered;
    }
    for round in 0..rounds {
        let name = &names[round as usize % names.len()];
        if cache.answer(DIR, name, 0).is_some() {
            answered = answered.saturating_add(1);
        }
    }
    answered
}
