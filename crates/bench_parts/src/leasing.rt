//! Work of `leases`.
use crate::names::name_of;
use leases::Leases;
use row_words::RowFault;
use std::alloc::Global;

/// No round comes to this moment.
const LATE: u64 = 1 << 40;

/// Beside so many leases that last, each round grants one that has ended when the round sweeps. How many were swept.
pub(crate) fn sweep(alloc: Global, held: u32, rounds: u32) -> Result<u64, RowFault> {
    let mut leases = Leases::new(alloc, 0);
    for number in 0..held {
        leases.grant(alloc, &name_of(alloc, number)?, LATE + number as u64)?;
    }
    let short = name_of(alloc, held)?;
    let mut swept: u64 = 0;
    for _ in 0..rounds {
        leases.grant(alloc, &short, 1)?;
        leases.sweep(2);
        if leases.held_until(&short) == 0 {
            swept = swept.saturating_add(1);
        }
    }
    Ok(swept)
}
