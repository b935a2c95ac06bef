//! Work of `split`.
use crate::names::name_of;
use mds_base::{Attr, MapRows, Row, RowList};
use row_words::RowFault;
use split::{install, moving_half};
use std::alloc::Global;

/// The directory of the rows.
const DIR: u64 = 1;

/// How many rows the partition has that is walked beside others.
const FEW: u32 = 1000;

/// Each round walks the half that moves of partition 0, which has so many rows. How many rows were walked.
pub(crate) fn half(alloc: Global, size: u32, rounds: u32) -> Result<u64, RowFault> {
    let mut rows = MapRows::new(alloc);
    fill(alloc, &mut rows, 0, size)?;
    walked(alloc, &mut rows, rounds)
}

/// Each round walks the half that moves of partition 0, which has a thousand rows, beside so many in partition 1. How
/// many rows were walked.
pub(crate) fn beside(alloc: Global, size: u32, rounds: u32) -> Result<u64, RowFault> {
    let mut rows = MapRows::new(alloc);
    fill(alloc, &mut rows, 0, FEW)?;
    fill(alloc, &mut rows, 1, size)?;
    walked(alloc, &mut rows, rounds)
}

fn fill(alloc: Global, rows: &mut MapRows, part: u32, count: u32) -> Result<(), RowFault> {
    let mut named = RowList::new(alloc);
    for number in 0..count {
        named.push(Row {
            name: name_of(alloc, number)?,
            attr: Attr::new_file(),
        })?;
    }
    install(alloc, rows, DIR, part, &named)?;
    Ok(())
}

fn walked(alloc: Global, rows: &mut MapRows, rounds: u32) -> Result<u64, RowFault> {
    let mut walked: u64 = 0;
    for _ in 0..rounds {
        let half = moving_half(alloc, rows, DIR, 0, 0)?;
        walked = walked.saturating_add(half.rows().len() as u64);
    }
    Ok(walked)
}
