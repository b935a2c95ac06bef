//! Commits to a new store, and looks into it.
ghost use Rattle.std.specs.Prelude.{IfOk, OnOk};
ghost use Rattle.row_store.specs.Rows.{AreMarked};
ghost use Rattle.bench_rows.specs.Benches.{IsBench};

use crate::keys::{asked_at, attr_of, key_of};
use gate_log::Piece;
use mds_base::StoreFault;
use mds_out::Disk;
use row_store::{Change, RowStore};
use row_words::RowFault;
use std::alloc::Global;

/// The frames of a store.
const FRAMES: u32 = 64;

/// The most bytes of a body.
const BODY: usize = 1 << 31;

/// The file of the roots.
const ROOTS: u32 = 0;

/// The blocks of a turn of a merge.
const BLOCKS: u32 = 1024;

/// The turns of a merge, at most.
const TURNS: u32 = 1 << 20;

/// What a new store is filled with.
#[derive(Clone, Copy)]
pub(crate) struct Filling {
    /// How many commits there are.
    pub(crate) commits: u32,
    /// How many rows each commit has.
    pub(crate) changes: u32,
    /// After how many rows the store is flushed; 0: never.
    pub(crate) every: u32,
}

/// Makes a new store, and answers how many of the rows that so many rounds ask for were found.
pub(crate) fn fill<D: Disk>(
    alloc: Global,
    disk: &mut D,
    filling: Filling,
    rounds: u32,
) -> Result<u64, RowFault> {
    let Filling {
        commits,
        changes,
        every,
    } = filling;
    disk.cut(ROOTS, 0)?;
    let mut store = made(alloc, disk)?;
    let mut fresh: u32 = 0;
    for number in 0..commits {
        commit(
            alloc,
            disk,
            &mut store,
            number as u64 * changes as u64,
            changes,
        )?;
        fresh = keep_due(
            alloc,
            disk,
            &mut store,
            every,
            fresh.saturating_add(changes),
        )?;
    }
    let _kept = keep_due(alloc, disk, &mut store, every, every)?;
    find(
        alloc,
        disk,
        &mut store,
        commits as u64 * changes as u64,
        rounds,
    )
}

/// Opens the store that is there, of so many rows, and answers how many of the rows that so many rounds ask for were
/// found.
pub(crate) fn look<D: Disk>(
    alloc: Global,
    disk: &mut D,
    rows: u64,
    rounds: u32,
) -> Result<u64, RowFault> {
    match RowStore::bring_up(alloc, disk, FRAMES) {
        Ok(mut store) => {
            if store.is_new() {
                return Err(RowFault::Refused);
            }
            find(alloc, disk, &mut store, rows, rounds)
        }
        Err(fault) => Err(refused(fault)),
    }
}

// Makes the store of a disk that is new.
fn made<D: Disk>(alloc: Global, disk: &mut D) -> Result<RowStore, RowFault>
    ensures { IfOk result (λ store. IsBench store (D.seen disk.new) (D.sizes disk.new) (D.images disk.new)) }
{
    match RowStore::bring_up(alloc, disk, FRAMES) {
        Ok(mut store) => match store.flush(alloc, disk, &[]) {
            Ok(()) => Ok(store),
            Err(fault) => Err(refused(fault)),
        },
        Err(fault) => Err(refused(fault)),
    }
}

// Flushes the store where as many rows changed; how many are not flushed then.
fn keep_due<D: Disk>(
    alloc: Global,
    disk: &mut D,
    store: &mut RowStore,
    every: u32,
    fresh: u32,
) -> Result<u32, RowFault>
    requires { IsBench store.old (D.seen disk.old) (D.sizes disk.old) (D.images disk.old) }
    ensures { OnOk result (IsBench store.new (D.seen disk.new) (D.sizes disk.new) (D.images disk.new)) }
{
    if every == 0 || fresh < every {
        return Ok(fresh);
    }
    keep(alloc, disk, store)?;
    Ok(0)
}

// Flushes the store, and merges its tables where that is due.
fn keep<D: Disk>(alloc: Global, disk: &mut D, store: &mut RowStore) -> Result<(), RowFault>
    requires { IsBench store.old (D.seen disk.old) (D.sizes disk.old) (D.images disk.old) }
    ensures { OnOk result (IsBench store.new (D.seen disk.new) (D.sizes disk.new) (D.images disk.new)) }
{
    flush(alloc, disk, store)?;
    for _turn in 0..TURNS {
        if !turn(alloc, disk, store)? {
            return Ok(());
        }
    }
    Ok(())
}

fn flush<D: Disk>(alloc: Global, disk: &mut D, store: &mut RowStore) -> Result<(), RowFault>
    requires { IsBench store.old (D.seen disk.old) (D.sizes disk.old) (D.images disk.old) }
    ensures { OnOk result (IsBench store.new (D.seen disk.new) (D.sizes disk.new) (D.images disk.new)) }
{
    match store.flush(alloc, disk, &[]) {
        Ok(()) => Ok(()),
        Err(fault) => Err(refused(fault)),
    }
}

// A turn of a merge; whether there are more.
fn turn<D: Disk>(alloc: Global, disk: &mut D, store: &mut RowStore) -> Result<bool, RowFault>
    requires { IsBench store.old (D.seen disk.old) (D.sizes disk.old) (D.images disk.old) }
    ensures { OnOk result (IsBench store.new (D.seen disk.new) (D.sizes disk.new) (D.images disk.new)) }
{
    match store.merge_turn(alloc, disk, BLOCKS) {
        Ok(more) => {
            if store.is_new() {
                return Err(RowFault::Refused);
            }
            Ok(more)
        }
        Err(fault) => Err(refused(fault)),
    }
}

// Commits the rows of so many numbers from one on.
fn commit<D: Disk>(
    alloc: Global,
    disk: &mut D,
    store: &mut RowStore,
    from: u64,
    changes: u32,
) -> Result<(), RowFault>
    requires { IsBench store.old (D.seen disk.old) (D.sizes disk.old) (D.images disk.old) }
    ensures { IsBench store.new (D.seen disk.new) (D.sizes disk.new) (D.images disk.new) }
{
    let changes = changes_from(alloc, from, changes)?;
    let piece = body_of(alloc, &changes)?;
    match store.commit(alloc, disk, &changes, &piece) {
        Ok(()) => Ok(()),
        Err(fault) => Err(refused(fault)),
    }
}

fn changes_from(alloc: Global, from: u64, count: u32) -> Result<Vec<Change>, RowFault>
    ensures { IfOk result (λ changes. AreMarked changes.items) }
{
    let mut changes = Vec::new(alloc);
    for number in 0..count {
        let number = from.wrapping_add(number as u64);
        changes.push(Change {
            key: key_of(alloc, number)?,
            attr: attr_of(number),
        })?;
    }
    Ok(changes)
}

// The body of these changes: the reversed hash, the name and the size of each.
fn body_of(alloc: Global, changes: &[Change]) -> Result<Piece, RowFault> {
    let mut body = Vec::new(alloc);
    for change in changes {
        body.extend_from_slice(&change.key.rev.to_be_bytes())?;
        body.extend_from_slice(change.key.name.bytes())?;
        if let Some(attr) = &change.attr {
            body.extend_from_slice(&attr.size.to_be_bytes())?;
        }
    }
    if body.len() >= BODY {
        return Err(RowFault::Refused);
    }
    Ok(Piece::of(alloc, &body)?)
}

// How many of the rows that so many rounds ask for are found.
fn find<D: Disk>(
    alloc: Global,
    disk: &mut D,
    store: &mut RowStore,
    rows: u64,
    rounds: u32,
) -> Result<u64, RowFault>
    requires { IsBench store.old (D.seen disk.old) (D.sizes disk.old) (D.images disk.old) }
{
    let mut found: u64 = 0;
    for round in 0..rounds {
        let number = asked_at(round, rows);
        if has(alloc, disk, store, number)? {
            found = found.saturating_add(1);
        }
    }
    Ok(found)
}

// Whether the row of this number is found as it was committed.
fn has<D: Disk>(
    alloc: Global,
    disk: &mut D,
    store: &mut RowStore,
    number: u64,
) -> Result<bool, RowFault>
    requires { IsBench store.old (D.seen disk.old) (D.sizes disk.old) (D.images disk.old) }
    ensures { IsBench store.new (D.seen disk.new) (D.sizes disk.new) (D.images disk.new) }
{
    let key = key_of(alloc, number)?;
    match store.get(disk, &key) {
        Ok(found) => Ok(found == attr_of(number)),
        Err(fault) => Err(refused(fault)),
    }
}

// The fault of a row.
pub(crate) fn refused(fault: StoreFault) -> RowFault {
    match fault {
        StoreFault::Device => RowFault::Device,
        StoreFault::Stopped => RowFault::Stopped,
        StoreFault::OutOfMemory => RowFault::OutOfMemory,
        _ => RowFault::Refused,
    }
}
