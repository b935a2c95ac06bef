//! Rows of `row_store` that look through the map in the order of its keys, in partition 0 of directory 1.
ghost use Rattle.std.specs.Prelude.{◌≡◌, false, OnOk};
ghost use Rattle.row_store.specs.Value.{IsReady};

use crate::store::refused;
use crate::tables;
use mds_base::{Cursor, Row, RowKey, StoreFault};
use mds_out::Disk;
use row_store::RowStore;
use row_words::{Answer, RowFault, Words, push_name, text};
use std::alloc::{AllocError, Global};
use std::fmt::Write;

/// The least key from one on, or `none`.
pub(crate) fn seek<D: Disk>(
    alloc: Global,
    disk: &mut D,
    store: &mut RowStore,
    mut words: Words<'_>,
) -> Answer
    requires { store.old.stopped ≡ false → IsReady store.old (D.seen disk.old) (D.sizes disk.old) (D.images disk.old) }
{
    let key = tables::key_of(alloc, &mut words)?;
    match store.seek(alloc, disk, &key) {
        Ok(None) => text(alloc, "none"),
        Ok(Some(found)) => key_text(alloc, &found),
        Err(fault) => refused(alloc, fault),
    }
}

/// A page past a cursor, up to a reversed hash, of so many rows at most: each with its name and its size.
pub(crate) fn page<D: Disk>(
    alloc: Global,
    disk: &mut D,
    store: &mut RowStore,
    mut words: Words<'_>,
) -> Answer
    requires { store.old.stopped ≡ false → IsReady store.old (D.seen disk.old) (D.sizes disk.old) (D.images disk.old) }
{
    let from = cursor_of(alloc, &mut words)?;
    let last = words.number()?;
    let limit = words.small()?;
    match store.range(alloc, disk, 1, 0, &from, last, limit) {
        Ok(page) => rows_text(alloc, page.rows()),
        Err(fault) => refused(alloc, fault),
    }
}

/// All rows, at most 4096, each with its name and its size, and how many there are one after another that are alike.
pub(crate) fn all_rows<D: Disk>(alloc: Global, disk: &mut D, store: &mut RowStore) -> Answer
    requires running { store.old.stopped ≡ false }
    requires ready { IsReady store.old (D.seen disk.old) (D.sizes disk.old) (D.images disk.old) }
    ensures running { OnOk result (store.new.stopped ≡ false) }
    ensures ready { OnOk result (IsReady store.new (D.seen disk.new) (D.sizes disk.new) (D.images disk.new)) }
{
    let from = Cursor { at: 0, after: None };
    match store.range(alloc, disk, 1, 0, &from, u64::MAX, 4096) {
        Ok(page) => runs_text(alloc, page.rows()),
        Err(StoreFault::Device) => Err(RowFault::Device),
        Err(StoreFault::OutOfMemory) => Err(RowFault::OutOfMemory),
        Err(_) => Err(RowFault::Refused),
    }
}

fn runs_text(alloc: Global, rows: &[Row]) -> Answer {
    let mut out = String::new(alloc);
    let mut last = String::new(alloc);
    let mut times: u64 = 0;
    for row in rows {
        let said = row_text(alloc, row)?;
        if said == last {
            times = times.saturating_add(1);
        } else {
            push_run(&mut out, times, last.as_str())?;
            last = said;
            times = 1;
        }
    }
    push_run(&mut out, times, last.as_str())?;
    if out.as_str().is_empty() {
        return text(alloc, "none");
    }
    Ok(out)
}

fn row_text(alloc: Global, row: &Row) -> Answer {
    let mut out = String::new(alloc);
    push_name(&mut out, &row.name)?;
    write!(out, " {}", row.attr.size)?;
    Ok(out)
}

// So many rows that are alike.
fn push_run(out: &mut String, times: u64, said: &str) -> Result<(), AllocError> {
    if times == 0 {
        return Ok(());
    }
    if !out.as_str().is_empty() {
        out.push_str(", ")?;
    }
    if times > 1 {
        write!(out, "{times} times ")?;
    }
    out.push_str(said)
}

fn key_text(alloc: Global, key: &RowKey) -> Answer {
    let mut out = format!(in alloc; "{} ", key.rev)?;
    push_name(&mut out, &key.name)?;
    Ok(out)
}

fn rows_text(alloc: Global, rows: &[Row]) -> Answer {
    if rows.is_empty() {
        return text(alloc, "none");
    }
    let mut out = String::new(alloc);
    for row in rows {
        if !out.as_str().is_empty() {
            out.push_str(", ")?;
        }
        push_name(&mut out, &row.name)?;
        write!(out, " {}", row.attr.size)?;
    }
    Ok(out)
}

/// A reversed hash, and a name or `-`.
fn cursor_of(alloc: Global, words: &mut Words<'_>) -> Result<Cursor, RowFault> {
    let at = words.number()?;
    let mut name = *words;
    if words.word()? == "-" {
        return Ok(Cursor { at, after: None });
    }
    Ok(Cursor {
        at,
        after: Some(name.name(alloc)?),
    })
}
