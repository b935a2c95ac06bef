//! The half that a split moves, on any rows.
ghost use Rattle.std.specs.Prelude.{◌≡◌, ◌<◌, ◌^◌, ◌&&◌, if◌then◌else◌, IfOk, OnOk, Some, None, length, map};
ghost use Rattle.mds_base.specs.RowsCause.{HasRowsCause};
ghost use Rattle.mds_base.specs.RowKeys.{row_of};
ghost use Rattle.split.specs.Halves.{is_frozen, half_of, upper_rows, rising, is_moving, is_behind, last_key};
ghost use Rattle.split.specs.Halves.{with_rising, with_rows, without_rows};
ghost use Rattle.name_hash.specs.RowPlace.{row_key};

use chains::reverse;
use mds_base::{Attr, Cursor, Name, RADIX, Row, RowKey, RowList, Rows, RowsFault, SplitState};
use name_hash::{Hashed, row_key};
use std::alloc::{AllocError, Global};

/// Whether a hash lies in the half that a split has frozen (`crates/split/README.md`, "Moving half").
pub fn frozen(state: &SplitState, hash: u64) -> bool
    ensures { result ≡ is_frozen state.now hash }
{
    match state {
        SplitState::Quiet => false,
        SplitState::Moving { depth } => match hash.checked_shr(*depth) {
            Some(rest) => rest % 2 == 1,
            None => false,
        },
    }
}

/// The rows of the half that the partition moves at this depth, in order. `Device` comes only where the rows' count of
/// faults rose; the rows stay as they are. A half of 2^32 - 1 rows or more is answered as want of memory.
pub fn moving_half<R: Rows>(
    alloc: Global,
    rows: &mut R,
    dir: u64,
    part: u32,
    depth: u32,
) -> Result<RowList, RowsFault>
    requires depth { depth < RADIX }
    requires part { part < 2 ^ depth }
    ensures half { IfOk result (λ half. half ≡ map row_of (half_of (R.contents rows.old) dir part depth)) }
    ensures count { IfOk result (λ half. length half < 2 ^ 32) }
    ensures contents { R.contents rows.new ≡ R.contents rows.old }
    ensures cause { HasRowsCause (R.faults rows.old) (R.faults rows.new) result }
{
    let upper = upper_half(alloc, rows, dir, part, depth)?;
    let half = keep_rising(alloc, upper.rows(), dir, part, depth)?;
    Ok(rows_of(alloc, half)?)
}

/// Puts the rows of a half into a partition, each at the key of its name. `Device` comes only where the rows' count of
/// faults rose; after a refusal the rows are to be given up.
pub fn install<R: Rows>(
    alloc: Global,
    rows: &mut R,
    dir: u64,
    part: u32,
    moved: &RowList,
) -> Result<(), RowsFault>
    ensures put { IfOk result (λ _. R.contents rows.new ≡ with_rows (R.contents rows.old) dir part moved.now) }
    ensures cause { HasRowsCause (R.faults rows.old) (R.faults rows.new) result }
{
    for row in moved.rows() {
        rows.put(row_key(alloc, dir, part, &row.name)?, row.attr)?;
    }
    Ok(())
}

/// Takes the half that the partition moves at this depth away from it, and says how many rows it had. `Device` comes
/// only where the rows' count of faults rose; after a refusal the rows are to be given up. A half of 2^32 - 1 rows or
/// more is answered as want of memory.
pub fn end<R: Rows>(
    alloc: Global,
    rows: &mut R,
    dir: u64,
    part: u32,
    depth: u32,
) -> Result<u64, RowsFault>
    requires depth { depth < RADIX }
    requires part { part < 2 ^ depth }
    ensures taken { IfOk result
        (λ _. R.contents rows.new ≡ without_rows (R.contents rows.old) (half_of (R.contents rows.old) dir part depth)) }
    ensures count { IfOk result (λ count. count ≡ length (half_of (R.contents rows.old) dir part depth)) }
    ensures cause { HasRowsCause (R.faults rows.old) (R.faults rows.new) result }
{
    let upper = upper_half(alloc, rows, dir, part, depth)?;
    let half = keep_rising(alloc, upper.rows(), dir, part, depth)?;
    take_all_away(rows, &half)?;
    Ok(half.len() as u64)
}

// The rows of the partition in the upper half of its range.
fn upper_half<R: Rows>(
    alloc: Global,
    rows: &mut R,
    dir: u64,
    part: u32,
    depth: u32,
) -> Result<RowList, RowsFault>
    requires depth { depth < RADIX }
    requires part { part < 2 ^ depth }
    ensures upper { IfOk result (λ upper. upper ≡ upper_rows (R.contents rows.old) dir part depth) }
    ensures count { IfOk result (λ upper. length upper < 2 ^ 32) }
    ensures contents { R.contents rows.new ≡ R.contents rows.old }
    ensures cause { HasRowsCause (R.faults rows.old) (R.faults rows.new) result }
{
    let first = reverse(u64::from(part + (1 << depth)));
    let last = first + ((1 << (63 - depth)) - 1);
    let from = Cursor {
        at: first,
        after: None,
    };
    let upper = rows.page(alloc, dir, part, &from, last, u32::MAX)?;
    if upper.rows().len() >= u32::MAX as usize {
        return Err(RowsFault::OutOfMemory);
    }
    Ok(upper)
}

// Of these rows those that belong to the child and rise past those before them, each at the key of its name.
fn keep_rising(
    alloc: Global,
    rows: &[Row],
    dir: u64,
    part: u32,
    depth: u32,
) -> Result<Vec<(RowKey, Attr)>, AllocError>
    requires depth { depth < RADIX }
    requires part { part < 2 ^ depth }
    ensures { IfOk result (λ half. half.items ≡ rising dir part depth None rows.now) }
{
    let mut half = Vec::new(alloc);
    for row in rows {
        push_rising(alloc, &mut half, dir, part, depth, row)?;
    }
    Ok(half)
}

// Adds the row to the half where it belongs to it.
fn push_rising(
    alloc: Global,
    half: &mut Vec<(RowKey, Attr)>,
    dir: u64,
    part: u32,
    depth: u32,
    row: &Row,
) -> Result<(), AllocError>
    requires depth { depth < RADIX }
    requires part { part < 2 ^ depth }
    ensures { OnOk result (half.new.items ≡ with_rising dir part depth half.old.items row.now) }
{
    if let Some(key) = rising_key(alloc, dir, part, depth, half, &row.name)? {
        half.push((key, row.attr))?;
    }
    Ok(())
}

// The key of the name where the name belongs to the child and the key is behind the last one of the half.
fn rising_key(
    alloc: Global,
    dir: u64,
    part: u32,
    depth: u32,
    half: &[(RowKey, Attr)],
    name: &Name,
) -> Result<Option<RowKey>, AllocError>
    requires depth { depth < RADIX }
    requires part { part < 2 ^ depth }
    ensures { IfOk result
        (λ key. key ≡ (if is_moving part depth name.now && is_behind (last_key half.now) (row_key dir part name.now)
        then Some (row_key dir part name.now) else None)) }
{
    let hashed = Hashed::of(name);
    if hashed.number() % (2 << depth) != u64::from(part + (1 << depth)) {
        return Ok(None);
    }
    let key = hashed.row_key(alloc, dir, part)?;
    if !is_past_last(half, &key) {
        return Ok(None);
    }
    Ok(Some(key))
}

fn is_past_last(half: &[(RowKey, Attr)], key: &RowKey) -> bool
    ensures { result ≡ is_behind (last_key half.now) key.now }
{
    match half.last() {
        None => true,
        Some((last, _)) => *last < *key,
    }
}

// The names and attributes of a half.
fn rows_of(alloc: Global, half: Vec<(RowKey, Attr)>) -> Result<RowList, AllocError>
    ensures { IfOk result (λ rows. rows ≡ map row_of half.items) }
{
    let mut rows = RowList::new(alloc);
    for (key, attr) in half {
        rows.push(Row {
            name: key.name,
            attr,
        })?;
    }
    Ok(rows)
}

// Takes these rows away.
fn take_all_away<R: Rows>(rows: &mut R, half: &[(RowKey, Attr)]) -> Result<(), RowsFault>
    ensures taken { OnOk result (R.contents rows.new ≡ without_rows (R.contents rows.old) half.now) }
    ensures cause { HasRowsCause (R.faults rows.old) (R.faults rows.new) result }
{
    for (key, _) in half {
        rows.take_away(key)?;
    }
    Ok(())
}
