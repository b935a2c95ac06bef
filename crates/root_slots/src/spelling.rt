//! The bytes of a slot.
ghost use Rattle.std.specs.Prelude.{◌≡◌, ◌+◌, ◌*◌, ◌≤◌, ◌<◌, ◌^◌, List, ℕ, true, length, slice_index, IfOk, OnOk, ◌++◌};
ghost use Rattle.md5.specs.Md5.{md5};
ghost use Rattle.root_slots.specs.Root.{is_root};
ghost use Rattle.root_slots.specs.Slot.{listed, summed, spelling, open_content};
ghost use Rattle.root_slots.specs.declared.content.Content.TheVariants.{Open};

use crate::TABLES_MOST;
use crate::root::Root;
use md5::{Digest, Md5};
use std::alloc::{AllocError, Global};

/// What stands behind the gate of a slot with this root, and is read as it whatever follows.
pub(crate) fn spelled(alloc: Global, root: &Root) -> Result<Vec<u8>, AllocError>
    requires { is_root root.now ≡ true }
    ensures short { IfOk result (λ bytes. length bytes.items ≤ 289) }
    ensures read { IfOk result (λ bytes. (tail : List ℕ) → open_content (bytes.items ++ tail) ≡ Open root.now) }
{
    let mut bytes = before_sum(
        alloc,
        root.number,
        root.state,
        root.log_file,
        root.tables.files(),
    )?;
    push_sum(&mut bytes)?;
    Ok(bytes)
}

// What the sum of a slot is over.
fn before_sum(
    alloc: Global,
    number: u64,
    state: u32,
    log_file: u32,
    tables: &[u32],
) -> Result<Vec<u8>, AllocError>
    requires { length tables.now ≤ TABLES_MOST }
    ensures bytes { IfOk result
        (λ bytes. bytes.items
        ≡ summed (record { number = number; state = state; log_file = log_file; tables = tables.now })) }
    ensures fits { (number < 2 ^ 64) × (state < 2 ^ 32) × (log_file < 2 ^ 32) }
    ensures tables_fit { (k : ℕ) → slice_index tables.now k < 2 ^ 32 }
{
    let mut bytes = Vec::new(alloc);
    bytes.extend_from_slice(&number.to_be_bytes())?;
    bytes.extend_from_slice(&state.to_be_bytes())?;
    bytes.extend_from_slice(&log_file.to_be_bytes())?;
    bytes.push(tables.len() as u8)?;
    push_tables(&mut bytes, tables)?;
    Ok(bytes)
}

// Tables, one behind the other.
fn push_tables(bytes: &mut Vec<u8>, tables: &[u32]) -> Result<(), AllocError>
    ensures { OnOk result (bytes.new.items ≡ bytes.old.items ++ listed tables.now) }
{
    for table in tables {
        bytes.extend_from_slice(&table.to_be_bytes())?;
    }
    Ok(())
}

// The sum of the bytes, behind them.
fn push_sum(bytes: &mut Vec<u8>) -> Result<(), AllocError>
    ensures sum { OnOk result (bytes.new.items ≡ bytes.old.items ++ md5 bytes.old.items) }
    ensures size { OnOk result (length (md5 bytes.old.items) ≡ 16) }
{
    let sum = Md5::digest(bytes.as_slice());
    bytes.extend_from_slice(&sum)?;
    Ok(())
}
