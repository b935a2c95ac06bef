//! Spelling a row into the bytes of its block.
ghost use Rattle.std.specs.Prelude.{◌≡◌, ◌+◌, ◌<◌, ◌≤◌, ◌++◌, ◌∷◌, ◌-◌, ◌^◌, Option, OnOk, IsTrue, length, take};
ghost use Rattle.std.specs.Prelude.{replicate};
ghost use Rattle.std.specs.Int.{w16, w32, w64, to_be_bytes};
ghost use Rattle.std.specs.Option.{option_map};
ghost use Rattle.mds_base.specs.Name.{is_name};
ghost use Rattle.sorted_table.specs.TableRows.{IsKey, IsMarked, plain_spelling, stamp_spelling, marked_spelling};
ghost use Rattle.sorted_table.specs.TableRows.{key_spelling, row_spelling};

use crate::BLOCK_BYTES;
use byteorder::{BigEndian, ByteOrder};
use mds_base::{Attr, Name, RowKey};
use std::alloc::AllocError;

fn put_u16(out: &mut Vec<u8>, number: u16) -> Result<(), AllocError>
    ensures { OnOk result (out.new.items ≡ out.old.items ++ to_be_bytes w16 number) }
{
    let mut bytes = [0; 2];
    BigEndian::write_u16(&mut bytes, number);
    out.extend_from_slice(&bytes)
}

fn put_u32(out: &mut Vec<u8>, number: u32) -> Result<(), AllocError>
    ensures { OnOk result (out.new.items ≡ out.old.items ++ to_be_bytes w32 number) }
{
    let mut bytes = [0; 4];
    BigEndian::write_u32(&mut bytes, number);
    out.extend_from_slice(&bytes)
}

fn put_u64(out: &mut Vec<u8>, number: u64) -> Result<(), AllocError>
    ensures { OnOk result (out.new.items ≡ out.old.items ++ to_be_bytes w64 number) }
{
    let mut bytes = [0; 8];
    BigEndian::write_u64(&mut bytes, number);
    out.extend_from_slice(&bytes)
}

fn put_numbers(out: &mut Vec<u8>, dir: u64, part: u32, rev: u64) -> Result<(), AllocError>
    ensures { OnOk result
        (out.new.items ≡ out.old.items ++ (to_be_bytes w64 dir ++ (to_be_bytes w32 part ++ to_be_bytes w64 rev))) }
{
    put_u64(out, dir)?;
    put_u32(out, part)?;
    put_u64(out, rev)
}

fn put_name(out: &mut Vec<u8>, name: &Name) -> Result<(), AllocError>
    ensures name { IsTrue (is_name name.now) }
    ensures put { OnOk result (out.new.items ≡ out.old.items ++ length name.now ∷ name.now) }
{
    let bytes = name.bytes();
    out.push(bytes.len() as u8)?;
    out.extend_from_slice(bytes)
}

fn put_key(out: &mut Vec<u8>, key: &RowKey) -> Result<(), AllocError>
    ensures key { OnOk result (IsKey key.now) }
    ensures put { OnOk result (out.new.items ≡ out.old.items ++ key_spelling key.now) }
{
    put_numbers(out, key.dir, key.part, key.rev)?;
    put_name(out, &key.name)
}

fn put_plain(out: &mut Vec<u8>, attr: &Attr) -> Result<(), AllocError>
    requires { attr.now.mode ≤ 4095 }
    ensures { OnOk result (out.new.items ≡ out.old.items ++ plain_spelling attr.now) }
{
    put_u64(out, attr.dir)?;
    put_u16(out, attr.mode as u16)?;
    put_u64(out, attr.size)
}

fn put_stamp(out: &mut Vec<u8>, attr: &Attr) -> Result<(), AllocError>
    ensures { OnOk result (out.new.items ≡ out.old.items ++ stamp_spelling attr.now) }
{
    put_u32(out, attr.owner)?;
    put_u64(out, attr.mtime)
}

// Mark 2, and attributes with owner and time.
fn put_stamped(out: &mut Vec<u8>, attr: &Attr) -> Result<(), AllocError>
    requires { attr.now.mode ≤ 4095 }
    ensures { OnOk result (out.new.items ≡ out.old.items ++ 2 ∷ (plain_spelling attr.now ++ stamp_spelling attr.now)) }
{
    out.push(2)?;
    put_plain(out, attr)?;
    put_stamp(out, attr)
}

// Mark 1, and attributes without.
fn put_unstamped(out: &mut Vec<u8>, attr: &Attr) -> Result<(), AllocError>
    requires { attr.now.mode ≤ 4095 }
    ensures { OnOk result (out.new.items ≡ out.old.items ++ 1 ∷ plain_spelling attr.now) }
{
    out.push(1)?;
    put_plain(out, attr)
}

fn put_marked(out: &mut Vec<u8>, attr: Option<&Attr>) -> Result<(), AllocError>
    requires { IsMarked (option_map (λ a. a.now) attr) }
    ensures { OnOk result (out.new.items ≡ out.old.items ++ marked_spelling (option_map (λ a. a.now) attr.entry)) }
{
    match attr {
        None => {
            out.push(0)?;
            Ok(())
        }
        Some(attr) if attr.is_stamped() => put_stamped(out, attr),
        Some(attr) => put_unstamped(out, attr),
    }
}

/// Fills a block: the count of its rows, the rows, and zeros to its end.
pub(crate) fn fill_block(block: &mut Vec<u8>, count: u16, rows: &[u8]) -> Result<(), AllocError>
    ensures block { OnOk result
        (block.new.items
        ≡ take BLOCK_BYTES (to_be_bytes w16 count ++ rows.now)
        ++ replicate (BLOCK_BYTES - length (to_be_bytes w16 count ++ rows.now)) 0) }
    ensures size { OnOk result (length block.new.items ≡ BLOCK_BYTES) }
{
    block.clear();
    put_u16(block, count)?;
    block.extend_from_slice(rows)?;
    block.resize(BLOCK_BYTES, 0)
}

/// The counts of a table's blocks and rows, in place of what was there.
pub(crate) fn put_counts(out: &mut Vec<u8>, blocks: u32, rows: u64) -> Result<(), AllocError>
    ensures counts { OnOk result (out.new.items ≡ to_be_bytes w32 blocks ++ to_be_bytes w64 rows) }
    ensures few { blocks < 2 ^ 32 }
    ensures few_rows { rows < 2 ^ 64 }
{
    out.clear();
    put_u32(out, blocks)?;
    put_u64(out, rows)
}

/// Appends the spelling of a row with this key.
pub(crate) fn put_row(
    out: &mut Vec<u8>,
    key: &RowKey,
    attr: Option<&Attr>,
) -> Result<(), AllocError>
    requires { IsMarked (option_map (λ a. a.now) attr) }
    ensures key { OnOk result (IsKey key.now) }
    ensures put { OnOk result
        (out.new.items
        ≡ out.old.items ++ (key_spelling key.now ++ marked_spelling (option_map (λ a. a.now) attr.entry))) }
{
    put_key(out, key)?;
    put_marked(out, attr)
}

/// How many bytes the spelling of a row with this key takes.
pub(crate) fn row_size(key: &RowKey, attr: Option<&Attr>) -> usize
    ensures size { result ≡ length (key_spelling key.now ++ marked_spelling (option_map (λ a. a.now) attr.entry)) }
    ensures some { 1 ≤ result }
    ensures small { result ≤ 307 }
{
    let marked = match attr {
        None => 1,
        Some(attr) if attr.is_stamped() => 31,
        Some(_) => 19,
    };
    21 + key.name.bytes().len() + marked
}
