//! What was said since the last flush of keys behind a start.
ghost use Rattle.std.specs.Prelude.{◌≡◌, false, ℕ, List, Option, IfOk, IfSome, OnOk};
ghost use Rattle.std.specs.declared.cmp.Ordering.TheVariants.{Less};
ghost use Rattle.mds_base.specs.RowKeys.{row_key_cmp};
ghost use Rattle.mds_base.specs.declared.row_key.RowKey.{RowKey};
ghost use Rattle.row_store.specs.Rows.{rows_of};
ghost use Rattle.sorted_table.specs.Starts.{place_of, is_before};
ghost use Rattle.sorted_table.specs.TableRows.{Rises, row_behind, key_of};

use mds_base::{Attr, Name, RowKey};
use sorted_table::Start;
use std::alloc::{AllocError, Global};
use std::collections::BTreeMap;
use std::collections::btree_map::Range;

/// The least key that is not before a start of those of which something was said.
pub(crate) fn said_from(
    alloc: Global,
    fresh: &BTreeMap<RowKey, Option<Attr>>,
    start: &Start<'_>,
) -> Result<Option<RowKey>, AllocError>
    ensures found { IfOk result (λ found. found ≡ key_of
        (row_behind (is_before start.now) (rows_of fresh.now.entries))) }
    ensures rise { OnOk result (Rises (rows_of fresh.now.entries)) }
{
    match floor(alloc, start)? {
        None => first_behind(alloc, fresh.range(..), start),
        Some(floor) => first_behind(alloc, fresh.range(&floor..), start),
    }
}

// The first of these that is not before a start.
fn first_behind(
    alloc: Global,
    entries: Range<'_, RowKey, Option<Attr>>,
    start: &Start<'_>,
) -> Result<Option<RowKey>, AllocError>
    ensures { IfOk result (λ found. found ≡ key_of (row_behind (is_before start.now) (rows_of entries.entry))) }
{
    for (key, _attr) in entries {
        if !start.has_before(key) {
            return Ok(Some(key.copy(alloc)?));
        }
    }
    Ok(None)
}

// A key that is below all that are not before a start, and not far: the reversed hash before its own, with the least
// name. `None` where there may be none.
fn floor(alloc: Global, start: &Start<'_>) -> Result<Option<RowKey>, AllocError>
    ensures { IfOk result (λ found. IfSome found
        (λ floor. (key : RowKey) → is_before start.now key ≡ false → row_key_cmp floor key ≡ Less)) }
{
    let Some((dir, part, rev)) = hash_below(start) else {
        return Ok(None);
    };
    let name = Name::of_bytes(alloc, &[1])?;
    Ok(Some(RowKey {
        dir,
        part,
        rev,
        name,
    }))
}

// The directory, the partition and the reversed hash before those of a start; `None` where they are the least.
fn hash_below(start: &Start<'_>) -> Option<(u64, u32, u64)>
    ensures { IfSome result (λ x. (name : List ℕ)
        → row_key_cmp (record { dir = x.0; part = x.1; rev = x.2; name = name }) (place_of start.now) ≡ Less) }
{
    if let Some(rev) = start.rev.checked_sub(1) {
        return Some((start.dir, start.part, rev));
    }
    if let Some(part) = start.part.checked_sub(1) {
        return Some((start.dir, part, u64::MAX));
    }
    let dir = start.dir.checked_sub(1)?;
    Some((dir, u32::MAX, u64::MAX))
}
