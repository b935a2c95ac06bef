ghost use Rattle.std.specs.Prelude.{◌≡◌, Bool, true, false, filter, IfOk};
ghost use Rattle.std.specs.Cmp.{IsTotalOrder};
ghost use Rattle.std.specs.Ordering.{is_gt};
ghost use Rattle.std.specs.FinMap as map;
ghost use Rattle.std.specs.declared.cmp.Ordering.TheVariants.{Less, Equal};
ghost use Rattle.mds_base.specs.declared.row_key.RowKey.{RowKey};
ghost use Rattle.mds_base.specs.declared.cursor.Cursor.{Cursor};
ghost use Rattle.mds_base.specs.RowKeys.{row_key_cmp, RowMap, is_past};

use crate::name::Name;
use std::alloc::{AllocError, Global};

/// Where a row stands. The order is by directory, partition, reversed hash and the bytes of the name.
#[derive(Debug, Drop, PartialEq, Eq, PartialOrd, Ord)]
pub struct RowKey {
    /// The number of the directory.
    pub dir: u64,
    /// The number of the partition.
    pub part: u32,
    /// The reversed hash of the name.
    pub rev: u64,
    /// The name.
    pub name: Name,
}

impl RowKey {
    /// A copy of the key; a name of at most 22 bytes takes no memory.
    pub fn copy(&self, alloc: Global) -> Result<RowKey, AllocError>
        ensures { IfOk result (λ copy. copy ≡ self.now) }
    {
        Ok(RowKey {
            dir: self.dir,
            part: self.part,
            rev: self.rev,
            name: self.name.copy(alloc)?,
        })
    }
}

/// The laws of the order of row keys (`crates/mds_base/README.md`, "Row keys"), for all keys and all maps of rows.
pub fn laws_of_row_keys()
    // The order is total, and only equal keys tie.
    ensures total { IsTotalOrder row_key_cmp }
    ensures exact { (a b : RowKey) → row_key_cmp a b ≡ Equal → a ≡ b }

    // The rows of one partition of a directory are one interval.
    ensures interval { (a b c : RowKey) → a.dir ≡ c.dir → a.part ≡ c.part → is_gt (row_key_cmp a b) ≡ false
        → is_gt (row_key_cmp b c) ≡ false → (b.dir ≡ a.dir) × (b.part ≡ a.part) }

    // In a partition, what follows a row that is past the cursor is past it too.
    ensures past_up { (cursor : Cursor) → (a b : RowKey) → a.dir ≡ b.dir → a.part ≡ b.part → is_past cursor a ≡ true
        → row_key_cmp a b ≡ Less → is_past cursor b ≡ true }

    // The rows whose keys pass a test stand in the order in which they stood among all.
    ensures kept { (rows : RowMap) → (test : RowKey → Bool)
        → map.entries (map.retain_keys rows test) ≡ filter (λ row. test row.0) (map.entries rows) }

    // Two maps with the same look-ups are one.
    ensures same { (m n : RowMap) → ((key : RowKey) → map.get m key ≡ map.get n key) → m ≡ n }
{}
