//! Blocks that were read one after another, and may be those of a table.
ghost use Rattle.std.specs.Prelude.{◌≡◌, ◌+◌, ◌<◌, ◌^◌, ◌++◌, ◌∷◌, [], List, IfOk, IsTrue, length, nat_lt, ◌≤◌};
ghost use Rattle.std.specs.Option.{option_map};
ghost use Rattle.mds_base.specs.RowKeys.{row_key_cmp};
ghost use Rattle.sorted_table.specs.Blocks.{block_size, is_above, rise_behind};
ghost use Rattle.sorted_table.specs.Checks.{IsChecked, follows};
ghost use Rattle.sorted_table.specs.declared.table_row.TableRow.{TableRow};

use crate::spelling::row_size;
use crate::{BLOCK_BYTES, TableRow};
use mds_base::RowKey;
use std::alloc::{AllocError, Global};

/// What is kept of blocks: the first key of each, how many rows they have, the last row's key, and how many bytes the
/// last one has taken.
#[derive(Drop)]
pub(crate) struct Checked {
    pub(crate) firsts: Vec<RowKey>,
    pub(crate) rows: u64,
    last: Option<RowKey>,
    size: u16,
}

impl Checked {
    /// Of no block. The first block may begin with any row.
    pub(crate) fn new(alloc: Global) -> Checked
        ensures { IsChecked result [] }
    {
        Checked {
            firsts: Vec::new(alloc),
            rows: 0,
            last: None,
            size: BLOCK_BYTES as u16,
        }
    }

    /// Goes on by a block with these rows, which take so many bytes; false where no such block may follow.
    pub(crate) fn push(
        &mut self,
        alloc: Global,
        rows: &[TableRow],
        size: usize,
    ) -> Result<bool, AllocError>
        requires size { size ≡ block_size rows.now }
        requires small { size ≤ BLOCK_BYTES }
        ensures good { IfOk result (λ good. good ≡ follows self.old.size self.old.last self.old.rows rows.now) }
        ensures checked { IfOk result
            (λ good. IsTrue good → (blocks : List (List TableRow)) → IsChecked self.old blocks
            → IsChecked self.new (blocks ++ rows.now ∷ [])) }
        ensures count { IfOk result (λ good. length self.new.firsts.items ≤ length self.old.firsts.items + 1) }
    {
        let (Some(first), Some(last)) = (rows.first(), rows.last()) else {
            return Ok(false);
        };
        let is_full = BLOCK_BYTES < self.size as usize + row_size(&first.key, first.attr.as_ref());
        if !is_full || !rise_behind(self.last.as_ref(), rows) || !fits(self.rows, rows.len()) {
            return Ok(false);
        }
        let first_key = first.key.copy(alloc)?;
        let last_key = last.key.copy(alloc)?;
        self.firsts.push(first_key)?;
        self.rows += rows.len() as u64;
        self.last = Some(last_key);
        self.size = size as u16;
        Ok(true)
    }
}

// Whether the number of all rows is a u64.
fn fits(before: u64, rows: usize) -> bool
    ensures { result ≡ nat_lt (before + rows) (2 ^ 64) }
{
    rows as u64 <= u64::MAX - before
}

// Whether each row's key is above that of the row before it, where these follow one of this key.
fn rise_behind(before: Option<&RowKey>, rows: &[TableRow]) -> bool
    ensures { result ≡ rise_behind (option_map (λ key. key.now) before.entry) rows.now }
{
    match rows {
        [] => true,
        [row, rest @ ..] => is_above(before, &row.key) && rise_behind(Some(&row.key), rest),
    }
}

fn is_above(before: Option<&RowKey>, key: &RowKey) -> bool
    ensures { result ≡ is_above (option_map (λ key. key.now) before.entry) key.now }
{
    match before {
        None => true,
        Some(before) => before.cmp(key).is_lt(),
    }
}
