//! The rows of a block.
ghost use Rattle.std.specs.Prelude.{◌≡◌, IfOk, IfSome, IsTrue, MatchOption, List, Some, None, ⊤, ◌≤◌, length};
ghost use Rattle.std.specs.Option.{option_map};
ghost use Rattle.mds_base.specs.Name.{is_name};
ghost use Rattle.sorted_table.specs.Blocks.{block_size};
ghost use Rattle.sorted_table.specs.Lines.{row_in};
ghost use Rattle.sorted_table.specs.Reading.{Gives, are_zeros, rows_at, behind_at, block_at};
ghost use Rattle.sorted_table.specs.Starts.{is_before};
ghost use Rattle.sorted_table.specs.TableRows.{row_behind, row_from};
ghost use Rattle.sorted_table.specs.declared.table_row.TableRow.{TableRow};

use crate::reading::{Line, row_at, u16_at};
use crate::{Start, TableRow};
use mds_base::RowKey;
use std::alloc::{AllocError, Global};

/// The rows of a block, and how many bytes they take in it with their count; `None` exactly where the bytes are no
/// block.
pub(crate) fn block_rows(
    alloc: Global,
    block: &[u8],
) -> Result<Option<(Vec<TableRow>, usize)>, AllocError>
    ensures rows { IfOk result (λ read. option_map (λ x. x.0.items) read ≡ block_at block.now) }
    ensures size { IfOk result (λ read. MatchOption read ⊤ (λ x. x.1 ≡ block_size x.0.items)) }
    ensures within { IfOk result (λ read. MatchOption read ⊤ (λ x. x.1 ≤ length block.now)) }
{
    let Some((count, rest)) = u16_at(block) else {
        return Ok(None);
    };
    let Some((rows, rest)) = rows_at(alloc, count as usize, rest)? else {
        return Ok(None);
    };
    if are_zeros(rest) {
        Ok(Some((rows, block.len() - rest.len())))
    } else {
        Ok(None)
    }
}

fn rows_at(
    alloc: Global,
    count: usize,
    bytes: &[u8],
) -> Result<Option<(Vec<TableRow>, &[u8])>, AllocError>
    ensures { IfOk result (λ read. Gives (λ x. (x.0.items, x.1.now)) read (rows_at count bytes.now)) }
{
    let mut rows = Vec::new(alloc);
    let mut rest = bytes;
    for _place in 0..count {
        let Some((line, after)) = row_at(rest) else {
            return Ok(None);
        };
        rows.push(line.copy(alloc)?)?;
        rest = after;
    }
    Ok(Some((rows, rest)))
}

fn are_zeros(bytes: &[u8]) -> bool
    ensures { result ≡ are_zeros bytes.now }
{
    bytes.iter().all(|byte| *byte == 0)
}

/// The first row of a block that is not below a key; `None` where the bytes up to it are no block.
pub(crate) fn block_from<'a>(block: &'a [u8], key: &RowKey) -> Option<Option<Line<'a>>>
    ensures from { (rows : List TableRow) → block_at block.now ≡ Some rows
        → Gives (λ line. option_map row_in line) result (Some (row_from rows key.now)) }
    ensures named { IfSome result (λ line. IfSome line (λ l. IsTrue (is_name l.key.name.now))) }
{
    block_behind(block, &Start::at(key))
}

/// The first row of a block that is not before a start; `None` where the bytes up to it are no block.
pub(crate) fn block_behind<'a>(block: &'a [u8], start: &Start<'_>) -> Option<Option<Line<'a>>>
    ensures from { (rows : List TableRow) → block_at block.now ≡ Some rows
        → Gives (λ line. option_map row_in line) result (Some (row_behind (is_before start.now) rows)) }
    ensures named { IfSome result (λ line. IfSome line (λ l. IsTrue (is_name l.key.name.now))) }
{
    let (count, rest) = u16_at(block)?;
    behind_at(count as usize, rest, start)
}

fn behind_at<'a>(count: usize, bytes: &'a [u8], start: &Start<'_>) -> Option<Option<Line<'a>>>
    ensures from { Gives (λ line. option_map row_in line) result (behind_at count (is_before start.now) bytes.now) }
    ensures named { IfSome result (λ line. IfSome line (λ l. IsTrue (is_name l.key.name.now))) }
{
    let mut rest = bytes;
    for _place in 0..count {
        let (line, after) = row_at(rest)?;
        if !start.has_line_before(&line.key) {
            return Some(Some(line));
        }
        rest = after;
    }
    Some(None)
}
