//! A half in pieces.
ghost use Rattle.std.specs.Prelude.{◌≡◌, ◌++◌, ◌<◌, ◌^◌, IfOk, OnOk, length};
ghost use Rattle.split.specs.Pieces.{pieces_in, piece_of};

use mds_base::{Row, RowList};
use std::alloc::{AllocError, Global};

/// How many rows a piece has at most.
pub const PIECE_ROWS: usize = 64;

/// How many pieces rows are sent in; it is one also of no row.
pub fn piece_count(rows: &RowList) -> u32
    requires { length rows.now < 2 ^ 32 }
    ensures { result ≡ pieces_in rows.now }
{
    rows.rows().len().div_ceil(PIECE_ROWS).max(1) as u32
}

/// A copy of the piece with this index: the rows from 64 times the index on, at most 64. It is refused only where there
/// is no memory for it.
pub fn piece(alloc: Global, rows: &RowList, index: u32) -> Result<RowList, AllocError>
    ensures { IfOk result (λ piece. piece ≡ piece_of rows.now index) }
{
    let start = rows.rows().len().min(index as usize * PIECE_ROWS);
    let end = rows.rows().len().min(start + PIECE_ROWS);
    let mut piece = RowList::new(alloc);
    push_copies(alloc, &mut piece, &rows.rows()[start..end])?;
    Ok(piece)
}

/// Adds copies of rows at the end of a list.
pub(crate) fn push_copies(alloc: Global, list: &mut RowList, rows: &[Row]) -> Result<(), AllocError>
    ensures { OnOk result (list.new ≡ list.old ++ rows.now) }
{
    for row in rows {
        list.push(row.copy(alloc)?)?;
    }
    Ok(())
}
