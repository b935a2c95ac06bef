//! The cursors of all tables, newest first.
ghost use Rattle.std.specs.Prelude.{◌≡◌, ◌≤◌, List, IfOk, OnOk, length, map, replicate};
ghost use Rattle.std.specs.Option.{option_map};
ghost use Rattle.merge_rows.specs.Answers.{IsMergeAnswer};
ghost use Rattle.merge_rows.specs.Cursors.{at_front, cursor_passed, cursor_rows, lesser, least, lefts, AllAlong};
ghost use Rattle.merge_rows.specs.Cursors.{IsPlaced, HasNext, weights};
ghost use Rattle.merge_rows.specs.Runs.{OnlyReads};
ghost use Rattle.merge_rows.specs.Telling.{AllTell, AreReady};
ghost use Rattle.sorted_table.specs.Tables.{HasBlocks};
ghost use Rattle.sorted_table.specs.declared.table_row.TableRow.{TableRow};

use crate::cursor::Cursor;
use frame_pool::Frame;
use mds_base::RowKey;
use mds_out::Disk;
use sorted_table::{Table, TableFault, TableRow};
use std::alloc::{AllocError, Global};

/// Of so many tables, at the front of each.
pub(crate) fn cursors_of(alloc: Global, count: usize) -> Result<Vec<Cursor>, AllocError>
    ensures { IfOk result (λ cursors. cursors.items ≡ replicate count at_front) }
{
    let mut cursors = Vec::with_capacity(alloc, count)?;
    for _place in 0..count {
        cursors.push(Cursor::new(alloc))?;
    }
    Ok(cursors)
}

/// Reads on where no row is left that was read.
pub(crate) fn fill_all<D: Disk>(
    alloc: Global,
    disk: &mut D,
    frame: &mut Frame,
    tables: &[Table],
    cursors: &mut [Cursor],
) -> Result<(), TableFault>
    requires ready { AreReady tables.now (D.seen disk.old) (D.sizes disk.old) }
    requires placed { AllAlong IsPlaced cursors.old tables.now }
    ensures placed { OnOk result (AllAlong IsPlaced cursors.new tables.now) }
    ensures next { OnOk result (AllAlong HasNext cursors.new tables.now) }
    ensures lefts { OnOk result
        ((blocks : List (List (List TableRow))) → AllTell HasBlocks tables.now (D.seen disk.old) blocks
        → lefts cursors.new blocks ≡ lefts cursors.old blocks) }
    ensures weight { OnOk result (weights cursors.new tables.now ≤ weights cursors.old tables.now) }
    ensures frame { frame.new.number ≡ frame.old.number }
    ensures reads { OnlyReads D.seen D.sizes D.images D.moment D.images_since D.faults D.lasts D.fails disk.old disk.new
        result }
    ensures answer { IsMergeAnswer tables.now (D.seen disk.old) result }
{
    for place in 0..tables.len() {
        cursors[place].fill(alloc, disk, frame, &tables[place])?;
    }
    Ok(())
}

/// The least of the next rows, of equal ones that of the newest table.
pub(crate) fn least(cursors: &[Cursor]) -> Option<&TableRow>
    ensures { option_map (λ row. row.now) result ≡ least (map cursor_rows cursors.now) }
{
    match cursors {
        [] => None,
        [cursor, older @ ..] => lesser(cursor.first(), least(older)),
    }
}

fn lesser<'a>(row: Option<&'a TableRow>, other: Option<&'a TableRow>) -> Option<&'a TableRow>
    ensures { option_map (λ row. row.now) result
        ≡ lesser (option_map (λ row. row.now) row.entry) (option_map (λ row. row.now) other.entry) }
{
    match (row, other) {
        (None, other) => other,
        (Some(row), None) => Some(row),
        (Some(row), Some(other)) => {
            if row.key.cmp(&other.key).is_gt() {
                Some(other)
            } else {
                Some(row)
            }
        }
    }
}

/// Passes the next row of each table where it has this key.
pub(crate) fn pass_all(cursors: &mut [Cursor], key: &RowKey)
    ensures { cursors.new ≡ map (cursor_passed key.now) cursors.old }
{
    for cursor in cursors.iter_mut() {
        cursor.pass(key);
    }
}
