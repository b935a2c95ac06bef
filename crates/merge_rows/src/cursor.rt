ghost use Rattle.std.specs.Prelude.{◌≡◌, ◌≤◌, ◌++◌, [], List, OnOk};
ghost use Rattle.std.specs.Option.{option_map};
ghost use Rattle.merge_rows.specs.Cursors.{at_front, first, is_of, cursor_passed, rest_of, IsPlaced, HasNext, weight};
ghost use Rattle.merge_rows.specs.Runs.{OnlyReads};
ghost use Rattle.merge_rows.specs.Telling.{Tells};
ghost use Rattle.sorted_table.specs.Answers.{IsCopyAnswer};
ghost use Rattle.sorted_table.specs.Tables.{IsReady, HasBlocks};
ghost use Rattle.sorted_table.specs.declared.table_row.TableRow.{TableRow};

use frame_pool::Frame;
use mds_base::RowKey;
use mds_out::Disk;
use sorted_table::{Table, TableFault, TableRow};
use std::alloc::Global;
use std::collections::VecDeque;
use std::marker::Model;

/// How far a merge has read one of its tables.
#[derive(Drop)]
pub(crate) struct Cursor {
    next: usize,
    rows: VecDeque<TableRow>,
}

impl Model for Cursor {
    ghost use Rattle.merge_rows.specs.Cursors.{CursorState};

    ghost Value = { CursorState };

    ghost view = { λ cursor. record { next = cursor.next; rows = cursor.rows.items } };
}

impl Cursor {
    /// At the front of a table.
    pub(crate) fn new(alloc: Global) -> Cursor
        ensures { result ≡ at_front }
    {
        Cursor {
            next: 0,
            rows: VecDeque::new(alloc),
        }
    }

    /// The next row, where one was read.
    pub(crate) fn first(&self) -> Option<&TableRow>
        ensures { option_map (λ row. row.now) result ≡ first self.now.rows }
    {
        self.rows.front()
    }

    /// Passes the next row where it has this key.
    pub(crate) fn pass(&mut self, key: &RowKey)
        ensures { self.new ≡ cursor_passed key.now self.old }
    {
        if has_key(self.rows.front(), key) {
            let _row = self.rows.pop_front();
        }
    }

    /// Reads the next block of the table where no row is left of the one before it.
    pub(crate) fn fill<D: Disk>(
        &mut self,
        alloc: Global,
        disk: &mut D,
        frame: &mut Frame,
        table: &Table,
    ) -> Result<(), TableFault>
        requires ready { IsReady table.now (D.seen disk.old) (D.sizes disk.old) }
        requires placed { IsPlaced self.old table.now }
        ensures placed { OnOk result (IsPlaced self.new table.now) }
        ensures next { OnOk result (HasNext self.new table.now) }
        ensures rest { OnOk result
            ((blocks : List (List TableRow)) → Tells HasBlocks table.now (D.seen disk.old) blocks
            → rest_of self.new blocks ≡ rest_of self.old blocks) }
        ensures weight { OnOk result (weight self.new table.now ≤ weight self.old table.now) }
        ensures frame { frame.new.number ≡ frame.old.number }
        ensures reads { OnlyReads D.seen D.sizes D.images D.moment D.images_since D.faults D.lasts D.fails disk.old
            disk.new result }
        ensures answer { IsCopyAnswer (D.seen disk.old table.now.file) result }
    {
        if !self.rows.is_empty() {
            return Ok(());
        }
        if self.next >= table.blocks() {
            return Ok(());
        }
        let rows = table.block_rows(alloc, disk, frame, self.next)?;
        self.rows = VecDeque::from(rows);
        self.next += 1;
        Ok(())
    }
}

// Whether there is a row of this key.
fn has_key(row: Option<&TableRow>, key: &RowKey) -> bool
    ensures { result ≡ is_of (option_map (λ row. row.now) row.entry) key.now }
{
    match row {
        None => false,
        Some(row) => row.key.cmp(key).is_eq(),
    }
}
