ghost use Rattle.std.specs.Prelude.{◌≡◌, ◌++◌, List, Some, OnOk, OnErr, IfOk, IsSome, is_some, not};
ghost use Rattle.mds_base.specs.declared.row.Row.{Row};
ghost use Rattle.scan.specs.Scans.{new_scan, taken};

use mds_base::{Cursor, Row, RowList};
use std::alloc::{AllocError, Global};
use std::marker::Model;

/// A scan of a directory: the rows that its pages listed so far, and the cursor from which it goes on.
#[derive(Debug, Drop)]
pub struct ScanState {
    rows: Vec<Row>,
    next: Option<Cursor>,
}

impl Model for ScanState {
    ghost use Rattle.scan.specs.Scans.{Scan};

    ghost Value = { Scan };

    ghost view = { λ s. record { listed = s.rows.items; next = s.next } };
}

impl ScanState {
    /// A scan that has taken no page and begins before all names. It takes no memory until a page is taken.
    pub fn new(alloc: Global) -> ScanState
        ensures { result ≡ new_scan }
    {
        ScanState {
            rows: Vec::new(alloc),
            next: Some(Cursor { at: 0, after: None }),
        }
    }

    /// Whether the last page was taken.
    pub fn finished(&self) -> bool
        ensures { result ≡ not (is_some self.now.next) }
    {
        self.next.is_none()
    }

    /// The cursor from which the next page is to be asked for. It is refused only where there is no memory for it.
    pub fn next_request(&self, alloc: Global) -> Result<Cursor, AllocError>
        requires { IsSome self.now.next }
        ensures { IfOk result (λ cursor. self.now.next ≡ Some cursor) }
    {
        match &self.next {
            Some(cursor) => cursor.copy(alloc),
            None => unreachable!(),
        }
    }

    /// Takes a page: its rows come behind those of the pages before it, and the scan goes on from `next`, or is
    /// finished where that is `None`. Where there is no memory for the rows the scan stays as it is.
    pub fn take_page(
        &mut self,
        alloc: Global,
        rows: &RowList,
        next: Option<Cursor>,
    ) -> Result<(), AllocError>
        requires { IsSome self.old.next }
        ensures ok { OnOk result (self.new ≡ taken self.old rows.now next) }
        ensures err { OnErr result (self.new ≡ self.old) }
    {
        let before = self.rows.len();
        if push_copies(alloc, &mut self.rows, rows.rows()).is_err() {
            self.rows.truncate(before);
            return Err(AllocError);
        }
        self.next = next;
        Ok(())
    }

    /// The rows of the pages that were taken, in their order.
    pub fn rows(&self) -> &[Row]
        ensures { result.now ≡ self.now.listed }
    {
        self.rows.as_slice()
    }
}

/// Adds copies of rows at the end, or of some of them where there is no memory for more.
fn push_copies(alloc: Global, list: &mut Vec<Row>, rows: &[Row]) -> Result<(), AllocError>
    ensures ok { OnOk result (list.new.items ≡ list.old.items ++ rows.now) }
    ensures err { OnErr result ((some : List Row) × (list.new.items ≡ list.old.items ++ some)) }
{
    list.reserve(rows.len())?;
    for row in rows {
        list.push(row.copy(alloc)?)?;
    }
    Ok(())
}
