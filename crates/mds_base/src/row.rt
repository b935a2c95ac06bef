ghost use Rattle.std.specs.Prelude.{◌≡◌, ◌++◌, ◌∷◌, [], IfOk, OnOk, OnErr, length};

use crate::attr::Attr;
use crate::name::Name;
use std::alloc::{AllocError, Global};
use std::marker::Model;

/// An entry of a directory: its name and its attributes.
#[derive(Debug, Drop)]
pub struct Row {
    /// The entry's name.
    pub name: Name,
    /// The entry's attributes.
    pub attr: Attr,
}

impl Row {
    /// A copy of the row; it is refused only where there is no memory for it.
    pub fn copy(&self, alloc: Global) -> Result<Row, AllocError>
        ensures { IfOk result (λ row. row ≡ self.now) }
    {
        Ok(Row {
            name: self.name.copy(alloc)?,
            attr: self.attr,
        })
    }
}

/// Rows in an order, as a load adds them and as a page lists them.
#[derive(Debug, Drop)]
pub struct RowList {
    rows: Vec<Row>,
}

impl Model for RowList {
    ghost use Rattle.std.specs.Prelude.{List};
    ghost use Rattle.mds_base.specs.declared.row.Row.{Row};

    ghost Value = { List Row };

    ghost view = { λ a. a.rows.items };
}

impl RowList {
    /// The list with no row.
    pub fn new(alloc: Global) -> RowList
        ensures { result ≡ [] }
    {
        RowList {
            rows: Vec::new(alloc),
        }
    }

    /// Adds a row at the end. Where there is no memory for it the list stays as it is.
    pub fn push(&mut self, row: Row) -> Result<(), AllocError>
        ensures ok { OnOk result (self.new ≡ self.old ++ row ∷ []) }
        ensures err { OnErr result (self.new ≡ self.old) }
    {
        self.rows.push(row)?;
        Ok(())
    }

    /// The rows, in their order.
    pub fn rows(&self) -> &[Row]
        ensures { result.now ≡ self.now }
    {
        self.rows.as_slice()
    }

    /// A copy of the list; it is refused only where there is no memory for it.
    pub fn copy(&self, alloc: Global) -> Result<RowList, AllocError>
        ensures { IfOk result (λ rows. rows ≡ self.now) }
    {
        let mut copies = Vec::with_capacity(alloc, self.rows.len())?;
        for row in &self.rows {
            copies.push(row.copy(alloc)?)?;
        }
        Ok(RowList { rows: copies })
    }
}
