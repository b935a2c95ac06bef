ghost use Rattle.std.specs.Prelude.{◌≡◌, OnOk, OnErr, IfOk, IsOk, IsSome, IsTrue};
ghost use Rattle.std.specs.FinMap as map;
ghost use Rattle.mds_base.specs.Name.{is_name};
ghost use Rattle.mds_base.specs.RowKeys.{page_of, is_past, is_outside, first_key};
ghost use Rattle.mds_base.specs.RowsCause.{HasRowsCause};

use crate::attr::Attr;
use crate::cursor::Cursor;
use crate::name::Name;
use crate::row::{Row, RowList};
use crate::row_key::RowKey;
use crate::rows::{Rows, RowsFault};
use std::alloc::{AllocError, Global};
use std::collections::BTreeMap;
use std::marker::Model;

/// Rows in memory, which meet no fault of a device.
#[derive(Debug, Drop)]
pub struct MapRows {
    rows: BTreeMap<RowKey, Attr>,
}

impl Model for MapRows {
    ghost use Rattle.std.specs.FinMap as map;
    ghost use Rattle.mds_base.specs.Entries.{coded_attr};
    ghost use Rattle.mds_base.specs.RowKeys.{RowMap, coded_row_key, AreNamed};

    ghost Value = { RowMap };

    ghost coded = { map.code coded_row_key coded_attr };

    ghost view = { λ a. map.from_entries a.rows.entries };

    ghost invariant = { λ a. AreNamed a.rows.entries };
}

impl MapRows {
    /// No rows. Nothing is taken until a row is put.
    pub fn new(alloc: Global) -> MapRows
        ensures { result ≡ map.empty }
    {
        MapRows {
            rows: BTreeMap::new(alloc),
        }
    }
}

impl Rows for MapRows {
    ghost contents = { λ rows. rows };

    ghost faults = { λ _. 0 };

    /// As the trait says. It takes no memory.
    fn get(&mut self, key: &RowKey) -> Result<Option<Attr>, RowsFault>
        ensures found { IfOk result (λ found. found ≡ map.get self.old key.now) }
        ensures contents { self.new ≡ self.old }
        ensures cause { HasRowsCause 0 0 result }
        ensures no_memory { IsOk result }
    {
        Ok(self.rows.get(key).copied())
    }

    /// As the trait says. Where the key is there it takes no memory.
    fn put(&mut self, key: RowKey, attr: Attr) -> Result<(), RowsFault>
        ensures ok { OnOk result (self.new ≡ map.insert self.old key attr) }
        ensures err { OnErr result (self.new ≡ self.old) }
        ensures cause { HasRowsCause 0 0 result }
        ensures no_memory { IsSome (map.get self.old key) → IsOk result }
    {
        // The keys of the map have names, as this one has.
        let _name = key.name.bytes();
        self.rows.insert(key, attr)?;
        Ok(())
    }

    /// As the trait says. It takes no memory.
    fn take_away(&mut self, key: &RowKey) -> Result<(), RowsFault>
        ensures ok { OnOk result (self.new ≡ map.remove self.old key.now) }
        ensures err { OnErr result (self.new ≡ self.old) }
        ensures cause { HasRowsCause 0 0 result }
        ensures no_memory { IsOk result }
    {
        let _ = self.rows.remove(key);
        Ok(())
    }

    /// As the trait says. It looks at no more rows than it lists, and at two more.
    fn page(
        &mut self,
        alloc: Global,
        dir: u64,
        part: u32,
        from: &Cursor,
        last: u64,
        limit: u32,
    ) -> Result<RowList, RowsFault> {
        let start = least_key(alloc, dir, part, from)?;
        let mut page = RowList::new(alloc);
        for (key, attr) in self.rows.range(&start..) {
            if page.rows().len() == limit as usize || is_beyond(key, dir, part, last) {
                break;
            }
            if is_past_cursor(from, key) {
                page.push(Row {
                    name: key.name.copy(alloc)?,
                    attr: *attr,
                })?;
            }
        }
        Ok(page)
    }
}

// The least key in the partition at or past the cursor: `\x01` is the least name.
fn least_key(alloc: Global, dir: u64, part: u32, from: &Cursor) -> Result<RowKey, AllocError>
    ensures { IfOk result (λ key. key ≡ first_key dir part from.now) }
{
    let name = match &from.after {
        None => Name::least(alloc)?,
        Some(name) => name.copy(alloc)?,
    };
    Ok(RowKey {
        dir,
        part,
        rev: from.at,
        name,
    })
}

fn is_beyond(key: &RowKey, dir: u64, part: u32, last: u64) -> bool
    ensures { result ≡ is_outside dir part last key.now }
{
    key.dir != dir || key.part != part || key.rev > last
}

fn is_past_cursor(from: &Cursor, key: &RowKey) -> bool
    ensures { result ≡ is_past from.now key.now }
{
    if key.rev != from.at {
        return from.at < key.rev;
    }
    match &from.after {
        None => true,
        Some(name) => *name < key.name,
    }
}
