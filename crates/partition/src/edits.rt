ghost use Rattle.std.specs.Prelude.{◌≡◌, ◌++◌, ◌∷◌, [], ◌||◌, is_some, IfOk, OnOk, OnErr};
ghost use Rattle.std.specs.FinMap as map;
ghost use Rattle.mds_base.specs.RowsCause.{HasRowsCause};
ghost use Rattle.partition.specs.Rows.{written, edits_of, load_edits};
ghost use Rattle.name_hash.specs.RowPlace.{row_key};
ghost use Rattle.mds_base.specs.RowKeys.{edited_rows};
ghost use Rattle.partition.specs.Serving.{IsInPart};

use mds_base::{Edit, MapRows, Row, RowKey, Rows, RowsFault};
use name_hash::row_key;
use std::alloc::{AllocError, Global};
use std::marker::Model;

/// An edit of the row at a key.
#[derive(Debug, Drop)]
pub struct RowEdit {
    /// Where the row stands.
    pub key: RowKey,
    /// What becomes of it.
    pub edit: Edit,
}

/// Edits of rows, in the order in which they are made.
#[derive(Debug, Drop)]
pub struct EditList {
    edits: Vec<RowEdit>,
}

impl Model for EditList {
    ghost use Rattle.std.specs.Prelude.{List};
    ghost use Rattle.partition.specs.declared.edits.RowEdit.{RowEdit};

    ghost Value = { List RowEdit };

    ghost view = { λ a. a.edits.items };
}

impl EditList {
    /// The list with no edit.
    pub fn new(alloc: Global) -> EditList
        ensures { result ≡ [] }
    {
        EditList {
            edits: Vec::new(alloc),
        }
    }

    /// Adds an edit at the end. Where there is no memory for it the list stays as it is.
    pub fn push(&mut self, edit: RowEdit) -> Result<(), AllocError>
        ensures ok { OnOk result (self.new ≡ self.old ++ edit ∷ []) }
        ensures err { OnErr result (self.new ≡ self.old) }
    {
        self.edits.push(edit)?;
        Ok(())
    }

    /// The edits, in their order.
    pub fn edits(&self) -> &[RowEdit]
        ensures { result.now ≡ self.now }
    {
        self.edits.as_slice()
    }
}

/// The edit of a row as a list; a row that stays is not written.
pub fn list_of(alloc: Global, key: RowKey, edit: Edit) -> Result<EditList, AllocError>
    ensures { IfOk result (λ edits. edits ≡ edits_of key edit) }
{
    let mut edits = EditList::new(alloc);
    match edit {
        Edit::Keep => Ok(edits),
        Edit::Put(attr) => {
            edits.push(RowEdit {
                key,
                edit: Edit::Put(attr),
            })?;
            Ok(edits)
        }
        Edit::Take => {
            edits.push(RowEdit {
                key,
                edit: Edit::Take,
            })?;
            Ok(edits)
        }
    }
}

/// The edits that add each row of a load whose name is absent. The rows that are kept stay as they are. It looks each
/// row up once, and keeps a map of those that it adds, so that a name that stands twice is added once.
pub fn edits_of_load<R: Rows>(
    alloc: Global,
    rows: &mut R,
    dir: u64,
    part: u32,
    load: &[Row],
) -> Result<EditList, RowsFault>
    ensures ok { IfOk result (λ edits. edits ≡ load_edits (R.contents rows.old) dir part load.now) }
    ensures rows { R.contents rows.new ≡ R.contents rows.old }
    ensures cause { HasRowsCause (R.faults rows.old) (R.faults rows.new) result }
{
    let mut edits = EditList::new(alloc);
    let mut added = MapRows::new(alloc);
    for row in load {
        let key = row_key(alloc, dir, part, &row.name)?;
        if is_there(rows, &mut added, &key)? {
            continue;
        }
        added.put(key.copy(alloc)?, row.attr)?;
        edits.push(RowEdit {
            key,
            edit: Edit::Put(row.attr),
        })?;
    }
    Ok(edits)
}

// Whether a row stands at the key, or is among those that a load adds.
fn is_there<R: Rows>(rows: &mut R, added: &mut MapRows, key: &RowKey) -> Result<bool, RowsFault>
    ensures ok { IfOk result (λ there.
        there ≡ (is_some (map.get added.old key.now) || is_some (map.get (R.contents rows.old) key.now))) }
    ensures rows { R.contents rows.new ≡ R.contents rows.old }
    ensures added { added.new ≡ added.old }
    ensures cause { HasRowsCause (R.faults rows.old) (R.faults rows.new) result }
{
    if is_added(added, key) {
        return Ok(true);
    }
    Ok(rows.get(key)?.is_some())
}

fn is_added(added: &mut MapRows, key: &RowKey) -> bool
    ensures is { result ≡ is_some (map.get added.old key.now) }
    ensures added { added.new ≡ added.old }
{
    match added.get(key) {
        Ok(found) => found.is_some(),
        Err(_) => false,
    }
}

/// Makes edits, in their order. Where one is refused those before it were made.
pub fn write_edits<R: Rows>(alloc: Global, rows: &mut R, edits: &[RowEdit]) -> Result<(), RowsFault>
    ensures ok { OnOk result (R.contents rows.new ≡ written (R.contents rows.old) edits.now) }
    ensures err { OnErr result (IsInPart (R.contents rows.old) edits.now (R.contents rows.new)) }
    ensures cause { HasRowsCause (R.faults rows.old) (R.faults rows.new) result }
{
    for edit in edits {
        write_one(alloc, rows, edit)?;
    }
    Ok(())
}

// Makes an edit. Where it is refused the rows stay as they are.
fn write_one<R: Rows>(alloc: Global, rows: &mut R, edit: &RowEdit) -> Result<(), RowsFault>
    ensures ok { OnOk result (R.contents rows.new ≡ edited_rows (R.contents rows.old) edit.now.key edit.now.edit) }
    ensures err { OnErr result (R.contents rows.new ≡ R.contents rows.old) }
    ensures cause { HasRowsCause (R.faults rows.old) (R.faults rows.new) result }
{
    match edit.edit {
        Edit::Keep => Ok(()),
        Edit::Put(attr) => rows.put(edit.key.copy(alloc)?, attr),
        Edit::Take => rows.take_away(&edit.key),
    }
}
