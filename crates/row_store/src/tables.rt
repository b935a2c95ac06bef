//! The table of the rows that changed since the last flush.
ghost use Rattle.std.specs.Prelude.{◌≡◌, ◌++◌, ◌∷◌, [], List, IfOk, IfSome, OnOk};
ghost use Rattle.std.specs.Prelude.{◌+◌, ◌*◌, ◌≤◌, length};
ghost use Rattle.std.specs.BTreeMap as tree;
ghost use Rattle.mds_base.specs.RowKeys.{row_key_cmp};
ghost use Rattle.mds_base.specs.declared.row_key.RowKey.{RowKey};
ghost use Rattle.merge_rows.specs.Runs.{WritesOnly};
ghost use Rattle.row_store.specs.Rows.{rows_of};
ghost use Rattle.sorted_table.specs.Answers.{IsMemoryAnswer};
ghost use Rattle.sorted_table.specs.Building.{IsBuilt, IsGrowing, AllBelow};
ghost use Rattle.sorted_table.specs.TableRows.{IsMarked};
ghost use Rattle.sorted_table.specs.Tables.{IsReady, HoldsRows, IsDurable};
ghost use Rattle.sorted_table.specs.declared.table_row.TableRow.{TableRow};

use mds_base::{Attr, RowKey};
use mds_out::Disk;
use sorted_table::{Builder, Table, TableFault};
use std::alloc::Global;
use std::collections::BTreeMap;

/// Makes a table of what was last said of each key, in a file, whatever that held. After `Ok` every crash leaves it.
pub(crate) fn build_table<D: Disk>(
    alloc: Global,
    disk: &mut D,
    file: u32,
    fresh: &BTreeMap<RowKey, Option<Attr>>,
) -> Result<Table, TableFault>
    requires marked { (key : RowKey) → IfSome (tree.get row_key_cmp fresh.now key) IsMarked }
    ensures file { IfOk result (λ table. table.file ≡ file) }
    ensures ready { IfOk result (λ table. IsReady table (D.seen disk.new) (D.sizes disk.new)) }
    ensures rows { IfOk result (λ table. HoldsRows table (D.seen disk.new) (rows_of fresh.now.entries)) }
    ensures durable { OnOk result (IsDurable file (D.seen disk.new) (D.images disk.new)) }
    ensures writes { WritesOnly D.seen D.sizes D.images D.moment D.images_since D.faults D.lasts D.fails file disk.old
        disk.new result }
    ensures answer { IsMemoryAnswer result }
    ensures asked { D.asked disk.new ≤ D.asked disk.old + (2 * length fresh.now.entries + 5) }
{
    let mut builder = Builder::new(alloc, file)?;
    add_rows(alloc, disk, &mut builder, fresh)?;
    builder.finish(disk)
}

// Adds what was last said of each key, in the order of the keys.
fn add_rows<D: Disk>(
    alloc: Global,
    disk: &mut D,
    builder: &mut Builder,
    fresh: &BTreeMap<RowKey, Option<Attr>>,
) -> Result<(), TableFault>
    requires marked { (key : RowKey) → IfSome (tree.get row_key_cmp fresh.now key) IsMarked }
    requires growing { IsGrowing builder.old (D.sizes disk.old) }
    ensures file { builder.new.file ≡ builder.old.file }
    ensures built { OnOk result
        (IsBuilt builder.old [] (D.seen disk.old builder.old.file)
        → IsBuilt builder.new (rows_of fresh.now.entries) (D.seen disk.new builder.old.file)) }
    ensures growing { OnOk result (IsGrowing builder.new (D.sizes disk.new)) }
    ensures writes { WritesOnly D.seen D.sizes D.images D.moment D.images_since D.faults D.lasts D.fails
        builder.old.file disk.old disk.new result }
    ensures answer { IsMemoryAnswer result }
    ensures asked { D.asked disk.new ≤ D.asked disk.old + 2 * length fresh.now.entries }
{
    for (key, attr) in fresh.iter() {
        add_row(alloc, disk, builder, key, *attr)?;
    }
    Ok(())
}

// Adds what was last said of a key, which is above those of the rows before it.
fn add_row<D: Disk>(
    alloc: Global,
    disk: &mut D,
    builder: &mut Builder,
    key: &RowKey,
    attr: Option<Attr>,
) -> Result<(), TableFault>
    requires attr { IsMarked attr }
    requires growing { IsGrowing builder.old (D.sizes disk.old) }
    ensures file { builder.new.file ≡ builder.old.file }
    ensures built { OnOk result
        ((rows : List TableRow) → IsBuilt builder.old rows (D.seen disk.old builder.old.file) → AllBelow rows key.now
        → IsBuilt builder.new (rows ++ record { key = key.now; attr = attr } ∷ []) (D.seen disk.new builder.old.file)) }
    ensures growing { OnOk result (IsGrowing builder.new (D.sizes disk.new)) }
    ensures writes { WritesOnly D.seen D.sizes D.images D.moment D.images_since D.faults D.lasts D.fails
        builder.old.file disk.old disk.new result }
    ensures answer { IsMemoryAnswer result }
    ensures asked { D.asked disk.new ≤ D.asked disk.old + 2 }
{
    match attr {
        None => builder.add(alloc, disk, key, None),
        Some(attr) => builder.add(alloc, disk, key, Some(&attr)),
    }
}
