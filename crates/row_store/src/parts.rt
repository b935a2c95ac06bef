//! What a flush writes before it changes the root: the state, an empty log, and the table of the rows that changed.
ghost use Rattle.std.specs.Prelude.{◌≡◌, [], IfOk, IfSome, OnOk};
ghost use Rattle.std.specs.Prelude.{◌+◌, ◌*◌, ◌≤◌, length};
ghost use Rattle.gate_log.specs.Calls.{IsDiskAnswer};
ghost use Rattle.gate_log.specs.Disks.{IsLogChanging};
ghost use Rattle.gate_log.specs.LogState.{HasBodies, IsElsewhereOld, open_log};
ghost use Rattle.mds_out.specs.Disk.{IsElsewhereUnchanged, LeavesOnly, StaysTold};
ghost use Rattle.gate_log.specs.LogState as logs;
ghost use Rattle.std.specs.BTreeMap as tree;
ghost use Rattle.mds_base.specs.RowKeys.{row_key_cmp};
ghost use Rattle.mds_base.specs.declared.row_key.RowKey.{RowKey};
ghost use Rattle.row_store.specs.Answers.{IsStoreWriting, IsMemoryAnswer};
ghost use Rattle.row_store.specs.Files.{AreFree, IsNoneOf};
ghost use Rattle.row_store.specs.Leaving.{LeavesFiles};
ghost use Rattle.row_store.specs.Parts.{AreBegun, IsTableOf};
ghost use Rattle.row_store.specs.Rows.{rows_of};
ghost use Rattle.sorted_table.specs.TableRows.{IsMarked};
ghost use Rattle.std.specs.Prelude.{List, ℕ};

use crate::faults::{of_log, of_table};
use crate::plans::FreeFiles;
use crate::states::write_state;
use crate::tables::build_table;
use gate_log::{GateLog, LogFault};
use mds_base::{Attr, RowKey, StoreFault};
use mds_out::Disk;
use sorted_table::Table;
use std::alloc::Global;
use std::collections::BTreeMap;

/// Writes the state, an empty log and the table of the rows that changed, each into its file. After `Ok` every crash
/// leaves them.
pub(crate) fn write_parts<D: Disk>(
    alloc: Global,
    disk: &mut D,
    files: FreeFiles,
    state: &[u8],
    fresh: &BTreeMap<RowKey, Option<Attr>>,
) -> Result<(GateLog, Option<Table>), StoreFault>
    requires free { (taken : List ℕ) × AreFree files taken }
    requires marked { (key : RowKey) → IfSome (tree.get row_key_cmp fresh.now key) IsMarked }
    ensures log { IfOk result (λ x. x.0 ≡ open_log files.log_file 1) }
    ensures begun { OnOk result (AreBegun files.state files.log_file state.now (D.seen disk.new) (D.sizes disk.new)
        (D.images disk.new)) }
    ensures table { IfOk result (λ x. IsTableOf x.1 files.table (rows_of fresh.now.entries) (D.seen disk.new)
        (D.sizes disk.new) (D.images disk.new)) }
    ensures answer { IsMemoryAnswer result }
    ensures call { LeavesFiles D.seen D.sizes D.images D.moment D.images_since D.faults D.lasts D.fails
        (IsNoneOf files) disk.old disk.new result }
    ensures asked { D.asked disk.new ≤ D.asked disk.old + (2 * length fresh.now.entries + 11) }
{
    let log = begin(alloc, disk, files, state)?;
    let table = table_of(alloc, disk, files.table, fresh)?;
    Ok((log, table))
}

// Writes the state and an empty log.
fn begin<D: Disk>(
    alloc: Global,
    disk: &mut D,
    files: FreeFiles,
    state: &[u8],
) -> Result<GateLog, StoreFault>
    requires free { (taken : List ℕ) × AreFree files taken }
    ensures log { IfOk result (λ log. log ≡ open_log files.log_file 1) }
    ensures begun { OnOk result (AreBegun files.state files.log_file state.now (D.seen disk.new) (D.sizes disk.new)
        (D.images disk.new)) }
    ensures answer { IsMemoryAnswer result }
    ensures call { LeavesFiles D.seen D.sizes D.images D.moment D.images_since D.faults D.lasts D.fails
        (IsNoneOf files) disk.old disk.new result }
    ensures asked { D.asked disk.new ≤ D.asked disk.old + 6 }
{
    write_state(alloc, disk, files.state, state)?;
    make_log(disk, files.log_file)
}

// Makes a log that holds no body.
fn make_log<D: Disk>(disk: &mut D, file: u32) -> Result<GateLog, StoreFault>
    ensures made { IfOk result (λ log. log ≡ open_log file 1) }
    ensures ready { OnOk result (logs.IsReady (open_log file 1) (D.seen disk.new) (D.sizes disk.new)
        (D.images disk.new)) }
    ensures empty { OnOk result (HasBodies (open_log file 1) (D.seen disk.new) []) }
    ensures answer { IsMemoryAnswer result }
    ensures call { IsStoreWriting D.seen D.sizes D.images D.moment D.images_since D.faults D.lasts D.fails file disk.old
        disk.new result }
    ensures asked { D.asked disk.new ≤ D.asked disk.old + 3 }
{
    match create_log(disk, file) {
        Ok(log) => Ok(log),
        Err(fault) => Err(of_log(file, fault)),
    }
}

// The same, as the log answers it.
fn create_log<D: Disk>(disk: &mut D, file: u32) -> Result<GateLog, LogFault>
    ensures made { IfOk result (λ log. log ≡ open_log file 1) }
    ensures ready { OnOk result (logs.IsReady (open_log file 1) (D.seen disk.new) (D.sizes disk.new)
        (D.images disk.new)) }
    ensures empty { OnOk result (HasBodies (open_log file 1) (D.seen disk.new) []) }
    ensures elsewhere { IsElsewhereUnchanged file (D.seen disk.old) (D.seen disk.new) (D.sizes disk.old)
        (D.sizes disk.new) }
    ensures told { StaysTold (D.seen disk.old file) (D.seen disk.new file) }
    ensures any_moment { LeavesOnly D.moment D.images_since disk.old disk.new
        (IsElsewhereOld file (D.images disk.old)) }
    ensures answer { IsDiskAnswer result }
    ensures call { IsLogChanging D.faults D.lasts D.fails disk.old disk.new result }
    ensures asked { D.asked disk.new ≤ D.asked disk.old + 3 }
{
    GateLog::create(disk, file)
}

// Makes a table of the rows that changed; none where no row did.
fn table_of<D: Disk>(
    alloc: Global,
    disk: &mut D,
    file: u32,
    fresh: &BTreeMap<RowKey, Option<Attr>>,
) -> Result<Option<Table>, StoreFault>
    requires marked { (key : RowKey) → IfSome (tree.get row_key_cmp fresh.now key) IsMarked }
    ensures table { IfOk result (λ table. IsTableOf table file (rows_of fresh.now.entries) (D.seen disk.new)
        (D.sizes disk.new) (D.images disk.new)) }
    ensures answer { IsMemoryAnswer result }
    ensures call { IsStoreWriting D.seen D.sizes D.images D.moment D.images_since D.faults D.lasts D.fails file disk.old
        disk.new result }
    ensures asked { D.asked disk.new ≤ D.asked disk.old + (2 * length fresh.now.entries + 5) }
{
    if fresh.is_empty() {
        return Ok(None);
    }
    match build_table(alloc, disk, file, fresh) {
        Ok(table) => Ok(Some(table)),
        Err(fault) => Err(of_table(file, fault)),
    }
}
