//! Opening what a root names: the state is looked at, the tables and the log are opened.
ghost use Rattle.std.specs.Prelude.{◌≡◌, ◌<◌, ◌≤◌, ◌^◌, ◌++◌, map, IfOk, IfErr, OnOk};
ghost use Rattle.frame_pool.specs.Frames.{free_frames};
ghost use Rattle.gate_log.specs.Calls.{IsSomeGate};
ghost use Rattle.mds_out.specs.Known.{OnTold};
ghost use Rattle.row_store.specs.Answers.{IsStoreReading};
ghost use Rattle.row_store.specs.Damages.{IsRefusal, IsStateBad, IsTableBad, IsFirstBad, IsLogBad, IsBadUnder};
ghost use Rattle.row_store.specs.Store.{TellsAll, reading};
ghost use Rattle.row_store.specs.Value.{IsStateThere, IsTableOpen, AreOpen, IsLogReady};

use crate::calls::sync_file;
use crate::faults::{of_log, of_table};
use crate::states::read_state;
use frame_pool::{Frame, Pool};
use gate_log::GateLog;
use mds_base::StoreFault;
use mds_out::Disk;
use root_slots::Root;
use sorted_table::Table;
use std::alloc::Global;

/// Opens what a root names, through a frame of the pool: its tables, newest first, and its log. `Damaged` comes with
/// what is wrong first: the state's length and sum, a table, the gates of the log. Each file is synced before it is
/// looked at.
pub(crate) fn open_with<D: Disk>(
    alloc: Global,
    disk: &mut D,
    pool: &mut Pool,
    root: &Root,
) -> Result<(Vec<Table>, GateLog), StoreFault>
    requires { 1 ≤ free_frames pool.old }
    ensures state { OnOk result (IsStateThere root.now.state (D.seen disk.new) (D.images disk.new)) }
    ensures files { IfOk result (λ x. map (λ table. table.file) x.0.items ≡ root.now.tables) }
    ensures tables { IfOk result (λ x. AreOpen x.0.items (D.seen disk.new) (D.sizes disk.new) (D.images disk.new)) }
    ensures log_file { IfOk result (λ x. x.1.file ≡ root.now.log_file) }
    ensures log { IfOk result (λ x. IsLogReady x.1 (D.seen disk.new) (D.sizes disk.new) (D.images disk.new)) }
    ensures short { IfOk result (λ x. x.1.length < 2 ^ 63) }
    ensures gate { IfOk result (λ x. OnTold (D.seen disk.new x.1.file) (IsSomeGate x.1 0)) }
    ensures refused { IfErr result
        (IsRefusal (λ file offset damage. TellsAll (D.seen disk.old)
        → IsBadUnder root.now file offset damage (reading (D.seen disk.old)))) }
    ensures frames { free_frames pool.new ≡ free_frames pool.old }
    ensures call { IsStoreReading D.seen D.sizes D.images D.moment D.images_since D.faults D.lasts D.fails disk.old
        disk.new result }
{
    let Some(mut frame) = pool.take() else {
        unreachable!()
    };
    let opened = open_under(alloc, disk, &mut frame, root);
    pool.give(frame);
    opened
}

// The same, through a frame.
fn open_under<D: Disk>(
    alloc: Global,
    disk: &mut D,
    frame: &mut Frame,
    root: &Root,
) -> Result<(Vec<Table>, GateLog), StoreFault>
    ensures state { OnOk result (IsStateThere root.now.state (D.seen disk.new) (D.images disk.new)) }
    ensures files { IfOk result (λ x. map (λ table. table.file) x.0.items ≡ root.now.tables) }
    ensures tables { IfOk result (λ x. AreOpen x.0.items (D.seen disk.new) (D.sizes disk.new) (D.images disk.new)) }
    ensures log_file { IfOk result (λ x. x.1.file ≡ root.now.log_file) }
    ensures log { IfOk result (λ x. IsLogReady x.1 (D.seen disk.new) (D.sizes disk.new) (D.images disk.new)) }
    ensures short { IfOk result (λ x. x.1.length < 2 ^ 63) }
    ensures gate { IfOk result (λ x. OnTold (D.seen disk.new x.1.file) (IsSomeGate x.1 0)) }
    ensures refused { IfErr result
        (IsRefusal (λ file offset damage. TellsAll (D.seen disk.old)
        → IsBadUnder root.now file offset damage (reading (D.seen disk.old)))) }
    ensures frame { frame.new.number ≡ frame.old.number }
    ensures call { IsStoreReading D.seen D.sizes D.images D.moment D.images_since D.faults D.lasts D.fails disk.old
        disk.new result }
{
    see_state(alloc, disk, root.state)?;
    let tables = open_tables(alloc, disk, frame, root.tables.files())?;
    let log = open_log(disk, root.log_file)?;
    Ok((tables, log))
}

// Looks at the length and the sum of a state.
fn see_state<D: Disk>(alloc: Global, disk: &mut D, file: u32) -> Result<(), StoreFault>
    ensures state { OnOk result (IsStateThere file (D.seen disk.new) (D.images disk.new)) }
    ensures refused { IfErr result
        (IsRefusal (λ bad offset damage. (bad ≡ file) × OnTold (D.seen disk.old file) (IsStateBad offset damage))) }
    ensures call { IsStoreReading D.seen D.sizes D.images D.moment D.images_since D.faults D.lasts D.fails disk.old
        disk.new result }
{
    sync_file(disk, file)?;
    let mut state = Vec::new(alloc);
    read_state(disk, file, &mut state)
}

fn open_tables<D: Disk>(
    alloc: Global,
    disk: &mut D,
    frame: &mut Frame,
    files: &[u32],
) -> Result<Vec<Table>, StoreFault>
    ensures files { IfOk result (λ tables. map (λ table. table.file) tables.items ≡ files.now) }
    ensures tables { IfOk result
        (λ tables. AreOpen tables.items (D.seen disk.new) (D.sizes disk.new) (D.images disk.new)) }
    ensures refused { IfErr result
        (IsRefusal (λ file offset damage. TellsAll (D.seen disk.old)
        → IsFirstBad files.now file offset damage (reading (D.seen disk.old)))) }
    ensures frame { frame.new.number ≡ frame.old.number }
    ensures call { IsStoreReading D.seen D.sizes D.images D.moment D.images_since D.faults D.lasts D.fails disk.old
        disk.new result }
{
    let mut tables = Vec::new(alloc);
    match open_more(alloc, disk, frame, files, &mut tables) {
        Ok(()) => Ok(tables),
        Err(fault) => Err(fault),
    }
}

// Opens the tables in these files, behind those that are open.
fn open_more<D: Disk>(
    alloc: Global,
    disk: &mut D,
    frame: &mut Frame,
    files: &[u32],
    tables: &mut Vec<Table>,
) -> Result<(), StoreFault>
    requires { AreOpen tables.old.items (D.seen disk.old) (D.sizes disk.old) (D.images disk.old) }
    ensures files { OnOk result
        (map (λ table. table.file) tables.new.items ≡ map (λ table. table.file) tables.old.items ++ files.now) }
    ensures tables { OnOk result (AreOpen tables.new.items (D.seen disk.new) (D.sizes disk.new) (D.images disk.new)) }
    ensures refused { IfErr result
        (IsRefusal (λ file offset damage. TellsAll (D.seen disk.old)
        → IsFirstBad files.now file offset damage (reading (D.seen disk.old)))) }
    ensures frame { frame.new.number ≡ frame.old.number }
    ensures call { IsStoreReading D.seen D.sizes D.images D.moment D.images_since D.faults D.lasts D.fails disk.old
        disk.new result }
{
    match files {
        [] => Ok(()),
        [file, rest @ ..] => {
            let table = open_table(alloc, disk, frame, *file)?;
            tables.push(table)?;
            open_more(alloc, disk, frame, rest, tables)
        }
    }
}

fn open_table<D: Disk>(
    alloc: Global,
    disk: &mut D,
    frame: &mut Frame,
    file: u32,
) -> Result<Table, StoreFault>
    ensures file { IfOk result (λ table. table.file ≡ file) }
    ensures table { IfOk result (λ table. IsTableOpen table (D.seen disk.new) (D.sizes disk.new) (D.images disk.new)) }
    ensures refused { IfErr result
        (IsRefusal (λ bad offset damage. (bad ≡ file) × OnTold (D.seen disk.old file) (IsTableBad offset damage))) }
    ensures frame { frame.new.number ≡ frame.old.number }
    ensures call { IsStoreReading D.seen D.sizes D.images D.moment D.images_since D.faults D.lasts D.fails disk.old
        disk.new result }
{
    sync_file(disk, file)?;
    match Table::open_file(alloc, disk, frame, file) {
        Ok(table) => Ok(table),
        Err(fault) => Err(of_table(file, fault)),
    }
}

fn open_log<D: Disk>(disk: &mut D, file: u32) -> Result<GateLog, StoreFault>
    ensures file { IfOk result (λ log. log.file ≡ file) }
    ensures log { IfOk result (λ log. IsLogReady log (D.seen disk.new) (D.sizes disk.new) (D.images disk.new)) }
    ensures short { IfOk result (λ log. log.length < 2 ^ 63) }
    ensures gate { IfOk result (λ log. OnTold (D.seen disk.new log.file) (IsSomeGate log 0)) }
    ensures refused { IfErr result
        (IsRefusal (λ bad offset damage. (bad ≡ file) × OnTold (D.seen disk.old file) (IsLogBad offset damage))) }
    ensures call { IsStoreReading D.seen D.sizes D.images D.moment D.images_since D.faults D.lasts D.fails disk.old
        disk.new result }
{
    match GateLog::open_file(disk, file) {
        Ok(log) => Ok(log),
        Err(fault) => Err(of_log(file, fault)),
    }
}
