//! Flushes: the map becomes the base.
ghost use Rattle.std.specs.Prelude.{◌≡◌, ◌==◌, ◌<◌, List, ℕ, Ok, Err, true, false, length, IfErr, IfOk, IfSome, OnOk};
ghost use Rattle.std.specs.Prelude.{◌+◌, ◌*◌, ◌≤◌};
ghost use Rattle.std.specs.Prelude.{OnErr};
ghost use Rattle.mds_out.specs.Known.{OnTold};
ghost use Rattle.root_slots.specs.Root.{is_fresh};
ghost use Rattle.row_store.specs.Answers.{IsCopyAnswer, IsMemoryAnswer};
ghost use Rattle.row_store.specs.Files.{AreFree, IsTaken, in_use, merged_into, named_by};
ghost use Rattle.row_store.specs.Leaving.{LeavesFiles};
ghost use Rattle.row_store.specs.Parts.{IsNext, IsNextNumber, in_front, shifted};
ghost use Rattle.row_store.specs.Steps.{IsKeeping, IsFlushed};
ghost use Rattle.row_store.specs.Store.{HoldsState, TellsAll};
ghost use Rattle.row_store.specs.Value.{IsReady};
ghost use Rattle.std.specs.List.{list_any};

use crate::faults::of_root;
use crate::merges::Pending;
use crate::parts::write_parts;
use crate::plans::{FreeFiles, files_in_use, free_files, next_number, tables_of};
use crate::roots::change_root;
use crate::row_store::{InForce, RowStore};
use crate::writes::cut_file;
use gate_log::GateLog;
use mds_base::StoreFault;
use mds_out::Disk;
use root_slots::{Root, TABLES_MOST};
use sorted_table::Table;
use std::alloc::{AllocError, Global};
use std::collections::BTreeMap;

/// What a flush brings into force.
#[derive(Drop)]
pub(crate) struct Next {
    pub(crate) root: Root,
    pub(crate) log: GateLog,
    pub(crate) table: Option<Table>,
}

impl RowStore {
    /// Makes the map the base, beside this state and with no body: the rows that changed become a table, and none is
    /// made where no row did; the state and an empty log are written, and the root is changed. Then the files that it
    /// does not name are cut. At 64 tables they are merged first. Where there is no memory for the parts of the new
    /// root all is as it was, and the store runs on; after a refusal while the root is changed, or of the disk's
    /// failure, it has stopped.
    pub fn flush<D: Disk>(
        &mut self,
        alloc: Global,
        disk: &mut D,
        state: &[u8],
    ) -> Result<(), StoreFault>
        requires { self.old.stopped ≡ false → IsReady self.old (D.seen disk.old) (D.sizes disk.old)
            (D.images disk.old) }
        ensures flushed { self.old.stopped ≡ false
            → IsFlushed D.seen D.sizes D.images D.moment D.images_since D.faults D.lasts D.fails state.now self.old
            self.new disk.old disk.new result }
        ensures answer { self.old.stopped ≡ false → IsCopyAnswer (TellsAll (D.seen disk.old)) result }
        ensures stopped { self.old.stopped ≡ true → (result ≡ Err StoreFault.Stopped) × (self.new ≡ self.old)
            × (disk.new ≡ disk.old) }
        ensures asked { length self.old.tables.items < TABLES_MOST
            → D.asked disk.new ≤ D.asked disk.old + (2 * length self.old.fresh.entries + 23) }
    {
        if self.stopped {
            return Err(StoreFault::Stopped);
        }
        self.make_room(alloc, disk)?;
        self.flush_on(alloc, disk, state)
    }

    // Merges at 64 tables, and makes file 0 where it is not made.
    fn make_room<D: Disk>(&mut self, alloc: Global, disk: &mut D) -> Result<(), StoreFault>
        requires running { self.old.stopped ≡ false }
        requires ready { IsReady self.old (D.seen disk.old) (D.sizes disk.old) (D.images disk.old) }
        ensures made { OnOk result (self.new.slots.made ≡ true) }
        ensures room { OnOk result (length self.new.tables.items < TABLES_MOST) }
        ensures step { IsKeeping D.seen D.sizes D.images D.moment D.images_since D.faults D.lasts D.fails self.old
            self.new disk.old disk.new result }
        ensures answer { IsCopyAnswer (TellsAll (D.seen disk.old)) result }
        ensures fresh { length self.old.tables.items < TABLES_MOST → self.new.fresh ≡ self.old.fresh }
        ensures asked { length self.old.tables.items < TABLES_MOST → D.asked disk.new ≤ D.asked disk.old + 4 }
    {
        self.merge_full(alloc, disk)?;
        self.make_root_file(disk)
    }

    // Merges the tables where there are as many as a root may name.
    fn merge_full<D: Disk>(&mut self, alloc: Global, disk: &mut D) -> Result<(), StoreFault>
        requires running { self.old.stopped ≡ false }
        requires ready { IsReady self.old (D.seen disk.old) (D.sizes disk.old) (D.images disk.old) }
        ensures room { OnOk result (length self.new.tables.items < TABLES_MOST) }
        ensures step { IsKeeping D.seen D.sizes D.images D.moment D.images_since D.faults D.lasts D.fails self.old
            self.new disk.old disk.new result }
        ensures answer { IsCopyAnswer (TellsAll (D.seen disk.old)) result }
        ensures none { length self.old.tables.items < TABLES_MOST → (self.new ≡ self.old) × (disk.new ≡ disk.old) }
    {
        if self.tables.len() < TABLES_MOST {
            return Ok(());
        }
        if self.merge_turn(alloc, disk, u32::MAX)? {
            return Err(StoreFault::OutOfMemory);
        }
        Ok(())
    }

    // Makes file 0, where no root was ever in force.
    fn make_root_file<D: Disk>(&mut self, disk: &mut D) -> Result<(), StoreFault>
        requires running { self.old.stopped ≡ false }
        requires ready { IsReady self.old (D.seen disk.old) (D.sizes disk.old) (D.images disk.old) }
        ensures made { OnOk result (self.new.slots.made ≡ true) }
        ensures tables { self.new.tables ≡ self.old.tables }
        ensures step { IsKeeping D.seen D.sizes D.images D.moment D.images_since D.faults D.lasts D.fails self.old
            self.new disk.old disk.new result }
        ensures answer { IsMemoryAnswer result }
        ensures asked { D.asked disk.new ≤ D.asked disk.old + 4 }
        ensures fresh { self.new.fresh ≡ self.old.fresh }
    {
        if self.slots.is_made() {
            return Ok(());
        }
        match self.slots.make_file(disk) {
            Ok(()) => Ok(()),
            Err(fault) => {
                self.stopped = true;
                Err(of_root(fault))
            }
        }
    }

    // Writes the parts of the new root, and brings it into force.
    fn flush_on<D: Disk>(
        &mut self,
        alloc: Global,
        disk: &mut D,
        state: &[u8],
    ) -> Result<(), StoreFault>
        requires running { self.old.stopped ≡ false }
        requires ready { IsReady self.old (D.seen disk.old) (D.sizes disk.old) (D.images disk.old) }
        requires made { self.old.slots.made ≡ true }
        requires room { length self.old.tables.items < TABLES_MOST }
        ensures flushed { IsFlushed D.seen D.sizes D.images D.moment D.images_since D.faults D.lasts D.fails state.now
            self.old self.new disk.old disk.new result }
        ensures answer { IsMemoryAnswer result }
        ensures asked { D.asked disk.new ≤ D.asked disk.old + (2 * length self.old.fresh.entries + 19) }
    {
        match self.write_next(alloc, disk, state) {
            Ok(next) => self.come_in(alloc, disk, next),
            Err(fault) => {
                self.stop_at(&fault);
                Err(fault)
            }
        }
    }

    // Writes the parts of the new root into files that nothing is in.
    fn write_next<D: Disk>(
        &self,
        alloc: Global,
        disk: &mut D,
        state: &[u8],
    ) -> Result<Next, StoreFault>
        requires ready { IsReady self.now (D.seen disk.old) (D.sizes disk.old) (D.images disk.old) }
        requires room { length self.now.tables.items < TABLES_MOST }
        ensures next { IfOk result (λ next. IsNext self.now next.root next.log next.table (D.seen disk.new)
            (D.sizes disk.new) (D.images disk.new)) }
        ensures state { IfOk result (λ next. OnTold (D.seen disk.new next.root.state) (HoldsState state.now)) }
        ensures answer { IsMemoryAnswer result }
        ensures call { LeavesFiles D.seen D.sizes D.images D.moment D.images_since D.faults D.lasts D.fails
            (IsTaken (in_use self.now.merge self.now.force)) disk.old disk.new result }
        ensures asked { D.asked disk.new ≤ D.asked disk.old + (2 * length self.now.fresh.entries + 11) }
    {
        let (files, number) = self.plan(alloc)?;
        let (log, table) = write_parts(alloc, disk, files, state, &self.fresh)?;
        let tables = tables_of(alloc, &table, &self.force)?;
        let root = Root {
            number,
            state: files.state,
            log_file: files.log_file,
            tables,
        };
        Ok(Next { root, log, table })
    }

    // The files for the parts of a new root, and its number.
    fn plan(&self, alloc: Global) -> Result<(FreeFiles, u64), StoreFault>
        requires { length (in_use self.now.merge self.now.force) < 900 }
        ensures free { IfOk result (λ x. AreFree x.0 (in_use self.now.merge self.now.force)) }
        ensures number { IfOk result (λ x. IsNextNumber self.now.force x.1) }
        ensures refused { IfErr result (λ fault. fault ≡ StoreFault.OutOfMemory) }
    {
        let number = next_number(&self.force)?;
        let files = free_files(files_in_use(alloc, &self.merge, &self.force)?)?;
        Ok((files, number))
    }

    // Brings the new root into force, and cuts what it does not name.
    fn come_in<D: Disk>(
        &mut self,
        alloc: Global,
        disk: &mut D,
        next: Next,
    ) -> Result<(), StoreFault>
        requires running { self.old.stopped ≡ false }
        requires ready { IsReady self.old (D.seen disk.old) (D.sizes disk.old) (D.images disk.old) }
        requires made { self.old.slots.made ≡ true }
        requires room { length self.old.tables.items < TABLES_MOST }
        requires next { IsNext self.old next.root next.log next.table (D.seen disk.old) (D.sizes disk.old)
            (D.images disk.old) }
        requires written { (state : List ℕ) × OnTold (D.seen disk.old next.root.state) (HoldsState state) }
        ensures flushed { (state : List ℕ) → OnTold (D.seen disk.old next.root.state) (HoldsState state)
            → IsFlushed D.seen D.sizes D.images D.moment D.images_since D.faults D.lasts D.fails state self.old self.new
            disk.old disk.new result }
        ensures answer { IsMemoryAnswer result }
        ensures asked { D.asked disk.new ≤ D.asked disk.old + 8 }
    {
        let old = self.enter(alloc, disk, next)?;
        self.sweep_root(disk, old)
    }

    // Brings the new root into force, and answers what was in force before.
    fn enter<D: Disk>(
        &mut self,
        alloc: Global,
        disk: &mut D,
        next: Next,
    ) -> Result<Option<InForce>, StoreFault>
        requires running { self.old.stopped ≡ false }
        requires ready { IsReady self.old (D.seen disk.old) (D.sizes disk.old) (D.images disk.old) }
        requires made { self.old.slots.made ≡ true }
        requires room { length self.old.tables.items < TABLES_MOST }
        requires next { IsNext self.old next.root next.log next.table (D.seen disk.old) (D.sizes disk.old)
            (D.images disk.old) }
        ensures flushed { (state : List ℕ) → OnTold (D.seen disk.old next.root.state) (HoldsState state)
            → IsFlushed D.seen D.sizes D.images D.moment D.images_since D.faults D.lasts D.fails state self.old self.new
            disk.old disk.new result }
        ensures answer { IsMemoryAnswer result }
        ensures asked { D.asked disk.new ≤ D.asked disk.old + 6 }
    {
        let Next { root, log, table } = next;
        put_first(&mut self.tables, &mut self.merge, table)?;
        match change_root(alloc, disk, &mut self.slots, &root) {
            Ok(()) => {
                self.fresh = BTreeMap::new(alloc);
                Ok(self.force.replace(InForce { root, log }))
            }
            Err(fault) => {
                self.stopped = true;
                Err(fault)
            }
        }
    }

    // Cuts the state and the log that were in force.
    fn sweep_root<D: Disk>(&mut self, disk: &mut D, old: Option<InForce>) -> Result<(), StoreFault>
        requires running { self.old.stopped ≡ false }
        requires ready { IsReady self.old (D.seen disk.old) (D.sizes disk.old) (D.images disk.old) }
        ensures step { IsKeeping D.seen D.sizes D.images D.moment D.images_since D.faults D.lasts D.fails self.old
            self.new disk.old disk.new result }
        ensures refused { OnErr result (self.new.stopped ≡ true) }
        ensures force { self.new.force ≡ self.old.force }
        ensures answer { IsMemoryAnswer result }
        ensures asked { D.asked disk.new ≤ D.asked disk.old + 2 }
    {
        let Some(InForce { root, log: _ }) = old else {
            return Ok(());
        };
        self.sweep(disk, root.state)?;
        self.sweep(disk, root.log_file)
    }

    /// Cuts these files, but for those in use.
    pub(crate) fn sweep_all<D: Disk>(
        &mut self,
        disk: &mut D,
        files: &[u32],
    ) -> Result<(), StoreFault>
        requires running { self.old.stopped ≡ false }
        requires ready { IsReady self.old (D.seen disk.old) (D.sizes disk.old) (D.images disk.old) }
        ensures step { IsKeeping D.seen D.sizes D.images D.moment D.images_since D.faults D.lasts D.fails self.old
            self.new disk.old disk.new result }
        ensures tables { self.new.tables ≡ self.old.tables }
        ensures refused { OnErr result (self.new.stopped ≡ true) }
        ensures answer { IsMemoryAnswer result }
        ensures asked { D.asked disk.new ≤ D.asked disk.old + length files.now }
    {
        match files {
            [] => Ok(()),
            [file, rest @ ..] => {
                self.sweep(disk, *file)?;
                self.sweep_all(disk, rest)
            }
        }
    }

    // Cuts a file, where it is not in use.
    fn sweep<D: Disk>(&mut self, disk: &mut D, file: u32) -> Result<(), StoreFault>
        requires running { self.old.stopped ≡ false }
        requires ready { IsReady self.old (D.seen disk.old) (D.sizes disk.old) (D.images disk.old) }
        ensures step { IsKeeping D.seen D.sizes D.images D.moment D.images_since D.faults D.lasts D.fails self.old
            self.new disk.old disk.new result }
        ensures tables { self.new.tables ≡ self.old.tables }
        ensures force { self.new.force ≡ self.old.force }
        ensures refused { OnErr result (self.new.stopped ≡ true) }
        ensures answer { IsMemoryAnswer result }
        ensures asked { D.asked disk.new ≤ D.asked disk.old + 1 }
    {
        if !self.is_free(file) {
            return Ok(());
        }
        match cut_file(disk, file) {
            Ok(()) => Ok(()),
            Err(fault) => {
                self.stopped = true;
                Err(fault)
            }
        }
    }

    // Whether nothing is in a file.
    fn is_free(&self, file: u32) -> bool
        ensures { result ≡ is_fresh file (in_use self.now.merge self.now.force) }
    {
        file != 0 && !is_merged(&self.merge, file) && !is_named(&self.force, file)
    }
}

// Puts a new table in front, where there is one.
fn put_first(
    tables: &mut Vec<Table>,
    merge: &mut Option<Pending>,
    table: Option<Table>,
) -> Result<(), AllocError>
    requires { IfSome merge.old (λ pending. pending.newer < TABLES_MOST) }
    ensures ok { OnOk result ((tables.new.items ≡ in_front table tables.old.items)
        × (merge.new ≡ shifted table merge.old)) }
    ensures err { OnErr result ((tables.new.items ≡ tables.old.items) × (merge.new ≡ merge.old)) }
{
    let Some(table) = table else {
        return Ok(());
    };
    tables.insert(0, table)?;
    if let Some(pending) = merge {
        pending.newer += 1;
    }
    Ok(())
}

fn is_merged(merge: &Option<Pending>, file: u32) -> bool
    ensures { result ≡ list_any (λ other. other == file) (merged_into merge.now) }
{
    match merge {
        None => false,
        Some(pending) => pending.file == file,
    }
}

fn is_named(force: &Option<InForce>, file: u32) -> bool
    ensures { result ≡ list_any (λ other. other == file) (named_by force.now) }
{
    match force {
        None => false,
        Some(force) => {
            force.root.state == file
                || force.root.log_file == file
                || force.root.tables.files().contains(&file)
        }
    }
}
