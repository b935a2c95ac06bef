//! Merges of tables, in turns.
ghost use Rattle.std.specs.Prelude.{◌≡◌, ◌++◌, ◌+◌, ◌∷◌, [], ◌<◌, ◌≤◌, None, Ok, Err, true, false, length, drop, take};
ghost use Rattle.std.specs.Prelude.{IfOk, IfErr, IfSome, OnOk, OnErr};
ghost use Rattle.frame_pool.specs.Frames.{free_frames};
ghost use Rattle.merge_rows.specs.Merging.{IsMerging};
ghost use Rattle.mds_out.specs.Disk.{Contents, Lengths};
ghost use Rattle.row_store.specs.Answers.{IsCopyAnswer, IsMemoryAnswer, IsStoreWriting};
ghost use Rattle.row_store.specs.Files.{named_by, tables_named};
ghost use Rattle.row_store.specs.Parts.{IsNextNumber};
ghost use Rattle.row_store.specs.Steps.{IsKeeping};
ghost use Rattle.row_store.specs.Store.{TellsAll};
ghost use Rattle.root_slots.specs.Root.{is_fresh};
ghost use Rattle.row_store.specs.Turning.{IsMergedRoot, IsMergedTable, IsTurned, rooted};
ghost use Rattle.row_store.specs.Value.{AreNamed, AreReady, HasRoot, IsMergeReady, IsPending, IsReady};

use crate::caching::leave_all;
use crate::faults::of_table;
use crate::numbers::free_file;
use crate::plans::{add_files, files_in_use, next_number};
use crate::roots::change_root;
use crate::row_store::{InForce, RowStore};
use frame_pool::{Frame, Pool};
use mds_base::StoreFault;
use mds_out::Disk;
use merge_rows::{Merge, Turn};
use root_slots::{FileList, Root, TABLES_MOST};
use sorted_table::Table;
use std::alloc::{AllocError, Global};

// So many tables are merged into one.
const MERGE_FROM: usize = 4;

/// A merge of the oldest tables that is under way.
#[derive(Drop)]
pub(crate) struct Pending {
    // The file of the merged table.
    pub(crate) file: u32,
    // How many tables are newer than those that are merged.
    pub(crate) newer: usize,
    pub(crate) merge: Merge,
}

impl RowStore {
    /// Goes on with a merge by so many blocks, or to its end: then one table stands in the place of those merged. Where
    /// none is under way, one of all tables is begun once there are four. Answers whether a merge is under way. The map
    /// is as before, and nothing that is read changes. Where there is no memory the merge is given up, and the store
    /// runs on; after a refusal while the root is changed, or of the disk's failure, it has stopped.
    pub fn merge_turn<D: Disk>(
        &mut self,
        alloc: Global,
        disk: &mut D,
        blocks: u32,
    ) -> Result<bool, StoreFault>
        requires some { 1 ≤ blocks }
        requires ready { self.old.stopped ≡ false → IsReady self.old (D.seen disk.old) (D.sizes disk.old)
            (D.images disk.old) }
        ensures step { self.old.stopped ≡ false
            → IsKeeping D.seen D.sizes D.images D.moment D.images_since D.faults D.lasts D.fails self.old self.new
            disk.old disk.new result }
        ensures fewer { IfOk result (λ more. more ≡ false → length self.new.tables.items < TABLES_MOST) }
        ensures answer { self.old.stopped ≡ false → IsCopyAnswer (TellsAll (D.seen disk.old)) result }
        ensures stopped { self.old.stopped ≡ true → (result ≡ Err StoreFault.Stopped) × (self.new ≡ self.old)
            × (disk.new ≡ disk.old) }
    {
        if self.stopped {
            return Err(StoreFault::Stopped);
        }
        match self.pending(alloc)? {
            None => Ok(false),
            Some(pending) => self.go_on(alloc, disk, pending, blocks),
        }
    }

    // Takes the merge that is under way, or begins one.
    fn pending(&mut self, alloc: Global) -> Result<Option<Pending>, AllocError>
        requires { AreNamed self.old.force self.old.tables.items }
        ensures taken { self.new ≡ record self.old { merge = None } }
        ensures pending { IfOk result (λ found. (seen : Contents) (sizes : Lengths)
            → IsMergeReady self.old.merge (named_by self.old.force) self.old.tables.items seen sizes
            → IsMergeReady found (named_by self.old.force) self.old.tables.items seen sizes) }
        ensures none { IfOk result (λ found. found ≡ None → length self.old.tables.items < MERGE_FROM) }
    {
        if let Some(pending) = self.merge.take() {
            return Ok(Some(pending));
        }
        if self.tables.len() < MERGE_FROM {
            return Ok(None);
        }
        let pending = begin(alloc, &self.force, &self.tables)?;
        Ok(Some(pending))
    }

    // Goes on with a merge that was taken.
    fn go_on<D: Disk>(
        &mut self,
        alloc: Global,
        disk: &mut D,
        pending: Pending,
        blocks: u32,
    ) -> Result<bool, StoreFault>
        requires some { 1 ≤ blocks }
        requires running { self.old.stopped ≡ false }
        requires taken { self.old.merge ≡ None }
        requires ready { IsReady self.old (D.seen disk.old) (D.sizes disk.old) (D.images disk.old) }
        requires pending { IsPending pending (named_by self.old.force) self.old.tables.items (D.seen disk.old)
            (D.sizes disk.old) }
        ensures step { IsKeeping D.seen D.sizes D.images D.moment D.images_since D.faults D.lasts D.fails self.old
            self.new disk.old disk.new result }
        ensures fewer { IfOk result (λ more. more ≡ false → length self.new.tables.items < TABLES_MOST) }
        ensures answer { IsCopyAnswer (TellsAll (D.seen disk.old)) result }
    {
        let Pending { file, newer, merge } = pending;
        match turn(
            alloc,
            disk,
            &mut self.pool,
            &self.tables[newer..],
            merge,
            file,
            blocks,
        ) {
            Ok(Turn::More(merge)) => {
                self.merge = Some(Pending { file, newer, merge });
                Ok(true)
            }
            Ok(Turn::Finished(table)) => self.bring_in(alloc, disk, newer, table),
            Err(fault) => {
                self.stop_at(&fault);
                Err(fault)
            }
        }
    }
}

impl RowStore {
    // Brings a merged table into force, in the place of those behind the newer ones.
    fn bring_in<D: Disk>(
        &mut self,
        alloc: Global,
        disk: &mut D,
        newer: usize,
        table: Table,
    ) -> Result<bool, StoreFault>
        requires running { self.old.stopped ≡ false }
        requires taken { self.old.merge ≡ None }
        requires ready { IsReady self.old (D.seen disk.old) (D.sizes disk.old) (D.images disk.old) }
        requires some { newer + 2 ≤ length self.old.tables.items }
        requires apart { is_fresh table.file (named_by self.old.force) ≡ true }
        requires merged { IsMergedTable table (drop newer self.old.tables.items) (D.seen disk.old) (D.sizes disk.old)
            (D.images disk.old) }
        ensures step { IsKeeping D.seen D.sizes D.images D.moment D.images_since D.faults D.lasts D.fails self.old
            self.new disk.old disk.new result }
        ensures fewer { IfOk result (λ more. more ≡ false → length self.new.tables.items < TABLES_MOST) }
        ensures answer { IsMemoryAnswer result }
    {
        let root = self.merged_root(alloc, newer, table.file())?;
        let old = self.replace(alloc, disk, newer, table, root)?;
        self.sweep_all(disk, old.tables.files())?;
        Ok(false)
    }

    // The root with a merged table in the place of those behind the newer ones.
    fn merged_root(&self, alloc: Global, newer: usize, file: u32) -> Result<Root, StoreFault>
        requires root { HasRoot self.now }
        requires some { newer ≤ length (tables_named self.now.force) }
        ensures root { IfOk result (IsMergedRoot self.now.force newer file) }
        ensures refused { IfErr result (λ fault. fault ≡ StoreFault.OutOfMemory) }
    {
        let Some(force) = &self.force else {
            unreachable!()
        };
        let number = next_number(&self.force)?;
        let mut tables = FileList::new(alloc);
        add_files(&mut tables, &force.root.tables.files()[..newer])?;
        tables.push(file)?;
        Ok(Root {
            number,
            state: force.root.state,
            log_file: force.root.log_file,
            tables,
        })
    }

    // Brings the root of a merged table into force, and answers the root that was.
    fn replace<D: Disk>(
        &mut self,
        alloc: Global,
        disk: &mut D,
        newer: usize,
        table: Table,
        root: Root,
    ) -> Result<Root, StoreFault>
        requires running { self.old.stopped ≡ false }
        requires taken { self.old.merge ≡ None }
        requires ready { IsReady self.old (D.seen disk.old) (D.sizes disk.old) (D.images disk.old) }
        requires some { newer + 2 ≤ length self.old.tables.items }
        requires apart { is_fresh table.file (named_by self.old.force) ≡ true }
        requires merged { IsMergedTable table (drop newer self.old.tables.items) (D.seen disk.old) (D.sizes disk.old)
            (D.images disk.old) }
        requires root { IsMergedRoot self.old.force newer table.file root }
        ensures step { IsKeeping D.seen D.sizes D.images D.moment D.images_since D.faults D.lasts D.fails self.old
            self.new disk.old disk.new result }
        ensures tables { OnOk result (self.new.tables.items ≡ take newer self.old.tables.items ++ table ∷ []) }
        ensures answer { IsMemoryAnswer result }
    {
        match change_root(alloc, disk, &mut self.slots, &root) {
            Ok(()) => {
                leave_all(&mut self.cache, &self.tables[newer..]);
                put_merged(&mut self.tables, newer, table);
                Ok(self.set_root(root))
            }
            Err(fault) => {
                self.stopped = true;
                Err(fault)
            }
        }
    }

    // Puts another root in the place of the one in force, with the same log.
    fn set_root(&mut self, root: Root) -> Root
        requires { HasRoot self.old }
        ensures { self.new ≡ record self.old { force = rooted root self.old.force } }
    {
        let Some(InForce { root: old, log }) = self.force.take() else {
            unreachable!()
        };
        self.force = Some(InForce { root, log });
        old
    }
}

// Begins a merge of all tables, into a file that nothing is in.
fn begin(alloc: Global, force: &Option<InForce>, tables: &[Table]) -> Result<Pending, AllocError>
    requires named { AreNamed force.now tables.now }
    requires some { 2 ≤ length tables.now }
    ensures { IfOk result (λ pending. (seen : Contents) (sizes : Lengths)
        → IsPending pending (named_by force.now) tables.now seen sizes) }
{
    let taken = files_in_use(alloc, &None, force)?;
    let file = free_file(&taken);
    let merge = Merge::start(alloc, tables, file)?;
    Ok(Pending {
        file,
        newer: 0,
        merge,
    })
}

// A turn of a merge, with one frame of the pool out.
fn turn<D: Disk>(
    alloc: Global,
    disk: &mut D,
    pool: &mut Pool,
    tables: &[Table],
    merge: Merge,
    file: u32,
    blocks: u32,
) -> Result<Turn, StoreFault>
    requires some { 1 ≤ blocks }
    requires frames { 1 ≤ free_frames pool.old }
    requires file { merge.builder.file ≡ file }
    requires ready { AreReady tables.now (D.seen disk.old) (D.sizes disk.old) }
    requires merging { IsMerging merge tables.now (D.seen disk.old) (D.sizes disk.old) }
    ensures turned { IfOk result (λ turn. IsTurned turn file tables.now (D.seen disk.new) (D.sizes disk.new)
        (D.images disk.new)) }
    ensures frames { free_frames pool.new ≡ free_frames pool.old }
    ensures answer { IsCopyAnswer (TellsAll (D.seen disk.old)) result }
    ensures call { IsStoreWriting D.seen D.sizes D.images D.moment D.images_since D.faults D.lasts D.fails file disk.old
        disk.new result }
{
    let Some(mut frame) = pool.take() else {
        unreachable!()
    };
    let turned = turn_with(alloc, disk, &mut frame, tables, merge, file, blocks);
    pool.give(frame);
    turned
}

// The same, through a frame.
fn turn_with<D: Disk>(
    alloc: Global,
    disk: &mut D,
    frame: &mut Frame,
    tables: &[Table],
    merge: Merge,
    file: u32,
    blocks: u32,
) -> Result<Turn, StoreFault>
    requires some { 1 ≤ blocks }
    requires file { merge.builder.file ≡ file }
    requires ready { AreReady tables.now (D.seen disk.old) (D.sizes disk.old) }
    requires merging { IsMerging merge tables.now (D.seen disk.old) (D.sizes disk.old) }
    ensures turned { IfOk result (λ turn. IsTurned turn file tables.now (D.seen disk.new) (D.sizes disk.new)
        (D.images disk.new)) }
    ensures frame { frame.new.number ≡ frame.old.number }
    ensures answer { IsCopyAnswer (TellsAll (D.seen disk.old)) result }
    ensures call { IsStoreWriting D.seen D.sizes D.images D.moment D.images_since D.faults D.lasts D.fails file disk.old
        disk.new result }
{
    match merge.turn(alloc, disk, frame, tables, blocks) {
        Ok(turn) => Ok(turn),
        Err(fault) => Err(of_table(file, fault)),
    }
}

// Puts a merged table in the place of those behind the newer ones.
fn put_merged(tables: &mut Vec<Table>, newer: usize, table: Table)
    requires { newer < length tables.old.items }
    ensures { tables.new.items ≡ take newer tables.old.items ++ table ∷ [] }
{
    tables[newer] = table;
    tables.truncate(newer + 1);
}
