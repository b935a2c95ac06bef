ghost use Rattle.std.specs.Prelude.{◌≡◌, ◌⊎◌, ◌+◌, ◌^◌, ◌<◌, ◌≤◌, ℕ, List, Option, None, Some, Ok, Err, true, false};
ghost use Rattle.std.specs.Prelude.{IfOk, IfErr, IfSome, IsSome, OnOk, OnErr, IsErrOf, IsTrue, ◌↔◌, length};
ghost use Rattle.std.specs.FinMap as map;
ghost use Rattle.frame_pool.specs.Frames.{free_frames};
ghost use Rattle.gate_log.specs.Calls.{Asks};
ghost use Rattle.gate_log.specs.Log.{log_length};
ghost use Rattle.mds_base.specs.RowKeys.{RowMap};
ghost use Rattle.mds_out.specs.Disk.{Image, LeavesOnly, StaysTold};
ghost use Rattle.mds_out.specs.Known.{OnTold};
ghost use Rattle.root_slots.specs.Root.{is_root};
ghost use Rattle.root_slots.specs.Slot.{root_in};
ghost use Rattle.root_slots.specs.Slots.{HasNumber, IsReady as AreSlotsReady};
ghost use Rattle.root_slots.specs.declared.root_slots.Step.TheVariants.{Begun};
ghost use Rattle.row_store.specs.Answers.{IsStoreReading, IsStoreChanging, IsLookAnswer, IsCopyAnswer, IsMemoryAnswer};
ghost use Rattle.row_store.specs.Caching.{AreWarm, IsEmpty};
ghost use Rattle.row_store.specs.Damages.{IsRefusal, IsBad, IsBadUnder};
ghost use Rattle.row_store.specs.Rows.{changed_all, AreMarked};
ghost use Rattle.row_store.specs.Store.{Kept, StandsFor, TellsAll, reading, base_of, with_body, IsCommitting};
ghost use Rattle.row_store.specs.Value.{IsReady, Keeps, IsNew, HasRoot, IsGate, IsReadUpTo, ReadsOn, length_of};
ghost use Rattle.row_store.specs.Value.{state_of, StaysReady, KeptStands, IsNewStore, stops_by};

use crate::LENT_FRAMES;
use crate::caching::new_cache;
use crate::change::Change;
use crate::faults::{of_log, of_root};
use crate::fresh::{apply, last_said};
use crate::looks::row_in;
use crate::merges::Pending;
use crate::opening::open_with;
use crate::states::read_state;
use block_cache::BlockCache;
use frame_pool::Pool;
use gate_log::{GateLog, Piece};
use mds_base::{Attr, RowKey, StoreFault};
use mds_out::Disk;
use root_slots::{Root, RootSlots};
use sorted_table::Table;
use std::alloc::Global;
use std::collections::BTreeMap;

// The bytes of a log, at most, to which a body may be appended.
const LONGEST: u64 = 1 << 62;

/// What is in force: a root, and its log.
#[derive(Drop)]
pub(crate) struct InForce {
    pub(crate) root: Root,
    pub(crate) log: GateLog,
}

/// Rows on a disk: a finite map from keys to attributes.
#[derive(Drop)]
pub struct RowStore {
    pub(crate) pool: Pool,
    pub(crate) cache: Option<BlockCache>,
    pub(crate) slots: RootSlots,
    pub(crate) force: Option<InForce>,
    pub(crate) tables: Vec<Table>,
    pub(crate) merge: Option<Pending>,
    pub(crate) fresh: BTreeMap<RowKey, Option<Attr>>,
    pub(crate) stopped: bool,
}

impl RowStore {
    /// Opens the rows of a disk, with so many frames for blocks: four are lent for the time of a call, and as many
    /// blocks as there are others may be kept. A disk with no open slot is new. The map is then the base: what was
    /// committed since is in the bodies of the log, which `redo` takes. `Damaged` comes with what is wrong first: the
    /// root, the length and the sum of the state, a table, newest first, the gates of the log. Each file is synced
    /// before it is looked at.
    pub fn bring_up<D: Disk>(
        alloc: Global,
        disk: &mut D,
        frames: u32,
    ) -> Result<RowStore, StoreFault>
        requires { 4 ≤ frames }
        ensures running { IfOk result (λ store. store.stopped ≡ false) }
        ensures ready { IfOk result (λ store. IsReady store (D.seen disk.new) (D.sizes disk.new) (D.images disk.new)) }
        ensures kept { IfOk result
            (λ store. TellsAll (D.seen disk.new)
            → (kept : Option Kept) × Keeps store kept (base_of kept) (reading (D.seen disk.new))) }
        ensures short { IfOk result (λ store. length_of store.force < 2 ^ 63) }
        ensures gate { IfOk result (λ store. HasRoot store → IsGate store.force 0 (D.seen disk.new)) }
        ensures refused { IfErr result
            (IsRefusal (λ file offset damage. TellsAll (D.seen disk.old)
            → IsBad file offset damage (reading (D.seen disk.old)))) }
        ensures call { IsStoreReading D.seen D.sizes D.images D.moment D.images_since D.faults D.lasts D.fails disk.old
            disk.new result }
    {
        let pool = Pool::new(alloc, LENT_FRAMES)?;
        let cache = new_cache(alloc, frames - LENT_FRAMES)?;
        match RootSlots::read(alloc, disk) {
            Ok((slots, None)) => Ok(RowStore::of(alloc, pool, cache, slots)),
            Ok((slots, Some(root))) => RowStore::open_on(alloc, disk, pool, cache, slots, root),
            Err(fault) => Err(of_root(fault)),
        }
    }

    // The store of a new disk.
    fn of(alloc: Global, pool: Pool, cache: Option<BlockCache>, slots: RootSlots) -> RowStore
        requires { IsEmpty cache }
        ensures { IsNewStore pool slots result }
    {
        RowStore {
            pool,
            cache,
            slots,
            force: None,
            tables: Vec::new(alloc),
            merge: None,
            fresh: BTreeMap::new(alloc),
            stopped: false,
        }
    }

    // The store under a root that was read.
    fn open_on<D: Disk>(
        alloc: Global,
        disk: &mut D,
        pool: Pool,
        cache: Option<BlockCache>,
        slots: RootSlots,
        root: Root,
    ) -> Result<RowStore, StoreFault>
        requires frames { 4 ≤ free_frames pool }
        requires cache { IsEmpty cache }
        requires running { slots.stopped ≡ false }
        requires begun { slots.step ≡ Begun }
        requires numbered { (slots.made ≡ true) × HasNumber slots.force root.number }
        requires slots { AreSlotsReady slots (D.seen disk.old) (D.sizes disk.old) (D.images disk.old) }
        requires root { is_root root ≡ true }
        requires in_force { OnTold (D.seen disk.old 0) (λ file. root_in file ≡ Some root) }
        ensures running { IfOk result (λ store. store.stopped ≡ false) }
        ensures ready { IfOk result (λ store. IsReady store (D.seen disk.new) (D.sizes disk.new) (D.images disk.new)) }
        ensures kept { IfOk result
            (λ store. TellsAll (D.seen disk.new)
            → (kept : Option Kept) × Keeps store kept (base_of kept) (reading (D.seen disk.new))) }
        ensures short { IfOk result (λ store. length_of store.force < 2 ^ 63) }
        ensures gate { IfOk result (λ store. HasRoot store → IsGate store.force 0 (D.seen disk.new)) }
        ensures refused { IfErr result
            (IsRefusal (λ file offset damage. TellsAll (D.seen disk.old)
            → IsBadUnder root file offset damage (reading (D.seen disk.old)))) }
        ensures call { IsStoreReading D.seen D.sizes D.images D.moment D.images_since D.faults D.lasts D.fails disk.old
            disk.new result }
    {
        let mut pool = pool;
        match open_with(alloc, disk, &mut pool, &root) {
            Ok((tables, log)) => Ok(RowStore {
                pool,
                cache,
                slots,
                force: Some(InForce { root, log }),
                tables,
                merge: None,
                fresh: BTreeMap::new(alloc),
                stopped: false,
            }),
            Err(fault) => Err(fault),
        }
    }

    /// Whether the disk had no open slot, and no flush was made since.
    pub fn is_new(&self) -> bool
        ensures new { IsTrue result ↔ IsNew self.now }
        ensures root { result ≡ false → HasRoot self.now }
        ensures kept { (kept : Option Kept) → (rows : RowMap) → (image : Image) → Keeps self.now kept rows image
            → IsTrue result ↔ (kept ≡ None) }
    {
        self.force.is_none()
    }

    /// The bytes of the log in force, its closed gate included. The store is not new.
    pub fn log_length(&self) -> u64
        requires { HasRoot self.now }
        ensures bytes { result ≡ length_of self.now.force }
        ensures kept { (kept : Kept) → (rows : RowMap) → (image : Image) → Keeps self.now (Some kept) rows image
            → result ≡ log_length kept.bodies }
    {
        let Some(force) = &self.force else {
            unreachable!()
        };
        force.log.length()
    }

    /// Puts the state in force, without its sum, into `into`, in place of what was there. The store is not new. After a
    /// refusal `into` holds any bytes.
    pub fn state_bytes<D: Disk>(
        &mut self,
        disk: &mut D,
        into: &mut Vec<u8>,
    ) -> Result<(), StoreFault>
        requires root { HasRoot self.old }
        requires ready { self.old.stopped ≡ false
            → IsReady self.old (D.seen disk.old) (D.sizes disk.old) (D.images disk.old) }
        ensures state { OnOk result
            (TellsAll (D.seen disk.old) → (kept : Kept) → (rows : RowMap)
            → Keeps self.old (Some kept) rows (reading (D.seen disk.old)) → into.new.items ≡ kept.state) }
        ensures refused { self.old.stopped ≡ false
            → IfErr result (IsRefusal
            (λ file offset damage. TellsAll (D.seen disk.old) → (kept : Kept) → (rows : RowMap)
            → Keeps self.old (Some kept) rows (reading (D.seen disk.old)) → ⊥)) }
        ensures kept { (kept : Option Kept) → (rows : RowMap) → Keeps self.old kept rows (reading (D.seen disk.old))
            → Keeps self.new kept rows (reading (D.seen disk.new)) }
        ensures ready { self.new.stopped ≡ false
            → IsReady self.new (D.seen disk.new) (D.sizes disk.new) (D.images disk.new) }
        ensures force { self.new.force ≡ self.old.force }
        ensures stopped { self.old.stopped ≡ true → (result ≡ Err StoreFault.Stopped) × (disk.new ≡ disk.old) }
        ensures stops { IsErrOf result StoreFault.Device → self.new.stopped ≡ true }
        ensures runs { (IsErrOf result StoreFault.Device → ⊥) → self.new.stopped ≡ self.old.stopped }
        ensures call { IsStoreReading D.seen D.sizes D.images D.moment D.images_since D.faults D.lasts D.fails disk.old
            disk.new result }
    {
        if self.stopped {
            return Err(StoreFault::Stopped);
        }
        let file = self.state_file();
        match read_state(disk, file, into) {
            Ok(()) => Ok(()),
            Err(fault) => {
                self.stop_at(&fault);
                Err(fault)
            }
        }
    }

    fn state_file(&self) -> u32
        requires { HasRoot self.now }
        ensures { result ≡ state_of self.now.force }
    {
        let Some(force) = &self.force else {
            unreachable!()
        };
        force.root.state
    }

    /// Puts the body at a gate of the log in force into `into`, in place of what was there, and answers the place of
    /// the next gate; `None` exactly at the end. The place is 0 or an earlier answer. The store is not new. Where there
    /// is no memory for the body nothing has changed.
    pub fn body<D: Disk>(
        &mut self,
        disk: &mut D,
        at: u64,
        into: &mut Vec<u8>,
    ) -> Result<Option<u64>, StoreFault>
        requires short { length_of self.old.force < 2 ^ 63 }
        requires gate { IsGate self.old.force at (D.seen disk.old) }
        requires ready { self.old.stopped ≡ false
            → IsReady self.old (D.seen disk.old) (D.sizes disk.old) (D.images disk.old) }
        ensures read { IfOk result
            (λ next. TellsAll (D.seen disk.old) → (kept : Kept) → (rows : RowMap)
            → Keeps self.old (Some kept) rows (reading (D.seen disk.old)) → (read : List (List ℕ))
            → IsReadUpTo kept at read → ReadsOn kept read next into.new.items) }
        ensures gate { IfOk result (λ next. IfSome next (λ offset. IsGate self.new.force offset (D.seen disk.new))) }
        ensures onward { IfOk result (λ next. IfSome next (λ offset. at < offset)) }
        ensures length { OnOk result (length_of self.new.force ≡ length_of self.old.force) }
        ensures kept { self.new.stopped ≡ false → (kept : Option Kept) → (rows : RowMap)
            → Keeps self.old kept rows (reading (D.seen disk.old))
            → Keeps self.new kept rows (reading (D.seen disk.new)) }
        ensures ready { self.new.stopped ≡ false
            → IsReady self.new (D.seen disk.new) (D.sizes disk.new) (D.images disk.new) }
        ensures root { HasRoot self.new }
        ensures answer { self.old.stopped ≡ false → IsCopyAnswer (TellsAll (D.seen disk.old)) result }
        ensures stopped { self.old.stopped ≡ true → (result ≡ Err StoreFault.Stopped) × (disk.new ≡ disk.old) }
        ensures stops { IsErrOf result StoreFault.Device → self.new.stopped ≡ true }
        ensures runs { (IsErrOf result StoreFault.Device → ⊥) → self.new.stopped ≡ self.old.stopped }
        ensures call { IsStoreReading D.seen D.sizes D.images D.moment D.images_since D.faults D.lasts D.fails disk.old
            disk.new result }
    {
        if self.stopped {
            return Err(StoreFault::Stopped);
        }
        let Some(InForce { root, mut log }) = self.force.take() else {
            unreachable!()
        };
        let file = root.log_file;
        let read = log.replay(disk, at, into);
        self.force = Some(InForce { root, log });
        match read {
            Ok(next) => Ok(next),
            Err(fault) => {
                let fault = of_log(file, fault);
                self.stop_at(&fault);
                Err(fault)
            }
        }
    }

    /// Takes the changes of a body that the log already holds. It makes no call of the disk. Where there is no memory
    /// for them the map is as before.
    pub fn redo(&mut self, alloc: Global, changes: &[Change]) -> Result<(), StoreFault>
        requires { AreMarked changes.now }
        ensures rows { OnOk result
            ((kept : Option Kept) → (rows : RowMap) → (image : Image) → Keeps self.old kept rows image
            → Keeps self.new kept (changed_all rows changes.now) image) }
        ensures refused { IfErr result
            (λ fault. (fault ≡ StoreFault.OutOfMemory)
            × ((kept : Option Kept) → (rows : RowMap) → (image : Image) → Keeps self.old kept rows image
            → Keeps self.new kept rows image)) }
        ensures ready { StaysReady self.old self.new }
        ensures root { HasRoot self.old → HasRoot self.new }
        ensures stopped { self.new.stopped ≡ self.old.stopped }
    {
        apply(alloc, &mut self.fresh, changes)?;
        Ok(())
    }

    /// What the map has at a key. A block that it reads is kept where there is memory for it, and the next look at it
    /// makes no call of the disk. It is never refused for memory, and one frame is out at a time.
    pub fn get<D: Disk>(&mut self, disk: &mut D, key: &RowKey) -> Result<Option<Attr>, StoreFault>
        requires { self.old.stopped ≡ false
            → IsReady self.old (D.seen disk.old) (D.sizes disk.old) (D.images disk.old) }
        ensures found { IfOk result
            (λ found. TellsAll (D.seen disk.old) → (kept : Option Kept) → (rows : RowMap)
            → Keeps self.old kept rows (reading (D.seen disk.old)) → found ≡ map.get rows key.now) }
        ensures kept { (kept : Option Kept) → (rows : RowMap) → Keeps self.old kept rows (reading (D.seen disk.old))
            → Keeps self.new kept rows (reading (D.seen disk.new)) }
        ensures ready { self.new.stopped ≡ false
            → IsReady self.new (D.seen disk.new) (D.sizes disk.new) (D.images disk.new) }
        ensures root { HasRoot self.old → HasRoot self.new }
        ensures frames { free_frames self.new.pool ≡ free_frames self.old.pool }
        ensures warm { AreWarm self.old.cache key.now self.old.tables.items → disk.new ≡ disk.old }
        ensures asked { D.asked disk.new ≤ D.asked disk.old + length self.old.tables.items }
        ensures answer { self.old.stopped ≡ false → IsLookAnswer (TellsAll (D.seen disk.old)) result }
        ensures stopped { self.old.stopped ≡ true → (result ≡ Err StoreFault.Stopped) × (disk.new ≡ disk.old) }
        ensures stops { IsErrOf result StoreFault.Device → self.new.stopped ≡ true }
        ensures runs { (IsErrOf result StoreFault.Device → ⊥) → self.new.stopped ≡ self.old.stopped }
        ensures call { IsStoreReading D.seen D.sizes D.images D.moment D.images_since D.faults D.lasts D.fails disk.old
            disk.new result }
    {
        if self.stopped {
            return Err(StoreFault::Stopped);
        }
        if let Some(attr) = last_said(&self.fresh, key) {
            return Ok(attr);
        }
        match row_in(disk, &mut self.pool, &mut self.cache, &self.tables, key) {
            Ok(found) => Ok(found),
            Err(fault) => {
                self.stop_at(&fault);
                Err(fault)
            }
        }
    }

    // The store stops where the device failed.
    pub(crate) fn stop_at(&mut self, fault: &StoreFault)
        ensures { self.new ≡ record self.old { stopped = stops_by fault.now self.old.stopped } }
    {
        if let StoreFault::Device = fault {
            self.stopped = true;
        }
    }

    /// Commits the changes of a body, whose bytes the piece has: after `Ok` every crash leaves the body. It is one
    /// append: four calls of the disk, two of them writes. The store is not new. Where there is no memory, or the log
    /// is longer than 2^62 bytes, which is answered so, nothing has changed; after a refusal of the disk the store has
    /// stopped.
    pub fn commit<D: Disk>(
        &mut self,
        alloc: Global,
        disk: &mut D,
        changes: &[Change],
        piece: &Piece,
    ) -> Result<(), StoreFault>
        requires root { HasRoot self.old }
        requires marked { AreMarked changes.now }
        requires ready { self.old.stopped ≡ false
            → IsReady self.old (D.seen disk.old) (D.sizes disk.old) (D.images disk.old) }
        ensures kept { OnOk result
            (TellsAll (D.seen disk.old) → (kept : Kept) → (rows : RowMap)
            → Keeps self.old (Some kept) rows (reading (D.seen disk.old))
            → Keeps self.new (Some (with_body kept piece.now)) (changed_all rows changes.now)
            (reading (D.seen disk.new))) }
        ensures any_moment { self.old.stopped ≡ false → TellsAll (D.seen disk.old) → (kept : Kept) → (rows : RowMap)
            → Keeps self.old (Some kept) rows (reading (D.seen disk.old))
            → LeavesOnly D.moment D.images_since disk.old disk.new (IsCommitting kept piece.now) }
        ensures refused { OnErr result
            (self.new.stopped ≡ false
            → (disk.new ≡ disk.old)
            × ((kept : Option Kept) → (rows : RowMap) → (image : Image) → Keeps self.old kept rows image
            → Keeps self.new kept rows image)) }
        ensures ready { self.new.stopped ≡ false
            → IsReady self.new (D.seen disk.new) (D.sizes disk.new) (D.images disk.new) }
        ensures root { HasRoot self.new }
        ensures told { (file : ℕ) → StaysTold (D.seen disk.old file) (D.seen disk.new file) }
        ensures answer { self.old.stopped ≡ false → IsMemoryAnswer result }
        ensures stopped { self.old.stopped ≡ true → (result ≡ Err StoreFault.Stopped) × (disk.new ≡ disk.old) }
        ensures stops { IsErrOf result StoreFault.Device → self.new.stopped ≡ true }
        ensures runs { OnOk result (self.new.stopped ≡ self.old.stopped) }
        ensures call { IsStoreChanging D.faults D.lasts D.fails disk.old disk.new result }
        ensures asked { Asks 4 (D.asked disk.old) (D.asked disk.new) result }
        ensures changes { Asks 2 (D.changes_asked disk.old) (D.changes_asked disk.new) result }
    {
        if self.stopped {
            return Err(StoreFault::Stopped);
        }
        if self.log_length() > LONGEST {
            return Err(StoreFault::OutOfMemory);
        }
        apply(alloc, &mut self.fresh, changes)?;
        self.append(disk, piece)
    }

    // Appends a body to the log in force, whose changes were taken.
    fn append<D: Disk>(&mut self, disk: &mut D, piece: &Piece) -> Result<(), StoreFault>
        requires root { HasRoot self.old }
        requires running { self.old.stopped ≡ false }
        requires short { length_of self.old.force ≤ LONGEST }
        requires ready { IsReady self.old (D.seen disk.old) (D.sizes disk.old) (D.images disk.old) }
        ensures kept { OnOk result
            (TellsAll (D.seen disk.old) → (kept : Kept) → (rows : RowMap)
            → Keeps self.old (Some kept) rows (reading (D.seen disk.old))
            → Keeps self.new (Some (with_body kept piece.now)) rows (reading (D.seen disk.new))) }
        ensures any_moment { TellsAll (D.seen disk.old) → (kept : Kept) → (rows : RowMap)
            → Keeps self.old (Some kept) rows (reading (D.seen disk.old))
            → LeavesOnly D.moment D.images_since disk.old disk.new (IsCommitting kept piece.now) }
        ensures ready { OnOk result (IsReady self.new (D.seen disk.new) (D.sizes disk.new) (D.images disk.new)) }
        ensures root { HasRoot self.new }
        ensures told { (file : ℕ) → StaysTold (D.seen disk.old file) (D.seen disk.new file) }
        ensures answer { IsMemoryAnswer result }
        ensures stops { OnErr result (self.new.stopped ≡ true) }
        ensures runs { OnOk result (self.new.stopped ≡ false) }
        ensures call { IsStoreChanging D.faults D.lasts D.fails disk.old disk.new result }
        ensures asked { Asks 4 (D.asked disk.old) (D.asked disk.new) result }
        ensures changes { Asks 2 (D.changes_asked disk.old) (D.changes_asked disk.new) result }
    {
        let Some(InForce { root, mut log }) = self.force.take() else {
            unreachable!()
        };
        let file = root.log_file;
        let appended = log.append(disk, piece);
        self.force = Some(InForce { root, log });
        match appended {
            Ok(()) => Ok(()),
            Err(fault) => {
                self.stopped = true;
                Err(of_log(file, fault))
            }
        }
    }

    /// Gives all frames back. It takes no memory.
    pub fn close(self) {}
}

/// The law of crashes: what an image from which a store was read stands for, each image stands for in which the root in
/// force and the files that it names are as in that one.
pub fn stands_law()
    ensures { KeptStands }
{}
