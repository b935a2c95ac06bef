//! A server that is down is brought back from what its disk gives.
ghost use Rattle.std.specs.Prelude.{◌≡◌, ◌^◌, ◌<◌, ◌≤◌, ℕ, [], None, Some, false, nat_lt, if◌then◌else◌, take, length};
ghost use Rattle.std.specs.Prelude.{IfOk, IfErr, OnOk, OnErr};
ghost use Rattle.mds_base.specs.declared.limits.TheConstants.{LEASE_MOST, MOMENTS};
ghost use Rattle.records.specs.Spelling.{IsHead};
ghost use Rattle.gate_log.specs.LogState.{IsReady};
ghost use Rattle.mds_out.specs.Disk.{Image, LeavesOnly, StaysTold};
ghost use Rattle.mds_out.specs.Known.{OnTold};
ghost use Rattle.node_core.specs.Nodes.{NodeAndRows};
ghost use Rattle.node_core.specs.Serving.{restarted, replayed_all};
ghost use Rattle.node_store.specs.Parts.{IsNodeOf};
ghost use Rattle.node_store.specs.Reading.{IsRefusal, IsBadAtRestart};
ghost use Rattle.node_store.specs.Serve.{IsAllOrNone};
ghost use Rattle.node_store.specs.Disks.{IsStoreReading, IsStoreChanging};
ghost use Rattle.node_store.specs.Store.{IsKept, IsDownAt, KeepsStore};

use crate::NodeStore;
use crate::reading::{disk_fault, read_log, store_fault};
use gate_log::GateLog;
use mds_base::{Damage, MapRows, Setup, StoreFault};
use mds_out::Disk;
use node_core::Node;
use records::RecordList;
use std::alloc::Global;

// Reads a log that was opened. One that has no body is that of no server.
fn read_whole<D: Disk>(
    alloc: Global,
    disk: &mut D,
    log: GateLog,
    server: u32,
    setup: Setup,
) -> Result<(GateLog, Node, MapRows), StoreFault>
    requires head { IsHead 1 setup.servers server setup.threshold }
    requires lease { setup.lease ≤ LEASE_MOST }
    requires file { log.file ≡ 1 }
    requires running { log.stopped ≡ false }
    requires ready { IsReady log (D.seen disk.old) (D.sizes disk.old) (D.images disk.old) }
    requires short { log.length < 2 ^ 63 }
    ensures kept { IfOk result
        (λ x. IsKept (D.seen disk.new) (D.sizes disk.new) (D.images disk.new) server setup x.0
        (record { node = x.1; rows = x.2 })) }
    ensures node { IfOk result (λ x. IsNodeOf server setup x.1) }
    ensures refused { IfErr result (IsRefusal (IsBadAtRestart server setup) (D.seen disk.new 1)) }
    ensures call { IsStoreReading D.seen D.sizes D.images D.moment D.images_since D.faults D.changes_asked D.lasts
        D.fails disk.old disk.new result }
{
    if log.length() <= 1 {
        return Err(StoreFault::Damaged {
            file: 1,
            offset: 0,
            damage: Damage::Spelling,
        });
    }
    let mut log = log;
    let (node, rows) = read_log(alloc, disk, &mut log, server, setup)?;
    Ok((log, node, rows))
}

// Restarts a disk, and reads its log.
fn reopened<D: Disk>(
    alloc: Global,
    disk: &mut D,
    server: u32,
    setup: Setup,
) -> Result<(GateLog, Node, MapRows), StoreFault>
    requires head { IsHead 1 setup.servers server setup.threshold }
    requires lease { setup.lease ≤ LEASE_MOST }
    ensures kept { IfOk result
        (λ x. IsKept (D.seen disk.new) (D.sizes disk.new) (D.images disk.new) server setup x.0
        (record { node = x.1; rows = x.2 })) }
    ensures node { IfOk result (λ x. IsNodeOf server setup x.1) }
    ensures refused { IfErr result (IsRefusal (IsBadAtRestart server setup) (D.seen disk.new 1)) }
    ensures told { StaysTold (D.seen disk.old 1) (D.seen disk.new 1) }
    ensures crash { (image : Image) → D.images disk.new image → D.images disk.old image }
    ensures any_moment { LeavesOnly D.moment D.images_since disk.old disk.new (D.images disk.old) }
    ensures call { IsStoreChanging D.faults D.lasts D.fails disk.old disk.new result }
{
    if let Err(fault) = disk.restart() {
        return Err(disk_fault(fault));
    }
    match GateLog::open_file(disk, 1) {
        Ok(log) => read_whole(alloc, disk, log, server, setup),
        Err(fault) => Err(store_fault(fault)),
    }
}

// How many of the records in doubt a log of this length has, where it was of that length without them.
fn count_kept(after: u64, before: u64, doubt: &RecordList) -> u32
    requires { length doubt.now < 2 ^ 32 }
    ensures { result ≡ (if nat_lt before after then length doubt.now else 0) }
{
    if before < after {
        doubt.records().len() as u32
    } else {
        0
    }
}

impl<D: Disk> NodeStore<D> {
    /// Brings a server that is down back from what its disk gives, and answers how many of the records in doubt were
    /// kept: all, or none. After a refusal it is down as before.
    pub fn restart(&mut self, alloc: Global, now: u64) -> Result<u32, StoreFault>
        requires down { self.old.up ≡ None }
        requires moment { now < MOMENTS }
        ensures kept { IfOk result (λ kept. IsAllOrNone kept (length self.old.doubt)) }

        // The server is up with the store that its disk owed it, and with the records that were kept.
        ensures up { IfOk result
            (λ kept. (store : NodeAndRows) → IsDownAt D.seen D.images self.old store
            → OnTold (D.seen self.new.disk 1)
            (λ _. self.new.up ≡ Some (restarted (replayed_all store (take kept self.old.doubt)) now))) }
        ensures some { OnOk result ((store : NodeAndRows) × (self.new.up ≡ Some store)) }
        ensures sure { OnOk result (self.new.doubt ≡ []) }
        ensures keeps { OnOk result
            ((store : NodeAndRows) → self.new.up ≡ Some store
            → OnTold (D.seen self.new.disk 1)
            (λ _. KeepsStore (D.images self.new.disk) self.new.server self.new.setup store)) }
        ensures down { OnErr result
            ((self.new.up ≡ None) × (self.new.doubt ≡ self.old.doubt) × (self.new.log ≡ self.old.log)) }
        ensures owed { OnErr result
            ((store : NodeAndRows) → IsDownAt D.seen D.images self.old store
            → IsDownAt D.seen D.images self.new store) }

        // `Damaged` says what is wrong with the log and where, and never comes where the disk owes the server a store.
        ensures damaged { IfErr result
            (IsRefusal (IsBadAtRestart self.old.server self.old.setup) (D.seen self.new.disk 1)) }
        ensures sound { IfErr result
            (λ fault. (store : NodeAndRows) → IsDownAt D.seen D.images self.old store
            → IsRefusal (λ _ _ _. ⊥) (D.seen self.new.disk 1) fault) }
        ensures any_moment { LeavesOnly D.moment D.images_since self.old.disk self.new.disk (D.images self.old.disk) }
        ensures same { (self.new.server ≡ self.old.server) × (self.new.setup ≡ self.old.setup) }
        ensures told { StaysTold (D.seen self.old.disk 1) (D.seen self.new.disk 1) }
        ensures call { IsStoreChanging D.faults D.lasts D.fails self.old.disk self.new.disk result }
    {
        let (log, node, rows) = reopened(alloc, &mut self.disk, self.server, self.setup)?;
        let kept = count_kept(log.length(), self.log.length(), &self.doubt);
        let mut node = node;
        node.restarted(now);
        self.log = log;
        self.node = node;
        self.rows = rows;
        self.down = false;
        self.doubt = RecordList::new(alloc);
        Ok(kept)
    }
}
