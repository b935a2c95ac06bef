ghost use Rattle.std.specs.Prelude.{◌≡◌, ◌≢◌, ◌^◌, ◌<◌, ◌≤◌, ℕ, ◌⊎◌, [], None, Some, true, IfOk, IfErr, OnOk, OnErr};
ghost use Rattle.std.specs.Prelude.{IsErrOf, MatchResult, IsTrue, ◌↔◌};
ghost use Rattle.std.specs.List.{slice_get};
ghost use Rattle.mds_base.specs.declared.limits.TheConstants.{LEASE_MOST, MOMENTS};
ghost use Rattle.mds_base.specs.declared.store_fault.StoreFault.TheVariants as StoreFault;
ghost use Rattle.records.specs.declared.msg.Msg.{Msg};
ghost use Rattle.records.specs.Spelling.{IsHead};
ghost use Rattle.mds_out.specs.Fault.{Rose};
ghost use Rattle.mds_out.specs.Known.{OnTold};
ghost use Rattle.mds_out.specs.Disk.{LeavesOnly, StaysTold};
ghost use Rattle.node_core.specs.Nodes.{NodeAndRows, has_numbers};
ghost use Rattle.node_core.specs.Serving.{serve};
ghost use Rattle.node_store.specs.Parts.{IsNodeOf};
ghost use Rattle.node_store.specs.Reading.{IsRefusal, IsBad, OnDamage};
ghost use Rattle.node_store.specs.Refused.{IsServeFault};
ghost use Rattle.node_store.specs.Stands.{FileStandsFor, opened_store};
ghost use Rattle.node_store.specs.Serve.{IsMessage, IsOneMessage, HasServed, HasStopped};
ghost use Rattle.node_store.specs.Disks.{IsStoreChanging};
ghost use Rattle.node_store.specs.Store.{KeepsStore, StandsForEither, LeavesOpened, IsDownAt};

use crate::opening::open_on;
use crate::reading::store_fault;
use crate::serve::{Refusal, serve_on};
use gate_log::GateLog;
use mds_base::{MapRows, Setup, StoreFault};
use mds_out::Disk;
use node_core::Node;
use records::{Handled, Msg, MsgList, RecordList};
use std::alloc::Global;
use std::marker::Model;

/// A server on a disk.
#[derive(Drop)]
pub struct NodeStore<D: Disk> {
    pub(crate) disk: D,
    pub(crate) server: u32,
    pub(crate) setup: Setup,
    pub(crate) log: GateLog,
    pub(crate) node: Node,
    pub(crate) rows: MapRows,
    pub(crate) down: bool,
    pub(crate) doubt: RecordList,
}

impl<D: Disk> Model for NodeStore<D> {
    ghost use Rattle.std.specs.Prelude.{◌≡◌, ◌<◌, ◌^◌, false, None, Some, length, if◌then◌else◌};
    ghost use Rattle.std.specs.FinMap as map;
    ghost use Rattle.std.specs.Coded.{codes};
    ghost use Rattle.mds_base.specs.Entries.{coded_attr};
    ghost use Rattle.mds_base.specs.RowKeys.{coded_row_key};
    ghost use Rattle.node_store.specs.Parts.{IsServer, IsUp};
    ghost use Rattle.node_store.specs.Store.{Store};

    ghost Value = { Store D };

    ghost coded = { Prim.hlevel (codes, map.code, coded_row_key, coded_attr) };

    ghost view = { λ s.
        record {
          disk = s.disk;
          server = s.server;
          setup = s.setup;
          log = s.log;
          up =
              (if s.down then None else Some (record { node = s.node; rows = s.rows }));
          doubt = s.doubt;
        } };

    ghost invariant = { λ s. IsServer s.server s.setup × (length s.doubt < 2 ^ 32)
        × (s.down ≡ false
        → IsUp (D.seen s.disk) (D.sizes s.disk) (D.images s.disk) s.server s.setup s.log
        (record { node = s.node; rows = s.rows }) s.doubt) };
}

/// The disk of a server that could not be brought up, and why.
#[derive(Drop)]
pub struct Refused<D: Disk> {
    pub disk: D,
    pub fault: StoreFault,
}

impl<D: Disk> NodeStore<D> {
    /// Opens the disk of a server for a new run, in which no client has sent anything yet. Where file 1 is new the
    /// server's log is made; else it is read, and `Damaged` tells the first place at which it is wrong.
    pub fn bring_up(
        alloc: Global,
        disk: D,
        server: u32,
        setup: Setup,
    ) -> Result<NodeStore<D>, Refused<D>>
        requires head { IsHead 1 setup.servers server setup.threshold }
        requires lease { setup.lease ≤ LEASE_MOST }
        ensures named { IfOk result (λ s. (s.server ≡ server) × (s.setup ≡ setup)) }

        // The server is up with the store that the disk's bytes stand for, opened, and the disk keeps it.
        ensures opened { IfOk result
            (λ s. OnTold (D.seen disk 1)
            (λ bytes. (store : NodeAndRows) × FileStandsFor server setup bytes store
            × (s.up ≡ Some (opened_store store)))) }
        ensures some { IfOk result (λ s. (store : NodeAndRows) × (s.up ≡ Some store)) }
        ensures sure { IfOk result (λ s. s.doubt ≡ []) }
        ensures keeps { IfOk result
            (λ s. (store : NodeAndRows) → s.up ≡ Some store
            → OnTold (D.seen s.disk 1) (λ _. KeepsStore (D.images s.disk) server setup store)) }

        // A crash at any moment leaves a disk that stands for one of the stores from before, or for one of them opened.
        ensures any_moment { MatchResult result
            (λ s. LeavesOpened D.moment D.images_since (D.seen disk) (D.images disk) server setup disk s.disk)
            (λ r. LeavesOpened D.moment D.images_since (D.seen disk) (D.images disk) server setup disk r.disk) }

        // `Damaged` tells what is wrong with file 1, which reads as before; `Stopped` and `Room` never come.
        ensures refused { IfErr result (λ r. IsRefusal (IsBad server setup) (D.seen disk 1) r.fault) }
        ensures still { IfErr result
            (λ r. OnDamage r.fault (D.seen disk 1) (λ bytes. D.seen r.disk 1 ≡ Some bytes)) }
        ensures told { MatchResult result (λ s. StaysTold (D.seen disk 1) (D.seen s.disk 1))
            (λ r. StaysTold (D.seen disk 1) (D.seen r.disk 1)) }
        ensures same { IfOk result (λ s. D.faults s.disk ≡ D.faults disk) }
        ensures device { IfErr result (λ r. r.fault ≡ StoreFault.Device → Rose (D.faults disk) (D.faults r.disk)) }
        ensures other { IfErr result (λ r. r.fault ≢ StoreFault.Device → D.faults r.disk ≡ D.faults disk) }
        ensures later { IfErr result (λ r. D.faults disk ≤ D.faults r.disk) }
        ensures lasts { IfOk result (λ s. D.lasts disk s.disk) }
        ensures lasts_refused { IfErr result (λ r. D.lasts disk r.disk) }
        ensures failed { IfErr result (λ r. r.fault ≡ StoreFault.Device → D.fails disk r.disk) }
    {
        let mut disk = disk;
        match open_on(alloc, &mut disk, server, setup) {
            Ok((log, node, rows)) => Ok(NodeStore {
                disk,
                server,
                setup,
                log,
                node,
                rows,
                down: false,
                doubt: RecordList::new(alloc),
            }),
            Err(fault) => Err(Refused { disk, fault }),
        }
    }

    /// Whether the server is down.
    pub fn is_down(&self) -> bool
        ensures { IsTrue result ↔ (self.now.up ≡ None) }
    {
        self.down
    }

    /// The records in doubt: those of the Serve that stopped the server. There are none where it is up.
    pub fn doubt(&self) -> &RecordList
        ensures { result.now ≡ self.now.doubt }
    {
        &self.doubt
    }

    /// The next directory number of a server that is up.
    pub fn next_id(&self) -> u64
        requires { (store : NodeAndRows) × (self.now.up ≡ Some store) }
        ensures next { (store : NodeAndRows) → self.now.up ≡ Some store → result ≡ store.node.next }
        ensures own { (store : NodeAndRows) → self.now.up ≡ Some store
            → IsNodeOf self.now.server self.now.setup store.node }
    {
        self.node.next_id()
    }

    /// The disk. That of a server that is up keeps its store.
    pub fn into_disk(self) -> D
        ensures disk { result ≡ self.disk }
        ensures kept { (store : NodeAndRows) → self.up ≡ Some store
            → OnTold (D.seen result 1) (λ _. KeepsStore (D.images result) self.server self.setup store) }
    {
        let NodeStore { disk, .. } = self;
        disk
    }

    /// Stops a server that is up, with no record in doubt. Nothing is done to its disk.
    pub fn halt(&mut self)
        requires { (store : NodeAndRows) × (self.old.up ≡ Some store) }
        ensures stopped { self.new ≡ record self.old { up = None } }
        ensures sure { self.new.doubt ≡ [] }
        ensures at { (store : NodeAndRows) → self.old.up ≡ Some store → IsDownAt D.seen D.images self.new store }
    {
        self.down = true;
    }

    fn serve(&mut self, alloc: Global, msg: &Msg, now: u64) -> Result<Handled, StoreFault>
        requires up { (store : NodeAndRows) × (self.old.up ≡ Some store) × (has_numbers store.node ≡ true) }
        requires made { IsMessage msg.now }
        requires moment { now < MOMENTS }
        ensures served { IfOk result
            (λ handled. (store : NodeAndRows) → self.old.up ≡ Some store
            → HasServed (serve store msg.now now) self.new.up handled) }
        ensures sure { OnOk result (self.new.doubt ≡ []) }
        ensures keeps { OnOk result
            ((store : NodeAndRows) → self.new.up ≡ Some store
            → OnTold (D.seen self.new.disk 1)
            (λ _. KeepsStore (D.images self.new.disk) self.new.server self.new.setup store)) }
        ensures any_moment { (store : NodeAndRows) → self.old.up ≡ Some store
            → OnTold (D.seen self.old.disk 1) (λ _. LeavesOnly D.moment D.images_since self.old.disk self.new.disk
            (StandsForEither self.old.server self.old.setup store (serve store msg.now now).store)) }
        ensures refused { OnErr result
            ((store : NodeAndRows) → self.old.up ≡ Some store
            → (self.new ≡ self.old) ⊎ HasStopped D.seen D.images self.new store (serve store msg.now now).records) }
        ensures down { IsErrOf result StoreFault.Device → self.new.up ≡ None }
        ensures fault { IfErr result IsServeFault }
        ensures same { (self.new.server ≡ self.old.server) × (self.new.setup ≡ self.old.setup) }
        ensures told { StaysTold (D.seen self.old.disk 1) (D.seen self.new.disk 1) }
        ensures call { IsStoreChanging D.faults D.lasts D.fails self.old.disk self.new.disk result }
    {
        match serve_on(
            alloc,
            msg,
            now,
            &mut self.disk,
            &mut self.log,
            &mut self.node,
            &mut self.rows,
        ) {
            Ok(handled) => Ok(handled),
            Err(Refusal::Memory) => Err(StoreFault::OutOfMemory),
            Err(Refusal::Disk(fault, doubt)) => {
                self.down = true;
                self.doubt = doubt;
                Err(store_fault(fault))
            }
        }
    }

    /// Serves one message, that at the one place of a list; its changes are one body of records and one append. It
    /// takes its memory first.
    ///
    /// After `Device`, or a disk's want of memory, the server is down and the records are in doubt; after its own want
    /// of memory nothing has changed. The room is not counted yet.
    pub fn serve_batch(
        &mut self,
        alloc: Global,
        msgs: &MsgList,
        places: &[u64],
        now: u64,
        room: u64,
    ) -> Result<Handled, StoreFault>
        requires up { (store : NodeAndRows) × (self.old.up ≡ Some store) × (has_numbers store.node ≡ true) }
        requires one { (msg : Msg) × IsOneMessage msgs.now places.now msg }
        requires moment { now < MOMENTS }
        ensures served { IfOk result
            (λ handled. (msg : Msg) → (store : NodeAndRows) → IsOneMessage msgs.now places.now msg → self.old.up
            ≡ Some store
            → HasServed (serve store msg now) self.new.up handled) }
        ensures sure { OnOk result (self.new.doubt ≡ []) }

        // After Ok the disk keeps the new store.
        ensures keeps { OnOk result
            ((store : NodeAndRows) → self.new.up ≡ Some store
            → OnTold (D.seen self.new.disk 1)
            (λ _. KeepsStore (D.images self.new.disk) self.new.server self.new.setup store)) }

        // A crash at any moment of the call leaves the old store, or the one with the records.
        ensures any_moment { (msg : Msg) → (store : NodeAndRows) → IsOneMessage msgs.now places.now msg
            → self.old.up ≡ Some store
            → OnTold (D.seen self.old.disk 1) (λ _. LeavesOnly D.moment D.images_since self.old.disk self.new.disk
            (StandsForEither self.old.server self.old.setup store (serve store msg now).store)) }

        // A refusal leaves all as it was, or the server down with the records in doubt.
        ensures refused { OnErr result
            ((msg : Msg) → (store : NodeAndRows) → IsOneMessage msgs.now places.now msg → self.old.up ≡ Some store
            → (self.new ≡ self.old) ⊎ HasStopped D.seen D.images self.new store (serve store msg now).records) }
        ensures down { IsErrOf result StoreFault.Device → self.new.up ≡ None }
        ensures fault { IfErr result IsServeFault }
        ensures same { (self.new.server ≡ self.old.server) × (self.new.setup ≡ self.old.setup) }
        ensures told { StaysTold (D.seen self.old.disk 1) (D.seen self.new.disk 1) }
        ensures call { IsStoreChanging D.faults D.lasts D.fails self.old.disk self.new.disk result }
    {
        let _room = room;
        let msg = one_of(msgs, places);
        self.serve(alloc, msg, now)
    }
}

// The message at the one place.
fn one_of<'a>(msgs: &'a MsgList, places: &[u64]) -> &'a Msg
    requires { (msg : Msg) × IsOneMessage msgs.now places.now msg }
    ensures { (msg : Msg) → IsOneMessage msgs.now places.now msg → result.now ≡ msg }
{
    match places {
        [message] => at(msgs, *message),
        _ => unreachable!(),
    }
}

fn at(msgs: &MsgList, message: u64) -> &Msg
    requires { (msg : Msg) × (slice_get msgs.now message ≡ Some msg) }
    ensures { Some result.now ≡ slice_get msgs.now message }
{
    match msgs.get(message as usize) {
        Some(msg) => msg,
        None => unreachable!(),
    }
}
