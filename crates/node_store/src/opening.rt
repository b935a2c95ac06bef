//! Opening a server's disk: its log is made or read, and the new run is begun.
ghost use Rattle.std.specs.Prelude.{◌≡◌, ◌≢◌, ◌⊎◌, ◌≤◌, ◌<◌, ◌^◌, ℕ, List, [], ◌++◌, map, length, IfOk, IfErr, OnOk};
ghost use Rattle.mds_base.specs.declared.limits.TheConstants.{LEASE_MOST};
ghost use Rattle.mds_base.specs.declared.setup.Setup.{Setup};
ghost use Rattle.mds_base.specs.declared.store_fault.StoreFault.{StoreFault};
ghost use Rattle.mds_out.specs.Disk.{Image, LeavesOnly, IsUnchanged, StaysTold};
ghost use Rattle.mds_out.specs.Known.{OnKnown, OnTold};
ghost use Rattle.records.specs.Installs.{installed_rows};
ghost use Rattle.records.specs.Spelling.{IsRecord, IsHead, record_spelling};
ghost use Rattle.node_core.specs.Nodes.{NodeAndRows};
ghost use Rattle.node_store.specs.Opening.{StandAlike, IsAsBefore, IsOpenLog};
ghost use Rattle.node_store.specs.Parts.{IsNodeOf};
ghost use Rattle.node_store.specs.Reading.{IsRefusal, IsBad, OnDamage};
ghost use Rattle.node_store.specs.Disks.{IsStoreChanging};
ghost use Rattle.node_store.specs.Stands.{FileStandsFor, opened_store};
ghost use Rattle.node_store.specs.Store.{IsKept, KeepsAny, StandsForAny, StandsForEither};

use crate::reading::{disk_fault, read_log, store_fault};
use crate::serve::LONGEST;
use gate_log::{GateLog, Piece};
use mds_base::{MapRows, Setup, StoreFault};
use mds_out::Disk;
use node_core::Node;
use records::{Record, write};
use std::alloc::{AllocError, Global};

/// Opens the disk of a server for a new run: its log is made where file 1 has fewer than two bytes, and read else; then
/// the run's beginning is appended, and the node keeps no session.
pub(crate) fn open_on<D: Disk>(
    alloc: Global,
    disk: &mut D,
    server: u32,
    setup: Setup,
) -> Result<(GateLog, Node, MapRows), StoreFault>
    requires head { IsHead 1 setup.servers server setup.threshold }
    requires lease { setup.lease ≤ LEASE_MOST }

    // The store that the disk's bytes stand for was opened, and the disk keeps it.
    ensures opened { IfOk result
        (λ x. OnTold (D.seen disk.old 1)
        (λ bytes. (store : NodeAndRows) × FileStandsFor server setup bytes store
        × (record { node = x.1; rows = x.2 } ≡ opened_store store))) }
    ensures kept { IfOk result
        (λ x. IsKept (D.seen disk.new) (D.sizes disk.new) (D.images disk.new) server setup x.0
        (record { node = x.1; rows = x.2 })) }
    ensures node { IfOk result (λ x. IsNodeOf server setup x.1) }

    // A crash at any moment leaves a disk that stands for one of the stores from before, or for one of them opened.
    ensures any_moment { OnTold (D.seen disk.old 1)
        (λ _. (stores : List NodeAndRows) → KeepsAny (D.images disk.old) server setup stores
        → LeavesOnly D.moment D.images_since disk.old disk.new
        (λ image. StandsForAny server setup (stores ++ map opened_store stores) (image 1))) }

    // `Damaged` tells what is wrong with file 1, which reads as before; `Stopped` and `Room` never come.
    ensures refused { IfErr result (IsRefusal (IsBad server setup) (D.seen disk.old 1)) }
    ensures still { IfErr result
        (λ fault. OnDamage fault (D.seen disk.old 1) (λ bytes. D.seen disk.new 1 ≡ Some bytes)) }
    ensures told { StaysTold (D.seen disk.old 1) (D.seen disk.new 1) }
    ensures call { IsStoreChanging D.faults D.lasts D.fails disk.old disk.new result }
{
    let mut log = bring_log(disk)?;
    let (mut node, mut rows) = bring_store(alloc, disk, &mut log, server, setup)?;
    begin_run(alloc, disk, &mut log, &mut node, &mut rows)?;
    Ok((log, node, rows))
}

// The log of file 1, made where the file has fewer than two bytes.
fn bring_log<D: Disk>(disk: &mut D) -> Result<GateLog, StoreFault>
    ensures is_open { IfOk result (λ log. IsOpenLog log (D.seen disk.new) (D.sizes disk.new) (D.images disk.new)) }
    ensures alike { OnOk result
        ((server : ℕ) → (setup : Setup) → OnKnown (D.seen disk.old 1) (D.seen disk.new 1) (StandAlike server setup)) }
    ensures any_moment { (server : ℕ) → (setup : Setup)
        → OnTold (D.seen disk.old 1) (λ bytes. LeavesOnly D.moment D.images_since disk.old disk.new
        (IsAsBefore server setup (D.images disk.old) bytes)) }
    ensures refused { IfErr result
        (λ fault. (server : ℕ) → (setup : Setup) → IsRefusal (IsBad server setup) (D.seen disk.old 1) fault) }
    ensures begun { IfOk result
        (λ log. (log.length ≡ 1) ⊎ (D.seen disk.new 1 ≡ D.seen disk.old 1)) }
    ensures still { IfErr result
        (λ fault. OnDamage fault (D.seen disk.old 1) (λ bytes. D.seen disk.new 1 ≡ Some bytes)) }
    ensures told { StaysTold (D.seen disk.old 1) (D.seen disk.new 1) }
    ensures call { IsStoreChanging D.faults D.lasts D.fails disk.old disk.new result }
{
    if synced_length(disk)? < 2 {
        make_log(disk)
    } else {
        find_log(disk)
    }
}

// Syncs file 1, after which a crash leaves what it reads as, and answers its length.
fn synced_length<D: Disk>(disk: &mut D) -> Result<u64, StoreFault>
    ensures size { IfOk result (λ size. OnTold (D.seen disk.old 1) (λ bytes. size ≡ length bytes)) }
    ensures durable { OnOk result
        (OnTold (D.seen disk.old 1) (λ bytes. (image : Image) → D.images disk.new image → image 1 ≡ bytes)) }
    ensures crash { (image : Image) → D.images disk.new image → D.images disk.old image }
    ensures any_moment { LeavesOnly D.moment D.images_since disk.old disk.new (D.images disk.old) }
    ensures unchanged { IsUnchanged (D.seen disk.old) (D.seen disk.new) (D.sizes disk.old) (D.sizes disk.new) }
    ensures refused { IfErr result (IsRefusal (λ offset damage bytes. ⊥) (D.seen disk.old 1)) }
    ensures call { IsStoreChanging D.faults D.lasts D.fails disk.old disk.new result }
{
    match disk.sync(1) {
        Ok(()) => match disk.length(1) {
            Ok(size) => Ok(size),
            Err(fault) => Err(disk_fault(fault)),
        },
        Err(fault) => Err(disk_fault(fault)),
    }
}

// Makes the log of a file that has fewer than two bytes.
fn make_log<D: Disk>(disk: &mut D) -> Result<GateLog, StoreFault>
    requires few { OnTold (D.seen disk.old 1) (λ bytes. length bytes < 2) }
    requires durable { OnTold (D.seen disk.old 1)
        (λ bytes. (image : Image) → D.images disk.old image → image 1 ≡ bytes) }
    ensures is_open { IfOk result (λ log. IsOpenLog log (D.seen disk.new) (D.sizes disk.new) (D.images disk.new)) }
    ensures empty { IfOk result (λ log. log.length ≡ 1) }
    ensures alike { OnOk result
        ((server : ℕ) → (setup : Setup) → OnKnown (D.seen disk.old 1) (D.seen disk.new 1) (StandAlike server setup)) }
    ensures any_moment { (server : ℕ) → (setup : Setup)
        → OnTold (D.seen disk.old 1) (λ bytes. LeavesOnly D.moment D.images_since disk.old disk.new
        (IsAsBefore server setup (D.images disk.old) bytes)) }
    ensures refused { IfErr result (IsRefusal (λ offset damage bytes. ⊥) (D.seen disk.old 1)) }
    ensures told { StaysTold (D.seen disk.old 1) (D.seen disk.new 1) }
    ensures call { IsStoreChanging D.faults D.lasts D.fails disk.old disk.new result }
{
    match GateLog::create(disk, 1) {
        Ok(log) => Ok(log),
        Err(fault) => Err(store_fault(fault)),
    }
}

// Opens the log of a file that has two bytes or more.
fn find_log<D: Disk>(disk: &mut D) -> Result<GateLog, StoreFault>
    requires long { OnTold (D.seen disk.old 1) (λ bytes. 2 ≤ length bytes) }
    ensures is_open { IfOk result (λ log. IsOpenLog log (D.seen disk.new) (D.sizes disk.new) (D.images disk.new)) }
    ensures unchanged { IsUnchanged (D.seen disk.old) (D.seen disk.new) (D.sizes disk.old) (D.sizes disk.new) }
    ensures any_moment { LeavesOnly D.moment D.images_since disk.old disk.new (D.images disk.old) }
    ensures refused { IfErr result
        (λ fault. (server : ℕ) → (setup : Setup) → IsRefusal (IsBad server setup) (D.seen disk.old 1) fault) }
    ensures call { IsStoreChanging D.faults D.lasts D.fails disk.old disk.new result }
{
    match GateLog::open_file(disk, 1) {
        Ok(log) => Ok(log),
        Err(fault) => Err(store_fault(fault)),
    }
}

// The node and the rows of an open log; where it has no body its head is appended first.
fn bring_store<D: Disk>(
    alloc: Global,
    disk: &mut D,
    log: &mut GateLog,
    server: u32,
    setup: Setup,
) -> Result<(Node, MapRows), StoreFault>
    requires head { IsHead 1 setup.servers server setup.threshold }
    requires lease { setup.lease ≤ LEASE_MOST }
    requires is_open { IsOpenLog log.old (D.seen disk.old) (D.sizes disk.old) (D.images disk.old) }
    ensures kept { IfOk result
        (λ x. IsKept (D.seen disk.new) (D.sizes disk.new) (D.images disk.new) server setup log.new
        (record { node = x.0; rows = x.1 })) }
    ensures stands { IfOk result
        (λ x. OnTold (D.seen disk.old 1)
        (λ bytes. FileStandsFor server setup bytes (record { node = x.0; rows = x.1 }))) }
    ensures node { IfOk result (λ x. IsNodeOf server setup x.0) }
    ensures any_moment { OnTold (D.seen disk.old 1)
        (λ bytes. LeavesOnly D.moment D.images_since disk.old disk.new
        (IsAsBefore server setup (D.images disk.old) bytes)) }
    ensures refused { IfErr result (IsRefusal (IsBad server setup) (D.seen disk.old 1)) }
    ensures still { IfErr result
        (λ fault. OnDamage fault (D.seen disk.old 1)
        (λ bytes. (log.old.length ≢ 1) × (D.seen disk.new 1 ≡ Some bytes))) }
    ensures told { StaysTold (D.seen disk.old 1) (D.seen disk.new 1) }
    ensures call { IsStoreChanging D.faults D.lasts D.fails disk.old disk.new result }
{
    if log.length() == 1 {
        begin_log(alloc, disk, log, server, setup)
    } else {
        read_log(alloc, disk, log, server, setup)
    }
}

// Appends the head to a log that has no body.
fn begin_log<D: Disk>(
    alloc: Global,
    disk: &mut D,
    log: &mut GateLog,
    server: u32,
    setup: Setup,
) -> Result<(Node, MapRows), StoreFault>
    requires head { IsHead 1 setup.servers server setup.threshold }
    requires lease { setup.lease ≤ LEASE_MOST }
    requires is_open { IsOpenLog log.old (D.seen disk.old) (D.sizes disk.old) (D.images disk.old) }
    requires empty { log.old.length ≡ 1 }
    ensures kept { IfOk result
        (λ x. IsKept (D.seen disk.new) (D.sizes disk.new) (D.images disk.new) server setup log.new
        (record { node = x.0; rows = x.1 })) }
    ensures stands { IfOk result
        (λ x. OnTold (D.seen disk.old 1)
        (λ bytes. FileStandsFor server setup bytes (record { node = x.0; rows = x.1 }))) }
    ensures node { IfOk result (λ x. IsNodeOf server setup x.0) }
    ensures any_moment { OnTold (D.seen disk.old 1)
        (λ bytes. LeavesOnly D.moment D.images_since disk.old disk.new
        (IsAsBefore server setup (D.images disk.old) bytes)) }
    ensures refused { IfErr result (IsRefusal (λ offset damage bytes. ⊥) (D.seen disk.old 1)) }
    ensures told { StaysTold (D.seen disk.old 1) (D.seen disk.new 1) }
    ensures call { IsStoreChanging D.faults D.lasts D.fails disk.old disk.new result }
{
    let head = Record::Head {
        format: 1,
        servers: setup.servers,
        server,
        threshold: setup.threshold,
    };
    let piece = piece(alloc, &head)?;
    match log.append(disk, &piece) {
        Ok(()) => Ok((Node::new(alloc, server, setup), MapRows::new(alloc))),
        Err(fault) => Err(store_fault(fault)),
    }
}

// Appends the beginning of a run, and clears the sessions.
fn begin_run<D: Disk>(
    alloc: Global,
    disk: &mut D,
    log: &mut GateLog,
    node: &mut Node,
    rows: &mut MapRows,
) -> Result<(), StoreFault>
    requires kept { (server : ℕ) × (setup : Setup)
        × IsKept (D.seen disk.old) (D.sizes disk.old) (D.images disk.old) server setup log.old
        (record { node = node.old; rows = rows.old }) }
    ensures opened { OnOk result
        (record { node = node.new; rows = rows.new } ≡ opened_store (record { node = node.old; rows = rows.old })) }
    ensures kept { OnOk result
        ((server : ℕ) → (setup : Setup)
        → IsKept (D.seen disk.old) (D.sizes disk.old) (D.images disk.old) server setup log.old
        (record { node = node.old; rows = rows.old })
        → IsKept (D.seen disk.new) (D.sizes disk.new) (D.images disk.new) server setup log.new
        (opened_store (record { node = node.old; rows = rows.old }))) }
    ensures any_moment { (server : ℕ) → (setup : Setup)
        → IsKept (D.seen disk.old) (D.sizes disk.old) (D.images disk.old) server setup log.old
        (record { node = node.old; rows = rows.old })
        → OnTold (D.seen disk.old 1) (λ _. LeavesOnly D.moment D.images_since disk.old disk.new
        (StandsForEither server setup (record { node = node.old; rows = rows.old })
        (opened_store (record { node = node.old; rows = rows.old })))) }
    ensures refused { IfErr result (IsRefusal (λ offset damage bytes. ⊥) (D.seen disk.old 1)) }
    ensures told { StaysTold (D.seen disk.old 1) (D.seen disk.new 1) }
    ensures call { IsStoreChanging D.faults D.lasts D.fails disk.old disk.new result }
{
    let piece = piece(alloc, &Record::Opened)?;
    if log.length() > LONGEST {
        return Err(StoreFault::OutOfMemory);
    }
    if node.replay(alloc, rows, &Record::Opened).is_err() {
        return Err(StoreFault::OutOfMemory);
    }
    match log.append(disk, &piece) {
        Ok(()) => Ok(()),
        Err(fault) => Err(store_fault(fault)),
    }
}

// A record other than an Install as a body of its own.
fn piece(alloc: Global, item: &Record) -> Result<Piece, AllocError>
    requires spelled { IsRecord item.now }
    requires without_rows { installed_rows item.now ≡ [] }
    ensures { IfOk result (λ piece. piece ≡ record_spelling item.now) }
{
    let mut body = Piece::begin(alloc)?;
    write(item, &mut body)?;
    Piece::end(body)
}
