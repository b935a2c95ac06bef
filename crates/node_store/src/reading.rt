//! Reading a server's log: its head, and then body by body and record by record.
ghost use Rattle.std.specs.Prelude.{◌≡◌, ◌+◌, ◌^◌, ◌<◌, ◌≤◌, ℕ, List, false, length, IfOk, IfErr, OnOk, IfSome};
ghost use Rattle.std.specs.Prelude.{MatchOption};
ghost use Rattle.mds_base.specs.declared.limits.TheConstants.{LEASE_MOST};
ghost use Rattle.mds_base.specs.declared.setup.Setup.{Setup};
ghost use Rattle.mds_out.specs.Known.{OnTold};
ghost use Rattle.records.specs.Spelling.{IsHead};
ghost use Rattle.gate_log.specs.Calls.{IsSomeGate, HasRead, ReadsOn};
ghost use Rattle.gate_log.specs.LogState.{IsReady};
ghost use Rattle.node_store.specs.Parts.{IsNodeOf};
ghost use Rattle.node_store.specs.Disks.{IsStoreReading};
ghost use Rattle.node_store.specs.Stands.{new_store};
ghost use Rattle.node_store.specs.Store.{HoldsStore};
ghost use Rattle.node_store.specs.Reading.{TakesFirst, IsBodyRead, IsHeadRead, IsHeadFound, IsHeadOf, IsFrontOf};
ghost use Rattle.node_store.specs.Reading.{HasReplayed, ReplaysOn, IsRefusal, IsBad, store_fault_of, disk_fault_of};

use gate_log::{GateLog, LogFault};
use mds_base::{Damage, Head, MapRows, Setup, StoreFault};
use mds_out::{Disk, DiskFault};
use node_core::Node;
use records::{Record, RecordFault, read};
use std::alloc::{AllocError, Global};

/// Reads a log that has a body: its head, and then record by record, each replayed on a new node and its rows.
/// `Damaged` comes with the first place at which what stands there may not stand there.
pub(crate) fn read_log<D: Disk>(
    alloc: Global,
    disk: &mut D,
    log: &mut GateLog,
    server: u32,
    setup: Setup,
) -> Result<(Node, MapRows), StoreFault>
    requires head { IsHead 1 setup.servers server setup.threshold }
    requires lease { setup.lease ≤ LEASE_MOST }
    requires file { log.old.file ≡ 1 }
    requires running { log.old.stopped ≡ false }
    requires ready { IsReady log.old (D.seen disk.old) (D.sizes disk.old) (D.images disk.old) }
    requires short { log.old.length < 2 ^ 63 }
    requires some { 1 < log.old.length }
    ensures read { IfOk result
        (λ x. OnTold (D.seen disk.old 1) (HoldsStore server setup log.old (record { node = x.0; rows = x.1 }))) }
    ensures node { IfOk result (λ x. IsNodeOf server setup x.0) }
    ensures refused { IfErr result (IsRefusal (IsBad server setup) (D.seen disk.old 1)) }
    ensures same { OnOk result (log.new ≡ log.old) }
    ensures ready { OnOk result (IsReady log.old (D.seen disk.new) (D.sizes disk.new) (D.images disk.new)) }
    ensures call { IsStoreReading D.seen D.sizes D.images D.moment D.images_since D.faults D.changes_asked D.lasts
        D.fails disk.old disk.new result }
{
    let mut body = Vec::new(alloc);
    let mut gate = read_first(alloc, disk, log, server, setup, &mut body)?;
    let mut node = Node::new(alloc, server, setup);
    let mut rows = MapRows::new(alloc);
    'bodies: loop {
        match replay_at(alloc, disk, log, gate, &mut body, &mut node, &mut rows)? {
            Some(next) => gate = next,
            None => return Ok((node, rows)),
        }
    }
}

// Reads the head of a log that has a body, and answers the gate behind it.
fn read_first<D: Disk>(
    alloc: Global,
    disk: &mut D,
    log: &mut GateLog,
    server: u32,
    setup: Setup,
    body: &mut Vec<u8>,
) -> Result<u64, StoreFault>
    requires running { log.old.stopped ≡ false }
    requires ready { IsReady log.old (D.seen disk.old) (D.sizes disk.old) (D.images disk.old) }
    requires short { log.old.length < 2 ^ 63 }
    requires some { 1 < log.old.length }
    ensures read { IfOk result
        (λ next. OnTold (D.seen disk.new log.old.file)
        (HasReplayed server setup log.old next (new_store server setup))) }
    ensures gate { IfOk result (λ next. OnTold (D.seen disk.new log.old.file) (IsSomeGate log.old next)) }
    ensures within { IfOk result (λ next. next < log.old.length) }
    ensures refused { IfErr result (IsRefusal (IsBad server setup) (D.seen disk.old log.old.file)) }
    ensures same { OnOk result (log.new ≡ log.old) }
    ensures ready { OnOk result (IsReady log.old (D.seen disk.new) (D.sizes disk.new) (D.images disk.new)) }
    ensures call { IsStoreReading D.seen D.sizes D.images D.moment D.images_since D.faults D.changes_asked D.lasts
        D.fails disk.old disk.new result }
{
    let Some(next) = next_body(disk, log, 0, body)? else {
        unreachable!()
    };
    match read_head(alloc, body, server, setup)? {
        None => Ok(next),
        Some(damage) => Err(StoreFault::Damaged {
            file: 1,
            offset: 5,
            damage,
        }),
    }
}

// Replays the body at a gate on the node and the rows, and answers the next gate; `None` at the log's end.
fn replay_at<D: Disk>(
    alloc: Global,
    disk: &mut D,
    log: &mut GateLog,
    at: u64,
    body: &mut Vec<u8>,
    node: &mut Node,
    rows: &mut MapRows,
) -> Result<Option<u64>, StoreFault>
    requires running { log.old.stopped ≡ false }
    requires ready { IsReady log.old (D.seen disk.old) (D.sizes disk.old) (D.images disk.old) }
    requires short { log.old.length < 2 ^ 63 }
    requires within { at < log.old.length }
    requires gate { OnTold (D.seen disk.old log.old.file) (IsSomeGate log.old at) }
    ensures replayed { IfOk result
        (λ next. (server : ℕ) → (setup : Setup)
        → OnTold (D.seen disk.old log.old.file)
        (HasReplayed server setup log.old at (record { node = node.old; rows = rows.old }))
        → OnTold (D.seen disk.new log.old.file)
        (ReplaysOn server setup log.old next (record { node = node.new; rows = rows.new }))) }
    ensures gate { IfOk result
        (λ next. IfSome next (λ offset. OnTold (D.seen disk.new log.old.file) (IsSomeGate log.old offset))) }
    ensures onward { IfOk result (λ next. IfSome next (λ offset. (at < offset) × (offset < log.old.length))) }
    ensures node { OnOk result
        ((server : ℕ) → (setup : Setup) → IsNodeOf server setup node.old → IsNodeOf server setup node.new) }
    ensures refused { IfErr result
        (λ fault. (server : ℕ) → (setup : Setup)
        → OnTold (D.seen disk.old log.old.file)
        (HasReplayed server setup log.old at (record { node = node.old; rows = rows.old }))
        → IsRefusal (IsBad server setup) (D.seen disk.old log.old.file) fault) }
    ensures same { OnOk result (log.new ≡ log.old) }
    ensures ready { OnOk result (IsReady log.old (D.seen disk.new) (D.sizes disk.new) (D.images disk.new)) }
    ensures call { IsStoreReading D.seen D.sizes D.images D.moment D.images_since D.faults D.changes_asked D.lasts
        D.fails disk.old disk.new result }
{
    let Some(next) = next_body(disk, log, at, body)? else {
        return Ok(None);
    };
    match read_body(alloc, body, node, rows)? {
        None => Ok(Some(next)),
        Some(offset) => Err(StoreFault::Damaged {
            file: 1,
            offset: at + 5 + offset as u64,
            damage: Damage::Spelling,
        }),
    }
}

// Puts the body at a gate into `into`, and answers the next gate; `None` at the log's end.
fn next_body<D: Disk>(
    disk: &mut D,
    log: &mut GateLog,
    at: u64,
    into: &mut Vec<u8>,
) -> Result<Option<u64>, StoreFault>
    requires running { log.old.stopped ≡ false }
    requires ready { IsReady log.old (D.seen disk.old) (D.sizes disk.old) (D.images disk.old) }
    requires short { log.old.length < 2 ^ 63 }
    requires within { at < log.old.length }
    requires gate { OnTold (D.seen disk.old log.old.file) (IsSomeGate log.old at) }
    ensures read { IfOk result
        (λ next. (read : List (List ℕ)) → OnTold (D.seen disk.old log.old.file) (HasRead log.old at read)
        → OnTold (D.seen disk.new log.old.file) (ReadsOn log.old read next into.new.items)) }
    ensures next { IfOk result (λ next. IfSome next (λ offset. offset ≡ at + 5 + length into.new.items)) }
    ensures gate { IfOk result
        (λ next. IfSome next (λ offset. OnTold (D.seen disk.new log.old.file) (IsSomeGate log.old offset))) }
    ensures end { IfOk result
        (λ next. MatchOption next (at + 1 ≡ log.old.length) (λ offset. (at < offset) × (offset < log.old.length))) }
    ensures refused { IfErr result (IsRefusal (λ offset damage bytes. ⊥) (D.seen disk.old log.old.file)) }
    ensures same { OnOk result (log.new ≡ log.old) }
    ensures ready { OnOk result (IsReady log.old (D.seen disk.new) (D.sizes disk.new) (D.images disk.new)) }
    ensures call { IsStoreReading D.seen D.sizes D.images D.moment D.images_since D.faults D.changes_asked D.lasts
        D.fails disk.old disk.new result }
{
    match log.replay(disk, at, into) {
        Ok(next) => Ok(next),
        Err(fault) => Err(store_fault(fault)),
    }
}

/// What a store answers where its log refused a call.
pub(crate) fn store_fault(fault: LogFault) -> StoreFault
    ensures { result ≡ store_fault_of fault }
{
    match fault {
        LogFault::Device => StoreFault::Device,
        LogFault::Stopped => StoreFault::Stopped,
        LogFault::BadLog { offset } => StoreFault::Damaged {
            file: 1,
            offset,
            damage: Damage::Spelling,
        },
        LogFault::OutOfMemory => StoreFault::OutOfMemory,
    }
}

/// What a store answers where its disk refused a call.
pub(crate) fn disk_fault(fault: DiskFault) -> StoreFault
    ensures { result ≡ disk_fault_of fault }
{
    match fault {
        DiskFault::Device => StoreFault::Device,
        DiskFault::OutOfMemory => StoreFault::OutOfMemory,
    }
}

// Whether a log's first body is the head of this server; else what is wrong with it.
fn read_head(
    alloc: Global,
    body: &[u8],
    server: u32,
    setup: Setup,
) -> Result<Option<Damage>, AllocError>
    ensures { IfOk result (IsHeadRead server setup body.now) }
{
    let wanted = Head {
        servers: setup.servers,
        server,
        threshold: setup.threshold,
    };
    let Some(kept) = head_in(alloc, body)? else {
        return Ok(Some(Damage::Spelling));
    };
    if kept == wanted {
        return Ok(None);
    }
    Ok(Some(Damage::Head { kept, wanted }))
}

// The head that a body is, where it is one.
fn head_in(alloc: Global, body: &[u8]) -> Result<Option<Head>, AllocError>
    ensures { IfOk result (IsHeadFound body.now) }
{
    let Some((item, count)) = front_of(alloc, body)? else {
        return Ok(None);
    };
    if count == body.len() {
        Ok(as_head(&item))
    } else {
        Ok(None)
    }
}

fn as_head(item: &Record) -> Option<Head>
    ensures { IsHeadOf item.now result }
{
    match item {
        Record::Head {
            servers,
            server,
            threshold,
            ..
        } => Some(Head {
            servers: *servers,
            server: *server,
            threshold: *threshold,
        }),
        _ => None,
    }
}

// Replays the records of a body; where one may not stand at its place, it answers that place.
fn read_body(
    alloc: Global,
    body: &[u8],
    node: &mut Node,
    rows: &mut MapRows,
) -> Result<Option<usize>, AllocError>
    ensures { IfOk result
        (λ wrong. IsBodyRead (record { node = node.old; rows = rows.old }) body.now wrong
        (record { node = node.new; rows = rows.new })) }
{
    let mut offset = 0;
    'records: loop {
        match replay_first(alloc, &body[offset..], node, rows)? {
            Some(count) => offset += count,
            None => return Ok(Some(offset)),
        }
        if offset == body.len() {
            return Ok(None);
        }
    }
}

// Replays the record at the front of the bytes, and answers its length; None where none may follow.
fn replay_first(
    alloc: Global,
    bytes: &[u8],
    node: &mut Node,
    rows: &mut MapRows,
) -> Result<Option<usize>, AllocError>
    ensures { IfOk result
        (λ count. TakesFirst (record { node = node.old; rows = rows.old }) bytes.now count
        (record { node = node.new; rows = rows.new })) }
{
    let Some((item, count)) = front_of(alloc, bytes)? else {
        return Ok(None);
    };
    match node.replay(alloc, rows, &item) {
        Ok(true) => Ok(Some(count)),
        Ok(false) => Ok(None),
        Err(_) => Err(AllocError),
    }
}

// The record whose spelling begins the bytes, and the spelling's length.
fn front_of(alloc: Global, bytes: &[u8]) -> Result<Option<(Record, usize)>, AllocError>
    ensures { IfOk result (IsFrontOf bytes.now) }
{
    match read(alloc, bytes) {
        Ok(front) => Ok(Some(front)),
        Err(RecordFault::Short) => Ok(None),
        Err(RecordFault::Bad { .. }) => Ok(None),
        Err(RecordFault::OutOfMemory) => Err(AllocError),
    }
}
