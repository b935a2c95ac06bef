//! One message at a server that is up.
ghost use Rattle.std.specs.Prelude.{◌≡◌, ◌^◌, ◌<◌, ◌≤◌, [], ℕ, true, false, IfOk, IfErr, OnOk, OnErr, IsErrOf};
ghost use Rattle.std.specs.Prelude.{MatchOption, length};
ghost use Rattle.std.specs.List.{AllByRecursion, flat_map};
ghost use Rattle.mds_base.specs.declared.limits.TheConstants.{MOMENTS, SERVERS_MOST};
ghost use Rattle.mds_base.specs.declared.setup.Setup.{Setup};
ghost use Rattle.records.specs.declared.record.Record.{Record};
ghost use Rattle.records.specs.Spelling.{IsRecord, record_spelling};
ghost use Rattle.gate_log.specs.Calls.{IsDiskAnswer};
ghost use Rattle.gate_log.specs.Disks.{IsLogChanging};
ghost use Rattle.gate_log.specs.LogState.{IsReady};
ghost use Rattle.mds_out.specs.Disk.{LeavesOnly, StaysTold};
ghost use Rattle.mds_out.specs.Known.{OnTold};
ghost use Rattle.node_core.specs.Nodes.{NodeAndRows, has_numbers};
ghost use Rattle.node_core.specs.Serving.{serve, IsServed, replayed_all};
ghost use Rattle.node_store.specs.Parts.{IsNodeOf, OfEach, OfEachBody};
ghost use Rattle.node_store.specs.Refused.{AreDisks, InDoubt, IsDevice, HasRefusalCause};
ghost use Rattle.node_store.specs.Serve.{IsMessage};
ghost use Rattle.node_store.specs.Stands.{IsBody};
ghost use Rattle.node_store.specs.Store.{IsKept, LeavesDoubt, StandsForEither};

use gate_log::{GateLog, LogFault, Piece};
use mds_base::MapRows;
use mds_out::Disk;
use node_core::Node;
use records::{Handled, Msg, Record, RecordList, write};
use std::alloc::{AllocError, Global};

/// A log is no longer than this before an append.
pub(crate) const LONGEST: u64 = 1 << 62;

// Records as one body. A body is shorter than 2^31 bytes: more is want of memory.
fn spelled(alloc: Global, items: &[Record]) -> Result<Piece, AllocError>
    requires { AllByRecursion IsRecord items.now }
    ensures { IfOk result (λ piece. piece ≡ flat_map record_spelling items.now) }
{
    let mut body = Piece::begin(alloc)?;
    for item in items {
        write(item, &mut body)?;
    }
    if body.len() >= Piece::FRONT + (1 << 31) {
        return Err(AllocError);
    }
    Piece::end(body)
}

// The body of these records, None where there are none.
fn piece_of(alloc: Global, items: &RecordList) -> Result<Option<Piece>, AllocError>
    requires { AllByRecursion IsRecord items.now }
    ensures { IfOk result (λ piece. MatchOption piece (items.now ≡ []) (λ body. IsBody body items.now)) }
{
    if items.records().is_empty() {
        return Ok(None);
    }
    let piece = spelled(alloc, items.records())?;
    Ok(Some(piece))
}

// Appends a body of records that may follow to the log of a server that is up.
fn append<D: Disk>(disk: &mut D, log: &mut GateLog, piece: &Piece) -> Result<(), LogFault>
    requires file { log.old.file ≡ 1 }
    requires short { log.old.length ≤ 2 ^ 62 }
    requires running { log.old.stopped ≡ false }
    requires ready { IsReady log.old (D.seen disk.old) (D.sizes disk.old) (D.images disk.old) }
    ensures kept { OnOk result
        (OfEachBody (D.seen disk.old) (D.sizes disk.old) (D.images disk.old) log.old piece.now
        (λ server setup store items.
        IsKept (D.seen disk.new) (D.sizes disk.new) (D.images disk.new) server setup log.new
        (replayed_all store items))) }
    ensures any_moment { OfEachBody (D.seen disk.old) (D.sizes disk.old) (D.images disk.old) log.old piece.now
        (λ server setup store items.
        OnTold (D.seen disk.old 1) (λ _. LeavesOnly D.moment D.images_since disk.old disk.new
        (StandsForEither server setup store (replayed_all store items)))) }
    ensures doubt { OnErr result
        (OfEachBody (D.seen disk.old) (D.sizes disk.old) (D.images disk.old) log.old piece.now
        (λ server setup store items.
        OnTold (D.seen disk.new 1) (λ _. LeavesDoubt (D.images disk.new) server setup log.new store items))) }
    ensures told { StaysTold (D.seen disk.old 1) (D.seen disk.new 1) }
    ensures answer { IsDiskAnswer result }
    ensures call { IsLogChanging D.faults D.lasts D.fails disk.old disk.new result }
{
    match log.append(disk, piece) {
        Ok(()) => Ok(()),
        Err(fault) => Err(fault),
    }
}

/// Why a message was not served.
pub enum Refusal {
    /// There was no memory, and nothing has changed.
    Memory,
    /// The disk refused the append, and these records are in doubt.
    Disk(LogFault, RecordList),
}

impl From<AllocError> for Refusal {
    ghost use Rattle.node_store.specs.declared.serve.Refusal.TheVariants.{Memory};

    ghost from_gives = { λ _ e. e ≡ Memory };

    fn from(_: AllocError) -> Refusal {
        Refusal::Memory
    }
}

// Makes the changes of a message, once there is memory for their record. Where it is refused nothing has changed.
fn prepared(
    alloc: Global,
    msg: &Msg,
    now: u64,
    length: u64,
    node: &mut Node,
    rows: &mut MapRows,
) -> Result<(Handled, Option<Piece>), AllocError>
    requires made { IsMessage msg.now }
    requires moment { now < MOMENTS }
    requires numbers { has_numbers node.old ≡ true }
    requires range { node.old.server < SERVERS_MOST }
    requires from_two { 2 ≤ node.old.next }
    ensures served { IfOk result
        (λ x. IsServed (serve (record { node = node.old; rows = rows.old }) msg.now now) node.new rows.new x.0) }
    ensures piece { IfOk result (λ x. MatchOption x.1 (x.0.records ≡ []) (λ body. IsBody body x.0.records)) }
    ensures short { IfOk result (λ x. MatchOption x.1 (Unit {0}) (λ _. length ≤ 2 ^ 62)) }
    ensures err { OnErr result ((node.new ≡ node.old) × (rows.new ≡ rows.old)) }
{
    let Ok(plan) = node.plan(alloc, rows, msg, now) else {
        return Err(AllocError);
    };
    let piece = piece_of(alloc, &plan.handled.records)?;
    if piece.is_some() && length > LONGEST {
        return Err(AllocError);
    }
    match node.make(rows, plan) {
        Ok(handled) => Ok((handled, piece)),
        Err(_) => Err(AllocError),
    }
}

/// Serves a message over the parts of a server that is up: the changes are made, and their records are appended as one
/// body before anything is handed out.
pub(crate) fn serve_on<D: Disk>(
    alloc: Global,
    msg: &Msg,
    now: u64,
    disk: &mut D,
    log: &mut GateLog,
    node: &mut Node,
    rows: &mut MapRows,
) -> Result<Handled, Refusal>
    requires made { IsMessage msg.now }
    requires moment { now < MOMENTS }
    requires numbers { has_numbers node.old ≡ true }
    requires range { node.old.server < SERVERS_MOST }
    requires from_two { 2 ≤ node.old.next }
    requires file { log.old.file ≡ 1 }
    requires running { log.old.stopped ≡ false }
    requires ready { IsReady log.old (D.seen disk.old) (D.sizes disk.old) (D.images disk.old) }
    ensures served { IfOk result
        (λ handled. IsServed (serve (record { node = node.old; rows = rows.old }) msg.now now) node.new rows.new
        handled) }
    ensures kept { OnOk result
        (OfEach (D.seen disk.old) (D.sizes disk.old) (D.images disk.old) log.old
        (record { node = node.old; rows = rows.old }) (λ server setup.
        IsKept (D.seen disk.new) (D.sizes disk.new) (D.images disk.new) server setup log.new
        (serve (record { node = node.old; rows = rows.old }) msg.now now).store)) }
    ensures any_moment { OfEach (D.seen disk.old) (D.sizes disk.old) (D.images disk.old) log.old
        (record { node = node.old; rows = rows.old }) (λ server setup.
        OnTold (D.seen disk.old 1) (λ _. LeavesOnly D.moment D.images_since disk.old disk.new
        (StandsForEither server setup (record { node = node.old; rows = rows.old })
        (serve (record { node = node.old; rows = rows.old }) msg.now now).store))) }
    ensures memory { IsErrOf result Refusal.Memory
        → (disk.new ≡ disk.old) × (log.new ≡ log.old) × (node.new ≡ node.old) × (rows.new ≡ rows.old) }
    ensures doubt { IfErr result
        (λ refusal. InDoubt refusal
        (λ doubt. doubt ≡ (serve (record { node = node.old; rows = rows.old }) msg.now now).records)) }
    ensures left { IfErr result
        (λ refusal. InDoubt refusal
        (λ doubt. OfEach (D.seen disk.old) (D.sizes disk.old) (D.images disk.old) log.old
        (record { node = node.old; rows = rows.old }) (λ server setup.
        OnTold (D.seen disk.new 1) (λ _. LeavesDoubt (D.images disk.new) server setup log.new
        (record { node = node.old; rows = rows.old }) doubt)))) }
    ensures disks { IfErr result AreDisks }
    ensures told { StaysTold (D.seen disk.old 1) (D.seen disk.new 1) }
    ensures cause { HasRefusalCause (D.faults disk.old) (D.faults disk.new) result }
    ensures lasts { D.lasts disk.old disk.new }
    ensures failed { IfErr result (λ refusal. IsDevice refusal → D.fails disk.old disk.new) }
{
    let (handled, piece) = prepared(alloc, msg, now, log.length(), node, rows)?;
    let Some(piece) = piece else {
        return Ok(handled);
    };
    match append(disk, log, &piece) {
        Ok(()) => Ok(handled),
        Err(fault) => {
            let Handled { records, .. } = handled;
            Err(Refusal::Disk(fault, records))
        }
    }
}
