//! The log.
ghost use Rattle.std.specs.Prelude.{◌≡◌, ◌+◌, ◌^◌, ◌<◌, ◌≤◌, ◌++◌, ◌∷◌, [], List, ℕ, Ok, Err, Some, None, true, false};
ghost use Rattle.std.specs.Prelude.{length, IfOk, IfErr, OnOk, OnErr, IsErrOf, IfSome, MatchOption};
ghost use Rattle.gate_log.specs.Calls.{Asks, AsksForBody, IsDiskAnswer, IsOpenAnswer, IsMaking, IsGateAt, IsSomeGate};
ghost use Rattle.gate_log.specs.Calls.{IsReplayed, HasRead, ReadsOn};
ghost use Rattle.gate_log.specs.Disks.{IsLogReading, IsLogChanging};
ghost use Rattle.gate_log.specs.Found.{IsFound, AsksToFind};
ghost use Rattle.gate_log.specs.Log.{IsBeforeOrAfter, HoldsOneLog, IsEitherLogOrShort, IsShortAtOnePlace, LengthsAddUp};
ghost use Rattle.gate_log.specs.Log.{OneMoreIsLonger, BodiesStand};
ghost use Rattle.gate_log.specs.LogState.{open_log, IsReady, HasBodies, IsElsewhereOld};
ghost use Rattle.gate_log.specs.Refusals.{log_fault_of, IsReplayRefusal, IsEndReady, IsShortEnd};
ghost use Rattle.gate_log.specs.declared.gate_log.LogFault.TheVariants.{OutOfMemory};
ghost use Rattle.mds_out.specs.Disk.{LeavesOnly, IsUnchanged, IsElsewhereUnchanged, IsChanging, StaysTold};
ghost use Rattle.mds_out.specs.Known.{OnTold};

use crate::Piece;
use crate::frame::body_at;
use crate::scan::{Found, end_of};
use crate::writes::{append_at, write_synced};
use mds_out::{Disk, DiskFault};
use std::alloc::AllocError;
use std::marker::Model;
use thiserror::Error;

/// Why a call of a log was refused.
#[derive(Clone, Copy, Debug, PartialEq, Eq, Error)]
pub enum LogFault {
    /// The disk failed; its count of faults has risen. The log has stopped.
    #[error("device fault")]
    Device,
    /// The log has stopped: after `Device`, or a disk's want of memory, until it is opened again.
    #[error("the log has stopped")]
    Stopped,
    /// The file is no log: it is empty, or the open gate at this place is followed by fewer bytes than its body and
    /// the next gate need.
    #[error("bad log at byte {offset}")]
    BadLog { offset: u64 },
    /// There was no memory, and the disk's count of faults is as before: it never stands for a fault of the device.
    /// Where the disk found none, the log has stopped.
    #[error("out of memory")]
    OutOfMemory,
}

/// An open log in a file of a disk.
#[derive(Drop)]
pub struct GateLog {
    file: u32,
    length: u64,
    stopped: bool,
}

impl Model for GateLog {
    ghost use Rattle.gate_log.specs.LogState.{LogState};

    ghost Value = { LogState };

    ghost view = { λ l. record { file = l.file; length = l.length; stopped = l.stopped } };
}

impl From<DiskFault> for LogFault {
    ghost from_gives = { λ fault answer. answer ≡ log_fault_of fault };

    fn from(fault: DiskFault) -> Self {
        match fault {
            DiskFault::Device => LogFault::Device,
            DiskFault::OutOfMemory => LogFault::OutOfMemory,
        }
    }
}

impl From<AllocError> for LogFault {
    ghost from_gives = { λ _ answer. answer ≡ OutOfMemory };

    fn from(_: AllocError) -> Self {
        LogFault::OutOfMemory
    }
}

impl GateLog {
    /// The bytes of the log, its closed gate included.
    pub fn length(&self) -> u64
        ensures { result ≡ self.now.length }
    {
        self.length
    }

    /// Makes the file of a log that holds no body. What the file held is gone.
    pub fn create<D: Disk>(disk: &mut D, file: u32) -> Result<GateLog, LogFault>
        ensures made { IfOk result (λ log. log ≡ open_log file 1) }
        ensures ready { OnOk result
            (IsReady (open_log file 1) (D.seen disk.new) (D.sizes disk.new) (D.images disk.new)) }
        ensures empty { OnOk result (HasBodies (open_log file 1) (D.seen disk.new) []) }
        ensures bytes { OnOk result (OnTold (D.seen disk.new file) (λ bytes. bytes ≡ 0 ∷ [])) }
        ensures size { OnOk result (D.sizes disk.new file ≡ Some 1) }
        ensures told { StaysTold (D.seen disk.old file) (D.seen disk.new file) }
        ensures any_moment { LeavesOnly D.moment D.images_since disk.old disk.new (IsMaking file (D.images disk.old)) }
        ensures elsewhere { IsElsewhereUnchanged file (D.seen disk.old) (D.seen disk.new) (D.sizes disk.old)
            (D.sizes disk.new) }
        ensures answer { IsDiskAnswer result }
        ensures call { IsLogChanging D.faults D.lasts D.fails disk.old disk.new result }
        ensures asked { Asks 3 (D.asked disk.old) (D.asked disk.new) result }
        ensures changes { Asks 2 (D.changes_asked disk.old) (D.changes_asked disk.new) result }
    {
        make_file(disk, file)?;
        Ok(GateLog {
            file,
            length: 1,
            stopped: false,
        })
    }

    /// Opens the log in a file. It syncs the file first. `BadLog` comes exactly where the file is empty, with place 0,
    /// or where an open gate lacks bytes behind it, with that gate's place.
    pub fn open_file<D: Disk>(disk: &mut D, file: u32) -> Result<GateLog, LogFault>
        ensures opened { IfOk result (λ log. (log.file ≡ file) × (log.stopped ≡ false)) }
        ensures ready { IfOk result (λ log. IsReady log (D.seen disk.new) (D.sizes disk.new) (D.images disk.new)) }
        ensures first { IfOk result (λ log. OnTold (D.seen disk.new log.file) (IsSomeGate log 0)) }
        ensures start { IfOk result (λ log. OnTold (D.seen disk.new log.file) (HasRead log 0 [])) }
        ensures short { IfOk result (λ log. log.length < 2 ^ 63) }
        ensures unchanged { IsUnchanged (D.seen disk.old) (D.seen disk.new) (D.sizes disk.old) (D.sizes disk.new) }
        ensures any_moment { LeavesOnly D.moment D.images_since disk.old disk.new (D.images disk.old) }
        ensures answer { IsOpenAnswer (D.seen disk.old file) result }
        ensures call { IsLogChanging D.faults D.lasts D.fails disk.old disk.new result }
        ensures asked { IfOk result (λ log. D.asked disk.new ≤ D.asked disk.old + 2 + log.length) }
        ensures changes { D.changes_asked disk.new ≡ D.changes_asked disk.old }
    {
        match find_end(disk, file)? {
            Found::End { length } => Ok(GateLog {
                file,
                length,
                stopped: false,
            }),
            Found::Bad { offset } => Err(LogFault::BadLog { offset }),
        }
    }

    /// Appends a body: after `Ok` every crash leaves it. It makes four calls of the disk, two of them writes, and takes
    /// no memory of its own. After a refusal the log has stopped.
    pub fn append<D: Disk>(&mut self, disk: &mut D, piece: &Piece) -> Result<(), LogFault>
        requires short { self.old.length ≤ 2 ^ 62 }
        requires ready { self.old.stopped ≡ false
            → IsReady self.old (D.seen disk.old) (D.sizes disk.old) (D.images disk.old) }
        ensures length { OnOk result (self.new ≡ record self.old { length = self.old.length + 5 + length piece.now }) }
        ensures ready { OnOk result (IsReady self.new (D.seen disk.new) (D.sizes disk.new) (D.images disk.new)) }
        ensures appended { OnOk result ((bodies : List (List ℕ)) → HasBodies self.old (D.seen disk.old) bodies
            → HasBodies self.new (D.seen disk.new) (bodies ++ piece.now ∷ [])) }
        ensures any_moment { self.old.stopped ≡ false → (bodies : List (List ℕ))
            → HasBodies self.old (D.seen disk.old) bodies
            → OnTold (D.seen disk.old self.old.file)
            (λ _. LeavesOnly D.moment D.images_since disk.old disk.new
            (λ image. IsBeforeOrAfter bodies piece.now (image self.old.file))) }
        ensures told { StaysTold (D.seen disk.old self.old.file) (D.seen disk.new self.old.file) }
        ensures images_elsewhere { self.old.stopped ≡ false
            → LeavesOnly D.moment D.images_since disk.old disk.new (IsElsewhereOld self.old.file (D.images disk.old)) }
        ensures elsewhere { self.old.stopped ≡ false
            → IsElsewhereUnchanged self.old.file (D.seen disk.old) (D.seen disk.new) (D.sizes disk.old)
            (D.sizes disk.new) }
        ensures stopped { self.old.stopped ≡ true
            → (result ≡ Err LogFault.Stopped) × (self.new ≡ self.old) × (disk.new ≡ disk.old) }
        ensures answer { self.old.stopped ≡ false → IsDiskAnswer result }
        ensures stops { OnErr result (self.new ≡ record self.old { stopped = true }) }
        ensures call { IsLogChanging D.faults D.lasts D.fails disk.old disk.new result }
        ensures asked { Asks 4 (D.asked disk.old) (D.asked disk.new) result }
        ensures changes { Asks 2 (D.changes_asked disk.old) (D.changes_asked disk.new) result }
    {
        if self.stopped {
            return Err(LogFault::Stopped);
        }
        match append_at(disk, self.file, self.length, piece) {
            Ok(()) => {
                self.length += piece.bytes().len() as u64;
                Ok(())
            }
            Err(fault) => {
                self.stopped = true;
                Err(fault.into())
            }
        }
    }

    /// Puts the body at a gate into `into`, in place of what was there, and answers the place of the next gate;
    /// `None` exactly at the end. The place is 0 or an earlier answer. After `Device` the log has stopped; where
    /// there is no memory for the body nothing has changed. A body is two calls of the disk.
    pub fn replay<D: Disk>(
        &mut self,
        disk: &mut D,
        at: u64,
        into: &mut Vec<u8>,
    ) -> Result<Option<u64>, LogFault>
        requires ready { self.old.stopped ≡ false
            → IsReady self.old (D.seen disk.old) (D.sizes disk.old) (D.images disk.old) }
        requires short { self.old.length < 2 ^ 63 }
        requires within { at < self.old.length }
        requires gate { self.old.stopped ≡ false → OnTold (D.seen disk.old self.old.file) (IsSomeGate self.old at) }
        ensures given { IfOk result
            (λ next. (before after : List (List ℕ))
            → OnTold (D.seen disk.old self.old.file) (IsGateAt self.old at before after)
            → OnTold (D.seen disk.old self.old.file) (IsReplayed self.old before after next into.new.items)) }
        ensures read { IfOk result
            (λ next. (read : List (List ℕ)) → OnTold (D.seen disk.old self.old.file) (HasRead self.old at read)
            → OnTold (D.seen disk.new self.old.file) (ReadsOn self.old read next into.new.items)) }
        ensures next { IfOk result (λ next. IfSome next (λ offset. offset ≡ at + 5 + length into.new.items)) }
        ensures gate { IfOk result
            (λ next. IfSome next (λ offset. OnTold (D.seen disk.new self.old.file) (IsSomeGate self.old offset))) }
        ensures end { IfOk result
            (λ next. MatchOption next (at + 1 ≡ self.old.length)
            (λ offset. (at < offset) × (offset < self.old.length))) }
        ensures untouched { IfOk result (λ next. next ≡ None → into.new.items ≡ into.old.items) }
        ensures same { OnOk result (self.new ≡ self.old) }
        ensures ready { self.new.stopped ≡ false
            → IsReady self.new (D.seen disk.new) (D.sizes disk.new) (D.images disk.new) }
        ensures refused { IfErr result
            (IsReplayRefusal (D.seen disk.old self.old.file) self.old self.new into.old.items into.new.items) }
        ensures call { IsLogReading D.seen D.sizes D.images D.moment D.images_since D.faults D.changes_asked D.lasts
            D.fails disk.old disk.new result }
        ensures asked { AsksForBody (D.asked disk.old) (D.asked disk.new) result }
    {
        if self.stopped {
            return Err(LogFault::Stopped);
        }
        if at + 1 >= self.length {
            return Ok(None);
        }
        match body_at(disk, self.file, self.length, at, into) {
            Ok(next) => Ok(Some(next)),
            Err(LogFault::Device) => {
                self.stopped = true;
                Err(LogFault::Device)
            }
            Err(fault) => Err(fault),
        }
    }
}

/// The law that makes a log's bodies and `BadLog` exact: a file holds one log at most; a file that is cut short holds
/// none, and is so at one place alone.
pub fn one_log_law()
    ensures one_log { HoldsOneLog }
    ensures either { IsEitherLogOrShort }
    ensures one_place { IsShortAtOnePlace }
{}

/// The law of places: how long a log is, and where each of its bodies stands, is a matter of its bodies.
pub fn log_places_law()
    ensures lengths { LengthsAddUp }
    ensures longer { OneMoreIsLonger }
    ensures bodies { BodiesStand }
{}

// Cuts a file and writes a closed gate.
fn make_file<D: Disk>(disk: &mut D, file: u32) -> Result<(), DiskFault>
    ensures ready { OnOk result (IsReady (open_log file 1) (D.seen disk.new) (D.sizes disk.new) (D.images disk.new)) }
    ensures empty { OnOk result (HasBodies (open_log file 1) (D.seen disk.new) []) }
    ensures bytes { OnOk result (OnTold (D.seen disk.new file) (λ bytes. bytes ≡ 0 ∷ [])) }
    ensures size { OnOk result (D.sizes disk.new file ≡ Some 1) }
    ensures told { StaysTold (D.seen disk.old file) (D.seen disk.new file) }
    ensures any_moment { LeavesOnly D.moment D.images_since disk.old disk.new (IsMaking file (D.images disk.old)) }
    ensures elsewhere { IsElsewhereUnchanged file (D.seen disk.old) (D.seen disk.new) (D.sizes disk.old)
        (D.sizes disk.new) }
    ensures call { IsChanging D.faults D.lasts D.fails disk.old disk.new result }
    ensures asked { Asks 3 (D.asked disk.old) (D.asked disk.new) result }
    ensures changes { Asks 2 (D.changes_asked disk.old) (D.changes_asked disk.new) result }
{
    disk.cut(file, 0)?;
    write_synced(disk, file, 0, &[0])
}

// Syncs a file and finds where its log ends.
fn find_end<D: Disk>(disk: &mut D, file: u32) -> Result<Found, DiskFault>
    ensures found { IfOk result (λ found. OnTold (D.seen disk.old file) (IsFound found)) }
    ensures short { IfOk result IsShortEnd }
    ensures ready { IfOk result
        (λ found. IsEndReady file found (D.seen disk.new) (D.sizes disk.new) (D.images disk.new)) }
    ensures unchanged { IsUnchanged (D.seen disk.old) (D.seen disk.new) (D.sizes disk.old) (D.sizes disk.new) }
    ensures any_moment { LeavesOnly D.moment D.images_since disk.old disk.new (D.images disk.old) }
    ensures call { IsChanging D.faults D.lasts D.fails disk.old disk.new result }
    ensures asked { IfOk result (AsksToFind (D.asked disk.old + 2) (D.asked disk.new)) }
    ensures changes { D.changes_asked disk.new ≡ D.changes_asked disk.old }
{
    disk.sync(file)?;
    let size = disk.length(file)?;
    end_of(disk, file, size)
}
