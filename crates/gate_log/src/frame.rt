//! The frame of a body: its length, its bytes and the gate behind it, as a piece writes it and a log reads it.
ghost use Rattle.std.specs.Prelude.{◌≡◌, ◌+◌, ◌-◌, ◌^◌, ◌<◌, ◌≤◌, ◌++◌, ◌∷◌, [], List, ℕ, Some, length, drop, take};
ghost use Rattle.std.specs.Prelude.{IfOk, IfErr, OnOk, IfSome, IsErrOf};
ghost use Rattle.std.specs.Int.{to_be_bytes, from_be_bytes, w32};
ghost use Rattle.gate_log.specs.Calls.{Asks, IsGateAt, IsSomeGate, IsReplayed};
ghost use Rattle.gate_log.specs.Disks.{IsLogReading};
ghost use Rattle.gate_log.specs.Frame.{framed, IsLengthAt};
ghost use Rattle.gate_log.specs.LogState.{open_log, IsReady};
ghost use Rattle.gate_log.specs.Refusals.{IsBodyRefusal};
ghost use Rattle.mds_out.specs.Calls.{next_number};
ghost use Rattle.mds_out.specs.Disk.{IsReading};
ghost use Rattle.mds_out.specs.Known.{OnTold};

use crate::LogFault;
use mds_out::{Disk, DiskFault};
use std::alloc::{AllocError, Global};
use std::marker::Model;

/// A body that is ready to be appended: contracts see it as the body's bytes.
#[derive(Drop)]
pub struct Piece {
    bytes: Vec<u8>,
}

impl Model for Piece {
    ghost use Rattle.std.specs.Prelude.{List, ℕ};
    ghost use Rattle.gate_log.specs.Frame.{body_in, IsFrame};

    ghost Value = { List ℕ };

    ghost view = { λ p. body_in p.bytes.items };

    ghost invariant = { λ p. IsFrame p.bytes.items };
}

impl Piece {
    /// The bytes at the front of a piece's buffer, which are the body's length.
    pub const FRONT: usize = 4;

    // The room in bytes of a buffer that is begun: with its length and its gate, a body with one call on a name of at
    // most 22 bytes fits.
    const ROOM: usize = 128;

    /// A piece with this body, which is shorter than 2^31 bytes. The body is copied: what is only written for the
    /// piece goes right into its buffer, by `begin` and `end`.
    pub fn of(alloc: Global, body: &[u8]) -> Result<Piece, AllocError>
        requires { length body.now < 2 ^ 31 }
        ensures { IfOk result (λ piece. piece ≡ body.now) }
    {
        let mut buffer = Piece::begin(alloc)?;
        buffer.extend_from_slice(body)?;
        Piece::end(buffer)
    }

    /// The buffer of a piece whose body is still to be written: `FRONT` bytes. What is appended to it is the body.
    pub fn begin(alloc: Global) -> Result<Vec<u8>, AllocError>
        ensures { IfOk result (λ buffer. length buffer.items ≡ 4) }
    {
        let mut buffer = Vec::with_capacity(alloc, Piece::ROOM)?;
        buffer.extend_from_slice(&[0; Piece::FRONT])?;
        Ok(buffer)
    }

    /// The piece whose body stands in a buffer that was begun, behind its first `FRONT` bytes. The body is shorter than
    /// 2^31 bytes, and is not copied.
    pub fn end(mut buffer: Vec<u8>) -> Result<Piece, AllocError>
        requires begun { 4 ≤ length buffer.items }
        requires short { length buffer.items < 2 ^ 31 + 4 }
        ensures { IfOk result (λ piece. piece ≡ drop 4 buffer.items) }
    {
        spell_length(&mut buffer);
        buffer.push(0)?;
        Ok(Piece { bytes: buffer })
    }

    /// The piece's buffer, begun for the next body. It keeps its room.
    pub fn begin_again(self) -> Vec<u8>
        ensures { length result.items ≡ 4 }
    {
        let Piece { mut bytes } = self;
        bytes.truncate(Piece::FRONT);
        bytes
    }

    // What is written behind a closed gate: the length, the body and a closed gate.
    pub(crate) fn bytes(&self) -> &[u8]
        ensures bytes { result.now ≡ framed self.now ++ 0 ∷ [] }
        ensures short { length self.now < 2 ^ 31 }
    {
        &self.bytes
    }
}

// Writes the length of the body that stands behind the first four bytes into these.
fn spell_length(buffer: &mut [u8])
    requires begun { 4 ≤ length buffer.old }
    requires short { length buffer.old < 2 ^ 32 }
    ensures { buffer.new ≡ to_be_bytes w32 (length buffer.old - 4) ++ drop 4 buffer.old }
{
    let body_len = (buffer.len() - Piece::FRONT) as u32;
    buffer[..Piece::FRONT].copy_from_slice(&body_len.to_be_bytes());
}

/// Reads the length of the body behind a gate; `None` where, before `end`, fewer bytes are behind the gate than a body
/// of this length and the next gate need.
pub(crate) fn length_at<D: Disk>(
    disk: &mut D,
    file: u32,
    end: u64,
    gate: u64,
) -> Result<Option<u64>, DiskFault>
    requires within { gate < end }
    requires short { end < 2 ^ 63 }
    requires known { OnTold (D.sizes disk.old file) (λ size. end ≤ size) }
    ensures length { IfOk result (λ count. OnTold (D.seen disk.old file) (IsLengthAt gate end count)) }
    ensures fits { IfOk result (λ count. IfSome count (λ n. (n < 2 ^ 32) × (gate + 5 + n < end))) }
    ensures call { IsReading D.seen D.sizes D.images D.moment D.images_since D.faults D.changes_asked D.lasts D.fails
        disk.old disk.new result }
    ensures asked { D.asked disk.new ≤ D.asked disk.old + 1 }
    ensures asked_once { IfOk result (λ count. IfSome count (λ _. D.asked disk.new ≡ next_number (D.asked disk.old))) }
{
    let behind = end - gate - 1;
    if behind < 5 {
        return Ok(None);
    }
    let mut len = [0; Piece::FRONT];
    disk.read(file, gate + 1, &mut len)?;
    let count = number_of(&len) as u64;
    if behind - 4 <= count {
        return Ok(None);
    }
    Ok(Some(count))
}

/// Puts the body behind the gate at a place before the log's end into `into`, and answers the next gate's place.
pub(crate) fn body_at<D: Disk>(
    disk: &mut D,
    file: u32,
    end: u64,
    at: u64,
    into: &mut Vec<u8>,
) -> Result<u64, LogFault>
    requires ready { IsReady (open_log file end) (D.seen disk.old) (D.sizes disk.old) (D.images disk.old) }
    requires short { end < 2 ^ 63 }
    requires within { at + 1 < end }
    requires gate { OnTold (D.seen disk.old file) (IsSomeGate (open_log file end) at) }
    ensures given { IfOk result
        (λ next. (before after : List (List ℕ))
        → OnTold (D.seen disk.old file) (IsGateAt (open_log file end) at before after)
        → OnTold (D.seen disk.old file) (IsReplayed (open_log file end) before after (Some next) into.new.items)) }
    ensures gate { IfOk result (λ next. OnTold (D.seen disk.new file) (IsSomeGate (open_log file end) next)) }
    ensures next { IfOk result (λ next. next ≡ at + 5 + length into.new.items) }
    ensures onward { IfOk result (λ next. (at < next) × (next < end)) }
    ensures refused { IfErr result (IsBodyRefusal (D.seen disk.old file) into.old.items into.new.items) }
    ensures call { IsLogReading D.seen D.sizes D.images D.moment D.images_since D.faults D.changes_asked D.lasts D.fails
        disk.old disk.new result }
    ensures asked { Asks 2 (D.asked disk.old) (D.asked disk.new) result }
{
    let Some(count) = length_at(disk, file, end, at)? else {
        return Err(LogFault::BadLog { offset: at });
    };
    into.resize(count as usize, 0)?;
    disk.read(file, at + 5, into)?;
    Ok(at + 5 + count)
}

// The number that four bytes spell, the most significant one first.
fn number_of(bytes: &[u8]) -> u32
    requires { length bytes.now ≡ 4 }
    ensures number { result ≡ from_be_bytes w32 bytes.now }
    ensures spelled { to_be_bytes w32 result ≡ bytes.now }
    ensures small { result < 2 ^ 32 }
{
    u32::from_be_bytes([bytes[0], bytes[1], bytes[2], bytes[3]])
}
