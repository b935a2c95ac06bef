//! One file of a disk in memory.
ghost use Rattle.std.specs.Prelude.{◌≡◌, ◌+◌, ◌^◌, ◌<◌, ◌≤◌, [], length, take, drop, IfOk, OnOk, OnErr, All};
ghost use Rattle.mds_out.specs.Change.{Write, Cut, change_end};
ghost use Rattle.mds_out.specs.Content.{at_rest, bytes_of, left_of, with_change};
ghost use Rattle.mds_out.specs.Undo.{unwound};

use crate::Outcome;
use crate::buffer::{make_room, write_over};
use crate::changes::Changes;
use std::alloc::{AllocError, Global};
use std::marker::Model;

/// A buffer, of which the first bytes count: the file as it reads. What takes it back to its last sync is kept, and
/// the changes since, so a sync costs nothing for each byte.
#[derive(Drop)]
pub(crate) struct File {
    current: Vec<u8>,
    len: usize,
    undo: Changes,
    since: Changes,
}

impl Model for File {
    ghost use Rattle.std.specs.Prelude.{take};
    ghost use Rattle.mds_out.specs.Content.{Content};
    ghost use Rattle.mds_out.specs.FileRooms.{HasRooms};
    ghost use Rattle.mds_out.specs.Undo.{unwound};

    ghost Value = { Content };

    ghost view = { λ f. record { synced = unwound (take f.len f.current.items) f.undo; since = f.since } };

    ghost invariant = { λ f. HasRooms f.current.items f.len f.undo f.since };
}

impl File {
    pub(crate) fn new(alloc: Global) -> File
        ensures { result ≡ at_rest [] }
    {
        File {
            current: Vec::new(alloc),
            len: 0,
            undo: Changes::new(alloc),
            since: Changes::new(alloc),
        }
    }

    pub(crate) fn len(&self) -> usize
        ensures len { result ≡ length (bytes_of self.now) }
        ensures short { result < 2 ^ 63 }
    {
        self.len
    }

    /// Fills `into` with the bytes from `at` on.
    pub(crate) fn read(&self, at: usize, into: &mut [u8])
        requires { at + length into.old ≤ length (bytes_of self.now) }
        ensures { into.new ≡ take (length into.old) (drop at (bytes_of self.now)) }
    {
        into.copy_from_slice(&self.current[at..at + into.len()]);
    }

    /// Writes bytes at a place, or behind the last byte where the place is past it.
    pub(crate) fn write(&mut self, at: usize, bytes: &[u8]) -> Result<(), AllocError>
        requires { at + length bytes.now < 2 ^ 63 }
        ensures ok { OnOk result (self.new ≡ with_change self.old (Write at bytes.now)) }
        ensures err { OnErr result (self.new ≡ self.old) }
    {
        let end = at + bytes.len();
        make_room(&mut self.current, end)?;
        let from = at.min(self.len);
        let to = end.min(self.len);
        self.undo.add_old(&self.current[..self.len], from, to)?;
        self.since.add_write(at, bytes)?;
        self.len = write_over(&mut self.current, self.len, at, bytes);
        Ok(())
    }

    /// Cuts the file to a length, where it is longer.
    pub(crate) fn cut(&mut self, to: usize) -> Result<(), AllocError>
        ensures ok { OnOk result (self.new ≡ with_change self.old (Cut to)) }
        ensures err { OnErr result (self.new ≡ self.old) }
    {
        let end = to.min(self.len);
        self.undo.add_old(&self.current[..self.len], end, self.len)?;
        self.since.add_cut(to)?;
        self.len = end;
        Ok(())
    }

    pub(crate) fn sync(&mut self)
        ensures { self.new ≡ at_rest (bytes_of self.old) }
    {
        self.undo.clear();
        self.since.clear();
    }

    pub(crate) fn restart(&mut self, outcome: Outcome)
        ensures { self.new ≡ at_rest (left_of outcome self.old) }
    {
        self.len = settle(
            &mut self.current,
            self.len,
            &self.undo,
            &self.since,
            outcome,
        );
        self.undo.clear();
        self.since.clear();
    }
}

// Brings the first `len` bytes of a buffer to what a restart leaves, and says how many bytes count then.
fn settle(
    current: &mut Vec<u8>,
    len: usize,
    undo: &Changes,
    since: &Changes,
    outcome: Outcome,
) -> usize
    requires within { len ≤ length current.old.items }
    requires undo_fits { All (λ change. change_end change ≤ length current.old.items) undo.now }
    requires since_fits { All (λ change. change_end change ≤ length current.old.items) since.now }
    requires reads { take len current.old.items
        ≡ bytes_of (record { synced = unwound (take len current.old.items) undo.now; since = since.now }) }
    ensures count { result ≤ length current.new.items }
    ensures left { take result current.new.items
        ≡ left_of outcome (record { synced = unwound (take len current.old.items) undo.now; since = since.now }) }
{
    match outcome {
        Outcome::Old => undo.unwind(current, len),
        Outcome::New => len,
        Outcome::Mixed => {
            let synced = undo.unwind(current, len);
            since.replay(current, synced, true)
        }
    }
}
