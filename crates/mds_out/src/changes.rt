//! Changes of a file, oldest first, kept to be done again, or to be done backwards.
ghost use Rattle.std.specs.Prelude.{◌≡◌, ◌<◌, ◌≤◌, ◌∷◌, ◌++◌, [], List, ℕ, length, take, drop, fold, OnOk, OnErr, All};
ghost use Rattle.mds_out.specs.Change.{Write, Cut, changed, redone, change_end};
ghost use Rattle.mds_out.specs.Kept.{IsChangeWithin, change_in};
ghost use Rattle.mds_out.specs.Undo.{unwound};

use crate::buffer::{spoil_over, write_over};
use std::alloc::{AllocError, Global};
use std::marker::Model;

/// One change. A write names its bytes by their place among all bytes that were written.
#[derive(Clone, Copy)]
pub(crate) enum KeptChange {
    Write { at: usize, from: usize, len: usize },
    Cut { to: usize },
}

/// Changes, with the bytes that were written one behind the other, so that no write has a block of memory of its own.
#[derive(Drop)]
pub(crate) struct Changes {
    kept: Vec<KeptChange>,
    written: Vec<u8>,
}

impl Model for Changes {
    ghost use Rattle.std.specs.Prelude.{List, length};
    ghost use Rattle.std.specs.List.{AllByRecursion};
    ghost use Rattle.mds_out.specs.Change.{Change};
    ghost use Rattle.mds_out.specs.Kept.{IsChangeWithin, changes_in};

    ghost Value = { List Change };

    ghost view = { λ a. changes_in a.written.items a.kept.items };

    ghost invariant = { λ a. AllByRecursion (IsChangeWithin (length a.written.items)) a.kept.items };
}

impl Changes {
    /// None.
    pub(crate) fn new(alloc: Global) -> Changes
        ensures { result ≡ [] }
    {
        Changes {
            kept: Vec::new(alloc),
            written: Vec::new(alloc),
        }
    }

    /// Adds a write.
    pub(crate) fn add_write(&mut self, at: usize, bytes: &[u8]) -> Result<(), AllocError>
        ensures ok { OnOk result (self.new ≡ self.old ++ Write at bytes.now ∷ []) }
        ensures err { OnErr result (self.new ≡ self.old) }
    {
        self.kept.reserve(1)?;
        let from = self.written.len();
        self.written.extend_from_slice(bytes)?;
        let kept = KeptChange::Write {
            at,
            from,
            len: bytes.len(),
        };
        if self.kept.push(kept).is_err() {
            unreachable!();
        }
        Ok(())
    }

    /// Adds a cut.
    pub(crate) fn add_cut(&mut self, to: usize) -> Result<(), AllocError>
        ensures ok { OnOk result (self.new ≡ self.old ++ Cut to ∷ []) }
        ensures err { OnErr result (self.new ≡ self.old) }
    {
        self.kept.push(KeptChange::Cut { to })?;
        Ok(())
    }

    /// Adds what takes a file back from what a change makes of it: its length, and its bytes of a range outside of
    /// which the change leaves it. After a refusal what is kept takes the file back all the same.
    pub(crate) fn add_old(&mut self, file: &[u8], from: usize, to: usize) -> Result<(), AllocError>
        requires order { from ≤ to }
        requires within { to ≤ length file.now }
        ensures back { OnOk result
            ((now : List ℕ) → take from now ≡ take from file.now
            → (to < length file.now → drop to now ≡ drop to file.now)
            → unwound now self.new ≡ unwound file.now self.old) }
        ensures same { unwound file.now self.new ≡ unwound file.now self.old }
        ensures fit { (n : ℕ) → length file.now ≤ n → All (λ change. change_end change ≤ n) self.old
            → All (λ change. change_end change ≤ n) self.new }
    {
        self.add_cut(file.len())?;
        self.add_write(from, &file[from..to])?;
        Ok(())
    }

    /// Forgets all; the memory that they took stays for those to come.
    pub(crate) fn clear(&mut self)
        ensures { self.new ≡ [] }
    {
        self.kept.clear();
        self.written.clear();
    }

    /// Does them to the first `len` bytes of a buffer, spoilt or not, and says how many bytes count then.
    pub(crate) fn replay(&self, buffer: &mut [u8], len: usize, spoil: bool) -> usize
        requires within { len ≤ length buffer.old }
        requires fit { All (λ change. change_end change ≤ length buffer.old) self.now }
        ensures count { result ≤ length buffer.new }
        ensures replayed { take result buffer.new
            ≡ fold (λ bytes change. changed bytes (redone spoil change)) (take len buffer.old) self.now }
    {
        let mut len = len;
        for kept in &self.kept {
            len = redo(buffer, len, &self.written, *kept, spoil);
        }
        len
    }

    /// Does them backwards, the last one first, to the first `len` bytes of a buffer, and says how many bytes count
    /// then.
    pub(crate) fn unwind(&self, buffer: &mut [u8], len: usize) -> usize
        requires within { len ≤ length buffer.old }
        requires fit { All (λ change. change_end change ≤ length buffer.old) self.now }
        ensures count { result ≤ length buffer.new }
        ensures unwound { take result buffer.new ≡ unwound (take len buffer.old) self.now }
    {
        let mut len = len;
        let mut place = self.kept.len();
        while place > 0 {
            place -= 1;
            len = redo(buffer, len, &self.written, self.kept[place], false);
        }
        len
    }
}

// Does one change, whose bytes stand in `written`.
fn redo(buffer: &mut [u8], len: usize, written: &[u8], kept: KeptChange, spoil: bool) -> usize
    requires within { len ≤ length buffer.old }
    requires bytes { IsChangeWithin (length written.now) kept }
    requires fits { change_end (change_in written.now kept) ≤ length buffer.old }
    ensures count { result ≤ length buffer.new }
    ensures redone { take result buffer.new
        ≡ changed (take len buffer.old) (redone spoil (change_in written.now kept)) }
{
    match kept {
        KeptChange::Write {
            at,
            from,
            len: count,
        } => {
            let bytes = &written[from..from + count];
            if spoil {
                spoil_over(buffer, len, at, bytes)
            } else {
                write_over(buffer, len, at, bytes)
            }
        }
        KeptChange::Cut { to } => len.min(to),
    }
}
