//! All that was done to a disk in memory, oldest first.
ghost use Rattle.std.specs.Prelude.{◌≡◌, ◌∷◌, ◌++◌, [], List, ℕ, length, OnOk, OnErr};
ghost use Rattle.mds_out.specs.Change.{Write, Cut};
ghost use Rattle.mds_out.specs.Kept.{act_of, bytes_in};
ghost use Rattle.mds_out.specs.Past.{Act, Changed, Synced, Restarted};

use crate::heads::{Head, Heads};
use std::alloc::{AllocError, Global};
use std::marker::Model;

/// All that was done: the heads, and the bytes that were written one behind the other, so that no write has a block of
/// memory of its own.
#[derive(Drop)]
pub(crate) struct Acts {
    heads: Heads,
    written: Vec<u8>,
}

impl Model for Acts {
    ghost use Rattle.std.specs.Prelude.{◌≡◌, List, length};
    ghost use Rattle.std.specs.List.{sum_by};
    ghost use Rattle.mds_out.specs.Kept.{acts_of, bytes_in};
    ghost use Rattle.mds_out.specs.Past.{Act};

    ghost Value = { List Act };

    ghost view = { λ a. acts_of a.written.items a.heads };

    ghost invariant = { λ a. sum_by bytes_in a.heads ≡ length a.written.items };
}

impl Acts {
    /// Nothing was done yet.
    pub(crate) fn new(alloc: Global) -> Acts
        ensures { result ≡ [] }
    {
        Acts {
            heads: Heads::new(alloc),
            written: Vec::new(alloc),
        }
    }

    /// Adds a write.
    pub(crate) fn add_write(&mut self, file: u32, at: usize, bytes: &[u8]) -> Result<(), AllocError>
        ensures ok { OnOk result (self.new ≡ self.old ++ Changed file (Write at bytes.now) ∷ []) }
        ensures err { OnErr result (self.new ≡ self.old) }
    {
        self.written.reserve(bytes.len())?;
        self.heads.push(Head::Write {
            file,
            at,
            len: bytes.len(),
        })?;
        if self.written.extend_from_slice(bytes).is_err() {
            unreachable!();
        }
        Ok(())
    }

    /// Adds a cut.
    pub(crate) fn add_cut(&mut self, file: u32, to: usize) -> Result<(), AllocError>
        ensures ok { OnOk result (self.new ≡ self.old ++ Changed file (Cut to) ∷ []) }
        ensures err { OnErr result (self.new ≡ self.old) }
    {
        self.add(Head::Cut { file, to })
    }

    /// Adds a sync.
    pub(crate) fn add_sync(&mut self, file: u32) -> Result<(), AllocError>
        ensures ok { OnOk result (self.new ≡ self.old ++ Synced file ∷ []) }
        ensures err { OnErr result (self.new ≡ self.old) }
    {
        self.add(Head::Synced { file })
    }

    /// Adds a restart.
    pub(crate) fn add_restart(&mut self) -> Result<(), AllocError>
        ensures ok { OnOk result (self.new ≡ self.old ++ Restarted ∷ []) }
        ensures err { OnErr result (self.new ≡ self.old) }
    {
        self.add(Head::Restarted)
    }

    /// Takes the last one away, which was not done after all.
    pub(crate) fn take_back(&mut self)
        ensures { (acts : List Act) → (act : Act) → self.old ≡ acts ++ act ∷ [] → self.new ≡ acts }
    {
        if let Some(head) = self.heads.pop() {
            self.written.truncate(self.written.len() - head.bytes());
        }
    }

    // Adds one that wrote nothing.
    fn add(&mut self, head: Head) -> Result<(), AllocError>
        requires { bytes_in head ≡ 0 }
        ensures ok { OnOk result (self.new ≡ self.old ++ act_of [] head ∷ []) }
        ensures err { OnErr result (self.new ≡ self.old) }
    {
        self.heads.push(head)
    }
}
