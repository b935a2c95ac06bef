//! Heads of what was done to a disk, oldest first: what was done, but for the bytes that a write wrote.
ghost use Rattle.std.specs.Prelude.{◌≡◌, ◌∷◌, ◌++◌, [], IfSome, MatchOption, OnOk, OnErr};
ghost use Rattle.mds_out.specs.Kept.{bytes_in, IsShortOf};
ghost use Rattle.mds_out.specs.declared.heads.Short.TheVariants.{Long};

use std::alloc::{AllocError, Global};
use std::marker::Model;

/// The head of one thing that was done.
#[derive(Clone, Copy)]
pub(crate) enum Head {
    Write { file: u32, at: usize, len: usize },
    Cut { file: u32, to: usize },
    Synced { file: u32 },
    Restarted,
}

/// A head as it is kept, in eight bytes. Nearly all are of few bytes in the front of a file with a small number.
#[derive(Clone, Copy)]
pub(crate) enum Short {
    Write { file: u8, len: u16, at: u32 },
    Cut { file: u8, to: u32 },
    Synced { file: u8 },
    Restarted,
    /// The next one of the heads that have no short form.
    Long,
}

const _: () = prove!(std::mem::size_of::<Short>() <= 8);

/// A list of heads: their short forms, and beside them the heads that have none.
#[derive(Drop)]
pub(crate) struct Heads {
    shorts: Vec<Short>,
    longs: Vec<Head>,
}

impl Model for Heads {
    ghost use Rattle.std.specs.Prelude.{◌≡◌, List, length};
    ghost use Rattle.mds_out.specs.Kept.{in_full, long_heads};
    ghost use Rattle.mds_out.specs.declared.heads.Head.{Head};

    ghost Value = { List Head };

    ghost view = { λ h. in_full h.longs.items h.shorts.items };

    ghost invariant = { λ h. long_heads h.shorts.items ≡ length h.longs.items };
}

impl Heads {
    /// None.
    pub(crate) fn new(alloc: Global) -> Heads
        ensures { result ≡ [] }
    {
        Heads {
            shorts: Vec::new(alloc),
            longs: Vec::new(alloc),
        }
    }

    /// Adds one at the end.
    pub(crate) fn push(&mut self, head: Head) -> Result<(), AllocError>
        ensures ok { OnOk result (self.new ≡ self.old ++ head ∷ []) }
        ensures err { OnErr result (self.new ≡ self.old) }
    {
        match head.short() {
            Some(short) => self.shorts.push(short)?,
            None => {
                self.shorts.reserve(1)?;
                self.longs.push(head)?;
                if self.shorts.push(Short::Long).is_err() {
                    unreachable!();
                }
            }
        }
        Ok(())
    }

    /// Takes the last one away.
    pub(crate) fn pop(&mut self) -> Option<Head>
        ensures { MatchOption result ((self.old ≡ []) × (self.new ≡ [])) (λ head. self.old ≡ self.new ++ head ∷ []) }
    {
        let short = self.shorts.pop()?;
        match short.full() {
            Some(head) => Some(head),
            None => self.longs.pop(),
        }
    }
}

impl Head {
    /// How many bytes it wrote.
    pub(crate) fn bytes(self) -> usize
        ensures { result ≡ bytes_in self }
    {
        match self {
            Head::Write { len, .. } => len,
            _ => 0,
        }
    }

    // Its short form, where it has one.
    fn short(self) -> Option<Short>
        ensures { IfSome result (λ short. IsShortOf self short) }
    {
        let short = match self {
            Head::Write { file, at, len } => Short::Write {
                file: u8::try_from(file).ok()?,
                len: u16::try_from(len).ok()?,
                at: u32::try_from(at).ok()?,
            },
            Head::Cut { file, to } => Short::Cut {
                file: u8::try_from(file).ok()?,
                to: u32::try_from(to).ok()?,
            },
            Head::Synced { file } => Short::Synced {
                file: u8::try_from(file).ok()?,
            },
            Head::Restarted => Short::Restarted,
        };
        Some(short)
    }
}

impl Short {
    // The head that it is a form of.
    fn full(self) -> Option<Head>
        ensures { MatchOption result (self ≡ Long) (λ head. IsShortOf head self) }
    {
        let head = match self {
            Short::Write { file, len, at } => Head::Write {
                file: u32::from(file),
                at: at as usize,
                len: usize::from(len),
            },
            Short::Cut { file, to } => Head::Cut {
                file: u32::from(file),
                to: to as usize,
            },
            Short::Synced { file } => Head::Synced {
                file: u32::from(file),
            },
            Short::Restarted => Head::Restarted,
            Short::Long => return None,
        };
        Some(head)
    }
}
