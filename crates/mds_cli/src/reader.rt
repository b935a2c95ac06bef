//! Takes a source's bytes up in chunks, and lines out of the chunks.
ghost use Rattle.std.specs.Prelude.{◌≡◌, ◌+◌, ◌≤◌, ◌^◌, [], length, IfOk, OnErr, IsTrue, true, false};
ghost use Rattle.std.specs.Io.KnownBytes.{Consumes};
ghost use Rattle.mds_out.specs.Fault.{HasCause};
ghost use Rattle.mds_cli.specs.Streams.{TakesPart, Ends};

use crate::line::split_at;
use mds_out::{Failed, Source};
use std::alloc::{AllocError, Global};
use std::marker::Model;

/// How many bytes are read at once at most.
const CHUNK: usize = 65_536;

/// The most bytes that a line may have, without its end.
pub(crate) const LINE_LIMIT: usize = 1 << 20;

/// The bytes of a chunk that were not used yet.
#[derive(Drop)]
pub(crate) struct Reader {
    chunk: Vec<u8>,
    from: usize,
    to: usize,
}

impl Model for Reader {
    ghost use Rattle.std.specs.Prelude.{List, ℕ, ◌≤◌, drop, take, length};

    ghost Value = { List ℕ };

    ghost view = { λ a. drop a.from (take a.to a.chunk.items) };

    ghost invariant = { λ a. (a.from ≤ a.to) × (a.to ≤ length a.chunk.items) × (1 ≤ length a.chunk.items) };
}

/// What was taken of a line.
#[derive(Clone, Copy)]
pub(crate) enum Part {
    /// The rest of it, and its line feed.
    Ended,
    /// All held bytes, and the line goes on.
    Open,
    /// Nothing, since the line is longer than a line may be.
    TooLong,
}

impl Reader {
    /// A reader that holds no bytes.
    pub(crate) fn new(alloc: Global) -> Result<Reader, AllocError>
        ensures { IfOk result (λ reader. reader ≡ []) }
    {
        Ok(Reader {
            chunk: vec![in alloc; 0; CHUNK]?,
            from: 0,
            to: 0,
        })
    }

    /// Reads the next chunk, and says whether there was one; none comes at the end of the input.
    pub(crate) fn fill<S: Source>(&mut self, input: &mut S) -> Result<bool, Failed>
        requires { self.old ≡ [] }
        ensures read { Consumes (S.left input.old) (S.left input.new) self.new }
        ensures some { IfOk result (λ more. more ≡ true → 1 ≤ length self.new) }
        ensures end { IfOk result
            (λ more. more ≡ false → (self.new ≡ []) × Ends (S.left input.old) (S.left input.new)) }
        ensures err { OnErr result (self.new ≡ []) }
        ensures cause { HasCause (S.faults input.old) (S.faults input.new) result }
    {
        self.from = 0;
        self.to = 0;
        self.to = input.read(&mut self.chunk)?;
        if self.to == 0 {
            return Ok(false);
        }
        Ok(true)
    }

    /// Moves the bytes up to the next line feed behind `line`, and takes the line feed away. A line that is longer
    /// than a line may be is not looked at further than that. Where there is no memory nothing changes.
    pub(crate) fn take_part(&mut self, line: &mut Vec<u8>) -> Result<Part, AllocError>
        requires { length line.old.items ≤ 2 ^ 20 + 1 }
        ensures ok { IfOk result (λ part. TakesPart part self.old self.new line.old.items line.new.items) }
        ensures err { OnErr result ((self.new ≡ self.old) × (line.new.items ≡ line.old.items)) }
    {
        // Room for a carriage return, and for a byte that shows that the line is too long.
        let room = LINE_LIMIT + 2 - line.len();
        let held = &self.chunk[self.from..self.to];
        let seen = &held[..room.min(held.len())];
        if let Some((part, _)) = split_at(seen, b'\n') {
            line.extend_from_slice(part)?;
            self.from += part.len() + 1;
            return Ok(Part::Ended);
        }
        if seen.len() == room {
            return Ok(Part::TooLong);
        }
        line.extend_from_slice(seen)?;
        self.from = self.to;
        Ok(Part::Open)
    }
}
