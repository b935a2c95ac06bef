//! Reads the next line of a script.
ghost use Rattle.std.specs.Prelude.{◌≡◌, [], ◌∷◌, ◌++◌, List, ℕ, IfOk, IfErr, OnOk, MatchOption};
ghost use Rattle.std.specs.Io.KnownBytes.{Appends};
ghost use Rattle.mds_out.specs.Fault.{HasCause};
ghost use Rattle.mds_out.specs.Stream.{TakesFront};
ghost use Rattle.mds_cli.specs.Lines.{Lacks, without_return};
ghost use Rattle.mds_cli.specs.Streams.{moment, ReadsLine, StopsLine, has_feed, is_line};

use crate::reader::{Part, Reader};
use mds_out::{Failed, Sink, Source, write_whole};
use std::alloc::AllocError;

/// How a line was found.
#[derive(Clone, Copy)]
pub(crate) enum Line {
    /// With its line feed.
    Ended,
    /// Without one, at the end of the input.
    Last,
    /// There was none left.
    None,
}

impl Line {
    /// Whether there was one.
    pub(crate) fn is_line(self) -> bool
        ensures { result ≡ is_line self }
    {
        match self {
            Line::Ended | Line::Last => true,
            Line::None => false,
        }
    }

    /// Whether there was one with a line feed, so that more may come.
    pub(crate) fn has_feed(self) -> bool
        ensures { result ≡ has_feed self }
    {
        match self {
            Line::Ended => true,
            Line::Last | Line::None => false,
        }
    }
}

/// Why no line was found.
#[derive(Clone, Copy)]
pub(crate) enum Stop {
    /// The line is longer than a line may be.
    TooLong,
    /// The source failed.
    ReadFault,
    /// The sink failed.
    WriteFault,
    /// There was no memory for the line.
    OutOfMemory,
}

impl From<AllocError> for Stop {
    ghost use Rattle.mds_cli.specs.declared.line.Stop.{Stop};

    ghost from_gives = { λ _ stop. stop ≡ Stop.OutOfMemory };

    fn from(_: AllocError) -> Stop {
        Stop::OutOfMemory
    }
}

/// Reads the next line into `line`, without its line feed. Before each read of the source what is pending is written,
/// so that nobody waits for an answer that is made.
pub(crate) fn next_line<S: Source, K: Sink>(
    reader: &mut Reader,
    line: &mut Vec<u8>,
    pending: &mut Vec<u8>,
    input: &mut S,
    output: &mut K,
) -> Result<Line, Stop>
    ensures ok { IfOk result (λ found. ReadsLine found
        (moment S.left S.faults K.taken K.faults input.old output.old reader.old pending.old.items)
        (moment S.left S.faults K.taken K.faults input.new output.new reader.new pending.new.items)
        line.new.items) }
    ensures err { IfErr result (λ stop. StopsLine stop
        (moment S.left S.faults K.taken K.faults input.old output.old reader.old pending.old.items)
        (moment S.left S.faults K.taken K.faults input.new output.new reader.new pending.new.items)) }
{
    line.clear();
    'parts: loop {
        match reader.take_part(line)? {
            Part::Ended => return Ok(Line::Ended),
            Part::TooLong => return Err(Stop::TooLong),
            Part::Open => {}
        }
        match flush(pending, output) {
            Ok(()) => {}
            Err(Failed) => return Err(Stop::WriteFault),
        }
        match reader.fill(input) {
            Ok(true) => {}
            Ok(false) if line.is_empty() => return Ok(Line::None),
            Ok(false) => return Ok(Line::Last),
            Err(Failed) => return Err(Stop::ReadFault),
        }
    }
}

/// Writes what is pending. Where the sink fails it has taken a front of it.
pub(crate) fn flush<K: Sink>(pending: &mut Vec<u8>, output: &mut K) -> Result<(), Failed>
    ensures whole { OnOk result (Appends (K.taken output.old) (K.taken output.new) pending.old.items) }
    ensures none { OnOk result (pending.new.items ≡ []) }
    ensures front { TakesFront (K.taken output.old) (K.taken output.new) pending.old.items }
    ensures cause { HasCause (K.faults output.old) (K.faults output.new) result }
{
    write_whole(output, pending)?;
    pending.clear();
    Ok(())
}

/// The bytes before the first `stop` and those behind it, where there is one.
pub(crate) fn split_at(bytes: &[u8], stop: u8) -> Option<(&[u8], &[u8])>
    ensures { MatchOption result (Lacks stop bytes.now)
        (λ p. Lacks stop p.0.now × (bytes.now ≡ p.0.now ++ stop ∷ p.1.now)) }
{
    let Some(at) = memchr::memchr(stop, bytes) else {
        return None;
    };
    Some((&bytes[..at], &bytes[at + 1..]))
}

/// A line without the carriage return at its end.
pub(crate) fn without_return(line: &[u8]) -> &[u8]
    ensures { result.now ≡ without_return line.now }
{
    before_return(line).unwrap_or(line)
}

/// What stands before the carriage return at a line's end, where there is one.
fn before_return(line: &[u8]) -> Option<&[u8]>
    ensures { MatchOption result ((front : List ℕ) → line.now ≡ front ++ 13 ∷ [] → ⊥)
        (λ front. line.now ≡ front.now ++ 13 ∷ []) }
{
    line.strip_suffix(b"\r")
}
