//! Actions on a disk in memory that fails and crashes, and rows of such a disk alone.
ghost use Rattle.std.specs.Prelude.{◌≡◌};

use crate::row_fault::{Answer, RowFault};
use crate::words::{BETWEEN, Words, hex_text, push_answer, text};
use mds_out::{Disk, Fuse, Memory, Outcome};
use std::alloc::{AllocError, Global};
use std::fmt::Write;

/// How often a row is run at most.
pub const RUNS: u64 = 100;

/// `disk OUTCOME FAILS ACTION; ..` on a new disk, and `each OUTCOME FAILS ACTION; ..`, which is run for each K from 0
/// on up to the first run in which no call failed.
pub fn disk_row(alloc: Global, mut words: Words<'_>) -> Answer {
    match words.word()? {
        "disk" => run(alloc, words),
        "each" => each(alloc, words),
        _ => Err(RowFault::NotARow),
    }
}

fn each(alloc: Global, words: Words<'_>) -> Answer {
    let mut out = String::from_str(alloc, "in turn:")?;
    for number in 0..RUNS {
        let said = run(alloc, words.in_run(number))?;
        if !push_run(&mut out, number, said.as_str())? {
            break;
        }
    }
    Ok(out)
}

/// The answers of one run more, at the end of those before it; says whether a call failed in it.
pub fn push_run(out: &mut String, number: u64, said: &str) -> Result<bool, AllocError> {
    write!(out, "\n  {number}: {said}")?;
    Ok(said.contains("device"))
}

fn run(alloc: Global, mut words: Words<'_>) -> Answer {
    let mut disk = new_disk(alloc, &mut words)?;
    let mut out = String::new(alloc);
    for action in words.rest().split(BETWEEN) {
        let said = act(alloc, &mut disk, words.action(action));
        push_answer(&mut out, said)?;
    }
    Ok(out)
}

/// A new disk of the outcome `old`, `new` or `mixed`, of which the calls with these numbers fail.
pub fn new_disk(alloc: Global, words: &mut Words<'_>) -> Result<Fuse<Memory>, RowFault> {
    let outcome = match words.word()? {
        "old" => Outcome::Old,
        "new" => Outcome::New,
        "mixed" => Outcome::Mixed,
        _ => return Err(RowFault::NotARow),
    };
    let fails = words.list(alloc)?;
    let disk = Memory::new(alloc, outcome, fails)?;
    Ok(Fuse::new(disk))
}

/// `write FILE AT BYTES`, `cut FILE TO` and `read FILE` (each asks for the length first), `length FILE`, `sync FILE`,
/// `restart`, `arm CALLS`, `mend`.
pub fn act<D: Disk>(alloc: Global, disk: &mut Fuse<D>, mut words: Words<'_>) -> Answer {
    match words.word()? {
        "write" => write_at(alloc, disk, words),
        "cut" => cut(alloc, disk, words),
        "read" => read(alloc, disk, words),
        "length" => length(alloc, disk, words),
        "sync" => sync(alloc, disk, words),
        "restart" => restart(alloc, disk, words),
        "arm" => arm(alloc, disk, words),
        "mend" => mend(alloc, disk, words),
        _ => Err(RowFault::NotARow),
    }
}

fn write_at<D: Disk>(alloc: Global, disk: &mut Fuse<D>, mut words: Words<'_>) -> Answer {
    let file = words.small()?;
    let at = words.number()?;
    let bytes = words.hex(alloc)?;
    words.end()?;
    write_within(disk, file, at, bytes.as_slice())?;
    text(alloc, "ok")
}

fn write_within<D: Disk>(
    disk: &mut Fuse<D>,
    file: u32,
    at: u64,
    bytes: &[u8],
) -> Result<(), RowFault> {
    let size = disk.length(file)?;
    if at > size || bytes.len() >= 1 << 32 || at >= 1 << 62 {
        return Err(RowFault::Refused);
    }
    disk.write_at(file, at, bytes)?;
    Ok(())
}

fn cut<D: Disk>(alloc: Global, disk: &mut Fuse<D>, mut words: Words<'_>) -> Answer {
    let file = words.small()?;
    let to = words.number()?;
    words.end()?;
    cut_within(disk, file, to)?;
    text(alloc, "ok")
}

fn cut_within<D: Disk>(disk: &mut Fuse<D>, file: u32, to: u64) -> Result<(), RowFault> {
    let size = disk.length(file)?;
    if to > size {
        return Err(RowFault::Refused);
    }
    disk.cut(file, to)?;
    Ok(())
}

fn read<D: Disk>(alloc: Global, disk: &mut Fuse<D>, mut words: Words<'_>) -> Answer {
    let file = words.small()?;
    words.end()?;
    let bytes = bytes_of(alloc, disk, file)?;
    hex_text(alloc, bytes.as_slice())
}

/// All bytes of a file.
pub fn bytes_of<D: Disk>(
    alloc: Global,
    disk: &mut Fuse<D>,
    file: u32,
) -> Result<Vec<u8>, RowFault> {
    let size = disk.length(file)?;
    let mut bytes = vec![in alloc; 0; size as usize]?;
    disk.read(file, 0, &mut bytes)?;
    Ok(bytes)
}

fn length<D: Disk>(alloc: Global, disk: &mut Fuse<D>, mut words: Words<'_>) -> Answer {
    let file = words.small()?;
    words.end()?;
    let size = disk.length(file)?;
    Ok(format!(in alloc; "{size}")?)
}

fn sync<D: Disk>(alloc: Global, disk: &mut Fuse<D>, mut words: Words<'_>) -> Answer {
    let file = words.small()?;
    words.end()?;
    disk.sync(file)?;
    text(alloc, "ok")
}

fn restart<D: Disk>(alloc: Global, disk: &mut Fuse<D>, words: Words<'_>) -> Answer {
    words.end()?;
    disk.restart()?;
    text(alloc, "ok")
}

/// From here on so many calls of the disk pass.
pub fn arm<D: Disk>(alloc: Global, disk: &mut Fuse<D>, mut words: Words<'_>) -> Answer
    ensures { disk.new.inner ≡ disk.old.inner }
{
    let calls = words.number()?;
    words.end()?;
    disk.arm(calls);
    text(alloc, "ok")
}

/// From here on all calls of the disk pass.
pub fn mend<D: Disk>(alloc: Global, disk: &mut Fuse<D>, words: Words<'_>) -> Answer
    ensures { disk.new.inner ≡ disk.old.inner }
{
    words.end()?;
    disk.mend();
    text(alloc, "ok")
}
