//! The works, and the disks that they are done on.
use crate::filling::{Filling, fill, look};
use file_disk::{FileDisk, Syncing};
use mds_out::{Disk, Memory, Outcome};
use row_words::{Answer, RowFault, Words};
use std::alloc::Global;
use std::fs;

/// The files of a disk have smaller numbers.
const FILES: u32 = 128;

/// The disk comes first: `memory`, or `synced FOLDER` or `unsynced FOLDER` for real files. `clear FOLDER` takes these
/// away, and answers how many there were.
pub(crate) fn answer(rt: &HostRuntime, mut words: Words<'_>) -> Answer {
    let alloc = rt.alloc();
    match words.word()? {
        "memory" => {
            let mut disk = Memory::new(alloc, Outcome::Old, Vec::new(alloc))?;
            work(alloc, &mut disk, words)
        }
        "synced" => on_files(rt, Syncing::Each, words),
        "unsynced" => on_files(rt, Syncing::Never, words),
        "clear" => clear(rt, words.word()?),
        _ => Err(RowFault::NotARow),
    }
}

fn clear(rt: &HostRuntime, folder: &str) -> Answer {
    let alloc = rt.alloc();
    let mut cleared: u32 = 0;
    for file in 0..FILES {
        let path = format!(in alloc; "{folder}/d0.f{file}")?;
        if fs::remove_file(rt, path.as_str()).is_ok() {
            cleared = cleared.saturating_add(1);
        }
    }
    Ok(format!(in alloc; "{cleared}")?)
}

fn on_files(rt: &HostRuntime, syncing: Syncing, mut words: Words<'_>) -> Answer {
    let alloc = rt.alloc();
    let folder = words.word()?;
    let mut disk = FileDisk::new(alloc, rt, folder, 0, syncing)?;
    work(alloc, &mut disk, words)
}

/// `fill COMMITS CHANGES EVERY ROUNDS` makes a new store with so many commits of so many rows each, which is flushed as
/// often as so many rows changed and at the end, and never where that is 0; then it is asked for the rows of so many
/// rounds. `find ROWS ROUNDS` opens the store that is there, of so many rows, and asks it for the rows of so many rounds.
fn work<D: Disk>(alloc: Global, disk: &mut D, mut words: Words<'_>) -> Answer {
    match words.word()? {
        "fill" => {
            let filling = Filling {
                commits: words.small()?,
                changes: words.small()?,
                every: words.small()?,
            };
            let rounds = words.small()?;
            words.end()?;
            let found = fill(alloc, disk, filling, rounds)?;
            Ok(format!(in alloc; "{found}")?)
        }
        "find" => {
            let rows = words.number()?;
            let rounds = words.small()?;
            words.end()?;
            let found = look(alloc, disk, rows, rounds)?;
            Ok(format!(in alloc; "{found}")?)
        }
        _ => Err(RowFault::NotARow),
    }
}
