//! Rows of `node_store`: disks on which server 0 of 1 is brought up.
use mds_base::{Damage, Setup, StoreFault};
use mds_out::{Disk, Fuse, Memory, Outcome};
use node_store::{NodeStore, Refused};
use row_words::{Answer, RowFault, Words, bytes_of, hex_text};
use std::alloc::Global;

const SETUP: Setup = Setup {
    servers: 1,
    threshold: 8000,
    lease: 1000,
    clients: 1,
};

/// `open BYTES`: the bytes are those of file 1. The next directory number and the file's bytes then; or where the disk
/// is damaged.
pub(crate) fn answer(alloc: Global, mut words: Words<'_>) -> Answer {
    match words.word()? {
        "open" => open_row(alloc, words),
        _ => Err(RowFault::NotARow),
    }
}

fn open_row(alloc: Global, mut words: Words<'_>) -> Answer {
    let bytes = words.hex(alloc)?;
    words.end()?;
    let disk = disk_with(alloc, bytes.as_slice())?;
    match NodeStore::bring_up(alloc, disk, 0, SETUP) {
        Ok(store) => opened(alloc, store),
        Err(Refused { fault, .. }) => refused(alloc, fault),
    }
}

/// A disk whose file 1 has these bytes.
fn disk_with(alloc: Global, bytes: &[u8]) -> Result<Memory, RowFault> {
    if bytes.len() >= 1 << 32 {
        return Err(RowFault::Refused);
    }
    let mut disk = Memory::new(alloc, Outcome::Old, Vec::new(alloc))?;
    disk.write_at(1, 0, bytes)?;
    Ok(disk)
}

fn opened(alloc: Global, store: NodeStore<Memory>) -> Answer {
    if store.is_down() {
        return Err(RowFault::Stopped);
    }
    let next = store.next_id();
    let mut disk = Fuse::new(store.into_disk());
    let bytes = bytes_of(alloc, &mut disk, 1)?;
    let file = hex_text(alloc, bytes.as_slice())?;
    Ok(format!(in alloc; "next {next}, file {}", file.as_str())?)
}

fn refused(alloc: Global, fault: StoreFault) -> Answer {
    match fault {
        StoreFault::Damaged {
            file,
            offset,
            damage,
        } => damaged(alloc, file, offset, damage),
        StoreFault::Device => Err(RowFault::Device),
        StoreFault::OutOfMemory => Err(RowFault::OutOfMemory),
        StoreFault::Stopped | StoreFault::Room => Err(RowFault::Stopped),
    }
}

fn damaged(alloc: Global, file: u32, offset: u64, damage: Damage) -> Answer {
    match damage {
        Damage::Spelling => Ok(format!(in alloc; "damaged at {offset} of file {file}")?),
        Damage::Head { .. } => Ok(format!(in alloc; "another head at {offset} of file {file}")?),
        Damage::Sum { .. } => Ok(format!(in alloc; "another sum at {offset} of file {file}")?),
    }
}
