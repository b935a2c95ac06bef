//! The file of a state: the state, and its MD5.
ghost use Rattle.std.specs.Prelude.{◌≡◌, ◌-◌, ◌≤◌, ◌<◌, ◌^◌, ◌↔◌, IsTrue, IfOk, IfErr, OnOk, length};
ghost use Rattle.std.specs.Prelude.{◌+◌};
ghost use Rattle.mds_out.specs.Known.{OnTold};
ghost use Rattle.row_store.specs.Answers.{IsStoreReading, IsStoreWriting, IsMemoryAnswer};
ghost use Rattle.row_store.specs.Damages.{IsRefusal, IsStateBad};
ghost use Rattle.row_store.specs.Store.{HoldsState};
ghost use Rattle.sorted_table.specs.Tables.{IsDurable};

use crate::SUM_BYTES;
use crate::calls::{length_of, read_front};
use crate::faults::of_disk;
use crate::writes::write_whole;
use md5::{Digest, Md5};
use mds_base::{Damage, StoreFault};
use mds_out::Disk;
use std::alloc::{AllocError, Global};

/// Puts the state of a file into `into`, in place of what was there. After a refusal it holds any bytes.
pub(crate) fn read_state<D: Disk>(
    disk: &mut D,
    file: u32,
    into: &mut Vec<u8>,
) -> Result<(), StoreFault>
    ensures state { OnOk result (OnTold (D.seen disk.old file) (HoldsState into.new.items)) }
    ensures refused { IfErr result
        (IsRefusal (λ bad offset damage. (bad ≡ file) × OnTold (D.seen disk.old file) (IsStateBad offset damage))) }
    ensures call { IsStoreReading D.seen D.sizes D.images D.moment D.images_since D.faults D.lasts D.fails disk.old
        disk.new result }
{
    let size = length_of(disk, file)?;
    if size < SUM_BYTES as u64 {
        return Err(StoreFault::Damaged {
            file,
            offset: 0,
            damage: Damage::Spelling,
        });
    }
    into.clear();
    into.resize(size as usize, 0)?;
    read_front(disk, file, into)?;
    match take_sum(into) {
        Ok(()) => Ok(()),
        Err(damage) => Err(StoreFault::Damaged {
            file,
            offset: size - SUM_BYTES as u64,
            damage,
        }),
    }
}

/// Writes the file of a state, in place of what it held, and syncs it: three calls of the disk at most. After `Ok`
/// every crash leaves it so.
pub(crate) fn write_state<D: Disk>(
    alloc: Global,
    disk: &mut D,
    file: u32,
    state: &[u8],
) -> Result<(), StoreFault>
    ensures state { OnOk result (OnTold (D.seen disk.new file) (HoldsState state.now)) }
    ensures durable { OnOk result (IsDurable file (D.seen disk.new) (D.images disk.new)) }
    ensures answer { IsMemoryAnswer result }
    ensures call { IsStoreWriting D.seen D.sizes D.images D.moment D.images_since D.faults D.lasts D.fails file disk.old
        disk.new result }
    ensures asked { D.asked disk.new ≤ D.asked disk.old + 3 }
{
    let bytes = with_sum(alloc, state)?;
    match write_whole(disk, file, &bytes) {
        Ok(()) => Ok(()),
        Err(fault) => Err(of_disk(fault)),
    }
}

// A state, and its sum behind it.
fn with_sum(alloc: Global, state: &[u8]) -> Result<Vec<u8>, AllocError>
    ensures { IfOk result (λ bytes. HoldsState state.now bytes.items) }
{
    let mut bytes = Vec::new(alloc);
    bytes.extend_from_slice(state)?;
    bytes.extend_from_slice(&Md5::digest(state))?;
    Ok(bytes)
}

// Takes the sum off the bytes of a state's file, where it is theirs.
fn take_sum(bytes: &mut Vec<u8>) -> Result<(), Damage>
    requires { SUM_BYTES ≤ length bytes.old.items }
    ensures state { OnOk result (HoldsState bytes.new.items bytes.old.items) }
    ensures bad { IfErr result (λ damage. IsStateBad (length bytes.old.items - SUM_BYTES) damage bytes.old.items) }
{
    let offset = bytes.len() - SUM_BYTES;
    let mut kept = [0; SUM_BYTES];
    kept.copy_from_slice(&bytes[offset..]);
    let found = Md5::digest(&bytes[..offset]);
    if !is_same(&kept, &found) {
        return Err(Damage::Sum { kept, found });
    }
    bytes.truncate(offset);
    Ok(())
}

fn is_same(a: &[u8], b: &[u8]) -> bool
    ensures { IsTrue result ↔ (a.now ≡ b.now) }
{
    a == b
}
