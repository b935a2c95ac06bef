//! The files of a disk in memory, found by their numbers.
ghost use Rattle.std.specs.Prelude.{◌≡◌, ◌+◌, ◌^◌, ◌<◌, ◌≤◌, length, take, drop, MatchOption, IfOk, OnOk, OnErr};
ghost use Rattle.mds_out.specs.Change.{Write, Cut};
ghost use Rattle.mds_out.specs.Content.{bytes_of};
ghost use Rattle.mds_out.specs.Past.{Changed, Synced, Restarted};
ghost use Rattle.mds_out.specs.Slots.{content_in, HaveActed, AreAsBefore, HasNone, IsFirst};

use crate::Outcome;
use crate::file::File;
use std::alloc::{AllocError, Global};

#[derive(Drop)]
pub(crate) struct Slot {
    pub(crate) number: u32,
    pub(crate) file: File,
}

/// The first slot of this number.
pub(crate) fn place_of(slots: &[Slot], number: u32) -> Option<usize>
    ensures { MatchOption result (HasNone number slots.now) (IsFirst number slots.now) }
{
    for (place, slot) in slots.iter().enumerate() {
        if slot.number == number {
            return Some(place);
        }
    }
    None
}

/// The length of one file.
pub(crate) fn length_of(slots: &[Slot], number: u32) -> usize
    ensures len { result ≡ length (bytes_of (content_in slots.now number)) }
    ensures short { result < 2 ^ 63 }
{
    match place_of(slots, number) {
        Some(place) => slots[place].file.len(),
        None => 0,
    }
}

/// Fills `into` with the bytes of one file from `at` on.
pub(crate) fn read_file(slots: &[Slot], number: u32, at: usize, into: &mut [u8])
    requires { at + length into.old ≤ length (bytes_of (content_in slots.now number)) }
    ensures { into.new ≡ take (length into.old) (drop at (bytes_of (content_in slots.now number))) }
{
    if let Some(place) = place_of(slots, number) {
        slots[place].file.read(at, into);
    }
}

// The slot of this number, which is made where there is none.
fn place_for(alloc: Global, slots: &mut Vec<Slot>, number: u32) -> Result<usize, AllocError>
    ensures found { IfOk result (IsFirst number slots.new.items) }
    ensures same { AreAsBefore slots.old.items slots.new.items }
{
    if let Some(place) = place_of(slots, number) {
        return Ok(place);
    }
    let file = File::new(alloc);
    slots.push(Slot { number, file })?;
    Ok(slots.len() - 1)
}

/// Writes to one file.
pub(crate) fn write_file(
    alloc: Global,
    slots: &mut Vec<Slot>,
    number: u32,
    at: usize,
    bytes: &[u8],
) -> Result<(), AllocError>
    requires { at + length bytes.now < 2 ^ 63 }
    ensures ok { OnOk result
        ((outcome : _) → HaveActed outcome (Changed number (Write at bytes.now)) slots.old.items slots.new.items) }
    ensures err { OnErr result (AreAsBefore slots.old.items slots.new.items) }
{
    let place = place_for(alloc, slots, number)?;
    slots[place].file.write(at, bytes)
}

/// Cuts one file.
pub(crate) fn cut_file(
    alloc: Global,
    slots: &mut Vec<Slot>,
    number: u32,
    to: usize,
) -> Result<(), AllocError>
    ensures ok { OnOk result
        ((outcome : _) → HaveActed outcome (Changed number (Cut to)) slots.old.items slots.new.items) }
    ensures err { OnErr result (AreAsBefore slots.old.items slots.new.items) }
{
    let place = place_for(alloc, slots, number)?;
    slots[place].file.cut(to)
}

/// Syncs one file.
pub(crate) fn sync_file(slots: &mut Vec<Slot>, number: u32)
    ensures { (outcome : _) → HaveActed outcome (Synced number) slots.old.items slots.new.items }
{
    if let Some(place) = place_of(slots, number) {
        slots[place].file.sync();
    }
}

/// Brings each file to what the outcome leaves.
pub(crate) fn restart_files(slots: &mut Vec<Slot>, outcome: Outcome)
    ensures { HaveActed outcome Restarted slots.old.items slots.new.items }
{
    for place in 0..slots.len() {
        slots[place].file.restart(outcome);
    }
}
