//! Rows of `row_store`: the rows of a disk in memory. Keys are in partition 0 of directory 1.
ghost use Rattle.std.specs.Prelude.{◌≡◌, ◌<◌, ◌^◌, false};
ghost use Rattle.row_store.specs.Value.{IsReady, IsGate, HasRoot, length_of};

use crate::changed::changed;
use crate::dumps::dump;
use crate::keeping::{keep, tell};
use crate::sweeps::sweep;
use crate::{pages, roots, tables};
use gate_log::{GateLog, LogFault, Piece};
use mds_base::{Damage, StoreFault};
use mds_out::{Disk, Fuse};
use row_store::{Change, RowStore};
use row_words::{
    Answer, BETWEEN, RUNS, RowFault, Words, hex_text, new_disk, push_answer, push_run, text,
};
use std::alloc::Global;

/// The frames of a store.
pub(crate) const FRAMES: u32 = 4;

/// `disk OUTCOME FAILS ACTION; ..` on a new disk, and `each OUTCOME FAILS ACTION; ..`, which is run for each K from 0
/// on up to the first run in which no call failed; `sweep OUTCOME FAILS STEPS; STEPS` and `changed MASK STEPS`.
pub(crate) fn answer(alloc: Global, mut words: Words<'_>) -> Answer {
    match words.word()? {
        "disk" => run(alloc, words),
        "each" => each(alloc, words),
        "sweep" => sweep(alloc, words),
        "changed" => changed(alloc, words),
        _ => Err(RowFault::NotARow),
    }
}

fn each(alloc: Global, words: Words<'_>) -> Answer {
    let mut out = String::from_str(alloc, "in turn:")?;
    for number in 0..RUNS {
        let said = run(alloc, words.in_run(number))?;
        if !push_run(&mut out, number, said.as_str())? {
            break;
        }
    }
    Ok(out)
}

fn run(alloc: Global, mut words: Words<'_>) -> Answer {
    let mut disk = new_disk(alloc, &mut words)?;
    let mut out = String::new(alloc);
    for action in words.rest().split(BETWEEN) {
        let said = act_on(alloc, &mut disk, words.action(action));
        push_answer(&mut out, said)?;
    }
    Ok(out)
}

/// `up`, `find REV NAME`, `seek REV NAME`, `page REV NAME LAST LIMIT`, `state`, `body` and `commit REV NAME ROW BODY`,
/// which may have one of the first looks behind it, each of which brings the store up first; `keep STEP | ..` brings it
/// up and carries steps out, and `tell` says what it is. `create FILE` makes the file of a log, `dump FILE` prints the
/// bytes of a file; `make` as of `sorted_table`, and the actions of `root_slots` and of a disk.
fn act_on<D: Disk>(alloc: Global, disk: &mut Fuse<D>, words: Words<'_>) -> Answer {
    let mut rest = words;
    match rest.word()? {
        "up" => up(alloc, disk, Asked::Up, rest),
        "find" => up(alloc, disk, Asked::Find, rest),
        "seek" => up(alloc, disk, Asked::Seek, rest),
        "page" => up(alloc, disk, Asked::Page, rest),
        "state" => up(alloc, disk, Asked::State, rest),
        "body" => up(alloc, disk, Asked::Body, rest),
        "commit" => up(alloc, disk, Asked::Commit, rest),
        "keep" => keep(alloc, disk, rest),
        "tell" => tell(alloc, disk),
        "create" => create(alloc, disk, rest),
        "dump" => dump(alloc, disk, rest),
        "make" | "fill" => tables::act_on(alloc, disk, words),
        _ => roots::act_on(alloc, disk, words),
    }
}

fn create<D: Disk>(alloc: Global, disk: &mut D, mut words: Words<'_>) -> Answer {
    let file = words.small()?;
    match GateLog::create(disk, file) {
        Ok(_) => text(alloc, "ok"),
        Err(LogFault::OutOfMemory) => Err(RowFault::OutOfMemory),
        Err(_) => Err(RowFault::Device),
    }
}

/// What is asked of a store that was brought up.
#[derive(Clone, Copy)]
enum Asked {
    Up,
    Find,
    Seek,
    Page,
    State,
    Body,
    Commit,
}

fn up<D: Disk>(alloc: Global, disk: &mut D, asked: Asked, words: Words<'_>) -> Answer {
    match RowStore::bring_up(alloc, disk, FRAMES) {
        Ok(store) => ask(alloc, disk, store, asked, words),
        Err(fault) => refused(alloc, fault),
    }
}

fn ask<D: Disk>(
    alloc: Global,
    disk: &mut D,
    mut store: RowStore,
    asked: Asked,
    words: Words<'_>,
) -> Answer
    requires running { store.stopped ≡ false }
    requires ready { IsReady store (D.seen disk.old) (D.sizes disk.old) (D.images disk.old) }
    requires short { length_of store.force < 2 ^ 63 }
    requires gate { HasRoot store → IsGate store.force 0 (D.seen disk.old) }
{
    match asked {
        Asked::Find => return find(alloc, disk, &mut store, words),
        Asked::Seek => return pages::seek(alloc, disk, &mut store, words),
        Asked::Page => return pages::page(alloc, disk, &mut store, words),
        _ => {}
    }
    if store.is_new() {
        return text(alloc, "new");
    }
    match asked {
        Asked::State => state(alloc, disk, &mut store),
        Asked::Body => body(alloc, disk, &mut store),
        Asked::Commit => commit(alloc, disk, &mut store, words),
        _ => text(alloc, "ok"),
    }
}

/// The size of the row at a key, or `none`.
fn find<D: Disk>(alloc: Global, disk: &mut D, store: &mut RowStore, mut words: Words<'_>) -> Answer
    requires { store.old.stopped ≡ false → IsReady store.old (D.seen disk.old) (D.sizes disk.old) (D.images disk.old) }
{
    let key = tables::key_of(alloc, &mut words)?;
    match store.get(disk, &key) {
        Ok(None) => text(alloc, "none"),
        Ok(Some(attr)) => Ok(format!(in alloc; "{}", attr.size)?),
        Err(fault) => refused(alloc, fault),
    }
}

fn state<D: Disk>(alloc: Global, disk: &mut D, store: &mut RowStore) -> Answer
    requires root { HasRoot store.old }
    requires ready { store.old.stopped ≡ false
        → IsReady store.old (D.seen disk.old) (D.sizes disk.old) (D.images disk.old) }
{
    let mut bytes = Vec::new(alloc);
    match store.state_bytes(disk, &mut bytes) {
        Ok(()) => hex_text(alloc, bytes.as_slice()),
        Err(fault) => refused(alloc, fault),
    }
}

/// The first body of the log, or `none`.
fn body<D: Disk>(alloc: Global, disk: &mut D, store: &mut RowStore) -> Answer
    requires short { length_of store.old.force < 2 ^ 63 }
    requires gate { IsGate store.old.force 0 (D.seen disk.old) }
    requires ready { store.old.stopped ≡ false
        → IsReady store.old (D.seen disk.old) (D.sizes disk.old) (D.images disk.old) }
{
    let mut bytes = Vec::new(alloc);
    match store.body(disk, 0, &mut bytes) {
        Ok(None) => text(alloc, "none"),
        Ok(Some(_)) => hex_text(alloc, bytes.as_slice()),
        Err(fault) => refused(alloc, fault),
    }
}

/// Commits a row with a body, and answers what is found at its key then, or what a look gives that stands behind it.
fn commit<D: Disk>(alloc: Global, disk: &mut D, store: &mut RowStore, words: Words<'_>) -> Answer
    requires root { HasRoot store.old }
    requires running { store.old.stopped ≡ false }
    requires ready { IsReady store.old (D.seen disk.old) (D.sizes disk.old) (D.images disk.old) }
{
    let mut rest = words;
    let key = tables::key_of(alloc, &mut rest)?;
    let attr = tables::attr_of(&mut rest)?;
    let bytes = rest.hex(alloc)?;
    if bytes.len() >= 1 << 31 {
        return Err(RowFault::Refused);
    }
    let piece = Piece::of(alloc, bytes.as_slice())?;
    let changes = [Change { key, attr }];
    match store.commit(alloc, disk, &changes, &piece) {
        Ok(()) if rest.is_empty() => find(alloc, disk, store, words),
        Ok(()) => look(alloc, disk, store, rest),
        Err(fault) => refused(alloc, fault),
    }
}

fn look<D: Disk>(alloc: Global, disk: &mut D, store: &mut RowStore, mut words: Words<'_>) -> Answer
    requires { store.old.stopped ≡ false → IsReady store.old (D.seen disk.old) (D.sizes disk.old) (D.images disk.old) }
{
    match words.word()? {
        "find" => find(alloc, disk, store, words),
        "seek" => pages::seek(alloc, disk, store, words),
        "page" => pages::page(alloc, disk, store, words),
        _ => Err(RowFault::NotARow),
    }
}

/// `spelling at PLACE of FILE`, `sum at PLACE of FILE`, or the row's fault.
pub(crate) fn refused(alloc: Global, fault: StoreFault) -> Answer {
    match fault {
        StoreFault::Device => Err(RowFault::Device),
        StoreFault::Stopped => Err(RowFault::Stopped),
        StoreFault::OutOfMemory => Err(RowFault::OutOfMemory),
        StoreFault::Room => Err(RowFault::Refused),
        StoreFault::Damaged {
            file,
            offset,
            damage: Damage::Spelling,
        } => Ok(format!(in alloc; "spelling at {offset} of {file}")?),
        StoreFault::Damaged { file, offset, .. } => Ok(format!(in alloc;
            "sum at {offset} of {file}"
        )?),
    }
}
