//! Rows of `row_store` in which a store stays open through several steps, as a server keeps it. The body of a commit is
//! the step's own words, and what the log holds is redone when the store is opened. Keys are in partition 0 of
//! directory 1.
ghost use Rattle.std.specs.Prelude.{◌≡◌, ◌<◌, ◌^◌, false, IfOk, OnOk};
ghost use Rattle.row_store.specs.Rows.{AreMarked};
ghost use Rattle.row_store.specs.Value.{IsReady, IsGate, StaysReady, length_of};

use crate::pages::all_rows;
use crate::store::{FRAMES, refused};
use crate::tables::{attr_of, key_of};
use gate_log::Piece;
use mds_base::{RowKey, StoreFault};
use mds_out::Disk;
use row_store::{Change, RowStore};
use row_words::{Answer, RowFault, Words, hex_text, text};
use std::alloc::{AllocError, AllocFailed, Global};
use std::fmt::Write;
use std::str;

/// What stands between two steps, and between their answers.
const STEP: &str = " | ";

/// The most bodies of a log.
const BODIES: u32 = 1000;

/// Why a store was not opened, or why what its log holds was not redone.
pub(crate) enum Trouble {
    /// The store is damaged, or its disk failed.
    Store(StoreFault),
    /// A body is no step that commits.
    Row(RowFault),
}

impl From<StoreFault> for Trouble {
    fn from(fault: StoreFault) -> Trouble {
        Trouble::Store(fault)
    }
}

impl From<RowFault> for Trouble {
    fn from(fault: RowFault) -> Trouble {
        Trouble::Row(fault)
    }
}

impl From<AllocError> for Trouble {
    fn from(_: AllocError) -> Trouble {
        Trouble::Row(RowFault::OutOfMemory)
    }
}

impl<T: Drop> From<AllocFailed<T>> for Trouble {
    fn from(_: AllocFailed<T>) -> Trouble {
        Trouble::Row(RowFault::OutOfMemory)
    }
}

/// Opens the store of a disk and carries steps out on it, up to the first that is refused: `commit REV NAME ROW`,
/// `fill FROM TO NAME ROW` (one commit of the rows of a name whose reversed hashes are from one up to before another),
/// `flush STATE`, `turn BLOCKS` (`more` or `done`) and `rows`.
pub(crate) fn keep<D: Disk>(alloc: Global, disk: &mut D, words: Words<'_>) -> Answer {
    match opened(alloc, disk) {
        Ok((store, _)) => carry_out(alloc, disk, store, words),
        Err(trouble) => said_of(alloc, trouble),
    }
}

/// What the store of a disk is, once it is opened: `new`, or its state, how many bodies its log has, and its rows.
pub(crate) fn tell<D: Disk>(alloc: Global, disk: &mut D) -> Answer {
    match opened(alloc, disk) {
        Ok((mut store, bodies)) => told(alloc, disk, &mut store, bodies),
        Err(trouble) => said_of(alloc, trouble),
    }
}

fn said_of(alloc: Global, trouble: Trouble) -> Answer {
    match trouble {
        Trouble::Store(fault) => refused(alloc, fault),
        Trouble::Row(fault) => Err(fault),
    }
}

// Opens the store of a disk, and redoes the bodies of its log; how many there were.
fn opened<D: Disk>(alloc: Global, disk: &mut D) -> Result<(RowStore, usize), Trouble>
    ensures { IfOk result
        (λ opened. (opened.0.stopped ≡ false)
        × IsReady opened.0 (D.seen disk.new) (D.sizes disk.new) (D.images disk.new)) }
{
    let mut store = RowStore::bring_up(alloc, disk, FRAMES)?;
    if store.is_new() {
        return Ok((store, 0));
    }
    let bodies = bodies_of(alloc, disk, &mut store)?;
    redo_all(alloc, &mut store, &bodies)?;
    Ok((store, bodies.len()))
}

// The bodies of the log in force.
fn bodies_of<D: Disk>(
    alloc: Global,
    disk: &mut D,
    store: &mut RowStore,
) -> Result<Vec<Vec<u8>>, Trouble>
    requires running { store.old.stopped ≡ false }
    requires ready { IsReady store.old (D.seen disk.old) (D.sizes disk.old) (D.images disk.old) }
    requires short { length_of store.old.force < 2 ^ 63 }
    requires gate { IsGate store.old.force 0 (D.seen disk.old) }
    ensures { OnOk result
        ((store.new.stopped ≡ false)
        × IsReady store.new (D.seen disk.new) (D.sizes disk.new) (D.images disk.new)) }
{
    let mut bodies = Vec::new(alloc);
    let mut at = 0;
    for _number in 0..BODIES {
        let mut body = Vec::new(alloc);
        match store.body(disk, at, &mut body)? {
            None => return Ok(bodies),
            Some(next) => {
                bodies.push(body)?;
                at = next;
            }
        }
    }
    Err(Trouble::Row(RowFault::Refused))
}

fn redo_all(alloc: Global, store: &mut RowStore, bodies: &[Vec<u8>]) -> Result<(), Trouble>
    ensures { OnOk result (StaysReady store.old store.new × (store.new.stopped ≡ store.old.stopped)) }
{
    for body in bodies {
        redo(alloc, store, body)?;
    }
    Ok(())
}

fn redo(alloc: Global, store: &mut RowStore, body: &[u8]) -> Result<(), Trouble>
    ensures { OnOk result (StaysReady store.old store.new × (store.new.stopped ≡ store.old.stopped)) }
{
    let Ok(body) = str::from_utf8(body) else {
        return Err(Trouble::Row(RowFault::NotARow));
    };
    let changes = changes_of(alloc, Words::new(body, 0))?;
    store.redo(alloc, &changes)?;
    Ok(())
}

// What a step commits.
fn changes_of(alloc: Global, mut words: Words<'_>) -> Result<Vec<Change>, RowFault>
    ensures { IfOk result (λ changes. AreMarked changes.items) }
{
    match words.word()? {
        "commit" => one_change(alloc, words),
        "fill" => many_changes(alloc, words),
        _ => Err(RowFault::NotARow),
    }
}

fn one_change(alloc: Global, mut words: Words<'_>) -> Result<Vec<Change>, RowFault>
    ensures { IfOk result (λ changes. AreMarked changes.items) }
{
    let key = key_of(alloc, &mut words)?;
    let attr = attr_of(&mut words)?;
    words.end()?;
    Ok(vec![in alloc; Change { key, attr }]?)
}

fn many_changes(alloc: Global, mut words: Words<'_>) -> Result<Vec<Change>, RowFault>
    ensures { IfOk result (λ changes. AreMarked changes.items) }
{
    let from = words.number()?;
    let to = words.number()?;
    let named = words;
    words.word()?;
    let attr = attr_of(&mut words)?;
    words.end()?;
    let mut changes = Vec::new(alloc);
    for rev in from..to {
        let mut name = named;
        let key = RowKey {
            dir: 1,
            part: 0,
            rev,
            name: name.name(alloc)?,
        };
        changes.push(Change { key, attr })?;
    }
    Ok(changes)
}

fn told<D: Disk>(alloc: Global, disk: &mut D, store: &mut RowStore, bodies: usize) -> Answer
    requires running { store.old.stopped ≡ false }
    requires ready { IsReady store.old (D.seen disk.old) (D.sizes disk.old) (D.images disk.old) }
{
    if store.is_new() {
        return text(alloc, "new");
    }
    let mut bytes = Vec::new(alloc);
    match store.state_bytes(disk, &mut bytes) {
        Ok(()) => {
            let state = hex_text(alloc, &bytes)?;
            let rows = all_rows(alloc, disk, store)?;
            Ok(format!(in alloc; "state {state}, bodies {bodies}, rows {rows}")?)
        }
        Err(fault) => refused(alloc, fault),
    }
}

fn carry_out<D: Disk>(alloc: Global, disk: &mut D, mut store: RowStore, words: Words<'_>) -> Answer
    requires running { store.stopped ≡ false }
    requires ready { IsReady store (D.seen disk.old) (D.sizes disk.old) (D.images disk.old) }
{
    let mut out = String::new(alloc);
    for step in words.rest().split(STEP) {
        match carry(alloc, disk, &mut store, words.action(step)) {
            Ok(said) => push_step(&mut out, said.as_str())?,
            Err(fault) => return ended(out, fault),
        }
    }
    Ok(out)
}

fn push_step(out: &mut String, said: &str) -> Result<(), AllocError> {
    if !out.as_str().is_empty() {
        out.push_str(STEP)?;
    }
    out.push_str(said)
}

// The answers up to a step that was refused.
fn ended(mut out: String, fault: RowFault) -> Answer {
    if let RowFault::OutOfMemory = fault {
        return Err(fault);
    }
    if !out.as_str().is_empty() {
        out.push_str(STEP)?;
    }
    write!(out, "{fault}")?;
    Ok(out)
}

fn carry<D: Disk>(alloc: Global, disk: &mut D, store: &mut RowStore, words: Words<'_>) -> Answer
    requires running { store.old.stopped ≡ false }
    requires ready { IsReady store.old (D.seen disk.old) (D.sizes disk.old) (D.images disk.old) }
    ensures running { OnOk result (store.new.stopped ≡ false) }
    ensures ready { OnOk result (IsReady store.new (D.seen disk.new) (D.sizes disk.new) (D.images disk.new)) }
{
    let mut rest = words;
    match rest.word()? {
        "commit" | "fill" => commit(alloc, disk, store, words),
        "flush" => flush(alloc, disk, store, rest),
        "turn" => turn(alloc, disk, store, rest),
        "rows" => all_rows(alloc, disk, store),
        _ => Err(RowFault::NotARow),
    }
}

fn commit<D: Disk>(alloc: Global, disk: &mut D, store: &mut RowStore, words: Words<'_>) -> Answer
    requires running { store.old.stopped ≡ false }
    requires ready { IsReady store.old (D.seen disk.old) (D.sizes disk.old) (D.images disk.old) }
    ensures running { OnOk result (store.new.stopped ≡ false) }
    ensures ready { OnOk result (IsReady store.new (D.seen disk.new) (D.sizes disk.new) (D.images disk.new)) }
{
    let body = words.rest().as_bytes();
    if store.is_new() || body.len() >= 1 << 31 {
        return Err(RowFault::Refused);
    }
    let changes = changes_of(alloc, words)?;
    let piece = Piece::of(alloc, body)?;
    match store.commit(alloc, disk, &changes, &piece) {
        Ok(()) => text(alloc, "ok"),
        Err(fault) => Err(fault_of(fault)),
    }
}

fn flush<D: Disk>(alloc: Global, disk: &mut D, store: &mut RowStore, mut words: Words<'_>) -> Answer
    requires running { store.old.stopped ≡ false }
    requires ready { IsReady store.old (D.seen disk.old) (D.sizes disk.old) (D.images disk.old) }
    ensures running { OnOk result (store.new.stopped ≡ false) }
    ensures ready { OnOk result (IsReady store.new (D.seen disk.new) (D.sizes disk.new) (D.images disk.new)) }
{
    let state = words.hex(alloc)?;
    match store.flush(alloc, disk, &state) {
        Ok(()) => text(alloc, "ok"),
        Err(fault) => Err(fault_of(fault)),
    }
}

fn turn<D: Disk>(alloc: Global, disk: &mut D, store: &mut RowStore, mut words: Words<'_>) -> Answer
    requires running { store.old.stopped ≡ false }
    requires ready { IsReady store.old (D.seen disk.old) (D.sizes disk.old) (D.images disk.old) }
    ensures running { OnOk result (store.new.stopped ≡ false) }
    ensures ready { OnOk result (IsReady store.new (D.seen disk.new) (D.sizes disk.new) (D.images disk.new)) }
{
    let blocks = words.small()?;
    if blocks == 0 {
        return Err(RowFault::Refused);
    }
    match store.merge_turn(alloc, disk, blocks) {
        Ok(true) => text(alloc, "more"),
        Ok(false) => text(alloc, "done"),
        Err(fault) => Err(fault_of(fault)),
    }
}

/// The fault of a row, of a store whose disk nobody damaged.
pub(crate) fn fault_of(fault: StoreFault) -> RowFault {
    match fault {
        StoreFault::Device => RowFault::Device,
        StoreFault::Stopped => RowFault::Stopped,
        StoreFault::OutOfMemory => RowFault::OutOfMemory,
        StoreFault::Room | StoreFault::Damaged { .. } => RowFault::Refused,
    }
}
