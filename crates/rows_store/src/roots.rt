//! Rows of `root_slots`: the root of a disk in memory.
ghost use Rattle.std.specs.Prelude.{◌≡◌, true, false, None};
ghost use Rattle.root_slots.specs.Root.{is_root};
ghost use Rattle.root_slots.specs.Slots.{IsAbove, IsReady};
ghost use Rattle.root_slots.specs.declared.root_slots.Step.TheVariants.{Begun};

use mds_out::{Disk, Fuse};
use root_slots::{FileList, Root, RootFault, RootSlots, SlotDamage};
use row_words::{
    Answer, BETWEEN, RUNS, RowFault, Words, act, new_disk, push_answer, push_run, text,
};
use std::alloc::{AllocError, Global};
use std::fmt::Write;

/// `disk OUTCOME FAILS ACTION; ..` on a new disk, and `each OUTCOME FAILS ACTION; ..`, which is run for each K from 0
/// on up to the first run in which no call failed.
pub(crate) fn answer(alloc: Global, mut words: Words<'_>) -> Answer {
    match words.word()? {
        "disk" => run(alloc, words),
        "each" => each(alloc, words),
        _ => Err(RowFault::NotARow),
    }
}

fn each(alloc: Global, words: Words<'_>) -> Answer {
    let mut out = String::from_str(alloc, "in turn:")?;
    for number in 0..RUNS {
        let said = run(alloc, words.in_run(number))?;
        if !push_run(&mut out, number, said.as_str())? {
            break;
        }
    }
    Ok(out)
}

fn run(alloc: Global, mut words: Words<'_>) -> Answer {
    let mut disk = new_disk(alloc, &mut words)?;
    let mut out = String::new(alloc);
    for action in words.rest().split(BETWEEN) {
        let said = act_on(alloc, &mut disk, words.action(action));
        push_answer(&mut out, said)?;
    }
    Ok(out)
}

/// `root` and `change NUMBER STATE LOG COUNT TABLE..`, which reads the root first, and the actions of a disk.
pub(crate) fn act_on<D: Disk>(alloc: Global, disk: &mut Fuse<D>, words: Words<'_>) -> Answer {
    let mut rest = words;
    match rest.word()? {
        "root" => in_force(alloc, disk),
        "change" => change(alloc, disk, rest),
        _ => act(alloc, disk, words),
    }
}

fn in_force<D: Disk>(alloc: Global, disk: &mut D) -> Answer {
    match RootSlots::read(alloc, disk) {
        Ok((_, None)) => text(alloc, "none"),
        Ok((_, Some(root))) => Ok(root_text(alloc, &root)?),
        Err(fault) => refused(alloc, fault),
    }
}

/// The number, the file of the state, that of the log, and those of the tables.
fn root_text(alloc: Global, root: &Root) -> Result<String, AllocError> {
    let mut out = format!(in alloc; "{} {} {}", root.number, root.state, root.log_file)?;
    for table in root.tables.files() {
        write!(out, " {table}")?;
    }
    Ok(out)
}

fn change<D: Disk>(alloc: Global, disk: &mut D, mut words: Words<'_>) -> Answer {
    let root = root_of(alloc, &mut words)?;
    if !root.is_root() {
        return Err(RowFault::Refused);
    }
    let changed = match RootSlots::read(alloc, disk) {
        Ok((mut slots, None)) => first(alloc, disk, &mut slots, &root),
        Ok((mut slots, Some(old))) => {
            if old.number >= root.number {
                return Err(RowFault::Refused);
            }
            put(alloc, disk, &mut slots, &root)
        }
        Err(fault) => Err(fault),
    };
    match changed {
        Ok(()) => text(alloc, "ok"),
        Err(fault) => refused(alloc, fault),
    }
}

/// The first root of a disk, whose file 0 is made where it is not.
fn first<D: Disk>(
    alloc: Global,
    disk: &mut D,
    slots: &mut RootSlots,
    root: &Root,
) -> Result<(), RootFault>
    requires root { is_root root.now ≡ true }
    requires none { (slots.old.force ≡ None) × (slots.old.spare_open ≡ false) }
    requires begun { (slots.old.step ≡ Begun) × (slots.old.stopped ≡ false) }
    requires ready { IsReady slots.old (D.seen disk.old) (D.sizes disk.old) (D.images disk.old) }
{
    if slots.is_made() {
        return put(alloc, disk, slots, root);
    }
    slots.make_file(disk)?;
    put(alloc, disk, slots, root)
}

fn put<D: Disk>(
    alloc: Global,
    disk: &mut D,
    slots: &mut RootSlots,
    root: &Root,
) -> Result<(), RootFault>
    requires root { is_root root.now ≡ true }
    requires made { slots.old.made ≡ true }
    requires above { IsAbove slots.old.force root.now.number }
    requires running { slots.old.stopped ≡ false }
    requires ready { IsReady slots.old (D.seen disk.old) (D.sizes disk.old) (D.images disk.old) }
{
    slots.close_slot(disk)?;
    slots.fill_slot(alloc, disk, root)?;
    slots.open_slot(disk)
}

fn root_of(alloc: Global, words: &mut Words<'_>) -> Result<Root, RowFault> {
    let number = words.number()?;
    let state = words.small()?;
    let log_file = words.small()?;
    let count = words.small()?;
    let mut tables = FileList::new(alloc);
    for _table in 0..count {
        tables.push(words.small()?)?;
    }
    Ok(Root {
        number,
        state,
        log_file,
        tables,
    })
}

/// `spelling at PLACE`, `sum at PLACE`, or the row's fault.
fn refused(alloc: Global, fault: RootFault) -> Answer {
    match fault {
        RootFault::Device => Err(RowFault::Device),
        RootFault::Stopped => Err(RowFault::Stopped),
        RootFault::OutOfMemory => Err(RowFault::OutOfMemory),
        RootFault::Bad {
            offset,
            damage: SlotDamage::Spelling,
        } => Ok(format!(in alloc; "spelling at {offset}")?),
        RootFault::Bad { offset, .. } => Ok(format!(in alloc; "sum at {offset}")?),
    }
}
