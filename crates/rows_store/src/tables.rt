//! Rows of `sorted_table` and `merge_rows`: tables in the files of a disk in memory. A row of a table is a reversed
//! hash, a name and a size or `tomb`, in partition 0 of directory 1.
ghost use Rattle.std.specs.Prelude.{◌≡◌, IfOk};
ghost use Rattle.sorted_table.specs.TableRows.{IsMarked};
ghost use Rattle.sorted_table.specs.Tables.{IsReady};

use crate::damages::damages;
use crate::merges::merge;
use frame_pool::{Frame, Pool};
use mds_base::{Attr, RowKey};
use mds_out::{Disk, Fuse};
use row_words::{
    Answer, BETWEEN, RUNS, RowFault, Words, act, new_disk, push_answer, push_run, text,
};
use sorted_table::{Builder, Held, Table, TableDamage, TableFault};
use std::alloc::Global;

/// `disk OUTCOME FAILS ACTION; ..` on a new disk, and `each OUTCOME FAILS ACTION; ..`, which is run for each K from 0
/// on up to the first run in which no call failed.
pub(crate) fn answer(alloc: Global, mut words: Words<'_>) -> Answer {
    match words.word()? {
        "disk" => run(alloc, words),
        "each" => each(alloc, words),
        _ => Err(RowFault::NotARow),
    }
}

fn each(alloc: Global, words: Words<'_>) -> Answer {
    let mut out = String::from_str(alloc, "in turn:")?;
    for number in 0..RUNS {
        let said = run(alloc, words.in_run(number))?;
        if !push_run(&mut out, number, said.as_str())? {
            break;
        }
    }
    Ok(out)
}

fn run(alloc: Global, mut words: Words<'_>) -> Answer {
    let mut disk = new_disk(alloc, &mut words)?;
    let mut out = String::new(alloc);
    for action in words.rest().split(BETWEEN) {
        let said = act_on(alloc, &mut disk, words.action(action));
        push_answer(&mut out, said)?;
    }
    Ok(out)
}

/// `make FILE COUNT ROW..` and `fill FILE FROM TO NAME SIZE`; `open FILE`, `get FILE REV NAME`, `seek FILE REV NAME`
/// and `damages FILE`, each of which opens the table; `merge FILE BLOCKS TURNS TABLE,..`; and the actions of a disk.
pub(crate) fn act_on<D: Disk>(alloc: Global, disk: &mut Fuse<D>, words: Words<'_>) -> Answer {
    let mut rest = words;
    match rest.word()? {
        "make" => make(alloc, disk, rest),
        "fill" => fill(alloc, disk, rest),
        "merge" => merge(alloc, disk, rest),
        "open" => look(alloc, disk, Asked::Open, rest),
        "get" => look(alloc, disk, Asked::Get, rest),
        "seek" => look(alloc, disk, Asked::Seek, rest),
        "damages" => look(alloc, disk, Asked::Damages, rest),
        _ => act(alloc, disk, words),
    }
}

/// A table of the rows that are given.
fn make<D: Disk>(alloc: Global, disk: &mut D, mut words: Words<'_>) -> Answer {
    let file = words.small()?;
    let count = words.small()?;
    let mut builder = Builder::new(alloc, file)?;
    for _row in 0..count {
        let key = key_of(alloc, &mut words)?;
        let attr = attr_of(&mut words)?;
        match builder.add(alloc, disk, &key, attr.as_ref()) {
            Ok(()) => {}
            Err(fault) => return refused(alloc, fault),
        }
    }
    match builder.finish(disk) {
        Ok(_) => text(alloc, "ok"),
        Err(fault) => refused(alloc, fault),
    }
}

/// A table of the rows of one name whose reversed hashes are from one up to before another.
fn fill<D: Disk>(alloc: Global, disk: &mut D, mut words: Words<'_>) -> Answer {
    let file = words.small()?;
    let from = words.number()?;
    let to = words.number()?;
    let named = words;
    words.word()?;
    let attr = attr_of(&mut words)?;
    let mut builder = Builder::new(alloc, file)?;
    for rev in from..to {
        let mut name = named;
        let key = RowKey {
            dir: 1,
            part: 0,
            rev,
            name: name.name(alloc)?,
        };
        match builder.add(alloc, disk, &key, attr.as_ref()) {
            Ok(()) => {}
            Err(fault) => return refused(alloc, fault),
        }
    }
    match builder.finish(disk) {
        Ok(_) => text(alloc, "ok"),
        Err(fault) => refused(alloc, fault),
    }
}

/// A reversed hash and a name, in partition 0 of directory 1.
pub(crate) fn key_of(alloc: Global, words: &mut Words<'_>) -> Result<RowKey, RowFault> {
    Ok(RowKey {
        dir: 1,
        part: 0,
        rev: words.number()?,
        name: words.name(alloc)?,
    })
}

/// A size, or `tomb`.
pub(crate) fn attr_of(words: &mut Words<'_>) -> Result<Option<Attr>, RowFault>
    ensures { IfOk result IsMarked }
{
    let mut size = *words;
    if words.word()? == "tomb" {
        return Ok(None);
    }
    let attr = Attr {
        dir: 0,
        mode: 420,
        size: size.number()?,
        owner: 0,
        mtime: 0,
    };
    Ok(Some(attr))
}

/// What is asked of an open table.
#[derive(Clone, Copy)]
enum Asked {
    Open,
    Get,
    Seek,
    Damages,
}

fn look<D: Disk>(alloc: Global, disk: &mut D, asked: Asked, words: Words<'_>) -> Answer {
    let mut pool = Pool::new(alloc, 1)?;
    let Some(mut frame) = pool.take() else {
        return Err(RowFault::OutOfMemory);
    };
    let said = look_through(alloc, disk, &mut frame, asked, words);
    pool.give(frame);
    said
}

fn look_through<D: Disk>(
    alloc: Global,
    disk: &mut D,
    frame: &mut Frame,
    asked: Asked,
    mut words: Words<'_>,
) -> Answer
    ensures { frame.new.number ≡ frame.old.number }
{
    let file = words.small()?;
    match Table::open_file(alloc, disk, frame, file) {
        Ok(table) => look_into(alloc, disk, frame, &table, asked, words),
        Err(fault) => refused(alloc, fault),
    }
}

fn look_into<D: Disk>(
    alloc: Global,
    disk: &mut D,
    frame: &mut Frame,
    table: &Table,
    asked: Asked,
    words: Words<'_>,
) -> Answer
    requires { IsReady table.now (D.seen disk.old) (D.sizes disk.old) }
    ensures { frame.new.number ≡ frame.old.number }
{
    match asked {
        Asked::Open => text(alloc, "ok"),
        Asked::Get => get(alloc, disk, frame, table, words),
        Asked::Seek => seek(alloc, disk, frame, table, words),
        Asked::Damages => damages(alloc, disk, frame, table.file()),
    }
}

fn get<D: Disk>(
    alloc: Global,
    disk: &mut D,
    frame: &mut Frame,
    table: &Table,
    mut words: Words<'_>,
) -> Answer
    requires { IsReady table.now (D.seen disk.old) (D.sizes disk.old) }
    ensures { frame.new.number ≡ frame.old.number }
{
    let key = key_of(alloc, &mut words)?;
    match table.get(disk, frame, &key) {
        Ok(Held::Absent) => text(alloc, "absent"),
        Ok(Held::Tomb) => text(alloc, "tomb"),
        Ok(Held::Row(attr)) => Ok(format!(in alloc; "{}", attr.size)?),
        Err(fault) => refused(alloc, fault),
    }
}

fn seek<D: Disk>(
    alloc: Global,
    disk: &mut D,
    frame: &mut Frame,
    table: &Table,
    mut words: Words<'_>,
) -> Answer
    requires { IsReady table.now (D.seen disk.old) (D.sizes disk.old) }
    ensures { frame.new.number ≡ frame.old.number }
{
    let key = key_of(alloc, &mut words)?;
    match table.seek(alloc, disk, frame, &key) {
        Ok(None) => text(alloc, "none"),
        Ok(Some(found)) => Ok(format!(in alloc; "{}", found.rev)?),
        Err(fault) => refused(alloc, fault),
    }
}

/// `spelling at PLACE`, `sum at PLACE`, or the row's fault.
pub(crate) fn refused(alloc: Global, fault: TableFault) -> Answer {
    match fault {
        TableFault::Device => Err(RowFault::Device),
        TableFault::OutOfMemory => Err(RowFault::OutOfMemory),
        TableFault::Damaged {
            offset,
            damage: TableDamage::Spelling,
        } => Ok(format!(in alloc; "spelling at {offset}")?),
        TableFault::Damaged { offset, .. } => Ok(format!(in alloc; "sum at {offset}")?),
    }
}
