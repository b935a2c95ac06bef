//! Rows of `merge_rows`: tables in the files of a disk in memory made one.
ghost use Rattle.std.specs.Prelude.{◌≡◌, ◌≤◌, IfOk, IsTrue};
ghost use Rattle.merge_rows.specs.Merging.{AreApart, IsMerging};
ghost use Rattle.merge_rows.specs.Telling.{AreReady};

use crate::tables::refused;
use frame_pool::{Frame, Pool};
use mds_out::Disk;
use merge_rows::{Merge, Turn};
use row_words::{Answer, RowFault, Words, text};
use sorted_table::{Table, TableFault};
use std::alloc::Global;

/// `merge FILE BLOCKS TURNS TABLE,..`: merges the tables of these files, newest first, into a file, in at most so many
/// turns of so many blocks. It answers in which turn the merge was finished, or `more`.
pub(crate) fn merge<D: Disk>(alloc: Global, disk: &mut D, words: Words<'_>) -> Answer {
    let mut pool = Pool::new(alloc, 1)?;
    let Some(mut frame) = pool.take() else {
        return Err(RowFault::OutOfMemory);
    };
    let said = merge_through(alloc, disk, &mut frame, words);
    pool.give(frame);
    said
}

fn merge_through<D: Disk>(
    alloc: Global,
    disk: &mut D,
    frame: &mut Frame,
    mut words: Words<'_>,
) -> Answer
    ensures { frame.new.number ≡ frame.old.number }
{
    let file = words.small()?;
    let blocks = words.small()?;
    let turns = words.small()?;
    let files = words.list(alloc)?;
    match open_all(alloc, disk, frame, files.as_slice()) {
        Ok(tables) => merge_all(alloc, disk, frame, tables.as_slice(), file, blocks, turns),
        Err(fault) => refused(alloc, fault),
    }
}

/// The tables of these files; one past the numbers of files is none.
fn open_all<D: Disk>(
    alloc: Global,
    disk: &mut D,
    frame: &mut Frame,
    files: &[u64],
) -> Result<Vec<Table>, TableFault>
    ensures ready { IfOk result (λ tables. AreReady tables.items (D.seen disk.new) (D.sizes disk.new)) }
    ensures frame { frame.new.number ≡ frame.old.number }
{
    let mut tables = Vec::new(alloc);
    for file in files {
        let table = Table::open_file(alloc, disk, frame, (*file % NUMBERS) as u32)?;
        tables.push(table)?;
    }
    Ok(tables)
}

/// The numbers of files are below this one.
const NUMBERS: u64 = 4294967296;

fn merge_all<D: Disk>(
    alloc: Global,
    disk: &mut D,
    frame: &mut Frame,
    tables: &[Table],
    file: u32,
    blocks: u32,
    turns: u32,
) -> Answer
    requires ready { AreReady tables.now (D.seen disk.old) (D.sizes disk.old) }
    ensures { frame.new.number ≡ frame.old.number }
{
    if blocks == 0 {
        return Err(RowFault::Refused);
    }
    if !are_apart(tables, file) {
        return Err(RowFault::Refused);
    }
    let merge = Merge::start(alloc, tables, file)?;
    take_turns(alloc, disk, frame, tables, merge, blocks, turns)
}

fn are_apart(tables: &[Table], file: u32) -> bool
    ensures { IsTrue result → AreApart tables.now file }
{
    match tables {
        [] => true,
        [table, rest @ ..] => table.file() != file && are_apart(rest, file),
    }
}

fn take_turns<D: Disk>(
    alloc: Global,
    disk: &mut D,
    frame: &mut Frame,
    tables: &[Table],
    mut merge: Merge,
    blocks: u32,
    turns: u32,
) -> Answer
    requires some { 1 ≤ blocks }
    requires ready { AreReady tables.now (D.seen disk.old) (D.sizes disk.old) }
    requires merging { IsMerging merge tables.now (D.seen disk.old) (D.sizes disk.old) }
    ensures { frame.new.number ≡ frame.old.number }
{
    for turn in 0..turns {
        match merge.turn(alloc, disk, frame, tables, blocks) {
            Ok(Turn::More(more)) => merge = more,
            Ok(Turn::Finished(_)) => return Ok(format!(in alloc; "turn {}", turn + 1)?),
            Err(fault) => return refused(alloc, fault),
        }
    }
    text(alloc, "more")
}
