//! Which files a new root names, and its number.
ghost use Rattle.std.specs.Prelude.{◌≡◌, ◌++◌, ◌<◌, length, IfOk, IfErr, OnOk};
ghost use Rattle.mds_base.specs.declared.store_fault.StoreFault.TheVariants.{OutOfMemory};
ghost use Rattle.row_store.specs.Files.{AreFree, in_use, merged_into, named_by, tables_named};
ghost use Rattle.row_store.specs.Parts.{IsNextNumber, in_front, file_of};

use crate::merges::Pending;
use crate::numbers::free_file;
use crate::row_store::InForce;
use mds_base::StoreFault;
use root_slots::FileList;
use sorted_table::Table;
use std::alloc::{AllocError, Global};

/// Files that nothing is in, for the parts of a new root.
#[derive(Clone, Copy)]
pub(crate) struct FreeFiles {
    pub(crate) state: u32,
    pub(crate) log_file: u32,
    pub(crate) table: u32,
}

/// The least numbers that are not taken.
pub(crate) fn free_files(taken: Vec<u32>) -> Result<FreeFiles, AllocError>
    requires { length taken.items < 900 }
    ensures { IfOk result (λ files. AreFree files taken.items) }
{
    let mut taken = taken;
    let state = free_file(&taken);
    taken.push(state)?;
    let log_file = free_file(&taken);
    taken.push(log_file)?;
    let table = free_file(&taken);
    Ok(FreeFiles {
        state,
        log_file,
        table,
    })
}

/// The files that a root in force names, and that of a merge that is under way.
pub(crate) fn files_in_use(
    alloc: Global,
    merge: &Option<Pending>,
    force: &Option<InForce>,
) -> Result<Vec<u32>, AllocError>
    ensures { IfOk result (λ files. files.items ≡ in_use merge.now force.now) }
{
    let mut files = Vec::new(alloc);
    add_merged(&mut files, merge)?;
    add_named(&mut files, force)?;
    Ok(files)
}

fn add_merged(files: &mut Vec<u32>, merge: &Option<Pending>) -> Result<(), AllocError>
    ensures { OnOk result (files.new.items ≡ files.old.items ++ merged_into merge.now) }
{
    match merge {
        None => Ok(()),
        Some(pending) => {
            files.push(pending.file)?;
            Ok(())
        }
    }
}

fn add_named(files: &mut Vec<u32>, force: &Option<InForce>) -> Result<(), AllocError>
    ensures { OnOk result (files.new.items ≡ files.old.items ++ named_by force.now) }
{
    match force {
        None => Ok(()),
        Some(force) => {
            files.push(force.root.state)?;
            files.push(force.root.log_file)?;
            files.extend_from_slice(force.root.tables.files())?;
            Ok(())
        }
    }
}

/// The number of a new root: one more than that of the root in force. Past 2^64 - 1 there is none, which is answered as
/// want of memory.
pub(crate) fn next_number(force: &Option<InForce>) -> Result<u64, StoreFault>
    ensures number { IfOk result (IsNextNumber force.now) }
    ensures refused { IfErr result (λ fault. fault ≡ OutOfMemory) }
{
    match force {
        None => Ok(1),
        Some(force) => {
            if force.root.number == u64::MAX {
                return Err(StoreFault::OutOfMemory);
            }
            Ok(force.root.number + 1)
        }
    }
}

/// The tables of the root in force, with a new one in front.
pub(crate) fn tables_of(
    alloc: Global,
    table: &Option<Table>,
    force: &Option<InForce>,
) -> Result<FileList, AllocError>
    ensures { IfOk result (λ list. list ≡ in_front (file_of table.now) (tables_named force.now)) }
{
    let mut list = FileList::new(alloc);
    if let Some(table) = table {
        list.push(table.file())?;
    }
    if let Some(force) = force {
        add_files(&mut list, force.root.tables.files())?;
    }
    Ok(list)
}

/// Adds files at the end of a list.
pub(crate) fn add_files(list: &mut FileList, files: &[u32]) -> Result<(), AllocError>
    ensures { OnOk result (list.new ≡ list.old ++ files.now) }
{
    for file in files {
        list.push(*file)?;
    }
    Ok(())
}
