//! Rows of `bulk`.
ghost use Rattle.std.specs.Prelude.{◌≤◌, ◌^◌};

use bulk::{Tree, TreeFault};
use mds_base::RowList;
use row_words::{Answer, RowFault, Words, attr_text, push_name, text};
use std::alloc::Global;
use std::fmt::Write;

/// The greatest number that the outermost object may get.
const FIRST_MOST: u64 = 1 << 45;

/// `FIRST JSON`: how many objects the tree has, and the rows of each under its number, where the outermost one is
/// directory FIRST.
pub(crate) fn answer(alloc: Global, mut words: Words<'_>) -> Answer {
    let first = words.number()?;
    if first > FIRST_MOST {
        return Err(RowFault::Refused);
    }
    match Tree::read(alloc, words.rest().as_bytes()) {
        Ok(tree) => tree_text(alloc, &tree, first),
        Err(TreeFault::BadTree) => text(alloc, "bad tree"),
        Err(TreeFault::OutOfMemory) => Err(RowFault::OutOfMemory),
    }
}

fn tree_text(alloc: Global, tree: &Tree, first: u64) -> Answer
    requires { first ≤ 2 ^ 45 }
{
    let mut out = format!(in alloc; "{}", tree.dirs())?;
    for index in 0..tree.dirs() {
        write!(out, "; {}:", first + index as u64)?;
        let rows = tree.rows_of(alloc, index, first)?;
        push_rows(alloc, &mut out, &rows)?;
    }
    Ok(out)
}

fn push_rows(alloc: Global, out: &mut String, rows: &RowList) -> Result<(), RowFault> {
    let mut between = " ";
    for row in rows.rows() {
        out.push_str(between)?;
        push_name(out, &row.name)?;
        out.push(' ')?;
        out.push_str(attr_text(alloc, &row.attr)?.as_str())?;
        between = ", ";
    }
    Ok(())
}
