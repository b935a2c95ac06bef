//! Work of `bulk`.
use bulk::{Tree, TreeFault};
use row_words::RowFault;
use std::alloc::Global;
use std::fmt::Write;

/// Each round reads a tree of so many files with names of 240 bytes. How many objects were read.
pub(crate) fn tree(alloc: Global, members: u32, rounds: u32) -> Result<u64, RowFault> {
    let text = text_of(alloc, members)?;
    let mut objects: u64 = 0;
    for _ in 0..rounds {
        objects = objects.saturating_add(objects_in(alloc, text.as_str())? as u64);
    }
    Ok(objects)
}

fn objects_in(alloc: Global, text: &str) -> Result<u32, RowFault> {
    match Tree::read(alloc, text.as_bytes()) {
        Ok(tree) => Ok(tree.dirs()),
        Err(TreeFault::BadTree) => Err(RowFault::Refused),
        Err(TreeFault::OutOfMemory) => Err(RowFault::OutOfMemory),
    }
}

fn text_of(alloc: Global, members: u32) -> Result<String, RowFault> {
    let mut text = String::from_str(alloc, "{")?;
    let mut between = "";
    for number in 0..members {
        write!(text, "{between}\"{number:0240}\":{number}")?;
        between = ",";
    }
    text.push('}')?;
    Ok(text)
}
