//! Roots: which files a store is made of.
ghost use Rattle.std.specs.Prelude.{◌≡◌, ◌++◌, ◌∷◌, [], OnOk, OnErr};
ghost use Rattle.root_slots.specs.Root.{is_fresh, are_apart, is_root};

use crate::TABLES_MOST;
use std::alloc::{AllocError, Global};
use std::marker::Model;

/// Numbers of files, in an order.
#[derive(Debug, Drop)]
pub struct FileList {
    files: Vec<u32>,
}

impl Model for FileList {
    ghost use Rattle.std.specs.Prelude.{List, ℕ};

    ghost Value = { List ℕ };

    ghost view = { λ list. list.files.items };
}

impl FileList {
    /// The list with no file.
    pub fn new(alloc: Global) -> FileList
        ensures { result ≡ [] }
    {
        FileList {
            files: Vec::new(alloc),
        }
    }

    /// Adds a file at the end. Where there is no memory for it the list stays as it is.
    pub fn push(&mut self, file: u32) -> Result<(), AllocError>
        ensures ok { OnOk result (self.new ≡ self.old ++ file ∷ []) }
        ensures err { OnErr result (self.new ≡ self.old) }
    {
        self.files.push(file)?;
        Ok(())
    }

    /// The files, in their order.
    pub fn files(&self) -> &[u32]
        ensures { result.now ≡ self.now }
    {
        self.files.as_slice()
    }
}

/// A root: the files that a store is made of. The root with the greatest number counts.
#[derive(Debug, Drop)]
pub struct Root {
    /// Its number, which is at least 1.
    pub number: u64,
    /// The file of the state.
    pub state: u32,
    /// The file of the log.
    pub log_file: u32,
    /// The files of the tables, newest first, at most `TABLES_MOST`.
    pub tables: FileList,
}

impl Root {
    /// Whether a slot can have this root: its number is at least 1, it names at most `TABLES_MOST` tables, and its
    /// files are not 0 and differ from one another.
    pub fn is_root(&self) -> bool
        ensures { result ≡ is_root self.now }
    {
        let tables = self.tables.files();
        self.number != 0
            && tables.len() <= TABLES_MOST
            && is_fresh(self.state, tables)
            && is_fresh(self.log_file, tables)
            && self.state != self.log_file
            && are_apart(tables)
    }
}

// Whether a file is not 0 and none of these.
fn is_fresh(file: u32, files: &[u32]) -> bool
    ensures { result ≡ is_fresh file files.now }
{
    file != 0 && !files.contains(&file)
}

// Whether no file is 0, and no two are the same.
fn are_apart(files: &[u32]) -> bool
    ensures { result ≡ are_apart files.now }
{
    match files {
        [] => true,
        [file, rest @ ..] => is_fresh(*file, rest) && are_apart(rest),
    }
}
