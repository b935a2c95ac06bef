//! The members of one object of a tree.
ghost use Rattle.std.specs.Prelude.{◌≡◌, ◌≤◌, ◌^◌, IfOk, OnOk};
ghost use Rattle.std.specs.FinMap as map;
ghost use Rattle.bulk.specs.Trees.{attr_of, rows_from, place};

use chains::reverse;
use mds_base::{Attr, Name, Row, RowList};
use name_hash::hash;
use std::alloc::{AllocError, Global};
use std::collections::BTreeMap;
use std::marker::Model;

/// What a member is.
#[derive(Clone, Copy, Debug)]
pub(crate) enum Kind {
    /// A file of this size, in bytes.
    File { size: u64 },
    /// The directory of the object of this number.
    Dir { index: u32 },
}

impl Kind {
    fn attr(self, first: u64) -> Attr
        requires { first ≤ 2 ^ 45 }
        ensures { result ≡ attr_of first self }
    {
        match self {
            Kind::File { size } => Attr {
                size,
                ..Attr::new_file()
            },
            Kind::Dir { index } => Attr::new_directory(first + index as u64),
        }
    }
}

/// The members of an object, by the places at which a scan gives their names.
#[derive(Debug, Drop)]
pub(crate) struct Object {
    members: BTreeMap<(u64, Name), Kind>,
}

impl Model for Object {
    ghost use Rattle.std.specs.FinMap as map;
    ghost use Rattle.std.specs.Coded.{codes};
    ghost use Rattle.bulk.specs.Trees.{ObjectMap};

    ghost Value = { ObjectMap };

    ghost coded = { Prim.hlevel (codes, map.code) };

    ghost view = { λ a. map.from_entries a.members.entries };
}

impl Object {
    pub(crate) fn new(alloc: Global) -> Object
        ensures { result ≡ map.empty }
    {
        Object {
            members: BTreeMap::new(alloc),
        }
    }

    pub(crate) fn add(&mut self, name: Name, kind: Kind) -> Result<(), AllocError>
        ensures { OnOk result (self.new ≡ map.insert self.old (place name) kind) }
    {
        self.members.insert((reverse(hash(&name)), name), kind)?;
        Ok(())
    }

    /// The rows of the members, in the scan order, where the tree's objects have the directory numbers from `first` on.
    pub(crate) fn rows(&self, alloc: Global, first: u64) -> Result<RowList, AllocError>
        requires { first ≤ 2 ^ 45 }
        ensures { IfOk result (λ rows. rows ≡ rows_from first self.now) }
    {
        let _members = self.members.len();
        let mut rows = RowList::new(alloc);
        for (place, kind) in &self.members {
            rows.push(Row {
                name: place.1.copy(alloc)?,
                attr: kind.attr(first),
            })?;
        }
        Ok(rows)
    }
}
