ghost use Rattle.std.specs.Prelude.{◌≡◌, ◌≤◌, ◌<◌, ◌^◌, IfOk, IsErrOf, Some, None, IsTrue, length};
ghost use Rattle.std.specs.Str.{IsUtf8};
ghost use Rattle.serde_json.specs.View.{view};
ghost use Rattle.mds_base.specs.declared.limits.TheConstants.{BULK_DIRECTORIES, BULK_ENTRIES};
ghost use Rattle.bulk.specs.Grammar.{is_tree};
ghost use Rattle.bulk.specs.Trees.{tree_of, tree_of_data, objects_of, rows_of};

use crate::fault::TreeFault;
use crate::measure::is_tree_of;
use crate::number::number;
use crate::object::Object;
use crate::reading::{is_shallow, read_value};
use mds_base::RowList;
use serde_json::Value;
use std::alloc::{AllocError, Global};
use std::marker::Model;

/// A subtree that is to be loaded: its objects by their numbers, each with its members (`crates/bulk/README.md`,
/// "Objects of a value"). They are numbered from 0 by depth first, each object before its members, and members by the
/// bytes of their keys.
#[derive(Debug, Drop)]
pub struct Tree {
    objects: Vec<Object>,
}

impl Model for Tree {
    ghost use Rattle.std.specs.Prelude.{List};
    ghost use Rattle.std.specs.Coded.{codes};
    ghost use Rattle.std.specs.FinMap as map;
    ghost use Rattle.bulk.specs.Trees.{ObjectMap, IsBounded};

    ghost Value = { List ObjectMap };

    ghost coded = { Prim.hlevel (codes, map.code) };

    ghost view = { λ a. a.objects.items };

    ghost invariant = { λ a. IsBounded a.objects.items };
}

impl Tree {
    /// Reads a text as a tree (`crates/bulk/README.md`, "Tree of a text"). It is refused as `BadTree` exactly where it
    /// is outside the tree grammar, and as `OutOfMemory` where there is no memory for it. Of a key that stands twice in
    /// one object the last member counts. The time grows with the length of the text, and the stack with the depth of
    /// a tree, whatever the text is.
    pub fn read(alloc: Global, text: &[u8]) -> Result<Tree, TreeFault>
        ensures ok { IfOk result (λ tree. IsUtf8 text.now × (tree_of text.now ≡ Some tree)) }
        ensures bad_tree { IsErrOf result TreeFault.BadTree → IsUtf8 text.now → tree_of text.now ≡ None }
    {
        let Ok(text) = str::from_utf8(text) else {
            return Err(TreeFault::BadTree);
        };
        Tree::of_text(alloc, text)
    }

    fn of_text(alloc: Global, text: &str) -> Result<Tree, TreeFault>
        ensures ok { IfOk result (λ tree. tree_of text.now ≡ Some tree) }
        ensures bad_tree { IsErrOf result TreeFault.BadTree → tree_of text.now ≡ None }
    {
        if !is_shallow(alloc, text)? {
            return Err(TreeFault::BadTree);
        }
        let value = read_value(alloc, text)?;
        Tree::of_value(alloc, &value)
    }

    fn of_value(alloc: Global, value: &Value) -> Result<Tree, TreeFault>
        ensures ok { IfOk result (λ tree. tree_of_data (view value.now) ≡ Some tree) }
        ensures bad_tree { IsErrOf result TreeFault.BadTree → tree_of_data (view value.now) ≡ None }
    {
        if !is_tree_of(value) {
            return Err(TreeFault::BadTree);
        }
        let objects = Tree::numbered(alloc, value)?;
        Ok(Tree { objects })
    }

    fn numbered(alloc: Global, value: &Value) -> Result<Vec<Object>, AllocError>
        requires { IsTrue (is_tree (view value.now)) }
        ensures { IfOk result (λ objects. objects.items ≡ objects_of 0 (view value.now)) }
    {
        let mut objects = Vec::new(alloc);
        number(alloc, &mut objects, value)?;
        Ok(objects)
    }

    /// How many objects the tree has, from 1 to 4096, which one grab gives the numbers for. It takes no memory.
    pub fn dirs(&self) -> u32
        ensures count { result ≡ length self.now }
        ensures few { (1 ≤ result) × (result ≤ BULK_DIRECTORIES) }
    {
        self.objects.len() as u32
    }

    /// The rows of the object of this number, in the scan order: files with their sizes, and directories with the
    /// numbers that they get where the tree's objects have the numbers from `first` on. There are at most 4096, as many
    /// as a load may have. It is refused only where there is no memory for them.
    pub fn rows_of(&self, alloc: Global, index: u32, first: u64) -> Result<RowList, AllocError>
        requires index { index < length self.now }
        requires first { first ≤ 2 ^ 45 }
        ensures rows { IfOk result (λ rows. rows ≡ rows_of self.now index first) }
        ensures few { IfOk result (λ rows. length rows ≤ BULK_ENTRIES) }
    {
        self.objects[index as usize].rows(alloc, first)
    }
}
