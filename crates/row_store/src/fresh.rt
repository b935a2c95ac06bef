//! The rows that changed since the last flush.
ghost use Rattle.std.specs.Prelude.{◌≡◌, IfOk, OnOk, OnErr, IfSome, IsSome, Some, cond};
ghost use Rattle.std.specs.BTreeMap.{is_at};
ghost use Rattle.std.specs.BTreeMap as tree;
ghost use Rattle.mds_base.specs.RowKeys.{RowMap, row_key_cmp};
ghost use Rattle.mds_base.specs.declared.row_key.RowKey.{RowKey};
ghost use Rattle.row_store.specs.Rows.{laid_over, rows_of, changed_all, AreMarked};
ghost use Rattle.sorted_table.specs.TableRows.{IsMarked};

use crate::change::Change;
use mds_base::{Attr, RowKey};
use std::alloc::{AllocError, Global};
use std::collections::BTreeMap;

/// Carries out changes, in their order, on what was last said of each key. Where there is no memory for all of them
/// all is as before.
pub(crate) fn apply(
    alloc: Global,
    fresh: &mut BTreeMap<RowKey, Option<Attr>>,
    changes: &[Change],
) -> Result<(), AllocError>
    requires { AreMarked changes.now }
    ensures ok { OnOk result
        ((base : RowMap)
        → laid_over base (rows_of fresh.new.entries)
        ≡ changed_all (laid_over base (rows_of fresh.old.entries)) changes.now) }
    ensures err { OnErr result
        ((key : RowKey) → tree.get row_key_cmp fresh.new key ≡ tree.get row_key_cmp fresh.old key) }
    ensures marked { ((key : RowKey) → IfSome (tree.get row_key_cmp fresh.old key) IsMarked) → (key : RowKey)
        → IfSome (tree.get row_key_cmp fresh.new key) IsMarked }
{
    match changes {
        [] => Ok(()),
        [change, rest @ ..] => {
            let before = put(alloc, fresh, change)?;
            match apply(alloc, fresh, rest) {
                Ok(()) => Ok(()),
                Err(fault) => {
                    take_back(fresh, &change.key, before);
                    Err(fault)
                }
            }
        }
    }
}

/// What was last said of a key.
pub(crate) fn last_said(
    fresh: &BTreeMap<RowKey, Option<Attr>>,
    key: &RowKey,
) -> Option<Option<Attr>>
    ensures { result ≡ tree.get row_key_cmp fresh.now key.now }
{
    fresh.get(key).copied()
}

// Says of the key of a change what the change says, and answers what was said before.
fn put(
    alloc: Global,
    fresh: &mut BTreeMap<RowKey, Option<Attr>>,
    change: &Change,
) -> Result<Option<Option<Attr>>, AllocError>
    ensures before { IfOk result (λ before. before ≡ tree.get row_key_cmp fresh.old change.now.key) }
    ensures said { OnOk result
        ((key : RowKey)
        → tree.get row_key_cmp fresh.new key
        ≡ cond (is_at (row_key_cmp change.now.key) key) (Some change.now.attr) (tree.get row_key_cmp fresh.old key)) }
    ensures there { OnOk result (tree.get row_key_cmp fresh.new change.now.key ≡ Some change.now.attr) }
    ensures err { OnErr result (fresh.new.entries ≡ fresh.old.entries) }
{
    let key = change.key.copy(alloc)?;
    let before = fresh.insert(key, change.attr)?;
    Ok(before)
}

// Says of a key again what was said before.
fn take_back(fresh: &mut BTreeMap<RowKey, Option<Attr>>, key: &RowKey, before: Option<Option<Attr>>)
    requires { IsSome (tree.get row_key_cmp fresh.old key.now) }
    ensures { (q : RowKey)
        → tree.get row_key_cmp fresh.new q
        ≡ cond (is_at (row_key_cmp key.now) q) before (tree.get row_key_cmp fresh.old q) }
{
    match before {
        None => {
            let _ = fresh.remove(key);
        }
        Some(attr) => say_again(fresh, key, attr),
    }
}

fn say_again(fresh: &mut BTreeMap<RowKey, Option<Attr>>, key: &RowKey, attr: Option<Attr>)
    requires { IsSome (tree.get row_key_cmp fresh.old key.now) }
    ensures { (q : RowKey)
        → tree.get row_key_cmp fresh.new q
        ≡ cond (is_at (row_key_cmp key.now) q) (Some attr) (tree.get row_key_cmp fresh.old q) }
{
    if let Some(kept) = fresh.get_mut(key) {
        *kept = attr;
    }
}
