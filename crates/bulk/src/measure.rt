//! Whether a value is in the tree grammar.
ghost use Rattle.std.specs.Prelude.{◌≡◌, ◌+◌, ◌&&◌, IsTrue, nat_le};
ghost use Rattle.serde_json.specs.View.{view, members_view};
ghost use Rattle.mds_base.specs.declared.limits.TheConstants.{BULK_DIRECTORIES, BULK_ENTRIES};
ghost use Rattle.bulk.specs.Grammar.{is_tree, is_entry, are_entries};
ghost use Rattle.bulk.specs.Grammar.{objects_in, objects_within, entries_in, entries_within};
ghost use Rattle.bulk.specs.Sizes.{Grown};

use mds_base::is_name;
use mds_base::limits::{BULK_DIRECTORIES, BULK_ENTRIES};
use serde_json::{Map, Value};

/// How many objects and members were passed. A number past the greatest one stays the greatest.
#[derive(Clone, Copy, Drop)]
struct Size {
    objects: usize,
    entries: usize,
}

/// Whether a value is an object of entries, and no more of them than a tree may have.
pub(crate) fn is_tree_of(value: &Value) -> bool
    ensures { result ≡ is_tree (view value.now) }
{
    let mut size = Size {
        objects: 0,
        entries: 0,
    };
    value.is_object() && measure(value, &mut size) && fits(size)
}

fn fits(size: Size) -> bool
    ensures { result ≡ (nat_le size.objects BULK_DIRECTORIES && nat_le size.entries BULK_ENTRIES) }
{
    size.objects <= BULK_DIRECTORIES && size.entries <= BULK_ENTRIES
}

/// Whether a value is an entry; what it holds is then counted.
#[cycle(measure)]
fn measure(value: &Value, size: &mut Size) -> bool
    ensures entry { result ≡ is_entry (view value.now) }
    ensures counted { IsTrue result
        → Grown size.old size.new (objects_in (view value.now)) (entries_in (view value.now)) }
{
    match value {
        Value::Null | Value::Bool(_) | Value::String(_) | Value::Array(_) => false,
        Value::Number(number) => number.is_u64(),
        Value::Object(members) => measure_members(members, size),
    }
}

#[cycle(measure)]
fn measure_members(members: &Map<String, Value>, size: &mut Size) -> bool
    ensures entries { result ≡ are_entries (members_view members.now.entries) }
    ensures counted { IsTrue result → Grown size.old size.new
        (objects_within (members_view members.now.entries) + 1) (entries_within (members_view members.now.entries)) }
{
    size.objects = size.objects.saturating_add(1);
    for (key, member) in members.iter() {
        if !is_name(key.as_bytes()) {
            return false;
        }
        size.entries = size.entries.saturating_add(1);
        if !measure(member, size) {
            return false;
        }
    }
    true
}
