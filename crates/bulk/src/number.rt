//! The objects of a value, by their numbers.
ghost use Rattle.std.specs.Prelude.{◌≡◌, ◌≤◌, ◌+◌, ◌++◌, IsTrue, IfOk, length};
ghost use Rattle.serde_json.specs.Data.{object};
ghost use Rattle.serde_json.specs.View.{view, members_view};
ghost use Rattle.mds_base.specs.declared.limits.TheConstants.{BULK_DIRECTORIES};
ghost use Rattle.bulk.specs.Grammar.{is_entry, are_entries, objects_in, objects_within};
ghost use Rattle.bulk.specs.Trees.{kind_of, objects_of};

use crate::object::{Kind, Object};
use mds_base::Name;
use serde_json::{Map, Value};
use std::alloc::{AllocError, Global};

/// Adds the objects of an entry, numbered on from those that are there, and says what the entry is.
#[cycle(number)]
pub(crate) fn number(
    alloc: Global,
    objects: &mut Vec<Object>,
    value: &Value,
) -> Result<Kind, AllocError>
    requires entry { IsTrue (is_entry (view value.now)) }
    requires room { length objects.old.items + objects_in (view value.now) ≤ BULK_DIRECTORIES }
    ensures kind { IfOk result (λ kind. kind ≡ kind_of (length objects.old.items) (view value.now)) }
    ensures added { IfOk result (λ _. objects.new.items
        ≡ objects.old.items ++ objects_of (length objects.old.items) (view value.now)) }
{
    match value {
        Value::Null | Value::Bool(_) | Value::String(_) | Value::Array(_) => {
            Ok(Kind::File { size: 0 })
        }
        Value::Number(size) => Ok(Kind::File {
            size: size.as_u64().unwrap_or(0),
        }),
        Value::Object(members) => number_members(alloc, objects, members),
    }
}

#[cycle(number)]
fn number_members(
    alloc: Global,
    objects: &mut Vec<Object>,
    members: &Map<String, Value>,
) -> Result<Kind, AllocError>
    requires entries { IsTrue (are_entries (members_view members.now.entries)) }
    requires room { length objects.old.items + (objects_within (members_view members.now.entries) + 1)
        ≤ BULK_DIRECTORIES }
    ensures kind { IfOk result (λ kind. kind
        ≡ kind_of (length objects.old.items) (object (members_view members.now.entries))) }
    ensures added { IfOk result (λ _. objects.new.items
        ≡ objects.old.items ++ objects_of (length objects.old.items) (object (members_view members.now.entries))) }
{
    // The object comes before those in it, and is known when they are.
    let index = objects.len();
    objects.push(Object::new(alloc))?;
    let mut object = Object::new(alloc);
    for (key, member) in members.iter() {
        let name = Name::of_bytes(alloc, key.as_bytes())?;
        let kind = number(alloc, objects, member)?;
        object.add(name, kind)?;
    }
    objects[index] = object;
    Ok(Kind::Dir {
        index: index as u32,
    })
}
