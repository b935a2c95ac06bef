//! The value of a text, by the kit's readers.
ghost use Rattle.std.specs.Prelude.{◌≡◌, ◌↔◌, IsTrue, IfOk, IsErrOf, Some, None};
ghost use Rattle.serde_json.specs.View.{view};
ghost use Rattle.serde_json.specs.Read.{read};
ghost use Rattle.mds_base.specs.declared.limits.TheConstants.{BULK_DEPTH};
ghost use Rattle.bulk.specs.Grammar.{nests_within};

use crate::fault::TreeFault;
use json::{Reader, Scratch};
use mds_base::limits::BULK_DEPTH;
use serde_json::Value;
use std::alloc::{AllocError, Global};

/// Whether a text is one JSON value that nests no deeper than a tree may. What is read of it later goes no deeper.
pub(crate) fn is_shallow(alloc: Global, text: &str) -> Result<bool, AllocError>
    ensures { IfOk result (λ shallow. shallow ≡ nests_within BULK_DEPTH text.now) }
{
    let mut scratch = Scratch::new(alloc);
    let mut reader = Reader::new(text, &mut scratch)?;
    Ok(reader.skip_value(BULK_DEPTH).is_ok() && reader.next().is_none())
}

pub(crate) fn read_value(alloc: Global, text: &str) -> Result<Value, TreeFault>
    ensures ok { IfOk result (λ value. read text.now ≡ Some (view value)) }
    ensures bad { IsErrOf result TreeFault.BadTree → read text.now ≡ None }
{
    match Value::from_str(alloc, text) {
        Ok(value) => Ok(value),
        Err(fault) => if fault.is_memory() {
            Err(TreeFault::OutOfMemory)
        } else {
            Err(TreeFault::BadTree)
        },
    }
}
