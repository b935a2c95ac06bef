ghost use Rattle.std.specs.Prelude.{◌≡◌, ℕ, OnOk, OnErr, IfOk};
ghost use Rattle.std.specs.FinMap as map;
ghost use Rattle.mds_base.specs.RowKeys.{RowMap, edited_rows, page_of};
ghost use Rattle.mds_base.specs.RowsCause.{HasRowsCause};

use crate::attr::Attr;
use crate::cursor::Cursor;
use crate::edit::Edit;
use crate::row::RowList;
use crate::row_key::RowKey;
use std::alloc::{AllocError, AllocFailed, Global};
use thiserror::Error;

/// Why a call on rows was refused.
#[derive(Clone, Copy, Debug, PartialEq, Eq, Error)]
pub enum RowsFault {
    /// A device under the rows failed.
    #[error("device fault")]
    Device,
    /// There was no memory for the call.
    #[error("out of memory")]
    OutOfMemory,
}

impl From<AllocError> for RowsFault {
    ghost use Rattle.mds_base.specs.declared.rows.RowsFault.{RowsFault};

    ghost from_gives = { λ _ e. e ≡ RowsFault.OutOfMemory };

    fn from(_: AllocError) -> RowsFault {
        RowsFault::OutOfMemory
    }
}

impl<T: Drop> From<AllocFailed<T>> for RowsFault {
    ghost use Rattle.mds_base.specs.declared.rows.RowsFault.{RowsFault};

    ghost from_gives = { λ _ e. e ≡ RowsFault.OutOfMemory };

    fn from(_: AllocFailed<T>) -> RowsFault {
        RowsFault::OutOfMemory
    }
}

/// The rows of a server: a finite map from keys to attributes, however it is kept.
///
/// `Device` comes only where the count of faults rose. A refused call leaves the map as it is.
pub trait Rows {
    /// The map.
    ghost contents: { Self → RowMap };

    /// How many faults of a device were met so far. It never falls.
    ghost faults: { Self → ℕ };

    /// The attributes at the key.
    fn get(&mut self, key: &RowKey) -> Result<Option<Attr>, RowsFault>
        ensures found { IfOk result (λ found. found ≡ map.get (contents self.old) key.now) }
        ensures contents { contents self.new ≡ contents self.old }
        ensures cause { HasRowsCause (faults self.old) (faults self.new) result };

    /// Sets the attributes at the key.
    fn put(&mut self, key: RowKey, attr: Attr) -> Result<(), RowsFault>
        ensures ok { OnOk result (contents self.new ≡ map.insert (contents self.old) key attr) }
        ensures err { OnErr result (contents self.new ≡ contents self.old) }
        ensures cause { HasRowsCause (faults self.old) (faults self.new) result };

    /// Takes the row at the key away, where there is one.
    fn take_away(&mut self, key: &RowKey) -> Result<(), RowsFault>
        ensures ok { OnOk result (contents self.new ≡ map.remove (contents self.old) key.now) }
        ensures err { OnErr result (contents self.new ≡ contents self.old) }
        ensures cause { HasRowsCause (faults self.old) (faults self.new) result };

    /// The first `limit` rows of the partition past the cursor whose reversed hash is at most `last`, in order.
    fn page(
        &mut self,
        alloc: Global,
        dir: u64,
        part: u32,
        from: &Cursor,
        last: u64,
        limit: u32,
    ) -> Result<RowList, RowsFault>
        ensures listed { IfOk result (λ rows. rows ≡ page_of (contents self.old) dir part from.now last limit) }
        ensures contents { contents self.new ≡ contents self.old }
        ensures cause { HasRowsCause (faults self.old) (faults self.new) result };
}

/// Makes an edit of the row at a key. Where it is refused the rows stay as they are.
pub fn edit_row<R: Rows>(rows: &mut R, key: RowKey, edit: Edit) -> Result<(), RowsFault>
    ensures ok { OnOk result (R.contents rows.new ≡ edited_rows (R.contents rows.old) key edit) }
    ensures err { OnErr result (R.contents rows.new ≡ R.contents rows.old) }
    ensures cause { HasRowsCause (R.faults rows.old) (R.faults rows.new) result }
{
    match edit {
        Edit::Keep => Ok(()),
        Edit::Put(attr) => rows.put(key, attr),
        Edit::Take => rows.take_away(&key),
    }
}
