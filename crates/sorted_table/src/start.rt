ghost use Rattle.std.specs.Prelude.{◌≡◌, if◌then◌else◌, true, false};
ghost use Rattle.std.specs.Ordering.{is_lt, is_le};
ghost use Rattle.mds_base.specs.RowKeys.{row_key_cmp};
ghost use Rattle.sorted_table.specs.Lines.{key_in};
ghost use Rattle.sorted_table.specs.Starts.{place_of, is_before};

use crate::reading::KeyLine;
use mds_base::RowKey;
use std::cmp::Ordering;

/// Where a seek begins: at a place in the order of keys, or past it. The name of the place may be any bytes, and none
/// stands before all names.
#[derive(Clone, Copy, Debug)]
pub struct Start<'a> {
    /// The number of the directory.
    pub dir: u64,
    /// The number of the partition.
    pub part: u32,
    /// The reversed hash.
    pub rev: u64,
    /// The bytes of the name.
    pub name: &'a [u8],
    /// Whether what stands at the place is before the start, too.
    pub past: bool,
}

impl<'a> Start<'a> {
    /// At a key: those below it are before.
    pub fn at(key: &'a RowKey) -> Start<'a>
        ensures place { place_of result ≡ key.now }
        ensures past { result.past ≡ false }
    {
        Start {
            dir: key.dir,
            part: key.part,
            rev: key.rev,
            name: key.name.bytes(),
            past: false,
        }
    }

    /// Past a key: it and those below it are before.
    pub fn past(key: &'a RowKey) -> Start<'a>
        ensures place { place_of result ≡ key.now }
        ensures past { result.past ≡ true }
    {
        Start {
            dir: key.dir,
            part: key.part,
            rev: key.rev,
            name: key.name.bytes(),
            past: true,
        }
    }

    /// Whether a key is before it.
    pub fn has_before(&self, key: &RowKey) -> bool
        ensures { result ≡ is_before self.now key.now }
    {
        let order = key.dir.cmp(&self.dir).then(
            key.part.cmp(&self.part).then(
                key.rev.cmp(&self.rev).then(key.name.bytes().cmp(self.name)),
            ),
        );
        self.is_behind(order)
    }

    /// Whether the key of a row, as it stands in a block, is before it.
    pub(crate) fn has_line_before(&self, key: &KeyLine<'_>) -> bool
        ensures { result ≡ is_before self.now (key_in key.now) }
    {
        self.is_behind(key.compare_to(self.dir, self.part, self.rev, self.name))
    }

    // Whether a key that stands so to the place is before the start.
    fn is_behind(&self, order: Ordering) -> bool
        ensures { result ≡ (if self.now.past then is_le order else is_lt order) }
    {
        if self.past {
            order.is_le()
        } else {
            order.is_lt()
        }
    }
}
