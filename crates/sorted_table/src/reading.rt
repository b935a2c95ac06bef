//! Reading a row from left to right, in the bytes of its block.
ghost use Rattle.std.specs.Prelude.{◌≡◌, ◌<◌, ◌^◌, IfOk, IsTrue, length};
ghost use Rattle.std.specs.Int.{w16, w32, w64, from_be_bytes};
ghost use Rattle.mds_base.specs.Name.{is_name};
ghost use Rattle.mds_base.specs.RowKeys.{row_key_cmp};
ghost use Rattle.sorted_table.specs.Lines.{row_in, key_in};
ghost use Rattle.sorted_table.specs.Reading.{Gives, u16_at, u32_at, u64_at, name_at, key_at, plain_at, stamped_at};
ghost use Rattle.sorted_table.specs.Reading.{marked_at, row_at};

use crate::TableRow;
use mds_base::limits::{DIRECTORIES, MODE_MOST};
use mds_base::{Attr, Name, RowKey, is_name};
use std::alloc::{AllocError, Global};
use std::cmp::Ordering;

/// A row as it stands in a block: its name lies there.
#[derive(Drop)]
pub(crate) struct Line<'a> {
    pub(crate) key: KeyLine<'a>,
    pub(crate) attr: Option<Attr>,
}

/// The key of a row as it stands in a block.
#[derive(Drop)]
pub(crate) struct KeyLine<'a> {
    dir: u64,
    part: u32,
    rev: u64,
    name: &'a [u8],
}

impl Line<'_> {
    /// A copy of the row, whose name is one.
    pub(crate) fn copy(&self, alloc: Global) -> Result<TableRow, AllocError>
        requires { IsTrue (is_name self.now.key.name.now) }
        ensures { IfOk result (λ row. row ≡ row_in self.now) }
    {
        Ok(TableRow {
            key: self.key.copy(alloc)?,
            attr: self.attr,
        })
    }
}

impl KeyLine<'_> {
    /// How the key stands to another.
    pub(crate) fn compare(&self, key: &RowKey) -> Ordering
        ensures { result ≡ row_key_cmp (key_in self.now) key.now }
    {
        self.compare_to(key.dir, key.part, key.rev, key.name.bytes())
    }

    /// How the key stands to the place with these parts, whose name may be any bytes.
    pub(crate) fn compare_to(&self, dir: u64, part: u32, rev: u64, name: &[u8]) -> Ordering
        ensures { result ≡ row_key_cmp (key_in self.now)
            (record { dir = dir; part = part; rev = rev; name = name.now }) }
    {
        self.dir.cmp(&dir).then(
            self.part
                .cmp(&part)
                .then(self.rev.cmp(&rev).then(self.name.cmp(name))),
        )
    }

    /// A copy of the key, whose name is one.
    pub(crate) fn copy(&self, alloc: Global) -> Result<RowKey, AllocError>
        requires { IsTrue (is_name self.now.name.now) }
        ensures { IfOk result (λ key. key ≡ key_in self.now) }
    {
        Ok(RowKey {
            dir: self.dir,
            part: self.part,
            rev: self.rev,
            name: Name::of_bytes(alloc, self.name)?,
        })
    }
}

#[tactic(auto, unfolding(crate::specs::Reading::u16_at))]
pub(crate) fn u16_at(bytes: &[u8]) -> Option<(u16, &[u8])>
    ensures { Gives (λ x. (x.0, x.1.now)) result (u16_at bytes.now) }
{
    if bytes.len() < 2 {
        return None;
    }
    let (front, rest) = bytes.split_at(2);
    Some((u16::from_be_bytes([front[0], front[1]]), rest))
}

#[tactic(auto, unfolding(crate::specs::Reading::u32_at))]
pub(crate) fn u32_at(bytes: &[u8]) -> Option<(u32, &[u8])>
    ensures { Gives (λ x. (x.0, x.1.now)) result (u32_at bytes.now) }
{
    if bytes.len() < 4 {
        return None;
    }
    let (front, rest) = bytes.split_at(4);
    Some((number_of_4(front), rest))
}

#[tactic(auto, unfolding(crate::specs::Reading::u64_at))]
pub(crate) fn u64_at(bytes: &[u8]) -> Option<(u64, &[u8])>
    ensures { Gives (λ x. (x.0, x.1.now)) result (u64_at bytes.now) }
{
    if bytes.len() < 8 {
        return None;
    }
    let (front, rest) = bytes.split_at(8);
    Some((number_of_8(front), rest))
}

fn number_of_4(bytes: &[u8]) -> u32
    requires { length bytes.now ≡ 4 }
    ensures { result ≡ from_be_bytes w32 bytes.now }
{
    u32::from_be_bytes([bytes[0], bytes[1], bytes[2], bytes[3]])
}

fn number_of_8(bytes: &[u8]) -> u64
    requires { length bytes.now ≡ 8 }
    ensures { result ≡ from_be_bytes w64 bytes.now }
{
    u64::from_be_bytes([
        bytes[0], bytes[1], bytes[2], bytes[3], bytes[4], bytes[5], bytes[6], bytes[7],
    ])
}

#[tactic(auto, unfolding(crate::specs::Reading::name_at))]
fn name_at(bytes: &[u8]) -> Option<(&[u8], &[u8])>
    ensures { Gives (λ x. (x.0.now, x.1.now)) result (name_at bytes.now) }
{
    match bytes {
        [] => None,
        [len, rest @ ..] => {
            let len = *len as usize;
            if rest.len() < len {
                return None;
            }
            let (name, rest) = rest.split_at(len);
            if is_name(name) {
                Some((name, rest))
            } else {
                None
            }
        }
    }
}

#[tactic(auto, unfolding(crate::specs::Reading::key_at))]
fn key_at(bytes: &[u8]) -> Option<(KeyLine<'_>, &[u8])>
    ensures { Gives (λ x. (key_in x.0, x.1.now)) result (key_at bytes.now) }
{
    let (dir, rest) = u64_at(bytes)?;
    let (part, rest) = u32_at(rest)?;
    let (rev, rest) = u64_at(rest)?;
    let (name, rest) = name_at(rest)?;
    Some((
        KeyLine {
            dir,
            part,
            rev,
            name,
        },
        rest,
    ))
}

#[tactic(auto, unfolding(crate::specs::Reading::plain_at))]
fn plain_at(bytes: &[u8]) -> Option<(Attr, &[u8])>
    ensures { Gives (λ x. (x.0, x.1.now)) result (plain_at bytes.now) }
{
    let (dir, rest) = u64_at(bytes)?;
    let (mode, rest) = u16_at(rest)?;
    let (size, rest) = u64_at(rest)?;
    let mode = mode as u32;
    if dir < DIRECTORIES && mode <= MODE_MOST {
        let attr = Attr {
            dir,
            mode,
            size,
            owner: 0,
            mtime: 0,
        };
        Some((attr, rest))
    } else {
        None
    }
}

#[tactic(auto, unfolding(crate::specs::Reading::stamped_at))]
fn stamped_at(bytes: &[u8]) -> Option<(Attr, &[u8])>
    ensures { Gives (λ x. (x.0, x.1.now)) result (stamped_at bytes.now) }
{
    let (plain, rest) = plain_at(bytes)?;
    let (owner, rest) = u32_at(rest)?;
    let (mtime, rest) = u64_at(rest)?;
    let attr = Attr {
        owner,
        mtime,
        ..plain
    };
    if attr.is_stamped() {
        Some((attr, rest))
    } else {
        None
    }
}

#[tactic(auto, unfolding(crate::specs::Reading::marked_at))]
fn marked_at(bytes: &[u8]) -> Option<(Option<Attr>, &[u8])>
    ensures { Gives (λ x. (x.0, x.1.now)) result (marked_at bytes.now) }
{
    match bytes {
        [] => None,
        [0, rest @ ..] => Some((None, rest)),
        [1, rest @ ..] => {
            let (attr, rest) = plain_at(rest)?;
            Some((Some(attr), rest))
        }
        [2, rest @ ..] => {
            let (attr, rest) = stamped_at(rest)?;
            Some((Some(attr), rest))
        }
        [_, ..] => None,
    }
}

/// The row at the front of the bytes, and the bytes after it; `None` exactly where they begin with none.
#[tactic(auto, unfolding(crate::specs::Reading::row_at))]
pub(crate) fn row_at(bytes: &[u8]) -> Option<(Line<'_>, &[u8])>
    ensures { Gives (λ x. (row_in x.0, x.1.now)) result (row_at bytes.now) }
{
    let (key, rest) = key_at(bytes)?;
    let (attr, rest) = marked_at(rest)?;
    Some((Line { key, attr }, rest))
}
