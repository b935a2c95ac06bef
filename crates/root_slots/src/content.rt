//! What file 0 says: the content of its slots, and which of them counts.
ghost use Rattle.std.specs.Prelude.{◌≡◌, ◌+◌, ◌*◌, ◌≤◌, length, slice_index, IfOk};
ghost use Rattle.root_slots.specs.declared.content.Content.TheVariants.{Bad, Open};
ghost use Rattle.root_slots.specs.Slot.{HoldsRoot, FindsRoot, tables_in, root_read, open_content, offset_of, other_of};
ghost use Rattle.root_slots.specs.Slot.{rank_of, damaged, is_open, chosen};

use crate::root::{FileList, Root};
use crate::root_slots::SlotDamage;
use crate::{BEHIND_BYTES, COUNT_AT, SUM_BYTES, TABLES_AT, TABLES_MOST};
use byteorder::{BigEndian, ByteOrder};
use md5::{Digest, Md5};
use std::alloc::{AllocError, Global};

/// The two slots of file 0.
#[derive(Clone, Copy, Debug, PartialEq, Eq)]
pub(crate) enum Slot {
    First,
    Second,
}

impl Slot {
    /// The place of its gate in the file.
    pub(crate) fn offset(self) -> u64
        ensures offset { result ≡ offset_of self }
        ensures small { result ≤ 1024 }
    {
        match self {
            Slot::First => 0,
            Slot::Second => 1024,
        }
    }

    pub(crate) fn other(self) -> Slot
        ensures { result ≡ other_of self }
    {
        match self {
            Slot::First => Slot::Second,
            Slot::Second => Slot::First,
        }
    }
}

/// What is wrong behind an open gate.
#[derive(Clone, Copy, Debug, PartialEq, Eq)]
pub(crate) enum Flaw {
    /// More tables than a root has.
    Count,
    /// The sum that is kept at this place behind the gate is not that of the bytes before it.
    WrongSum {
        offset: u16,
        kept: [u8; SUM_BYTES],
        found: [u8; SUM_BYTES],
    },
    /// The sum agrees, and no root may be so.
    Range,
}

impl Flaw {
    fn rank(&self) -> u32
        ensures { result ≡ rank_of self.now }
    {
        match self {
            Flaw::Count => 0,
            Flaw::WrongSum { .. } => 1,
            Flaw::Range => 2,
        }
    }

    fn in_slot(self, slot: Slot) -> Found
        ensures { result ≡ damaged slot self }
    {
        match self {
            Flaw::Count => Found::Damaged {
                offset: slot.offset(),
                damage: SlotDamage::Spelling,
            },
            Flaw::WrongSum {
                offset,
                kept,
                found,
            } => Found::Damaged {
                offset: slot.offset() + 1 + u64::from(offset),
                damage: SlotDamage::Sum { kept, found },
            },
            Flaw::Range => Found::Damaged {
                offset: slot.offset(),
                damage: SlotDamage::Spelling,
            },
        }
    }
}

/// What a slot holds.
#[derive(Debug, Drop)]
pub(crate) enum Content {
    Closed,
    Open(Root),
    Bad(Flaw),
}

impl Content {
    pub(crate) fn is_open(&self) -> bool
        ensures { result ≡ is_open self.now }
    {
        match self {
            Content::Open(_) => true,
            _ => false,
        }
    }
}

/// What the file says.
#[derive(Debug, Drop)]
pub(crate) enum Found {
    /// No slot is open.
    New,
    /// This root is in force, in this slot.
    InForce { slot: Slot, root: Root },
    /// An open slot is damaged, from this place of the file on.
    Damaged { offset: u64, damage: SlotDamage },
}

/// What stands behind an open gate.
pub(crate) fn behind_gate(alloc: Global, bytes: &[u8]) -> Result<Content, AllocError>
    requires { length bytes.now ≡ BEHIND_BYTES }
    ensures content { IfOk result (λ content. content ≡ open_content bytes.now) }
    ensures root { IfOk result HoldsRoot }
{
    let count = bytes[COUNT_AT] as usize;
    if count > TABLES_MOST {
        return Ok(Content::Bad(Flaw::Count));
    }
    let offset = TABLES_AT + 4 * count;
    let mut kept = [0; SUM_BYTES];
    kept.copy_from_slice(&bytes[offset..offset + SUM_BYTES]);
    let found = Md5::digest(&bytes[..offset]);
    if kept != found {
        return Ok(Content::Bad(Flaw::WrongSum {
            offset: offset as u16,
            kept,
            found,
        }));
    }
    let root = read_root(alloc, bytes)?;
    if root.is_root() {
        Ok(Content::Open(root))
    } else {
        Ok(Content::Bad(Flaw::Range))
    }
}

// The root that stands behind a gate.
fn read_root(alloc: Global, bytes: &[u8]) -> Result<Root, AllocError>
    requires { TABLES_AT + 4 * slice_index bytes.now COUNT_AT ≤ length bytes.now }
    ensures { IfOk result (λ root. root ≡ root_read bytes.now) }
{
    let count = bytes[COUNT_AT] as usize;
    let tables = read_tables(alloc, &bytes[TABLES_AT..TABLES_AT + 4 * count], count)?;
    Ok(Root {
        number: BigEndian::read_u64(&bytes[..8]),
        state: BigEndian::read_u32(&bytes[8..12]),
        log_file: BigEndian::read_u32(&bytes[12..16]),
        tables,
    })
}

// So many tables, one behind the other.
fn read_tables(alloc: Global, bytes: &[u8], count: usize) -> Result<FileList, AllocError>
    requires { length bytes.now ≡ 4 * count }
    ensures { IfOk result (λ tables. tables ≡ tables_in count bytes.now) }
{
    let mut tables = FileList::new(alloc);
    let mut rest = bytes;
    for _table in 0..count {
        tables.push(BigEndian::read_u32(rest))?;
        rest = &rest[4..];
    }
    Ok(tables)
}

/// Which slot counts, or what is damaged.
pub(crate) fn choose(first: Content, second: Content) -> Found
    ensures chosen { result ≡ chosen first second }
    ensures root { HoldsRoot first → HoldsRoot second → FindsRoot result }
{
    match first {
        Content::Bad(flaw) => choose_damaged(flaw, second),
        Content::Closed => match second {
            Content::Bad(flaw) => flaw.in_slot(Slot::Second),
            Content::Closed => Found::New,
            Content::Open(root) => Found::InForce {
                slot: Slot::Second,
                root,
            },
        },
        Content::Open(root) => choose_open(root, second),
    }
}

// The same where the first slot is damaged.
fn choose_damaged(flaw: Flaw, second: Content) -> Found
    ensures { result ≡ chosen (Bad flaw) second }
{
    match second {
        Content::Bad(other) if other.rank() < flaw.rank() => other.in_slot(Slot::Second),
        _ => flaw.in_slot(Slot::First),
    }
}

// The same where the first slot holds a root.
fn choose_open(root: Root, second: Content) -> Found
    ensures { result ≡ chosen (Open root) second }
{
    match second {
        Content::Bad(flaw) => flaw.in_slot(Slot::Second),
        Content::Open(other) if root.number < other.number => Found::InForce {
            slot: Slot::Second,
            root: other,
        },
        _ => Found::InForce {
            slot: Slot::First,
            root,
        },
    }
}
