ghost use Rattle.std.specs.Prelude.{◌≡◌, ℕ, ◌≤◌, ◌<◌, ◌^◌, ◌-◌, List, [], ◌++◌, length, take, min, IfOk, IsErrOf};
ghost use Rattle.std.specs.Prelude.{MatchOption};
ghost use Rattle.std.specs.Option.{option_copied};
ghost use Rattle.records.specs.Rows.{last_of, comes_after};
ghost use Rattle.std.specs.Prelude.{◌&&◌, ◌==◌, if◌then◌else◌};
ghost use Rattle.records.specs.declared.kinds.TheConstants.{FINAL_LOADED};
ghost use Rattle.records.specs.declared.record.Record.{Record};
ghost use Rattle.records.specs.Faults.{Gives};
ghost use Rattle.records.specs.Spelling.{Spells, IsBegun, IsBadAt, GivesOrMemory};
ghost use Rattle.records.specs.Reading.{byte_where, byte_among, number_at, from_foreign, text_at, name_at, rising_at};
ghost use Rattle.records.specs.Reading.{row_with, stamp_at, attr_at, must_be_stamped, row_at, list_after, rows_at};
ghost use Rattle.records.specs.Reading.{set_after, named_after, other_after, call_after, call_at, tags_of, least_of};
ghost use Rattle.records.specs.Reading.{most_of, final_of, is_low, sealed_at, final_at};
ghost use Rattle.records.specs.ReadingRecords.{head_at, served_at, is_depth, split_at, record_at};

use crate::fault::{Fault, RecordFault, Stop};
use crate::kinds::{
    CALL_CREATE, CALL_GRAB, CALL_KILL, CALL_LINK, CALL_LOAD, CALL_MKDIR, CALL_REMOVE, CALL_SEAL,
    CALL_SETATTR, CALL_STAMP, CALL_UNLINK, CALL_UNSEAL, FINAL_CREATED, FINAL_CREATED_DIR,
    FINAL_EXISTS, FINAL_IDS, FINAL_IS_DIR, FINAL_KILLED, FINAL_LATE, FINAL_LOADED, FINAL_MISSING,
    FINAL_NOT_EMPTY, FINAL_OPENED, FINAL_REMOVED, FINAL_SEALED, FINAL_SET, FINAL_STALE,
    RECORD_BEGIN, RECORD_END, RECORD_HEAD, RECORD_INSTALL, RECORD_INSTALL_STAMPED, RECORD_OPENED,
    RECORD_SERVED,
};
use crate::least_format::some_stamped;
use crate::reading_installs::install;
use crate::record::Record;
use chains::reverse;
use mds_base::limits::{DIRECTORIES, EPOCHS, LOAD_MOST};
use mds_base::{Attr, Call, Final, Name, NameFault, Row, RowList, Stamp};
use name_hash::hash;
use std::alloc::Global;

#[tactic(auto, unfolding(crate::specs::Reading::byte_among, crate::specs::Reading::byte_where))]
pub(crate) fn byte<'a>(bytes: &'a [u8], allowed: &[u8]) -> Result<(u8, &'a [u8]), Stop>
    ensures { Gives (λ x. (x.0, x.1.now)) result (byte_among allowed.now bytes.now) }
{
    match bytes {
        [] => Err(Stop::Fault(Fault::Short)),
        [first, rest @ ..] => {
            if allowed.contains(first) {
                Ok((*first, rest))
            } else {
                Err(Stop::Fault(Fault::Bad(bytes.len())))
            }
        }
    }
}

pub(crate) fn number(
    bytes: &[u8],
    width: usize,
    least: u64,
    most: u64,
) -> Result<(u64, &[u8]), Stop>
    requires { (width ≤ 8) × (least ≤ most) × (most < 256 ^ width) }
    ensures gives { Gives (λ x. (x.0, x.1.now)) result (number_at width least most bytes.now) }
    ensures within { IfOk result (λ x. (least ≤ x.0) × (x.0 ≤ most)) }
{
    let mut value = 0;
    for place in 0..width {
        if bytes.len() <= place {
            return Err(Stop::Fault(Fault::Short));
        }
        value = value * 256 + bytes[place] as u64;
        // Some number from least to most has to begin so.
        let weight = 256u64.pow((width - 1 - place) as u32);
        if value < least / weight || most / weight < value {
            return Err(Stop::Fault(Fault::Bad(bytes.len() - place)));
        }
    }
    Ok((value, &bytes[width..]))
}

#[tactic(auto, unfolding(crate::specs::Reading::name_at))]
fn name(alloc: Global, bytes: &[u8]) -> Result<(Name, &[u8]), Stop>
    ensures { Gives (λ x. (x.0, x.1.now)) result (name_at bytes.now) }
{
    let (len, rest) = number(bytes, 1, 1, 255)?;
    text(alloc, len as usize, rest)
}

fn text(alloc: Global, len: usize, bytes: &[u8]) -> Result<(Name, &[u8]), Stop>
    requires { 1 ≤ len }
    ensures { Gives (λ x. (x.0, x.1.now)) result (text_at len bytes.now) }
{
    let front = &bytes[..len.min(bytes.len())];
    if let Some(left) = foreign(front) {
        return Err(Stop::Fault(Fault::Bad(left + (bytes.len() - front.len()))));
    }
    if bytes.len() < len {
        return Err(Stop::Fault(Fault::Short));
    }
    match Name::read(alloc, front) {
        Ok(name) => Ok((name, &bytes[len..])),
        Err(NameFault::OutOfMemory) => Err(Stop::Memory),
        Err(NameFault::BadName) => Err(Stop::Fault(Fault::Bad(bytes.len() - (len - 1)))),
    }
}

// How many bytes there are from the first one on that stands in no name.
fn foreign(bytes: &[u8]) -> Option<usize>
    ensures { MatchOption result (from_foreign bytes.now ≡ [])
        (λ left. (0 < left) × (left ≤ length bytes.now) × (length (from_foreign bytes.now) ≡ left)) }
{
    for (place, byte) in bytes.iter().enumerate() {
        if *byte == b'/' || *byte == 0 {
            return Some(bytes.len() - place);
        }
    }
    None
}

// The last of some rows.
fn last(rows: &[Row]) -> Option<&Row>
    ensures { option_copied result ≡ last_of rows.now }
{
    match rows.len() {
        0 => None,
        len => rows.get(len - 1),
    }
}

// Whether a name stands behind that of the last row in the order of a scan.
fn comes_after(rows: &[Row], name: &Name) -> bool
    ensures { result ≡ comes_after (last_of rows.now) name.now }
{
    match last(rows) {
        None => true,
        Some(row) => {
            let from = reverse(hash(&row.name));
            let to = reverse(hash(name));
            from.cmp(&to).then(row.name.cmp(name)).is_lt()
        }
    }
}

#[tactic(auto, unfolding(crate::specs::Reading::rising_at))]
fn rising<'a>(alloc: Global, rows: &[Row], bytes: &'a [u8]) -> Result<(Name, &'a [u8]), Stop>
    ensures { Gives (λ x. (x.0, x.1.now)) result (rising_at (last_of rows.now) bytes.now) }
{
    let (name, rest) = name(alloc, bytes)?;
    if comes_after(rows, &name) {
        Ok((name, rest))
    } else {
        Err(Stop::Fault(Fault::Bad(rest.len() + 1)))
    }
}

// The least time of modification that a row may have which must be stamped, or need not be.
fn least_time(must: bool, owner: u64) -> u64
    ensures { result ≡ (if must && (owner == 0) then 1 else 0) }
{
    if must && owner == 0 { 1 } else { 0 }
}

#[tactic(auto, unfolding(crate::specs::Reading::stamp_at))]
fn stamped_row(
    must: bool,
    name: Name,
    dir: u64,
    mode: u32,
    size: u64,
    bytes: &[u8],
) -> Result<(Row, &[u8]), Stop>
    ensures { Gives (λ x. (x.0, x.1.now)) result (stamp_at must (row_with name dir mode size) bytes.now) }
{
    let (owner, rest) = number(bytes, 4, 0, u32::MAX as u64)?;
    let (mtime, rest) = number(rest, 8, least_time(must, owner), u64::MAX)?;
    let attr = Attr {
        dir,
        mode,
        size,
        owner: owner as u32,
        mtime,
    };
    Ok((Row { name, attr }, rest))
}

#[tactic(auto, unfolding(crate::specs::Reading::attr_at))]
fn attributes(stamped: bool, must: bool, name: Name, bytes: &[u8]) -> Result<(Row, &[u8]), Stop>
    ensures { Gives (λ x. (x.0, x.1.now)) result (attr_at stamped must name bytes.now) }
{
    let (dir, rest) = number(bytes, 8, 0, DIRECTORIES - 1)?;
    let (mode, rest) = number(rest, 2, 0, 4095)?;
    let (size, rest) = number(rest, 8, 0, u64::MAX)?;
    let mode = mode as u32;
    if stamped {
        return stamped_row(must, name, dir, mode, size, rest);
    }
    let attr = Attr {
        dir,
        mode,
        size,
        owner: 0,
        mtime: 0,
    };
    Ok((Row { name, attr }, rest))
}

// Whether the row behind these is the last that can bring the stamp that one of them must have.
fn must_be_stamped(stamped: bool, rows: &[Row], left: u64) -> bool
    ensures { result ≡ must_be_stamped stamped rows.now left }
{
    stamped && left == 0 && !some_stamped(rows)
}

// A row behind others, of which `left` more follow.
#[tactic(auto, unfolding(crate::specs::Reading::row_at))]
fn row<'a>(
    alloc: Global,
    stamped: bool,
    rows: &[Row],
    left: u64,
    bytes: &'a [u8],
) -> Result<(Row, &'a [u8]), Stop>
    ensures { Gives (λ x. (x.0, x.1.now)) result (row_at stamped rows.now left bytes.now) }
{
    let must = must_be_stamped(stamped, rows, left);
    let (name, rest) = rising(alloc, rows, bytes)?;
    attributes(stamped, must, name, rest)
}

fn row_list(
    alloc: Global,
    stamped: bool,
    count: u64,
    bytes: &[u8],
) -> Result<(RowList, &[u8]), Stop>
    ensures { Gives (λ x. (x.0, x.1.now)) result (list_after (row_at stamped) [] count bytes.now) }
{
    let mut rows = RowList::new(alloc);
    let mut rest = bytes;
    for place in 0..count {
        match row(alloc, stamped, rows.rows(), count - 1 - place, rest) {
            Ok((next, after)) => {
                rows.push(next)?;
                rest = after;
            }
            Err(stop) => return Err(stop),
        }
    }
    Ok((rows, rest))
}

#[tactic(auto, unfolding(crate::specs::Reading::rows_at))]
pub(crate) fn rows(
    alloc: Global,
    stamped: bool,
    least: u64,
    most: u64,
    bytes: &[u8],
) -> Result<(RowList, &[u8]), Stop>
    requires { (least ≤ most) × (most < 2 ^ 32) }
    ensures { Gives (λ x. (x.0, x.1.now)) result (rows_at stamped least most bytes.now) }
{
    let (count, rest) = number(bytes, 4, least, most)?;
    row_list(alloc, stamped, count, rest)
}

#[tactic(auto, unfolding(crate::specs::Reading::set_after))]
fn set_of(
    kind: u8,
    dir: u64,
    name: Name,
    mode: u32,
    size: u64,
    bytes: &[u8],
) -> Result<(Call, &[u8]), Stop>
    ensures { Gives (λ x. (x.0, x.1.now)) result (set_after kind dir name mode size bytes.now) }
{
    let (stamp, rest) = match kind {
        CALL_SETATTR => (None, bytes),
        _ => {
            let (owner, rest) = number(bytes, 4, 0, u32::MAX as u64)?;
            let (mtime, rest) = number(rest, 8, 0, u64::MAX)?;
            let owner = owner as u32;
            (Some(Stamp { owner, mtime }), rest)
        }
    };
    let call = Call::Setattr {
        dir,
        name,
        mode,
        size,
        stamp,
    };
    Ok((call, rest))
}

#[tactic(auto, unfolding(crate::specs::Reading::named_after))]
fn named(kind: u8, dir: u64, name: Name, bytes: &[u8]) -> Result<(Call, &[u8]), Stop>
    ensures { Gives (λ x. (x.0, x.1.now)) result (named_after kind dir name bytes.now) }
{
    match kind {
        CALL_CREATE => Ok((Call::Create { dir, name }, bytes)),
        CALL_MKDIR => Ok((Call::Mkdir { dir, name }, bytes)),
        CALL_REMOVE => Ok((Call::Remove { dir, name }, bytes)),
        CALL_GRAB => {
            let (count, rest) = number(bytes, 4, 1, 4096)?;
            let count = count as u32;
            Ok((Call::Grab { dir, name, count }, rest))
        }
        CALL_LINK => {
            let (id, rest) = number(bytes, 8, 1, DIRECTORIES - 1)?;
            Ok((Call::Link { dir, name, id }, rest))
        }
        CALL_UNLINK => {
            let (id, rest) = number(bytes, 8, 1, DIRECTORIES - 1)?;
            Ok((Call::Unlink { dir, name, id }, rest))
        }
        _ => {
            let (mode, rest) = number(bytes, 2, 0, 4095)?;
            let (size, rest) = number(rest, 8, 0, u64::MAX)?;
            set_of(kind, dir, name, mode as u32, size, rest)
        }
    }
}

#[tactic(auto, unfolding(crate::specs::Reading::call_after))]
fn call_of(alloc: Global, kind: u8, dir: u64, bytes: &[u8]) -> Result<(Call, &[u8]), Stop>
    ensures { Gives (λ x. (x.0, x.1.now)) result (call_after kind dir bytes.now) }
{
    match kind {
        CALL_LOAD => {
            let (rows, rest) = rows(alloc, false, 1, LOAD_MOST as u64, bytes)?;
            Ok((Call::Load { dir, rows }, rest))
        }
        _ => other(alloc, kind, dir, bytes),
    }
}

// A call other than a load.
#[tactic(auto, unfolding(crate::specs::Reading::other_after))]
fn other(alloc: Global, kind: u8, dir: u64, bytes: &[u8]) -> Result<(Call, &[u8]), Stop>
    ensures { Gives (λ x. (x.0, x.1.now)) result (other_after kind dir bytes.now) }
{
    match kind {
        CALL_SEAL => {
            let (part, rest) = number(bytes, 4, 0, 1023)?;
            let (epoch, rest) = number(rest, 8, 0, EPOCHS - 1)?;
            let part = part as u32;
            Ok((Call::Seal { dir, part, epoch }, rest))
        }
        CALL_UNSEAL => {
            let (part, rest) = number(bytes, 4, 0, 1023)?;
            let (epoch, rest) = number(rest, 8, 0, EPOCHS - 1)?;
            let part = part as u32;
            Ok((Call::Unseal { dir, part, epoch }, rest))
        }
        CALL_KILL => {
            let (epoch, rest) = number(bytes, 8, 0, EPOCHS - 1)?;
            Ok((Call::Kill { dir, epoch }, rest))
        }
        _ => {
            let (name, rest) = name(alloc, bytes)?;
            named(kind, dir, name, rest)
        }
    }
}

const CALL_KINDS: [u8; 12] = [
    CALL_CREATE,
    CALL_MKDIR,
    CALL_REMOVE,
    CALL_SETATTR,
    CALL_GRAB,
    CALL_LOAD,
    CALL_LINK,
    CALL_STAMP,
    CALL_SEAL,
    CALL_UNSEAL,
    CALL_KILL,
    CALL_UNLINK,
];

#[tactic(auto, unfolding(crate::specs::Reading::call_at))]
fn call(alloc: Global, bytes: &[u8]) -> Result<(Call, &[u8]), Stop>
    ensures { Gives (λ x. (x.0, x.1.now)) result (call_at bytes.now) }
{
    let (kind, rest) = byte(bytes, &CALL_KINDS)?;
    let (dir, rest) = number(rest, 8, 1, DIRECTORIES - 1)?;
    call_of(alloc, kind, dir, rest)
}

fn tags(call: &Call) -> &'static [u8]
    ensures { result.now ≡ tags_of call.now }
{
    match call {
        Call::Create { .. } => &[FINAL_CREATED, FINAL_EXISTS],
        Call::Mkdir { .. } => &[FINAL_CREATED_DIR, FINAL_EXISTS],
        Call::Remove { .. } => &[FINAL_REMOVED, FINAL_MISSING, FINAL_IS_DIR],
        Call::Setattr { .. } => &[FINAL_MISSING, FINAL_SET],
        Call::Grab { .. } => &[FINAL_IDS],
        Call::Link { .. } => &[FINAL_CREATED_DIR, FINAL_EXISTS],
        Call::Seal { .. } => &[FINAL_SEALED, FINAL_NOT_EMPTY, FINAL_LATE, FINAL_KILLED],
        Call::Unseal { .. } => &[FINAL_LATE, FINAL_OPENED],
        Call::Kill { .. } => &[FINAL_LATE, FINAL_KILLED],
        Call::Unlink { .. } => &[FINAL_EXISTS, FINAL_REMOVED, FINAL_MISSING],
        Call::Lookup { .. } => &[],
        Call::Scan { .. } => &[],
        Call::Load { .. } => &[FINAL_LOADED, FINAL_STALE],
    }
}

// The most rows of a load that may have been added.
fn most_loaded(rows: &[Row]) -> u64
    ensures { result ≡ min (length rows.now) 4096 }
{
    rows.len().min(LOAD_MOST as usize) as u64
}

// The range of the number that follows a tag.
fn range(call: &Call, tag: u8) -> (u64, u64)
    ensures least { result.0 ≡ least_of call.now tag }
    ensures most { result.1 ≡ most_of call.now tag }
    ensures ordered { result.0 ≤ result.1 }
    ensures few { tag ≡ FINAL_LOADED → result.1 ≤ 4096 }
{
    match call {
        Call::Load { rows, .. } => match tag {
            FINAL_LOADED => (0, most_loaded(rows.rows())),
            _ => (0, 0),
        },
        Call::Link { id, .. } => match tag {
            FINAL_CREATED_DIR => (*id, *id),
            _ => (0, 0),
        },
        _ => match tag {
            FINAL_CREATED_DIR => (1, DIRECTORIES - 1),
            FINAL_IDS => (2, 1 << 45),
            _ => (0, 0),
        },
    }
}

pub(crate) fn final_with(tag: u8, number: u64) -> Final
    requires { tag ≡ FINAL_LOADED → number ≤ 4096 }
    ensures { result ≡ final_of tag number }
{
    match tag {
        FINAL_CREATED => Final::Created,
        FINAL_CREATED_DIR => Final::CreatedDir(number),
        FINAL_EXISTS => Final::Exists,
        FINAL_REMOVED => Final::Removed,
        FINAL_MISSING => Final::Missing,
        FINAL_IS_DIR => Final::IsDir,
        FINAL_SET => Final::Set,
        FINAL_IDS => Final::Ids(number),
        FINAL_LOADED => Final::Loaded(number as u32),
        FINAL_STALE => Final::Stale,
        FINAL_NOT_EMPTY => Final::NotEmpty,
        FINAL_LATE => Final::Late,
        FINAL_OPENED => Final::Opened,
        _ => Final::Killed,
    }
}

#[tactic(auto, unfolding(crate::specs::Reading::byte_where))]
fn low(bytes: &[u8]) -> Result<(u8, &[u8]), Stop>
    ensures { Gives (λ x. (x.0, x.1.now)) result (byte_where is_low bytes.now) }
{
    match bytes {
        [] => Err(Stop::Fault(Fault::Short)),
        [first, rest @ ..] => {
            if *first % 16 <= 14 {
                Ok((*first, rest))
            } else {
                Err(Stop::Fault(Fault::Bad(bytes.len())))
            }
        }
    }
}

#[tactic(auto, unfolding(crate::specs::Reading::sealed_at))]
pub(crate) fn sealed(bytes: &[u8]) -> Result<(Final, &[u8]), Stop>
    ensures { Gives (λ x. (x.0, x.1.now)) result (sealed_at bytes.now) }
{
    let (high, rest) = number(bytes, 7, 0, EPOCHS / 16 - 1)?;
    let (low, rest) = low(rest)?;
    let depth = (low % 16) as u32;
    let epoch = high * 16 + (low / 16) as u64;
    Ok((Final::Sealed { depth, epoch }, rest))
}

#[tactic(auto, unfolding(crate::specs::Reading::final_at))]
fn final_reply<'a>(call: &Call, bytes: &'a [u8]) -> Result<(Final, &'a [u8]), Stop>
    ensures { Gives (λ x. (x.0, x.1.now)) result (final_at call.now bytes.now) }
{
    let (tag, rest) = byte(bytes, tags(call))?;
    if tag == FINAL_SEALED {
        return sealed(rest);
    }
    let (least, most) = range(call, tag);
    let (number, rest) = number(rest, 8, least, most)?;
    Ok((final_with(tag, number), rest))
}

#[tactic(auto, unfolding(crate::specs::ReadingRecords::head_at))]
fn head(bytes: &[u8]) -> Result<(Record, &[u8]), Stop>
    ensures { Gives (λ x. (x.0, x.1.now)) result (head_at bytes.now) }
{
    let (format, rest) = byte(bytes, &[1])?;
    let (servers, rest) = number(rest, 4, 1, 32)?;
    let (server, rest) = number(rest, 4, 0, servers - 1)?;
    let (threshold, rest) = number(rest, 4, 1, 8000)?;
    Ok((
        Record::Head {
            format,
            servers: servers as u32,
            server: server as u32,
            threshold: threshold as u32,
        },
        rest,
    ))
}

#[tactic(auto, unfolding(crate::specs::ReadingRecords::served_at))]
fn served(alloc: Global, bytes: &[u8]) -> Result<(Record, &[u8]), Stop>
    ensures { Gives (λ x. (x.0, x.1.now)) result (served_at bytes.now) }
{
    let (client, rest) = number(bytes, 4, 1, 64)?;
    let (seq, rest) = number(rest, 8, 1, u64::MAX)?;
    let (part, rest) = number(rest, 4, 0, 1023)?;
    let (call, rest) = call(alloc, rest)?;
    let (said, rest) = final_reply(&call, rest)?;
    Ok((
        Record::Served {
            client: client as u32,
            seq,
            part: part as u32,
            call,
            said,
        },
        rest,
    ))
}

#[tactic(auto, unfolding(crate::specs::Reading::byte_where))]
fn depth(part: u64, bytes: &[u8]) -> Result<(u8, &[u8]), Stop>
    ensures { Gives (λ x. (x.0, x.1.now)) result (byte_where (is_depth part) bytes.now) }
{
    match bytes {
        [] => Err(Stop::Fault(Fault::Short)),
        [first, rest @ ..] => {
            if *first < 10 && part < 1 << *first {
                Ok((*first, rest))
            } else {
                Err(Stop::Fault(Fault::Bad(bytes.len())))
            }
        }
    }
}

#[tactic(auto, unfolding(crate::specs::ReadingRecords::split_at))]
fn split(kind: u8, bytes: &[u8]) -> Result<(Record, &[u8]), Stop>
    ensures { Gives (λ x. (x.0, x.1.now)) result (split_at kind bytes.now) }
{
    let (dir, rest) = number(bytes, 8, 1, DIRECTORIES - 1)?;
    let (part, rest) = number(rest, 4, 0, 511)?;
    let (depth, rest) = depth(part, rest)?;
    let part = part as u32;
    let depth = depth as u32;
    let item = match kind {
        RECORD_BEGIN => Record::Begin { dir, part, depth },
        _ => Record::End { dir, part, depth },
    };
    Ok((item, rest))
}

const RECORD_KINDS: [u8; 7] = [
    RECORD_HEAD,
    RECORD_OPENED,
    RECORD_SERVED,
    RECORD_BEGIN,
    RECORD_INSTALL,
    RECORD_END,
    RECORD_INSTALL_STAMPED,
];

#[tactic(auto, unfolding(crate::specs::ReadingRecords::record_at, crate::specs::ReadingRecords::record_after))]
fn record(alloc: Global, bytes: &[u8]) -> Result<(Record, &[u8]), Stop>
    ensures { Gives (λ x. (x.0, x.1.now)) result (record_at bytes.now) }
{
    let (kind, rest) = byte(bytes, &RECORD_KINDS)?;
    match kind {
        RECORD_HEAD => head(rest),
        RECORD_OPENED => Ok((Record::Opened, rest)),
        RECORD_SERVED => served(alloc, rest),
        RECORD_INSTALL => install(alloc, false, rest),
        RECORD_INSTALL_STAMPED => install(alloc, true, rest),
        _ => split(kind, rest),
    }
}

/// The record whose spelling begins the bytes (`docs/FORMATS.md`, "Records"), and that spelling's length.
///
/// `Short` comes exactly where the bytes are a proper prefix of some spelling, and `Bad` exactly where they are
/// neither that nor begin with a spelling, with the place of the first byte after which no spelling can follow.
pub fn read(alloc: Global, bytes: &[u8]) -> Result<(Record, usize), RecordFault>
    // What is read is spelled so.
    ensures found { IfOk result (λ x. (x.1 ≤ length bytes.now) × Spells (take x.1 bytes.now) x.0) }

    // What is spelled at the front is read, unless memory runs out.
    ensures only { (len : ℕ) → (item : Record) → len ≤ length bytes.now → Spells (take len bytes.now) item
        → GivesOrMemory result (Ok (item, len)) }

    // The faults, and when each of them comes.
    ensures short { IsErrOf result RecordFault.Short → IsBegun bytes.now }
    ensures short_only { IsBegun bytes.now → GivesOrMemory result (Err RecordFault.Short) }
    ensures bad { (offset : ℕ) → IsErrOf result (RecordFault.Bad offset) → IsBadAt bytes.now offset }
    ensures bad_only { (offset : ℕ) → IsBadAt bytes.now offset → GivesOrMemory result (Err (RecordFault.Bad offset)) }
{
    match record(alloc, bytes) {
        Ok((item, rest)) => Ok((item, bytes.len() - rest.len())),
        Err(Stop::Memory) => Err(RecordFault::OutOfMemory),
        Err(Stop::Fault(Fault::Short)) => Err(RecordFault::Short),
        Err(Stop::Fault(Fault::Bad(left))) => Err(RecordFault::Bad {
            offset: (bytes.len() - left) as u64,
        }),
    }
}

/// The laws of the spellings of records (`crates/records/README.md`, "Spelling"), for all records.
pub fn laws_of_spellings()
    // A record that has a spelling has one.
    ensures one { (a b : List ℕ) → (item : Record) → Spells a item → Spells b item → a ≡ b }

    // Bytes spell one record, and no spelling is a proper prefix of another.
    ensures no_prefix { (bytes more : List ℕ) → (a b : Record) → Spells bytes a → Spells (bytes ++ more) b
        → (more ≡ []) × (a ≡ b) }
{}
