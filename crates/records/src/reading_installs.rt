//! Reading what the child of a split is made from.
ghost use Rattle.std.specs.Prelude.{◌≡◌, ℕ, suc, ◌≤◌, ◌<◌, ◌^◌, ◌-◌, ◌+◌, ◌*◌, ◌==◌, ◌||◌, List, [], ◌∷◌, ◌++◌, length};
ghost use Rattle.std.specs.Prelude.{take, get_or, IfOk, if◌then◌else◌};
ghost use Rattle.std.specs.Int.{bit_at};
ghost use Rattle.bitmap.specs.Words.{passing, set_of};
ghost use Rattle.records.specs.declared.kinds.TheConstants.{FINAL_LOADED};
ghost use Rattle.records.specs.Faults.{Gives};
ghost use Rattle.records.specs.Reading.{byte_where, list_after};
ghost use Rattle.records.specs.ReadingInstalls.{bit_in, has_under, has_required, may_stand, is_grown, may_grow};
ghost use Rattle.records.specs.ReadingInstalls.{bitmap_at, least_with, most_with, numbered_at, some_final_at};
ghost use Rattle.records.specs.ReadingInstalls.{client_after, last_session, session_in, session_at, sessions_at};
ghost use Rattle.records.specs.ReadingInstalls.{is_child_depth, child_at, install_at};

use crate::boxed::BoxedBitmap;
use crate::fault::{Fault, Stop};
use crate::kinds::{
    FINAL_CREATED, FINAL_CREATED_DIR, FINAL_EXISTS, FINAL_IDS, FINAL_IS_DIR, FINAL_KILLED,
    FINAL_LATE, FINAL_LOADED, FINAL_MISSING, FINAL_NOT_EMPTY, FINAL_OPENED, FINAL_REMOVED,
    FINAL_SEALED, FINAL_SET, FINAL_STALE,
};
use crate::reading::{byte, final_with, number, rows, sealed};
use crate::record::Record;
use bitmap::{Bitmap, WORDS};
use mds_base::limits::{CLIENTS_MOST, DIRECTORIES, LOAD_MOST};
use mds_base::{Final, Session, SessionList};
use std::alloc::Global;

/// How many bytes spell a bitmap.
pub(crate) const BITMAP_BYTES: usize = 128;

// Whether a bit of some bytes is set; those past the end are not.
fn bit(bytes: &[u8], place: usize) -> bool
    ensures { result ≡ bit_in bytes.now place }
{
    match bytes.get(place / 8) {
        Some(byte) => *byte >> (place % 8) & 1 == 1,
        None => false,
    }
}

/// `2 ^ depth`.
pub(crate) fn power(depth: usize) -> usize
    requires { depth < 32 }
    ensures { result ≡ 2 ^ depth }
{
    1 << depth
}

// Whether the bytes have the number that is 2^depth below another, where that one requires it.
fn has_under(bytes: &[u8], number: usize, depth: usize) -> bool
    requires { depth < 10 }
    ensures { result ≡ has_under (bit_in bytes.now) number depth }
{
    let weight = power(depth);
    number < weight || weight + 2 * weight <= number || bit(bytes, number - weight)
}

// Whether a number, if it is set, has all that it requires.
fn may_stand(bytes: &[u8], number: usize) -> bool
    ensures { result ≡ may_stand (bit_in bytes.now) number }
{
    !bit(bytes, number) || has_required(bytes, number)
}

fn has_required(bytes: &[u8], number: usize) -> bool
    ensures { result ≡ has_required (bit_in bytes.now) number 10 }
{
    for depth in 0..10 {
        if !has_under(bytes, number, depth) {
            return false;
        }
    }
    true
}

// Whether the numbers of the last byte have all that they require.
fn is_grown(bytes: &[u8], first: usize) -> bool
    requires { first < 1024 }
    ensures { result ≡ is_grown (bit_in bytes.now) first 8 }
{
    for bit in 0..8 {
        if !may_stand(bytes, first + bit) {
            return false;
        }
    }
    true
}

// Whether the last of these bytes may follow the others in a bitmap.
fn may_grow(bytes: &[u8], place: usize) -> bool
    requires { (place < 128) × (length bytes.now ≡ place + 1) }
    ensures { result ≡ may_grow (take place bytes.now) (get_or bytes.now place 0) }
{
    (place != 0 || bytes[place] % 2 == 1) && is_grown(bytes, place * 8)
}

fn bitmap_bytes(bytes: &[u8]) -> Result<(&[u8], &[u8]), Stop>
    ensures { Gives (λ x. (x.0.now, x.1.now)) result
        (list_after (λ so_far left. byte_where (may_grow so_far)) [] 128 bytes.now) }
{
    for place in 0..BITMAP_BYTES {
        if bytes.len() <= place {
            return Err(Stop::Fault(Fault::Short));
        }
        if !may_grow(&bytes[..place + 1], place) {
            return Err(Stop::Fault(Fault::Bad(bytes.len() - place)));
        }
    }
    Ok(bytes.split_at(BITMAP_BYTES))
}

// The eight bytes of a word, the lowest first.
fn word(bytes: &[u8], row: usize) -> u64
    requires { (row < 16) × (128 ≤ length bytes.now) }
    ensures { (i : ℕ) → i < 64 → (bit_at result i == 1) ≡ bit_in bytes.now (row * 64 + i) }
{
    let at = row * 8;
    u64::from_le_bytes([
        bytes[at],
        bytes[at + 1],
        bytes[at + 2],
        bytes[at + 3],
        bytes[at + 4],
        bytes[at + 5],
        bytes[at + 6],
        bytes[at + 7],
    ])
}

fn words(bytes: &[u8]) -> [u64; WORDS]
    requires { 128 ≤ length bytes.now }
    ensures { set_of result ≡ passing (bit_in bytes.now) 1024 }
{
    let mut words = [0; WORDS];
    for row in 0..WORDS {
        words[row] = word(bytes, row);
    }
    words
}

#[tactic(auto, unfolding(crate::specs::ReadingInstalls::bitmap_at))]
fn bitmap(alloc: Global, bytes: &[u8]) -> Result<(BoxedBitmap, &[u8]), Stop>
    ensures { Gives (λ x. (x.0, x.1.now)) result (bitmap_at bytes.now) }
{
    let (front, rest) = bitmap_bytes(bytes)?;
    match Bitmap::from_words(&words(front)) {
        Ok(bitmap) => Ok((BoxedBitmap::new(alloc, bitmap)?, rest)),
        Err(_) => unreachable!(),
    }
}

const FINAL_TAGS: [u8; 15] = [
    FINAL_CREATED,
    FINAL_CREATED_DIR,
    FINAL_EXISTS,
    FINAL_REMOVED,
    FINAL_MISSING,
    FINAL_IS_DIR,
    FINAL_SET,
    FINAL_IDS,
    FINAL_LOADED,
    FINAL_STALE,
    FINAL_SEALED,
    FINAL_NOT_EMPTY,
    FINAL_LATE,
    FINAL_OPENED,
    FINAL_KILLED,
];

// The range of the number that follows a tag, whatever the call was.
fn range(tag: u8) -> (u64, u64)
    ensures least { result.0 ≡ least_with tag }
    ensures most { result.1 ≡ most_with tag }
    ensures ordered { result.0 ≤ result.1 }
    ensures few { tag ≡ FINAL_LOADED → result.1 ≤ 4096 }
{
    match tag {
        FINAL_CREATED_DIR => (1, DIRECTORIES - 1),
        FINAL_IDS => (2, 1 << 45),
        FINAL_LOADED => (0, LOAD_MOST as u64),
        _ => (0, 0),
    }
}

// What follows a tag, whatever the call was; a seal's is another.
#[tactic(auto, unfolding(crate::specs::ReadingInstalls::numbered_at))]
fn numbered(tag: u8, bytes: &[u8]) -> Result<(Final, &[u8]), Stop>
    ensures { Gives (λ x. (x.0, x.1.now)) result (numbered_at tag bytes.now) }
{
    let (least, most) = range(tag);
    let (number, rest) = number(bytes, 8, least, most)?;
    Ok((final_with(tag, number), rest))
}

// The final of some call.
#[tactic(auto, unfolding(crate::specs::ReadingInstalls::some_final_at))]
fn some_final(bytes: &[u8]) -> Result<(Final, &[u8]), Stop>
    ensures { Gives (λ x. (x.0, x.1.now)) result (some_final_at bytes.now) }
{
    let (tag, rest) = byte(bytes, &FINAL_TAGS)?;
    if tag == FINAL_SEALED {
        return sealed(rest);
    }
    numbered(tag, rest)
}

// A session of a client from the least to the most.
#[tactic(auto, unfolding(crate::specs::ReadingInstalls::session_in))]
fn session(bytes: &[u8], least: u64, most: u64) -> Result<(Session, &[u8]), Stop>
    requires { (least ≤ most) × (most ≤ 64) }
    ensures gives { Gives (λ x. (x.0, x.1.now)) result (session_in least most bytes.now) }
    ensures within { IfOk result (λ x. x.0.client ≤ most) }
{
    let (client, rest) = number(bytes, 4, least, most)?;
    let (seq, rest) = number(rest, 8, 1, u64::MAX)?;
    let (said, rest) = some_final(rest)?;
    let client = client as u32;
    Ok((Session { client, seq, said }, rest))
}

fn session_list(alloc: Global, count: u64, bytes: &[u8]) -> Result<(SessionList, &[u8]), Stop>
    requires { count ≤ 64 }
    ensures { Gives (λ x. (x.0, x.1.now)) result (list_after session_at [] count bytes.now) }
{
    let mut sessions = SessionList::new(alloc);
    let mut least = 1;
    let mut rest = bytes;
    for place in 0..count {
        // So many sessions follow, each of a greater client.
        let left = count - 1 - place;
        match session(rest, least, CLIENTS_MOST as u64 - left) {
            Ok((next, after)) => {
                least = next.client as u64 + 1;
                sessions.push(next)?;
                rest = after;
            }
            Err(stop) => return Err(stop),
        }
    }
    Ok((sessions, rest))
}

#[tactic(auto, unfolding(crate::specs::ReadingInstalls::sessions_at))]
fn sessions(alloc: Global, bytes: &[u8]) -> Result<(SessionList, &[u8]), Stop>
    ensures { Gives (λ x. (x.0, x.1.now)) result (sessions_at bytes.now) }
{
    let (count, rest) = number(bytes, 1, 0, CLIENTS_MOST as u64)?;
    session_list(alloc, count, rest)
}

#[tactic(auto, unfolding(crate::specs::Reading::byte_where))]
fn child_depth(part: u64, bytes: &[u8]) -> Result<(u8, &[u8]), Stop>
    ensures { Gives (λ x. (x.0, x.1.now)) result (byte_where (is_child_depth part) bytes.now) }
{
    match bytes {
        [] => Err(Stop::Fault(Fault::Short)),
        [first, rest @ ..] => {
            if 1 <= *first && *first <= 10 && part < 1 << *first {
                Ok((*first, rest))
            } else {
                Err(Stop::Fault(Fault::Bad(bytes.len())))
            }
        }
    }
}

// The bitmap, the sessions and the rows of a child.
#[tactic(auto, unfolding(crate::specs::ReadingInstalls::child_at))]
fn child(
    alloc: Global,
    stamped: bool,
    dir: u64,
    part: u32,
    depth: u32,
    bytes: &[u8],
) -> Result<(Record, &[u8]), Stop>
    ensures { Gives (λ x. (x.0, x.1.now)) result (child_at stamped dir part depth bytes.now) }
{
    let (bitmap, rest) = bitmap(alloc, bytes)?;
    let (sessions, rest) = sessions(alloc, rest)?;
    // With stamps there is a row that has one.
    let (rows, rest) = rows(alloc, stamped, stamped as u64, u32::MAX as u64, rest)?;
    Ok((
        Record::Install {
            dir,
            part,
            depth,
            bitmap,
            sessions,
            rows,
        },
        rest,
    ))
}

#[tactic(auto, unfolding(crate::specs::ReadingInstalls::install_at))]
pub(crate) fn install(alloc: Global, stamped: bool, bytes: &[u8]) -> Result<(Record, &[u8]), Stop>
    ensures { Gives (λ x. (x.0, x.1.now)) result (install_at stamped bytes.now) }
{
    let (dir, rest) = number(bytes, 8, 1, DIRECTORIES - 1)?;
    let (part, rest) = number(rest, 4, 0, 1023)?;
    let (depth, rest) = child_depth(part, rest)?;
    child(alloc, stamped, dir, part as u32, depth as u32, rest)
}
