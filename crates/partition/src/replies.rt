//! What the plain rules say to a call, by the entry that stands at its name.
ghost use Rattle.std.specs.Prelude.{◌≡◌, ◌+◌, IfOk, MatchBool};
ghost use Rattle.partition.specs.Replies.{IsServed, made, removed, unlinked, reset, rows_of, said_of, waits};
ghost use Rattle.mds_base.specs.RowKeys.{edited_count};

use mds_base::{Attr, Call, Edit, Final, Row};
use std::alloc::AllocError;

/// Whether a partition serves a call: each but a scan and the calls on seals.
pub fn is_served(call: &Call) -> bool
    ensures { MatchBool result (IsServed call.now) (IsServed call.now → ⊥) }
{
    match call {
        Call::Scan { .. } => false,
        Call::Seal { .. } => false,
        Call::Unseal { .. } => false,
        Call::Kill { .. } => false,
        _ => true,
    }
}

/// The final reply to a change on a name, with the number that a mkdir or a grab would give.
pub fn said_to(call: &Call, before: Option<Attr>, fresh: u64) -> Final
    ensures { result ≡ said_of call.now before fresh }
{
    match call {
        Call::Create { .. } => made(before, Final::Created),
        Call::Mkdir { .. } => made(before, Final::CreatedDir(fresh)),
        Call::Link { id, .. } => made(before, Final::CreatedDir(*id)),
        Call::Remove { .. } => removed(before),
        Call::Unlink { id, .. } => unlinked(before, *id),
        Call::Setattr { .. } => reset(before),
        Call::Grab { .. } => Final::Ids(fresh),
        _ => Final::Stale,
    }
}

fn made(before: Option<Attr>, said: Final) -> Final
    ensures { result ≡ made before said }
{
    match before {
        None => said,
        Some(_) => Final::Exists,
    }
}

fn removed(before: Option<Attr>) -> Final
    ensures { result ≡ removed before }
{
    match before {
        None => Final::Missing,
        Some(attr) if attr.is_file() => Final::Removed,
        Some(_) => Final::IsDir,
    }
}

fn unlinked(before: Option<Attr>, id: u64) -> Final
    ensures { result ≡ unlinked before id }
{
    match before {
        None => Final::Missing,
        Some(attr) if attr.dir == id => Final::Removed,
        Some(_) => Final::Exists,
    }
}

fn reset(before: Option<Attr>) -> Final
    ensures { result ≡ reset before }
{
    match before {
        None => Final::Missing,
        Some(_) => Final::Set,
    }
}

/// Whether an edit waits for the leases on its name: it changes an entry that is there.
pub fn waits(edit: Edit, before: Option<Attr>) -> bool
    ensures { result ≡ waits edit before }
{
    match edit {
        Edit::Keep => false,
        Edit::Put(_) => before.is_some(),
        Edit::Take => before.is_some(),
    }
}

/// How many rows there are after an edit of one. It is refused where there would be more than a u64 counts.
pub fn count_after(count: u64, edit: Edit, before: Option<Attr>) -> Result<u64, AllocError>
    ensures { IfOk result (λ now. now ≡ edited_count count edit before) }
{
    match edit {
        Edit::Keep => Ok(count),
        Edit::Put(_) => match before {
            None => count_more(count, 1),
            Some(_) => Ok(count),
        },
        Edit::Take => match before {
            None => Ok(count),
            Some(_) => Ok(count.saturating_sub(1)),
        },
    }
}

/// A number that is raised by another. It is refused where the sum is more than a u64 counts.
pub fn count_more(count: u64, more: u64) -> Result<u64, AllocError>
    ensures { IfOk result (λ now. now ≡ count + more) }
{
    match count.checked_add(more) {
        None => Err(AllocError),
        Some(sum) => Ok(sum),
    }
}

/// A number as the reply to a load says it. It is refused where it is more than a u32 counts.
pub fn number_of(added: u64) -> Result<u32, AllocError>
    ensures { IfOk result (λ number. number ≡ added) }
{
    match u32::try_from(added) {
        Ok(number) => Ok(number),
        Err(_) => Err(AllocError),
    }
}

/// The rows that a call adds: those of a load, and none of another call.
pub fn rows_of(call: &Call) -> &[Row]
    ensures { result.now ≡ rows_of call.now }
{
    match call {
        Call::Load { rows, .. } => rows.rows(),
        _ => &[],
    }
}
