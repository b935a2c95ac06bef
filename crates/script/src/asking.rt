//! Reads a call, behind the client that is to make it.
ghost use Rattle.std.specs.Prelude.{◌≡◌, IfSome, IsTrue};
ghost use Rattle.std.specs.List.{list_any};
ghost use Rattle.script.specs.Answers.{Finds, Gives, OnMemory};
ghost use Rattle.script.specs.Grammar.{is_kept, call_parts};
ghost use Rattle.script.specs.Reading.{is_named, stamp_here, stamp_at, setattr_after, call_after, call_at, asked_at};

use crate::fault::{LineFault, Outside};
use crate::unread::Unread;
use crate::verb::{CallVerb, call_verb_of};
use mds_base::{Call, MODE_MOST, Name, Setup, Stamp};
use std::alloc::Global;

/// A client and the call that it is to make. There may be no memory only for a call that has a name.
#[tactic(auto, unfolding(crate::specs::Reading::asked_at))]
pub(crate) fn asked(
    alloc: Global,
    unread: &mut Unread<'_>,
    setup: &Setup,
) -> Result<(u32, Call), LineFault>
    ensures gives { Gives (λ x. (x.0, x.1, unread.new)) result (asked_at setup.now unread.old) }
    ensures memory { OnMemory result
        (IfSome (asked_at setup.now unread.old) (λ x. IsTrue (list_any is_kept (call_parts x.1)))) }
{
    let client = unread.client(setup)?;
    let call = call(alloc, unread)?;
    Ok((client, call))
}

#[tactic(auto, unfolding(crate::specs::Reading::call_at))]
fn call(alloc: Global, unread: &mut Unread<'_>) -> Result<Call, LineFault>
    ensures gives { Gives (λ call. (call, unread.new)) result (call_at unread.old) }
    ensures memory { OnMemory result (IfSome (call_at unread.old) (λ x. IsTrue (list_any is_kept (call_parts x.0)))) }
{
    let Some(verb) = call_verb_of(unread.word()?) else {
        return Err(LineFault::NotALine);
    };
    call_after(alloc, verb, unread)
}

/// The call of this verb.
#[tactic(auto, unfolding(crate::specs::Reading::call_after))]
fn call_after(alloc: Global, verb: CallVerb, unread: &mut Unread<'_>) -> Result<Call, LineFault>
    ensures gives { Gives (λ call. (call, unread.new)) result (call_after verb unread.old) }
    ensures memory { OnMemory result (IsTrue (is_named verb)) }
{
    match verb {
        CallVerb::Create => {
            let (dir, name) = unread.place(alloc)?;
            Ok(Call::Create { dir, name })
        }
        CallVerb::Mkdir => {
            let (dir, name) = unread.place(alloc)?;
            Ok(Call::Mkdir { dir, name })
        }
        CallVerb::Remove => {
            let (dir, name) = unread.place(alloc)?;
            Ok(Call::Remove { dir, name })
        }
        CallVerb::Lookup => {
            let (dir, name) = unread.place(alloc)?;
            Ok(Call::Lookup { dir, name })
        }
        CallVerb::Setattr => {
            let (dir, name) = unread.place(alloc)?;
            let call = setattr_after(dir, name, unread)?;
            Ok(call)
        }
        CallVerb::Scan => {
            let dir = unread.directory()?;
            Ok(Call::Scan { dir })
        }
    }
}

/// What follows the name in a setattr.
#[tactic(auto, unfolding(crate::specs::Reading::setattr_after))]
fn setattr_after(dir: u64, name: Name, unread: &mut Unread<'_>) -> Result<Call, Outside>
    ensures { Finds (λ call. (call, unread.new)) result (setattr_after dir name unread.old) }
{
    let mode = unread.number_within(0, u64::from(MODE_MOST))?;
    let size = unread.number()?;
    let stamp = stamp(unread)?;
    let mode = mode as u32;
    Ok(Call::Setattr {
        dir,
        name,
        mode,
        size,
        stamp,
    })
}

/// A stamp, where a word is left.
#[tactic(auto, unfolding(crate::specs::Reading::stamp_at, crate::specs::Reading::stamp_here))]
fn stamp(unread: &mut Unread<'_>) -> Result<Option<Stamp>, Outside>
    ensures { Finds (λ stamp. (stamp, unread.new)) result (stamp_at unread.old) }
{
    if unread.is_end() {
        return Ok(None);
    }
    let owner = unread.number_within(0, u64::from(u32::MAX))?;
    let mtime = unread.number()?;
    let owner = owner as u32;
    Ok(Some(Stamp { owner, mtime }))
}
