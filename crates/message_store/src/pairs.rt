//! Entries by the numbers of the messages that tell of them.
ghost use Rattle.std.specs.Prelude.{◌≡◌, ◌<◌, IfOk, length, IsTrue, List, MatchOption};
ghost use Rattle.mds_base.specs.declared.call.Call.TheVariants as calls;
ghost use Rattle.records.specs.declared.msg.Msg.{Msg};
ghost use Rattle.mds_base.specs.declared.reply.Reply.{Reply};
ghost use Rattle.message_store.specs.Made.{Asks, IsMade, IsMadeIn, change, change_by, lookup_by, made_in};
ghost use Rattle.message_store.specs.Messages.{entry_by, message_at};
ghost use Rattle.message_store.specs.declared.made.Made.{Made};
ghost use Rattle.std.specs.Prelude.{None};

use crate::made::{Kind, Made};
use crate::sent::Sent;
use crate::sides::{Plain, final_by, plain_of};
use mds_base::{Call, Entry, Final, Name, Reply};
use records::Msg;
use std::alloc::{AllocError, Global};

/// An entry in 16 bytes: what is longer lies beside the slots.
#[derive(Clone, Copy, Debug)]
pub(crate) enum MadeSlot {
    /// A change that a request asked for, by a final that holds no number.
    Change { said: Plain, request: u32 },
    /// One that made a directory of this number.
    Directory { request: u32, number: u64 },
    /// A lookup that a request asked for, by its answer.
    Lookup { request: u32, answer: u32 },
    /// Any other entry.
    Whole { at: u32 },
}

const _: () = prove!(std::mem::size_of::<MadeSlot>() <= 16);

/// The entry of a slot.
pub(crate) fn show(
    alloc: Global,
    sent: &Sent,
    whole: &[Made],
    slot: MadeSlot,
) -> Result<Made, AllocError>
    requires { IsMadeIn sent.now whole.now slot }
    ensures { IfOk result (λ made. made ≡ made_in sent.now whole.now slot) }
{
    match slot {
        MadeSlot::Change { said, request } => { change_at(alloc, sent, request, final_by(said)) }
        MadeSlot::Directory { request, number } => {
            change_at(alloc, sent, request, Final::CreatedDir(number))
        }
        MadeSlot::Lookup { request, answer } => lookup_at(alloc, sent, request, answer),
        MadeSlot::Whole { at } => whole[at as usize].copy(alloc),
    }
}

/// What the entry of a slot is.
pub(crate) fn kind_of(sent: &Sent, whole: &[Made], slot: MadeSlot) -> Kind
    requires { IsMadeIn sent.now whole.now slot }
    ensures { result ≡ (made_in sent.now whole.now slot).kind }
{
    let _ = sent;
    match slot {
        MadeSlot::Change { .. } => Kind::Change,
        MadeSlot::Directory { .. } => Kind::Change,
        MadeSlot::Lookup { answer, .. } => Kind::Lookup {
            message: answer as u64,
        },
        MadeSlot::Whole { at } => whole[at as usize].kind,
    }
}

fn change_at(alloc: Global, sent: &Sent, request: u32, said: Final) -> Result<Made, AllocError>
    requires { request < length sent.now }
    ensures { IfOk result (λ made. made ≡ change_by (message_at sent.now request) said) }
{
    let entry = sent.entry(alloc, request as usize, Reply::Said(said))?;
    Ok(Made {
        entry,
        kind: Kind::Change,
    })
}

fn lookup_at(alloc: Global, sent: &Sent, request: u32, answer: u32) -> Result<Made, AllocError>
    requires request { request < length sent.now }
    requires answer { answer < length sent.now }
    ensures { IfOk result
        (λ made. made ≡ lookup_by (message_at sent.now request) (message_at sent.now answer) answer) }
{
    let reply = sent.reply(alloc, answer as usize)?;
    let entry = sent.entry(alloc, request as usize, reply)?;
    Ok(Made {
        entry,
        kind: Kind::Lookup {
            message: answer as u64,
        },
    })
}

/// The slot of a change, where the message of a number asked for it and the final fits.
pub(crate) fn change_slot(
    sent: &Sent,
    request: u64,
    client: u32,
    seq: u64,
    call: &Call,
    said: Final,
) -> Option<MadeSlot>
    ensures { MatchOption result (Unit {0})
        (λ slot. (whole : List Made) → IsMade sent.now whole slot (change client seq call.now said)) }
{
    if !asks(sent, request as usize, client, seq, call) || request >= 1 << 32 {
        return None;
    }
    final_slot(said, request as u32)
}

// The slot of a final.
fn final_slot(said: Final, request: u32) -> Option<MadeSlot>
    ensures { MatchOption result (Unit {0})
        (λ slot. (sent : List Msg) → (whole : List Made) → (request < length sent)
        → IsMade sent whole slot (change_by (message_at sent request) said)) }
{
    if let Final::CreatedDir(number) = said {
        return Some(MadeSlot::Directory { request, number });
    }
    match plain_of(said) {
        None => None,
        Some(said) => Some(MadeSlot::Change { said, request }),
    }
}

// Whether the message of a number is a request of the call, as far as can be told at once.
fn asks(sent: &Sent, message: usize, client: u32, seq: u64, call: &Call) -> bool
    ensures { IsTrue result → Asks sent.now message client seq call.now }
{
    match sent.lent(message) {
        None => false,
        Some(msg) => is_request(msg, client, seq, call),
    }
}

fn is_request(msg: &Msg, client: u32, seq: u64, call: &Call) -> bool
    ensures { IsTrue result → (reply : Reply) → entry_by msg.now reply
        ≡ record { client = client; seq = seq; call = call.now; reply = reply } }
{
    let Msg::Request { ask, .. } = msg else {
        return false;
    };
    ask.client == client && ask.seq == seq && is_same(&ask.call, call)
}

// Whether two calls are the same, of those that may be told apart at once.
fn is_same(a: &Call, b: &Call) -> bool
    ensures { IsTrue result → a.now ≡ b.now }
{
    match a {
        Call::Create { dir, name } => is_create(b, *dir, name),
        Call::Mkdir { dir, name } => is_mkdir(b, *dir, name),
        Call::Remove { dir, name } => is_remove(b, *dir, name),
        Call::Setattr {
            dir,
            name,
            mode,
            size,
            stamp,
        } => match stamp {
            None => is_setattr(b, *dir, name, *mode, *size),
            Some(_) => false,
        },
        Call::Lookup { .. } => false,
        Call::Scan { .. } => false,
        Call::Grab { .. } => false,
        Call::Load { .. } => false,
        Call::Link { .. } => false,
        Call::Seal { .. } => false,
        Call::Unseal { .. } => false,
        Call::Kill { .. } => false,
        Call::Unlink { .. } => false,
    }
}

fn is_create(call: &Call, of: u64, named: &Name) -> bool
    ensures { IsTrue result → calls.Create of named.now ≡ call.now }
{
    let Call::Create { dir, name } = call else {
        return false;
    };
    *dir == of && name == named
}

fn is_mkdir(call: &Call, of: u64, named: &Name) -> bool
    ensures { IsTrue result → calls.Mkdir of named.now ≡ call.now }
{
    let Call::Mkdir { dir, name } = call else {
        return false;
    };
    *dir == of && name == named
}

fn is_remove(call: &Call, of: u64, named: &Name) -> bool
    ensures { IsTrue result → calls.Remove of named.now ≡ call.now }
{
    let Call::Remove { dir, name } = call else {
        return false;
    };
    *dir == of && name == named
}

fn is_setattr(call: &Call, of: u64, named: &Name, mode: u32, size: u64) -> bool
    ensures { IsTrue result → calls.Setattr of named.now mode size None ≡ call.now }
{
    let Call::Setattr {
        dir,
        name,
        mode: modes,
        size: sizes,
        stamp,
    } = call
    else {
        return false;
    };
    match stamp {
        None => *dir == of && *modes == mode && *sizes == size && name == named,
        Some(_) => false,
    }
}
