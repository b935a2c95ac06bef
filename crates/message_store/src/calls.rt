//! Calls, each in a row of 32 bytes beside the bytes of its name.
ghost use Rattle.std.specs.Prelude.{◌≡◌, ◌≤◌, ◌+◌, ◌<◌, ◌^◌, [], ◌∷◌, ◌++◌, IfOk, length, IsTrue, vec_len, get_or};
ghost use Rattle.std.specs.Prelude.{MatchOption};
ghost use Rattle.mds_base.specs.declared.call.Call.TheVariants as calls;
ghost use Rattle.std.specs.Prelude.{None};
ghost use Rattle.message_store.specs.Calls.{OnFit, IsNameIn, IsCallIn, IsCallPut, name_in, named_call, call_in};
ghost use Rattle.message_store.specs.Calls.{call_of, ask_of, entry_of, no_call};

use mds_base::{Ask, Call, Entry, Name, Reply, Stamp};
use std::alloc::{AllocError, Global};
use std::marker::Model;

/// Which call on a name it is, of those without other parts that have a row.
#[derive(Clone, Copy, Debug)]
pub(crate) enum Verb {
    Create,
    Mkdir,
    Remove,
    Lookup,
}

/// A call whose name lies elsewhere.
#[derive(Clone, Copy, Debug)]
pub(crate) enum CallSlot {
    Named {
        verb: Verb,
        len: u8,
        at: u32,
        dir: u64,
    },
    Setattr {
        len: u8,
        mode: u16,
        at: u32,
        dir: u64,
        size: u64,
    },
}

/// A call, its client, and its number among the client's calls.
#[derive(Clone, Copy, Debug)]
pub(crate) struct CallRow {
    slot: CallSlot,
    seq: u32,
    client: u16,
}

const _: () = prove!(std::mem::size_of::<CallRow>() <= 32);

/// Calls in their order: those that have a row.
#[derive(Drop)]
pub(crate) struct Calls {
    bytes: Vec<u8>,
    rows: Vec<CallRow>,
}

impl Model for Calls {
    ghost use Rattle.std.specs.Prelude.{List, map};
    ghost use Rattle.std.specs.List.{AllByRecursion};
    ghost use Rattle.message_store.specs.Calls.{CallV, row_in, IsRowIn};

    ghost Value = { List CallV };

    ghost view = { λ a. map (row_in a.bytes.items) a.rows.items };

    ghost invariant = { λ a. AllByRecursion (IsRowIn a.bytes.items) a.rows.items };
}

impl Calls {
    /// No call.
    pub(crate) fn new(alloc: Global) -> Calls
        ensures { result ≡ [] }
    {
        Calls {
            bytes: Vec::new(alloc),
            rows: Vec::new(alloc),
        }
    }

    /// How many calls there are.
    pub(crate) fn len(&self) -> usize
        ensures { result ≡ length self.now }
    {
        self.rows.len()
    }

    /// Puts a call behind where it fits a row, and gives its row.
    pub(crate) fn push(&mut self, ask: &Ask) -> Result<Option<u32>, AllocError>
        ensures { OnFit result (λ row. (row ≡ length self.old) × (self.new ≡ self.old ++ call_of ask.now ∷ []))
            (self.new ≡ self.old) }
    {
        if ask.seq >= 1 << 32
            || ask.client >= 1 << 16
            || self.bytes.len() >= 1 << 32
            || self.rows.len() >= 1 << 32
        {
            return Ok(None);
        }
        let row = self.rows.len() as u32;
        self.rows.reserve(1)?;
        let Some(slot) = put(&mut self.bytes, &ask.call)? else {
            return Ok(None);
        };
        if self
            .rows
            .push(CallRow {
                slot,
                seq: ask.seq as u32,
                client: ask.client as u16,
            })
            .is_err()
        {
            unreachable!();
        }
        Ok(Some(row))
    }

    /// The call of a row, as it is sent.
    pub(crate) fn ask(&self, alloc: Global, row: u32, attempt: u32) -> Result<Ask, AllocError>
        requires { row < length self.now }
        ensures { IfOk result (λ ask. ask ≡ ask_of (get_or self.now row no_call) attempt) }
    {
        let CallRow { slot, seq, client } = self.rows[row as usize];
        let call = show(alloc, &self.bytes, slot)?;
        Ok(Ask {
            seq: seq as u64,
            client: client as u32,
            attempt,
            call,
        })
    }

    /// The entry of a row's call that got this reply.
    pub(crate) fn entry(&self, alloc: Global, row: u32, reply: Reply) -> Result<Entry, AllocError>
        requires { row < length self.now }
        ensures { IfOk result (λ entry. entry ≡ entry_of (get_or self.now row no_call) reply) }
    {
        let CallRow { slot, seq, client } = self.rows[row as usize];
        let call = show(alloc, &self.bytes, slot)?;
        Ok(Entry {
            client: client as u32,
            seq: seq as u64,
            call,
            reply,
        })
    }

    /// The client and the number of a row's call.
    pub(crate) fn numbers(&self, row: u32) -> (u32, u64)
        requires { row < length self.now }
        ensures client { result.0 ≡ (get_or self.now row no_call).client }
        ensures seq { result.1 ≡ (get_or self.now row no_call).seq }
    {
        let CallRow { seq, client, .. } = self.rows[row as usize];
        (client as u32, seq as u64)
    }
}

/// The call of a slot.
fn show(alloc: Global, bytes: &[u8], slot: CallSlot) -> Result<Call, AllocError>
    requires { IsCallIn bytes.now slot }
    ensures { IfOk result (λ call. call ≡ call_in bytes.now slot) }
{
    match slot {
        CallSlot::Named { verb, len, at, dir } => {
            let name = name_at(alloc, bytes, at as usize, len as usize)?;
            Ok(named(verb, dir, name))
        }
        CallSlot::Setattr {
            len,
            mode,
            at,
            dir,
            size,
        } => {
            let name = name_at(alloc, bytes, at as usize, len as usize)?;
            Ok(Call::Setattr {
                dir,
                name,
                mode: mode as u32,
                size,
                stamp: None,
            })
        }
    }
}

fn named(verb: Verb, dir: u64, name: Name) -> Call
    ensures { result ≡ named_call verb dir name }
{
    match verb {
        Verb::Create => Call::Create { dir, name },
        Verb::Mkdir => Call::Mkdir { dir, name },
        Verb::Remove => Call::Remove { dir, name },
        Verb::Lookup => Call::Lookup { dir, name },
    }
}

fn name_at(alloc: Global, bytes: &[u8], at: usize, len: usize) -> Result<Name, AllocError>
    requires { IsNameIn bytes.now at len }
    ensures { IfOk result (λ name. name ≡ name_in bytes.now at len) }
{
    Name::of_bytes(alloc, &bytes[at..at + len])
}

// Puts the name of a call behind, and gives its slot, where it has one.
fn put(bytes: &mut Vec<u8>, call: &Call) -> Result<Option<CallSlot>, AllocError>
    requires { vec_len bytes.old < 2 ^ 32 }
    ensures { OnFit result (λ slot. IsCallPut bytes.old.items bytes.new.items slot call.now)
        (bytes.new.items ≡ bytes.old.items) }
{
    match call {
        Call::Create { dir, name } => put_named(bytes, Verb::Create, *dir, name),
        Call::Mkdir { dir, name } => put_named(bytes, Verb::Mkdir, *dir, name),
        Call::Remove { dir, name } => put_named(bytes, Verb::Remove, *dir, name),
        Call::Lookup { dir, name } => put_named(bytes, Verb::Lookup, *dir, name),
        Call::Setattr {
            dir,
            name,
            mode,
            size,
            stamp,
        } => put_setattr(bytes, *dir, name, *mode, *size, *stamp),
        Call::Scan { .. } => Ok(None),
        Call::Grab { .. } => Ok(None),
        Call::Load { .. } => Ok(None),
        Call::Link { .. } => Ok(None),
        Call::Seal { .. } => Ok(None),
        Call::Unseal { .. } => Ok(None),
        Call::Kill { .. } => Ok(None),
        Call::Unlink { .. } => Ok(None),
    }
}

#[tactic(auto, using(crate::proofs::Names::named_put))]
fn put_named(
    bytes: &mut Vec<u8>,
    verb: Verb,
    dir: u64,
    name: &Name,
) -> Result<Option<CallSlot>, AllocError>
    requires { vec_len bytes.old < 2 ^ 32 }
    ensures { OnFit result (λ slot. IsCallPut bytes.old.items bytes.new.items slot (named_call verb dir name.now))
        (bytes.new.items ≡ bytes.old.items) }
{
    let at = bytes.len() as u32;
    bytes.extend_from_slice(name.bytes())?;
    Ok(Some(CallSlot::Named {
        verb,
        len: name.bytes().len() as u8,
        at,
        dir,
    }))
}

#[tactic(auto, using(crate::proofs::Names::setattr_put))]
fn put_setattr(
    bytes: &mut Vec<u8>,
    dir: u64,
    name: &Name,
    mode: u32,
    size: u64,
    stamp: Option<Stamp>,
) -> Result<Option<CallSlot>, AllocError>
    requires { vec_len bytes.old < 2 ^ 32 }
    ensures { OnFit result
        (λ slot. IsCallPut bytes.old.items bytes.new.items slot (calls.Setattr dir name.now mode size stamp))
        (bytes.new.items ≡ bytes.old.items) }
{
    if mode >= 1 << 16 {
        return Ok(None);
    }
    match stamp {
        Some(_) => Ok(None),
        None => {
            let at = bytes.len() as u32;
            bytes.extend_from_slice(name.bytes())?;
            Ok(Some(CallSlot::Setattr {
                len: name.bytes().len() as u8,
                mode: mode as u16,
                at,
                dir,
                size,
            }))
        }
    }
}
