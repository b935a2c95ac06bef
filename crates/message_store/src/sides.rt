//! What slots of messages point into.
ghost use Rattle.std.specs.Prelude.{◌≡◌, ◌<◌, [], ◌∷◌, ◌++◌, IfOk, OnErr, length, get_or, MatchOption, None};
ghost use Rattle.mds_base.specs.declared.reply.Final.TheVariants as finals;
ghost use Rattle.mds_base.specs.declared.reply.Reply.TheVariants as replies;
ghost use Rattle.records.specs.declared.msg.Msg.TheVariants as msgs;
ghost use Rattle.records.specs.Messages.{server_of_msg, client_of_msg};
ghost use Rattle.message_store.specs.Calls.{OnFit, IsCallOf};
ghost use Rattle.message_store.specs.Messages.{entry_by, no_entry, reply_by};
ghost use Rattle.message_store.specs.Messages.{IsIn, IsPut, answer_to, call_at, final_by, no_msg, reply_in, shown};

use crate::calls::Calls;
use mds_base::{Ask, Attr, Call, Entry, Final, Reply};
use records::{Msg, MsgList};
use std::alloc::{AllocError, Global};
use std::marker::Model;

/// A final that holds no number.
#[derive(Clone, Copy, Debug)]
pub(crate) enum Plain {
    Created,
    Exists,
    Removed,
    Missing,
    IsDir,
    Set,
}

/// What a lookup found, where its time of modification is 0.
#[derive(Clone, Copy, Debug)]
pub(crate) struct Found {
    dir: u64,
    size: u64,
    until: u64,
    mode: u32,
    owner: u32,
}

/// A message, in 16 bytes: what is longer lies beside the slots.
#[derive(Clone, Copy, Debug)]
pub(crate) enum Slot {
    /// A request of a call that has a row.
    Request { server: u32, attempt: u32, row: u32 },
    /// The answer to such a call, by a final that holds no number.
    Said { said: Plain, attempt: u32, row: u32 },
    /// By the number of the directory that was made.
    Directory { attempt: u32, row: u32, at: u32 },
    /// By what a lookup found.
    Found { attempt: u32, row: u32, at: u32 },
    /// Any other message.
    Whole { at: u32 },
}

const _: () = prove!(std::mem::size_of::<Slot>() <= 16);

/// Calls, numbers, attributes and whole messages.
#[derive(Drop)]
pub(crate) struct Sides {
    calls: Calls,
    numbers: Vec<u64>,
    founds: Vec<Found>,
    whole: MsgList,
    // Where the newest call of a client may have its row: tried at each answer, and right or not.
    newest: [u32; 64],
}

impl Model for Sides {
    ghost use Rattle.std.specs.Coded.{codes};
    ghost use Rattle.bitmap.specs.Bits.{coded_bits};
    ghost use Rattle.message_store.specs.Messages.{SidesV};

    ghost Value = { SidesV };

    ghost coded = { Prim.hlevel (codes, coded_bits) };

    ghost view = { λ a. record {
      calls = a.calls;
      numbers = a.numbers.items;
      founds = a.founds.items;
      whole = a.whole;
    } };
}

impl Sides {
    /// Nothing.
    pub(crate) fn new(alloc: Global) -> Sides
        ensures { result ≡ record { calls = []; numbers = []; founds = []; whole = [] } }
    {
        Sides {
            calls: Calls::new(alloc),
            numbers: Vec::new(alloc),
            founds: Vec::new(alloc),
            whole: MsgList::new(alloc),
            newest: [0; 64],
        }
    }

    /// The message of a slot.
    pub(crate) fn show(&self, alloc: Global, slot: Slot) -> Result<Msg, AllocError>
        requires { IsIn self.now slot }
        ensures { IfOk result (λ msg. msg ≡ shown self.now slot) }
    {
        match slot {
            Slot::Request {
                server,
                attempt,
                row,
            } => Ok(Msg::Request {
                server,
                ask: self.calls.ask(alloc, row, attempt)?,
                cursor: None,
            }),
            Slot::Said { said, attempt, row } => {
                Ok(self.answer(row, attempt, Reply::Said(final_by(said))))
            }
            Slot::Directory { attempt, row, at } => {
                let number = self.numbers[at as usize];
                Ok(self.answer(row, attempt, Reply::Said(Final::CreatedDir(number))))
            }
            Slot::Found { attempt, row, at } => {
                let found = self.founds[at as usize];
                Ok(self.answer(row, attempt, reply_in(found)))
            }
            Slot::Whole { at } => whole_at(&self.whole, at).copy(alloc),
        }
    }

    /// The entry of the request of a slot that got this reply.
    pub(crate) fn entry(&self, alloc: Global, slot: Slot, reply: Reply) -> Result<Entry, AllocError>
        requires { IsIn self.now slot }
        ensures { IfOk result (λ entry. entry ≡ entry_by (shown self.now slot) reply) }
    {
        match slot {
            Slot::Request { row, .. } => self.calls.entry(alloc, row, reply),
            Slot::Said { .. } => Ok(no_entry(reply)),
            Slot::Directory { .. } => Ok(no_entry(reply)),
            Slot::Found { .. } => Ok(no_entry(reply)),
            Slot::Whole { at } => entry_by(alloc, whole_at(&self.whole, at), reply),
        }
    }

    /// The reply of the answer of a slot.
    pub(crate) fn reply(&self, alloc: Global, slot: Slot) -> Result<Reply, AllocError>
        requires { IsIn self.now slot }
        ensures { IfOk result (λ reply. reply ≡ reply_by (shown self.now slot)) }
    {
        match slot {
            Slot::Request { .. } => Ok(Reply::Said(Final::Created)),
            Slot::Said { said, .. } => Ok(Reply::Said(final_by(said))),
            Slot::Directory { at, .. } => {
                let number = self.numbers[at as usize];
                Ok(Reply::Said(Final::CreatedDir(number)))
            }
            Slot::Found { at, .. } => Ok(reply_in(self.founds[at as usize])),
            Slot::Whole { at } => reply_by(alloc, whole_at(&self.whole, at)),
        }
    }

    fn answer(&self, row: u32, attempt: u32, reply: Reply) -> Msg
        requires { row < length self.now.calls }
        ensures { result ≡ answer_to (call_at self.now row) attempt reply }
    {
        let (client, seq) = self.calls.numbers(row);
        Msg::Answer {
            client,
            seq,
            attempt,
            reply,
        }
    }

    /// The server that the message of a slot is for, where it is for one.
    pub(crate) fn server(&self, slot: Slot) -> Option<u32>
        requires { IsIn self.now slot }
        ensures { result ≡ server_of_msg (shown self.now slot) }
    {
        match slot {
            Slot::Request { server, .. } => Some(server),
            Slot::Said { .. } => None,
            Slot::Directory { .. } => None,
            Slot::Found { .. } => None,
            Slot::Whole { at } => whole_at(&self.whole, at).server(),
        }
    }

    /// The client that the message of a slot is for, where it is for one.
    pub(crate) fn client(&self, slot: Slot) -> Option<u32>
        requires { IsIn self.now slot }
        ensures { result ≡ client_of_msg (shown self.now slot) }
    {
        match slot {
            Slot::Request { .. } => None,
            Slot::Said { row, .. } => Some(self.client_of(row)),
            Slot::Directory { row, .. } => Some(self.client_of(row)),
            Slot::Found { row, .. } => Some(self.client_of(row)),
            Slot::Whole { at } => whole_at(&self.whole, at).client(),
        }
    }

    fn client_of(&self, row: u32) -> u32
        requires { row < length self.now.calls }
        ensures { result ≡ (call_at self.now row).client }
    {
        let (client, _) = self.calls.numbers(row);
        client
    }

    /// Puts a message where it fits, and gives its slot.
    pub(crate) fn put(&mut self, alloc: Global, msg: &Msg) -> Result<Slot, AllocError>
        ensures ok { IfOk result (λ slot. IsPut self.old self.new slot msg.now) }
        ensures err { OnErr result (self.new ≡ self.old) }
    {
        match self.put_dense(msg)? {
            Some(slot) => Ok(slot),
            None => self.put_whole(alloc, msg),
        }
    }

    // Puts a message that fits a slot.
    fn put_dense(&mut self, msg: &Msg) -> Result<Option<Slot>, AllocError>
        ensures { OnFit result (λ slot. IsPut self.old self.new slot msg.now) (self.new ≡ self.old) }
    {
        match msg {
            Msg::Request {
                server,
                ask,
                cursor,
            } => match cursor {
                None => self.put_request(*server, ask),
                Some(_) => Ok(None),
            },
            Msg::Answer {
                client,
                seq,
                attempt,
                reply,
            } => self.put_answer(*client, *seq, *attempt, reply),
            Msg::Redirect { .. } => Ok(None),
            Msg::Busy { .. } => Ok(None),
            Msg::Held { .. } => Ok(None),
            Msg::Page { .. } => Ok(None),
            Msg::Closed { .. } => Ok(None),
            Msg::Transfer { .. } => Ok(None),
            Msg::Installed { .. } => Ok(None),
        }
    }

    fn put_request(&mut self, server: u32, ask: &Ask) -> Result<Option<Slot>, AllocError>
        ensures { OnFit result (λ slot. IsPut self.old self.new slot (msgs.Request server ask.now None))
            (self.new ≡ self.old) }
    {
        let Some(row) = self.calls.push(ask)? else {
            return Ok(None);
        };
        self.newest[(ask.client % 64) as usize] = row;
        Ok(Some(Slot::Request {
            server,
            attempt: ask.attempt,
            row,
        }))
    }

    fn put_answer(
        &mut self,
        client: u32,
        seq: u64,
        attempt: u32,
        reply: &Reply,
    ) -> Result<Option<Slot>, AllocError>
        ensures { OnFit result (λ slot. IsPut self.old self.new slot (msgs.Answer client seq attempt reply.now))
            (self.new ≡ self.old) }
    {
        let Some(row) = self.row_of(client, seq) else {
            return Ok(None);
        };
        match reply {
            Reply::Said(said) => self.put_said(row, client, seq, attempt, *said),
            Reply::Found { attr, until } => self.put_found(
                row, client, seq, attempt, *attr, *until,
            ),
            Reply::Listed { .. } => Ok(None),
        }
    }

    fn put_said(
        &mut self,
        row: u32,
        client: u32,
        seq: u64,
        attempt: u32,
        said: Final,
    ) -> Result<Option<Slot>, AllocError>
        requires { IsCallOf self.old.calls row client seq }
        ensures { OnFit result
            (λ slot. IsPut self.old self.new slot (msgs.Answer client seq attempt (replies.Said said)))
            (self.new ≡ self.old) }
    {
        if let Final::CreatedDir(number) = said {
            return self.put_number(row, client, seq, attempt, number);
        }
        match self.said_slot(row, client, seq, attempt, said) {
            None => Ok(None),
            Some(slot) => Ok(Some(slot)),
        }
    }

    // The row of the call of a client with this number, where it is the one that is tried.
    fn row_of(&self, client: u32, seq: u64) -> Option<u32>
        ensures { MatchOption result (Unit {0}) (λ row. IsCallOf self.now.calls row client seq) }
    {
        let row = self.newest[(client % 64) as usize];
        if row as usize >= self.calls.len() {
            return None;
        }
        let (of, number) = self.calls.numbers(row);
        if of != client || number != seq {
            return None;
        }
        Some(row)
    }

    fn said_slot(&self, row: u32, client: u32, seq: u64, attempt: u32, said: Final) -> Option<Slot>
        requires { IsCallOf self.now.calls row client seq }
        ensures { MatchOption result (Unit {0})
            (λ slot. IsPut self.now self.now slot (msgs.Answer client seq attempt (replies.Said said))) }
    {
        match plain_of(said) {
            None => None,
            Some(said) => Some(Slot::Said { said, attempt, row }),
        }
    }

    fn put_number(
        &mut self,
        row: u32,
        client: u32,
        seq: u64,
        attempt: u32,
        number: u64,
    ) -> Result<Option<Slot>, AllocError>
        requires { IsCallOf self.old.calls row client seq }
        ensures { OnFit result
            (λ slot. IsPut self.old self.new slot
            (msgs.Answer client seq attempt (replies.Said (finals.CreatedDir number)))) (self.new ≡ self.old) }
    {
        if self.numbers.len() >= 1 << 32 {
            return Ok(None);
        }
        let at = self.numbers.len() as u32;
        self.numbers.push(number)?;
        Ok(Some(Slot::Directory { attempt, row, at }))
    }

    fn put_found(
        &mut self,
        row: u32,
        client: u32,
        seq: u64,
        attempt: u32,
        attr: Attr,
        until: u64,
    ) -> Result<Option<Slot>, AllocError>
        requires { IsCallOf self.old.calls row client seq }
        ensures { OnFit result
            (λ slot. IsPut self.old self.new slot (msgs.Answer client seq attempt (replies.Found attr until)))
            (self.new ≡ self.old) }
    {
        if self.founds.len() >= 1 << 32 || attr.mtime != 0 {
            return Ok(None);
        }
        let at = self.founds.len() as u32;
        self.founds.push(Found {
            dir: attr.dir,
            size: attr.size,
            until,
            mode: attr.mode,
            owner: attr.owner,
        })?;
        Ok(Some(Slot::Found { attempt, row, at }))
    }

    fn put_whole(&mut self, alloc: Global, msg: &Msg) -> Result<Slot, AllocError>
        ensures ok { IfOk result (λ slot. IsPut self.old self.new slot msg.now) }
        ensures err { OnErr result (self.new ≡ self.old) }
    {
        if self.whole.len() >= 1 << 32 {
            return Err(AllocError);
        }
        let at = self.whole.len() as u32;
        self.whole.push(msg.copy(alloc)?)?;
        Ok(Slot::Whole { at })
    }
}

fn whole_at(whole: &MsgList, at: u32) -> &Msg
    requires { at < length whole.now }
    ensures { result.now ≡ get_or whole.now at no_msg }
{
    &whole.messages()[at as usize]
}

/// The final of a plain one.
pub(crate) fn final_by(said: Plain) -> Final
    ensures { result ≡ final_by said }
{
    match said {
        Plain::Created => Final::Created,
        Plain::Exists => Final::Exists,
        Plain::Removed => Final::Removed,
        Plain::Missing => Final::Missing,
        Plain::IsDir => Final::IsDir,
        Plain::Set => Final::Set,
    }
}

/// A final without its number, where it has none.
pub(crate) fn plain_of(said: Final) -> Option<Plain>
    ensures { MatchOption result (Unit {0}) (λ plain. final_by plain ≡ said) }
{
    match said {
        Final::Created => Some(Plain::Created),
        Final::Exists => Some(Plain::Exists),
        Final::Removed => Some(Plain::Removed),
        Final::Missing => Some(Plain::Missing),
        Final::IsDir => Some(Plain::IsDir),
        Final::Set => Some(Plain::Set),
        Final::CreatedDir(_) => None,
        Final::Ids(_) => None,
        Final::Loaded(_) => None,
        Final::Stale => None,
        Final::Sealed { .. } => None,
        Final::NotEmpty => None,
        Final::Late => None,
        Final::Opened => None,
        Final::Killed => None,
    }
}

fn reply_in(found: Found) -> Reply
    ensures { result ≡ reply_in found }
{
    Reply::Found {
        attr: Attr {
            dir: found.dir,
            mode: found.mode,
            size: found.size,
            owner: found.owner,
            mtime: 0,
        },
        until: found.until,
    }
}

/// The entry of a request that got this reply.
pub(crate) fn entry_by(alloc: Global, request: &Msg, reply: Reply) -> Result<Entry, AllocError>
    ensures { IfOk result (λ entry. entry ≡ entry_by request.now reply) }
{
    let Msg::Request { ask, .. } = request else {
        return Ok(no_entry(reply));
    };
    let call = ask.call.copy(alloc)?;
    Ok(Entry {
        client: ask.client,
        seq: ask.seq,
        call,
        reply,
    })
}

/// The reply of an answer.
pub(crate) fn reply_by(alloc: Global, answer: &Msg) -> Result<Reply, AllocError>
    ensures { IfOk result (λ reply. reply ≡ reply_by answer.now) }
{
    let Msg::Answer { reply, .. } = answer else {
        return Ok(Reply::Said(Final::Created));
    };
    reply.copy(alloc)
}

/// The entry of what is no request.
pub(crate) fn no_entry(reply: Reply) -> Entry
    ensures { result ≡ no_entry reply }
{
    Entry {
        client: 0,
        seq: 0,
        call: Call::Scan { dir: 0 },
        reply,
    }
}
