//! All messages that were sent: the newest of them whole, so that they can be lent.
ghost use Rattle.std.specs.Prelude.{◌≡◌, ◌<◌, ◌≤◌, [], ◌∷◌, ◌++◌, IfOk, OnOk, OnErr, length, MatchOption, Some};
ghost use Rattle.std.specs.List.{slice_get};
ghost use Rattle.message_store.specs.declared.sent.TheConstants.{MESSAGES};
ghost use Rattle.message_store.specs.Messages.{client_for, entry_by, message_at, reply_by, server_for};

use crate::messages::Messages;
use crate::sides::{entry_by, reply_by};
use mds_base::{Entry, Reply};
use records::{Msg, MsgList};
use std::alloc::{AllocError, Global};
use std::marker::Model;

/// How many messages may stand whole before one more is sent by a client; what a server sends is beyond it.
const WHOLE: usize = 32;

/// How many may before a server sends more.
const WHOLE_MOST: usize = 64;

/// How many messages there may be.
pub(crate) const MESSAGES: usize = (1 << 32) - 1;

/// A place in a list of messages.
#[derive(Clone, Copy, Debug)]
pub struct Among<'a> {
    /// The list.
    pub list: &'a MsgList,
    /// The place.
    pub place: u64,
}

/// Messages in their order: the older ones dense, the newer ones whole.
#[derive(Drop)]
pub(crate) struct Sent {
    older: Messages,
    newer: MsgList,
}

impl Model for Sent {
    ghost use Rattle.std.specs.Prelude.{List, ◌++◌, ◌+◌, ◌≤◌, length};
    ghost use Rattle.std.specs.Coded.{codes};
    ghost use Rattle.bitmap.specs.Bits.{coded_bits};
    ghost use Rattle.records.specs.declared.msg.Msg.{Msg};
    ghost use Rattle.message_store.specs.declared.sent.TheConstants.{MESSAGES};

    ghost Value = { List Msg };

    ghost coded = { Prim.hlevel (codes, coded_bits) };

    ghost view = { λ a. a.older ++ a.newer };

    ghost invariant = { λ a. length a.older + length a.newer ≤ MESSAGES };
}

impl Sent {
    /// No message.
    pub(crate) fn new(alloc: Global) -> Sent
        ensures { result ≡ [] }
    {
        Sent {
            older: Messages::new(alloc),
            newer: MsgList::new(alloc),
        }
    }

    /// How many messages there are.
    pub(crate) fn len(&self) -> usize
        ensures is { result ≡ length self.now }
        ensures most { result ≤ MESSAGES }
    {
        self.older.len() + self.newer.len()
    }

    /// Puts a message behind. Past 2^32 - 1 messages it is refused as for want of memory.
    pub(crate) fn push(&mut self, alloc: Global, msg: Msg) -> Result<(), AllocError>
        ensures ok { OnOk result (self.new ≡ self.old ++ msg ∷ []) }
        ensures err { OnErr result (self.new ≡ self.old) }
    {
        if self.len() >= MESSAGES {
            return Err(AllocError);
        }
        self.settle(alloc, WHOLE)?;
        self.newer.push(msg)
    }

    /// Moves messages behind.
    pub(crate) fn append(&mut self, alloc: Global, msgs: &mut MsgList) -> Result<(), AllocError>
        ensures ok { OnOk result (self.new ≡ self.old ++ msgs.old) }
        ensures err { OnErr result ((self.new ≡ self.old) × (msgs.new ≡ msgs.old)) }
    {
        if msgs.len() > MESSAGES - self.len() {
            return Err(AllocError);
        }
        self.settle(alloc, WHOLE_MOST)?;
        self.newer.append(msgs)
    }

    // Has no messages stand whole, where so many do.
    fn settle(&mut self, alloc: Global, most: usize) -> Result<(), AllocError>
        ensures { self.new ≡ self.old }
    {
        if self.newer.len() < most {
            return Ok(());
        }
        self.older.push_all(alloc, &self.newer)?;
        self.newer = MsgList::new(alloc);
        Ok(())
    }

    /// Where the message of a number stands whole: the list, and its place there.
    pub(crate) fn among(&self, message: usize) -> Option<Among<'_>>
        ensures { MatchOption result (Unit {0})
            (λ among. slice_get among.list.now among.place ≡ slice_get self.now message) }
    {
        if message < self.older.len() {
            return None;
        }
        let place = (message - self.older.len()) as u64;
        Some(Among {
            list: &self.newer,
            place,
        })
    }

    /// The message of a number, where it stands whole.
    pub(crate) fn lent(&self, message: usize) -> Option<&Msg>
        ensures { MatchOption result (Unit {0}) (λ msg. slice_get self.now message ≡ Some msg.now) }
    {
        if message < self.older.len() {
            return None;
        }
        self.newer.get(message - self.older.len())
    }

    /// The message of a number.
    pub(crate) fn get(&self, alloc: Global, message: usize) -> Result<Option<Msg>, AllocError>
        ensures { IfOk result (λ msg. msg ≡ slice_get self.now message) }
    {
        if message < self.older.len() {
            let msg = self.older.get(alloc, message)?;
            return Ok(Some(msg));
        }
        match self.newer.get(message - self.older.len()) {
            None => Ok(None),
            Some(msg) => {
                let msg = msg.copy(alloc)?;
                Ok(Some(msg))
            }
        }
    }

    /// The entry of the request of a number that got this reply.
    pub(crate) fn entry(
        &self,
        alloc: Global,
        message: usize,
        reply: Reply,
    ) -> Result<Entry, AllocError>
        requires { message < length self.now }
        ensures { IfOk result (λ entry. entry ≡ entry_by (message_at self.now message) reply) }
    {
        if message < self.older.len() {
            return self.older.entry(alloc, message, reply);
        }
        match self.newer.get(message - self.older.len()) {
            None => unreachable!(),
            Some(msg) => entry_by(alloc, msg, reply),
        }
    }

    /// The reply of the answer of a number.
    pub(crate) fn reply(&self, alloc: Global, message: usize) -> Result<Reply, AllocError>
        requires { message < length self.now }
        ensures { IfOk result (λ reply. reply ≡ reply_by (message_at self.now message)) }
    {
        if message < self.older.len() {
            return self.older.reply(alloc, message);
        }
        match self.newer.get(message - self.older.len()) {
            None => unreachable!(),
            Some(msg) => reply_by(alloc, msg),
        }
    }

    /// The server that the message of a number is for, where it is for one.
    pub(crate) fn server(&self, message: usize) -> Option<u32>
        ensures { result ≡ server_for (slice_get self.now message) }
    {
        if message < self.older.len() {
            return self.older.server(message);
        }
        match self.newer.get(message - self.older.len()) {
            None => None,
            Some(msg) => msg.server(),
        }
    }

    /// The client that it is for, where it is for one.
    pub(crate) fn client(&self, message: usize) -> Option<u32>
        ensures { result ≡ client_for (slice_get self.now message) }
    {
        if message < self.older.len() {
            return self.older.client(message);
        }
        match self.newer.get(message - self.older.len()) {
            None => None,
            Some(msg) => msg.client(),
        }
    }
}
