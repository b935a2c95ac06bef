//! Messages, a slot of 16 bytes for each.
ghost use Rattle.std.specs.Prelude.{◌≡◌, ◌<◌, ◌≤◌, [], ◌∷◌, ◌++◌, IfOk, OnOk, OnErr, length, take, Some};
ghost use Rattle.std.specs.List.{slice_get};
ghost use Rattle.message_store.specs.Messages.{client_for, entry_by, message_at, reply_by, server_for};

use crate::sides::{Sides, Slot};
use mds_base::{Entry, Reply};
use records::{Msg, MsgList};
use std::alloc::{AllocError, Global};
use std::marker::Model;

/// Messages in their order.
#[derive(Drop)]
pub(crate) struct Messages {
    sides: Sides,
    slots: Vec<Slot>,
}

impl Model for Messages {
    ghost use Rattle.std.specs.Prelude.{List, map};
    ghost use Rattle.std.specs.List.{AllByRecursion};
    ghost use Rattle.std.specs.Coded.{codes};
    ghost use Rattle.bitmap.specs.Bits.{coded_bits};
    ghost use Rattle.records.specs.declared.msg.Msg.{Msg};
    ghost use Rattle.message_store.specs.Messages.{shown, IsIn};

    ghost Value = { List Msg };

    ghost coded = { Prim.hlevel (codes, coded_bits) };

    ghost view = { λ a. map (shown a.sides) a.slots.items };

    ghost invariant = { λ a. AllByRecursion (IsIn a.sides) a.slots.items };
}

impl Messages {
    /// No message.
    pub(crate) fn new(alloc: Global) -> Messages
        ensures { result ≡ [] }
    {
        Messages {
            sides: Sides::new(alloc),
            slots: Vec::new(alloc),
        }
    }

    /// How many messages there are.
    pub(crate) fn len(&self) -> usize
        ensures { result ≡ length self.now }
    {
        self.slots.len()
    }

    /// Puts a message behind.
    pub(crate) fn push(&mut self, alloc: Global, msg: &Msg) -> Result<(), AllocError>
        ensures ok { OnOk result (self.new ≡ self.old ++ msg.now ∷ []) }
        ensures err { OnErr result (self.new ≡ self.old) }
    {
        self.slots.reserve(1)?;
        let slot = self.sides.put(alloc, msg)?;
        if self.slots.push(slot).is_err() {
            unreachable!();
        }
        Ok(())
    }

    /// Puts messages behind, or none of them.
    pub(crate) fn push_all(&mut self, alloc: Global, msgs: &MsgList) -> Result<(), AllocError>
        ensures ok { OnOk result (self.new ≡ self.old ++ msgs.now) }
        ensures err { OnErr result (self.new ≡ self.old) }
    {
        let len = self.len();
        if self.push_each(alloc, msgs).is_err() {
            self.cut(len);
            return Err(AllocError);
        }
        Ok(())
    }

    // Puts messages behind, or some of them.
    fn push_each(&mut self, alloc: Global, msgs: &MsgList) -> Result<(), AllocError>
        ensures ok { OnOk result (self.new ≡ self.old ++ msgs.now) }
        ensures grows { take (length self.old) self.new ≡ self.old }
    {
        for msg in msgs.messages() {
            self.push(alloc, msg)?;
        }
        Ok(())
    }

    // Leaves so many messages.
    fn cut(&mut self, len: usize)
        ensures { self.new ≡ take len self.old }
    {
        self.slots.truncate(len);
    }

    /// The message of a number.
    pub(crate) fn get(&self, alloc: Global, message: usize) -> Result<Msg, AllocError>
        requires { message < length self.now }
        ensures { IfOk result (λ msg. slice_get self.now message ≡ Some msg) }
    {
        self.sides.show(alloc, self.slots[message])
    }

    /// The entry of the request of a number that got this reply.
    pub(crate) fn entry(
        &self,
        alloc: Global,
        message: usize,
        reply: Reply,
    ) -> Result<Entry, AllocError>
        requires { message < length self.now }
        ensures { IfOk result (λ entry. entry ≡ entry_by (message_at self.now message) reply) }
    {
        self.sides.entry(alloc, self.slots[message], reply)
    }

    /// The reply of the answer of a number.
    pub(crate) fn reply(&self, alloc: Global, message: usize) -> Result<Reply, AllocError>
        requires { message < length self.now }
        ensures { IfOk result (λ reply. reply ≡ reply_by (message_at self.now message)) }
    {
        self.sides.reply(alloc, self.slots[message])
    }

    /// The server that it is for, where it is for one.
    pub(crate) fn server(&self, message: usize) -> Option<u32>
        requires { message < length self.now }
        ensures { result ≡ server_for (slice_get self.now message) }
    {
        self.sides.server(self.slots[message])
    }

    /// The client that it is for, where it is for one.
    pub(crate) fn client(&self, message: usize) -> Option<u32>
        requires { message < length self.now }
        ensures { result ≡ client_for (slice_get self.now message) }
    {
        self.sides.client(self.slots[message])
    }
}
