//! All messages of a run and all entries that its servers made.
ghost use Rattle.std.specs.Prelude.{◌≡◌, ◌<◌, ◌≤◌, [], ◌∷◌, ◌++◌, IfOk, OnOk, OnErr, length, get_or};
ghost use Rattle.std.specs.Prelude.{List, MatchOption, Some, take};
ghost use Rattle.std.specs.List.{slice_get};
ghost use Rattle.records.specs.declared.msg.Msg.{Msg};
ghost use Rattle.message_store.specs.Made.{IsAdded, change, kind_at, lookup_by};
ghost use Rattle.message_store.specs.Messages.{client_for, message_at, no_msg, server_for};
ghost use Rattle.message_store.specs.declared.sent.TheConstants.{MESSAGES};

use crate::made::{Kind, Made};
use crate::pairs::{MadeSlot, change_slot, kind_of, show};
use crate::sent::{Among, Sent};
use mds_base::{Call, Entry, Final, Reply};
use records::{Msg, MsgList};
use std::alloc::{AllocError, Global};
use std::marker::Model;

/// All messages of a run in the order in which they were sent, each known by its number from 0, and all entries in the
/// order in which they were made. Where there is no memory all stays as it was.
#[derive(Drop)]
pub struct MessageStore {
    sent: Sent,
    made: Vec<MadeSlot>,
    // The entries that fit no slot.
    whole: Vec<Made>,
}

impl Model for MessageStore {
    ghost use Rattle.std.specs.Prelude.{map};
    ghost use Rattle.std.specs.List.{AllByRecursion};
    ghost use Rattle.std.specs.Coded.{codes};
    ghost use Rattle.bitmap.specs.Bits.{coded_bits};
    ghost use Rattle.message_store.specs.Made.{MessagesV, made_in, IsMadeIn};

    ghost Value = { MessagesV };

    ghost coded = { Prim.hlevel (codes, coded_bits) };

    ghost view = { λ a. record { sent = a.sent; made = map (made_in a.sent a.whole.items) a.made.items } };

    ghost invariant = { λ a. AllByRecursion (IsMadeIn a.sent a.whole.items) a.made.items };
}

impl MessageStore {
    /// Nothing.
    pub fn new(alloc: Global) -> MessageStore
        ensures { result ≡ record { sent = []; made = [] } }
    {
        MessageStore {
            sent: Sent::new(alloc),
            made: Vec::new(alloc),
            whole: Vec::new(alloc),
        }
    }

    /// How many messages there are.
    pub fn len(&self) -> usize
        ensures is { result ≡ length self.now.sent }
        ensures most { result ≤ MESSAGES }
    {
        self.sent.len()
    }

    /// Puts a message behind. Past 2^32 - 1 messages it is refused as for want of memory.
    pub fn push(&mut self, alloc: Global, msg: Msg) -> Result<(), AllocError>
        ensures ok { OnOk result (self.new ≡ record self.old { sent = self.old.sent ++ msg ∷ [] }) }
        ensures err { OnErr result (self.new ≡ self.old) }
    {
        self.sent.push(alloc, msg)?;
        Ok(())
    }

    /// Moves messages behind, or none of them.
    pub fn append(&mut self, alloc: Global, msgs: &mut MsgList) -> Result<(), AllocError>
        ensures ok { OnOk result (self.new ≡ record self.old { sent = self.old.sent ++ msgs.old }) }
        ensures err { OnErr result (self.new ≡ self.old) }
    {
        self.sent.append(alloc, msgs)?;
        Ok(())
    }

    /// The message of a number, where it is one of the newest.
    pub fn lent(&self, message: usize) -> Option<&Msg>
        ensures { MatchOption result (Unit {0}) (λ msg. slice_get self.now.sent message ≡ Some msg.now) }
    {
        self.sent.lent(message)
    }

    /// Where the message of a number stands in a list, where it is one of the newest or was not sent.
    pub fn among(&self, message: usize) -> Option<Among<'_>>
        ensures { MatchOption result (Unit {0})
            (λ among. slice_get among.list.now among.place ≡ slice_get self.now.sent message) }
    {
        self.sent.among(message)
    }

    /// The message of a number, where it was sent.
    pub fn get(&self, alloc: Global, message: usize) -> Result<Option<Msg>, AllocError>
        ensures { IfOk result (λ msg. msg ≡ slice_get self.now.sent message) }
    {
        self.sent.get(alloc, message)
    }

    /// The server that the message of a number is for, where it was sent and is for one.
    pub fn server(&self, message: usize) -> Option<u32>
        ensures { result ≡ server_for (slice_get self.now.sent message) }
    {
        self.sent.server(message)
    }

    /// The client that it is for, where it was sent and is for one.
    pub fn client(&self, message: usize) -> Option<u32>
        ensures { result ≡ client_for (slice_get self.now.sent message) }
    {
        self.sent.client(message)
    }

    /// Adds the entry of a change. `request` is the number of the message that asked for it, if it is known: the entry
    /// is the same whatever stands there.
    pub fn add_change(
        &mut self,
        alloc: Global,
        request: u64,
        client: u32,
        seq: u64,
        call: &Call,
        said: Final,
    ) -> Result<(), AllocError>
        ensures ok { OnOk result
            (self.new ≡ record self.old { made = self.old.made ++ change client seq call.now said ∷ [] }) }
        ensures err { OnErr result (self.new ≡ self.old) }
    {
        add_change(
            alloc,
            &self.sent,
            &mut self.made,
            &mut self.whole,
            request,
            client,
            seq,
            call,
            said,
        )?;
        Ok(())
    }

    /// Moves messages behind, the first of which answers a lookup, and adds its entry. `request` is the number of the
    /// message that asked for it.
    pub fn append_answer(
        &mut self,
        alloc: Global,
        request: u64,
        msgs: &mut MsgList,
    ) -> Result<(), AllocError>
        requires request { request < length self.old.sent }
        requires some { 1 ≤ length msgs.old }
        ensures ok { OnOk result
            (self.new ≡ record {
              sent = self.old.sent ++ msgs.old;
              made = self.old.made ++ lookup_by (message_at self.old.sent request) (get_or msgs.old 0 no_msg)
                  (length self.old.sent) ∷ [];
            }) }
        ensures err { OnErr result (self.new ≡ self.old) }
    {
        self.made.reserve(1)?;
        let answer = self.sent.len();
        self.sent.append(alloc, msgs)?;
        let slot = MadeSlot::Lookup {
            request: request as u32,
            answer: answer as u32,
        };
        if self.made.push(slot).is_err() {
            unreachable!();
        }
        Ok(())
    }

    /// How many entries there are.
    pub fn made_len(&self) -> usize
        ensures { result ≡ length self.now.made }
    {
        self.made.len()
    }

    /// What the entry at a place is, where there is one.
    pub fn kind(&self, at: usize) -> Option<Kind>
        ensures { result ≡ kind_at (slice_get self.now.made at) }
    {
        if at >= self.made.len() {
            return None;
        }
        Some(kind_of(&self.sent, &self.whole, self.made[at]))
    }

    /// The entry at a place, where there is one.
    pub fn made(&self, alloc: Global, at: usize) -> Result<Option<Made>, AllocError>
        ensures { IfOk result (λ made. made ≡ slice_get self.now.made at) }
    {
        if at >= self.made.len() {
            return Ok(None);
        }
        let made = show(alloc, &self.sent, &self.whole, self.made[at])?;
        Ok(Some(made))
    }

    /// Leaves so many entries.
    pub fn cut_made(&mut self, len: usize)
        ensures { self.new ≡ record self.old { made = take len self.old.made } }
    {
        self.made.truncate(len);
    }
}

// Adds the entry of a change.
fn add_change(
    alloc: Global,
    sent: &Sent,
    made: &mut Vec<MadeSlot>,
    whole: &mut Vec<Made>,
    request: u64,
    client: u32,
    seq: u64,
    call: &Call,
    said: Final,
) -> Result<(), AllocError>
    ensures ok { OnOk result
        (IsAdded sent.now made.old.items made.new.items whole.old.items whole.new.items
        (change client seq call.now said)) }
    ensures err { OnErr result ((made.new.items ≡ made.old.items) × (whole.new.items ≡ whole.old.items)) }
{
    match change_slot(sent, request, client, seq, call, said) {
        Some(slot) => {
            made.push(slot)?;
            Ok(())
        }
        None => {
            let call = call.copy(alloc)?;
            add_whole(
                made,
                whole,
                Made {
                    entry: Entry {
                        client,
                        seq,
                        call,
                        reply: Reply::Said(said),
                    },
                    kind: Kind::Change,
                },
            )
        }
    }
}

// Adds an entry that fits no slot.
fn add_whole(made: &mut Vec<MadeSlot>, whole: &mut Vec<Made>, entry: Made) -> Result<(), AllocError>
    ensures ok { OnOk result
        ((sent : List Msg) → IsAdded sent made.old.items made.new.items whole.old.items whole.new.items entry) }
    ensures err { OnErr result ((made.new.items ≡ made.old.items) × (whole.new.items ≡ whole.old.items)) }
{
    if whole.len() >= 1 << 32 {
        return Err(AllocError);
    }
    let at = whole.len() as u32;
    made.reserve(1)?;
    whole.push(entry)?;
    if made.push(MadeSlot::Whole { at }).is_err() {
        unreachable!();
    }
    Ok(())
}
