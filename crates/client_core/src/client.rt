ghost use Rattle.std.specs.Prelude.{◌≡◌, ℕ, ◌+◌, ◌<◌, ◌≤◌, OnOk, OnErr, IfOk, Some, None, true, false, is_some};
ghost use Rattle.std.specs.Prelude.{unwrap_or};
ghost use Rattle.std.specs.FinMap as map;
ghost use Rattle.std.specs.Ordering.{nat_cmp};
ghost use Rattle.std.specs.FinSet as set;
ghost use Rattle.mds_base.specs.declared.limits.TheConstants.{CALLS, DIRECTORIES};
ghost use Rattle.bitmap.specs.Bits.{Bits};
ghost use Rattle.client_core.specs.Clients.{new_client, bits_in, target_of, zero_bits, request_of, cursor_of, issued};
ghost use Rattle.client_core.specs.Clients.{issue_msg, merged, located_in, attempt_of, HasPending, HasRoom, SendsAgain};
ghost use Rattle.mds_base.specs.Calls.{dir_of};
ghost use Rattle.client_core.specs.Taking.{take, fits, is_said, is_looked, answered_if, present_at, answers_at};
ghost use Rattle.client_core.specs.Taking.{redirects_at, redirected_at, IsTaken};
ghost use Rattle.client_core.specs.Ranges.{AreRanges};

use crate::taken::Taken;
use bitmap::Bitmap;
use mds_base::{Ask, Asked, Call, Cursor, Name, Reply, Setup};
use name_hash::hash;
use placement::server_of;
use records::{BoxedCursor, Msg};
use std::alloc::{AllocError, Global};
use std::collections::BTreeMap;
use std::marker::Model;

/// A call that is not answered yet.
#[derive(Debug, Drop)]
pub struct Pending {
    /// The call.
    pub call: Call,
    /// The number of its present sending, from 1.
    pub attempt: u32,
}

/// A client: it numbers its calls, has at most one open, and keeps a bitmap for each directory
/// (`crates/client_core/README.md`, "Client").
#[derive(Debug, Drop)]
pub struct Client {
    number: u32,
    setup: Setup,
    seq: u64,
    pending: Option<Pending>,
    bits: BTreeMap<u64, Bitmap>,
}

impl Model for Client {
    ghost use Rattle.std.specs.FinMap as map;
    ghost use Rattle.std.specs.FinSet as set;
    ghost use Rattle.std.specs.Coded.{codes};
    ghost use Rattle.client_core.specs.Clients.{ClientV};

    ghost Value = { ClientV };

    ghost coded = { Prim.hlevel (codes, map.code, set.code) };

    ghost use Rattle.client_core.specs.Ranges.{AreRanges};

    ghost view = { λ a.
        record {
          number = a.number;
          setup = a.setup;
          seq = a.seq;
          pending = a.pending;
          bits =
              map.from_entries a.bits.entries;
        } };

    ghost invariant = { λ a. AreRanges a.setup };
}

impl Client {
    /// A client that numbered no call yet.
    pub fn new(alloc: Global, number: u32, setup: Setup) -> Client
        requires { 0 < setup.servers }
        ensures { result ≡ new_client number setup }
    {
        Client {
            number,
            setup,
            seq: 0,
            pending: None,
            bits: BTreeMap::new(alloc),
        }
    }

    /// Whether a call is open.
    pub fn busy(&self) -> bool
        ensures { result ≡ is_some self.now.pending }
    {
        self.pending.is_some()
    }

    /// How many calls the client numbered so far.
    pub fn seq(&self) -> u64
        ensures { result ≡ self.now.seq }
    {
        self.seq
    }

    /// The number of the open call's present sending, and 0 where no call is open.
    pub fn attempt(&self) -> u32
        ensures { result ≡ attempt_of self.now.pending }
    {
        match &self.pending {
            None => 0,
            Some(pending) => pending.attempt,
        }
    }

    /// The client's bitmap of a directory, which begins with partition 0 alone.
    pub fn bitmap(&self, dir: u64) -> Bitmap
        ensures { result ≡ bits_in self.now dir }
    {
        match self.bits.get(&dir) {
            None => Bitmap::zero(),
            Some(bits) => *bits,
        }
    }

    // The partition to which the client sends a call.
    fn target(&self, call: &Call) -> u32
        ensures { result ≡ target_of self.now call.now }
    {
        match call.asked() {
            Asked::Name { dir, name, .. } => self.locate(dir, name),
            Asked::Directory { .. } => 0,
            Asked::Partition { part, .. } => part,
        }
    }

    fn locate(&self, dir: u64, name: &Name) -> u32
        ensures { result ≡ located_in self.now dir name.now }
    {
        match self.bits.get(&dir) {
            // Partition 0 alone: every hash is located there.
            None => 0,
            Some(bits) => bits.locate(hash(name)),
        }
    }

    // The request that the client sends for a call.
    fn request(&self, alloc: Global, seq: u64, attempt: u32, call: &Call) -> Result<Msg, AllocError>
        requires { dir_of call.now < DIRECTORIES }
        ensures { IfOk result (λ msg. msg ≡ request_of self.now seq attempt call.now) }
    {
        let server = server_of(call.dir(), self.target(call), self.setup.servers);
        let copy = call.copy(alloc)?;
        let cursor = first_cursor(alloc, call)?;
        Ok(Msg::Request {
            server,
            ask: Ask {
                client: self.number,
                seq,
                attempt,
                call: copy,
            },
            cursor,
        })
    }

    /// Opens the client's next call, and gives the request to send. Where there is no memory for it nothing changes.
    pub fn issue(&mut self, alloc: Global, call: Call) -> Result<Msg, AllocError>
        requires idle { self.old.pending ≡ None }
        requires fits { dir_of call < DIRECTORIES }
        requires room { self.old.seq < CALLS }
        ensures ok { IfOk result (λ msg. msg ≡ issue_msg self.old call) }
        ensures client { OnOk result (self.new ≡ issued self.old call) }
        ensures err { OnErr result (self.new ≡ self.old) }
    {
        let msg = self.request(alloc, self.seq + 1, 1, &call)?;
        self.seq += 1;
        self.pending = Some(Pending { call, attempt: 1 });
        Ok(msg)
    }

    /// Sends the open call again, with the next attempt number, to the server that is located now. Where there is no
    /// memory for it nothing changes.
    pub fn resend(&mut self, alloc: Global) -> Result<Msg, AllocError>
        requires { HasPending self.old.pending }
        ensures ok { IfOk result (λ msg. SendsAgain self.old self.new msg self.old.pending) }
        ensures err { OnErr result (self.new ≡ self.old) }
    {
        let msg = match &self.pending {
            None => unreachable!(),
            Some(pending) => { self.request(alloc, self.seq, pending.attempt + 1, &pending.call)? }
        };
        if let Some(pending) = &mut self.pending {
            pending.attempt += 1;
        }
        Ok(msg)
    }

    /// Takes a message. One of another call or another sending, or one that does not fit the open call, is ignored and
    /// changes nothing; Busy and Held leave the call open as it is. Where there is no memory for the reply nothing
    /// changes.
    pub fn take(&mut self, alloc: Global, msg: &Msg) -> Result<Taken, AllocError>
        requires { HasRoom self.old.pending }
        ensures ok { IfOk result (λ taken. IsTaken (take self.old msg.now) taken self.new) }
        ensures err { OnErr result (self.new ≡ self.old) }
    {
        match msg {
            Msg::Answer {
                seq,
                attempt,
                reply,
                ..
            } => self.take_answer(alloc, *seq, *attempt, reply),
            Msg::Busy {
                seq,
                attempt,
                part,
                ..
            } => {
                if self.is_present(*seq, *attempt) {
                    Ok(Taken::Busy { part: *part })
                } else {
                    Ok(Taken::Ignored)
                }
            }
            Msg::Held {
                seq,
                attempt,
                until,
                ..
            } => {
                if self.is_present(*seq, *attempt) {
                    Ok(Taken::Held { until: *until })
                } else {
                    Ok(Taken::Ignored)
                }
            }
            Msg::Redirect {
                seq,
                attempt,
                dir,
                bitmap,
                ..
            } => self.take_redirect(*seq, *attempt, *dir, bitmap.get()),
            Msg::Request { .. } => Ok(Taken::Ignored),
            Msg::Page { .. } => Ok(Taken::Ignored),
            Msg::Closed { .. } => Ok(Taken::Ignored),
            Msg::Transfer { .. } => Ok(Taken::Ignored),
            Msg::Installed { .. } => Ok(Taken::Ignored),
        }
    }

    fn take_answer(
        &mut self,
        alloc: Global,
        seq: u64,
        attempt: u32,
        reply: &Reply,
    ) -> Result<Taken, AllocError>
        ensures ok { IfOk result
            (λ taken. IsTaken
            (answered_if self.old reply.now (answers_at self.old self.old.pending seq attempt reply.now)) taken
            self.new) }
        ensures err { OnErr result (self.new ≡ self.old) }
    {
        if !self.answers(seq, attempt, reply) {
            return Ok(Taken::Ignored);
        }
        let copy = reply.copy(alloc)?;
        self.pending = None;
        Ok(Taken::Answer(copy))
    }

    fn take_redirect(
        &mut self,
        seq: u64,
        attempt: u32,
        dir: u64,
        bitmap: &Bitmap,
    ) -> Result<Taken, AllocError>
        requires { HasRoom self.old.pending }
        ensures ok { IfOk result
            (λ taken. IsTaken (redirected_at self.old self.old.pending seq attempt dir bitmap.now) taken self.new) }
        ensures err { OnErr result (self.new ≡ self.old) }
    {
        if !self.redirects(seq, attempt, dir) {
            return Ok(Taken::Ignored);
        }
        self.hint(dir, bitmap)?;
        let part = match &self.pending {
            None => unreachable!(),
            Some(pending) => self.target(&pending.call),
        };
        if let Some(pending) = &mut self.pending {
            pending.attempt += 1;
        }
        Ok(Taken::Redirected { part })
    }

    fn redirects(&self, seq: u64, attempt: u32, dir: u64) -> bool
        ensures { result ≡ redirects_at self.now self.now.pending seq attempt dir }
    {
        match &self.pending {
            None => false,
            Some(pending) => {
                (seq == self.seq && attempt == pending.attempt) && dir == pending.call.dir()
            }
        }
    }

    fn is_present(&self, seq: u64, attempt: u32) -> bool
        ensures { result ≡ present_at self.now self.now.pending seq attempt }
    {
        match &self.pending {
            None => false,
            Some(pending) => seq == self.seq && attempt == pending.attempt,
        }
    }

    fn answers(&self, seq: u64, attempt: u32, reply: &Reply) -> bool
        ensures { result ≡ answers_at self.now self.now.pending seq attempt reply.now }
    {
        match &self.pending {
            None => false,
            Some(pending) => {
                (seq == self.seq && attempt == pending.attempt) && fits(&pending.call, reply)
            }
        }
    }

    /// Merges a bitmap of a directory. Where there is no memory for it nothing changes.
    pub fn hint(&mut self, dir: u64, bitmap: &Bitmap) -> Result<(), AllocError>
        ensures ok { OnOk result (self.new ≡ merged self.old dir bitmap.now) }
        ensures err { OnErr result (self.new ≡ self.old) }
    {
        let mut bits = self.bitmap(dir);
        bits.merge(bitmap);
        put_bits(&mut self.bits, dir, bits)
    }
}

// Keeps a bitmap for a directory.
fn put_bits(bits: &mut BTreeMap<u64, Bitmap>, dir: u64, bitmap: Bitmap) -> Result<(), AllocError>
    ensures ok { OnOk result
        (map.from_entries {R = nat_cmp} bits.new.entries ≡ map.insert (map.from_entries bits.old.entries) dir bitmap) }
    ensures err { OnErr result
        (map.from_entries {R = nat_cmp} bits.new.entries ≡ map.from_entries {R = nat_cmp} bits.old.entries) }
{
    bits.insert(dir, bitmap)?;
    Ok(())
}

fn first_cursor(alloc: Global, call: &Call) -> Result<Option<BoxedCursor>, AllocError>
    ensures { IfOk result (λ cursor. cursor ≡ cursor_of call.now) }
{
    match call {
        Call::Scan { .. } => {
            let first = BoxedCursor::new(alloc, Cursor { at: 0, after: None })?;
            Ok(Some(first))
        }
        _ => Ok(None),
    }
}

// Whether a reply answers a call.
fn fits(call: &Call, reply: &Reply) -> bool
    ensures { result ≡ fits call.now reply.now }
{
    match call.asked() {
        Asked::Name { changes: true, .. } => is_said(reply),
        Asked::Name { changes: false, .. } => is_looked(reply),
        Asked::Directory { .. } => false,
        Asked::Partition { .. } => is_said(reply),
    }
}

fn is_looked(reply: &Reply) -> bool
    ensures { result ≡ is_looked reply.now }
{
    match reply {
        Reply::Said(_) => true,
        Reply::Found { .. } => true,
        Reply::Listed { .. } => false,
    }
}

fn is_said(reply: &Reply) -> bool
    ensures { result ≡ is_said reply.now }
{
    match reply {
        Reply::Said(_) => true,
        Reply::Found { .. } => false,
        Reply::Listed { .. } => false,
    }
}
