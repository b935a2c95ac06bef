ghost use Rattle.std.specs.Prelude.{◌≡◌, ◌++◌, ◌∷◌, [], length, IfOk, OnOk, OnErr};
ghost use Rattle.std.specs.List.{slice_get};
ghost use Rattle.std.specs.Option.{option_copied};
ghost use Rattle.records.specs.Messages.{server_of_msg, client_of_msg};

use crate::boxed::{BoxedBitmap, BoxedCursor};
use mds_base::{Ask, Cursor, Reply, RowList, SessionList};
use std::alloc::{AllocError, Global};
use std::marker::Model;

/// A message between a client and a server, or between two servers. Messages are values and have no byte form.
#[derive(Debug, Drop)]
pub enum Msg {
    /// A client asks a server; of a scan, from a cursor on.
    Request {
        server: u32,
        ask: Ask,
        cursor: Option<BoxedCursor>,
    },
    /// The partition that the server locates lies elsewhere: the client is to merge the bitmap of the directory.
    Redirect {
        client: u32,
        seq: u64,
        attempt: u32,
        dir: u64,
        bitmap: BoxedBitmap,
    },
    /// A server answers a call of a client.
    Answer {
        client: u32,
        seq: u64,
        attempt: u32,
        reply: Reply,
    },
    /// The name is in the half of the partition that moves at this depth: the client is to send again later.
    Busy {
        client: u32,
        seq: u64,
        attempt: u32,
        part: u32,
        depth: u32,
    },
    /// A lease on the name may last until this moment: the client is to send again then.
    Held {
        client: u32,
        seq: u64,
        attempt: u32,
        until: u64,
    },
    /// A page of a scan: rows in the order of a scan, and where it goes on, or that it is over.
    Page {
        client: u32,
        seq: u64,
        attempt: u32,
        rows: RowList,
        next: Option<Cursor>,
    },
    /// The partition is sealed with this epoch, or dead: the client is to send again later.
    Closed {
        client: u32,
        seq: u64,
        attempt: u32,
        part: u32,
        epoch: u64,
    },
    /// The source of a split sends the moving half of a partition of this depth to the server of the child, in
    /// `count` pieces of at most 64 rows, of which this is the one at `index`: the bitmap of the directory, the
    /// sessions of the partition, the greatest of its floor and lease ends, and the rows.
    Transfer {
        server: u32,
        dir: u64,
        part: u32,
        depth: u32,
        index: u32,
        count: u32,
        bitmap: BoxedBitmap,
        sessions: SessionList,
        top: u64,
        rows: RowList,
    },
    /// A server tells the source of a transfer that the child is kept.
    Installed {
        server: u32,
        dir: u64,
        part: u32,
        child: u32,
    },
}

impl Msg {
    /// The server that the message is for, where it is for one.
    pub fn server(&self) -> Option<u32>
        ensures { result ≡ server_of_msg self.now }
    {
        match self {
            Msg::Request { server, .. } => Some(*server),
            Msg::Transfer { server, .. } => Some(*server),
            Msg::Installed { server, .. } => Some(*server),
            Msg::Redirect { .. } => None,
            Msg::Answer { .. } => None,
            Msg::Busy { .. } => None,
            Msg::Held { .. } => None,
            Msg::Page { .. } => None,
            Msg::Closed { .. } => None,
        }
    }

    /// The client that the message is for, where it is for one.
    pub fn client(&self) -> Option<u32>
        ensures { result ≡ client_of_msg self.now }
    {
        match self {
            Msg::Redirect { client, .. } => Some(*client),
            Msg::Answer { client, .. } => Some(*client),
            Msg::Busy { client, .. } => Some(*client),
            Msg::Held { client, .. } => Some(*client),
            Msg::Page { client, .. } => Some(*client),
            Msg::Closed { client, .. } => Some(*client),
            Msg::Request { .. } => None,
            Msg::Transfer { .. } => None,
            Msg::Installed { .. } => None,
        }
    }

    /// A copy of the message; it is refused only where there is no memory for it.
    pub fn copy(&self, alloc: Global) -> Result<Msg, AllocError>
        ensures { IfOk result (λ copy. copy ≡ self.now) }
    {
        Ok(match self {
            Msg::Request {
                server,
                ask,
                cursor,
            } => Msg::Request {
                server: *server,
                ask: ask.copy(alloc)?,
                cursor: copy_of_boxed(alloc, cursor)?,
            },
            Msg::Redirect {
                client,
                seq,
                attempt,
                dir,
                bitmap,
            } => Msg::Redirect {
                client: *client,
                seq: *seq,
                attempt: *attempt,
                dir: *dir,
                bitmap: bitmap.copy(alloc)?,
            },
            Msg::Answer {
                client,
                seq,
                attempt,
                reply,
            } => Msg::Answer {
                client: *client,
                seq: *seq,
                attempt: *attempt,
                reply: reply.copy(alloc)?,
            },
            Msg::Busy {
                client,
                seq,
                attempt,
                part,
                depth,
            } => Msg::Busy {
                client: *client,
                seq: *seq,
                attempt: *attempt,
                part: *part,
                depth: *depth,
            },
            Msg::Held {
                client,
                seq,
                attempt,
                until,
            } => Msg::Held {
                client: *client,
                seq: *seq,
                attempt: *attempt,
                until: *until,
            },
            Msg::Page {
                client,
                seq,
                attempt,
                rows,
                next,
            } => Msg::Page {
                client: *client,
                seq: *seq,
                attempt: *attempt,
                rows: rows.copy(alloc)?,
                next: copy_of_cursor(alloc, next)?,
            },
            Msg::Closed {
                client,
                seq,
                attempt,
                part,
                epoch,
            } => Msg::Closed {
                client: *client,
                seq: *seq,
                attempt: *attempt,
                part: *part,
                epoch: *epoch,
            },
            Msg::Transfer {
                server,
                dir,
                part,
                depth,
                index,
                count,
                bitmap,
                sessions,
                top,
                rows,
            } => Msg::Transfer {
                server: *server,
                dir: *dir,
                part: *part,
                depth: *depth,
                index: *index,
                count: *count,
                bitmap: bitmap.copy(alloc)?,
                sessions: sessions.copy(alloc)?,
                top: *top,
                rows: rows.copy(alloc)?,
            },
            Msg::Installed {
                server,
                dir,
                part,
                child,
            } => Msg::Installed {
                server: *server,
                dir: *dir,
                part: *part,
                child: *child,
            },
        })
    }
}

fn copy_of_cursor(alloc: Global, cursor: &Option<Cursor>) -> Result<Option<Cursor>, AllocError>
    ensures { IfOk result (λ copy. copy ≡ cursor.now) }
{
    match cursor {
        None => Ok(None),
        Some(cursor) => {
            let copy = cursor.copy(alloc)?;
            Ok(Some(copy))
        }
    }
}

fn copy_of_boxed(
    alloc: Global,
    cursor: &Option<BoxedCursor>,
) -> Result<Option<BoxedCursor>, AllocError>
    ensures { IfOk result (λ copy. copy ≡ cursor.now) }
{
    match cursor {
        None => Ok(None),
        Some(cursor) => {
            let copy = cursor.copy(alloc)?;
            Ok(Some(copy))
        }
    }
}

// A message stays small, whatever it brings.
const _: () = prove!(std::mem::size_of::<Msg>() <= 120);

/// Messages in their order.
#[derive(Debug, Drop)]
pub struct MsgList {
    messages: Vec<Msg>,
}

impl Model for MsgList {
    ghost use Rattle.std.specs.Prelude.{List};
    ghost use Rattle.records.specs.declared.msg.Msg.{Msg};
    ghost use Rattle.std.specs.Coded.{codes};
    ghost use Rattle.bitmap.specs.Bits.{coded_bits};

    ghost Value = { List Msg };

    ghost coded = { Prim.hlevel (codes, coded_bits) };

    ghost view = { λ a. a.messages.items };
}

impl MsgList {
    /// The list with no message.
    pub fn new(alloc: Global) -> MsgList
        ensures { result ≡ [] }
    {
        MsgList {
            messages: Vec::new(alloc),
        }
    }

    /// Adds a message at the end. Where there is no memory for it the list stays as it is.
    pub fn push(&mut self, msg: Msg) -> Result<(), AllocError>
        ensures ok { OnOk result (self.new ≡ self.old ++ msg ∷ []) }
        ensures err { OnErr result (self.new ≡ self.old) }
    {
        self.messages.push(msg)?;
        Ok(())
    }

    /// Moves the messages of another list to the end. Where there is no memory for it both stay as they are.
    pub fn append(&mut self, other: &mut MsgList) -> Result<(), AllocError>
        ensures ok { OnOk result (self.new ≡ self.old ++ other.old) }
        ensures emptied { OnOk result (other.new ≡ []) }
        ensures err { OnErr result ((self.new ≡ self.old) × (other.new ≡ other.old)) }
    {
        self.messages.append(&mut other.messages)?;
        Ok(())
    }

    /// How many messages there are.
    pub fn len(&self) -> usize
        ensures { result ≡ length self.now }
    {
        self.messages.len()
    }

    /// The message at a place, counted from 0.
    pub fn get(&self, place: usize) -> Option<&Msg>
        ensures { option_copied result ≡ slice_get self.now place }
    {
        self.messages.get(place)
    }

    /// The messages, in their order.
    pub fn messages(&self) -> &[Msg]
        ensures { result.now ≡ self.now }
    {
        self.messages.as_slice()
    }

    /// A copy of the list; it is refused only where there is no memory for it.
    pub fn copy(&self, alloc: Global) -> Result<MsgList, AllocError>
        ensures { IfOk result (λ copy. copy ≡ self.now) }
    {
        let mut copies = Vec::with_capacity(alloc, self.messages.len())?;
        for msg in &self.messages {
            copies.push(msg.copy(alloc)?)?;
        }
        Ok(MsgList { messages: copies })
    }
}
