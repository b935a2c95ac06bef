ghost use Rattle.std.specs.Prelude.{◌≡◌, ◌++◌, ◌∷◌, [], length, IfOk, OnOk, OnErr};
ghost use Rattle.std.specs.List.{slice_get};
ghost use Rattle.std.specs.Option.{option_copied};

use crate::boxed::BoxedBitmap;
use mds_base::{Call, Final, RowList, SessionList};
use std::alloc::{AllocError, Global};
use std::marker::Model;

/// A change of a server, as its log keeps it (`docs/FORMATS.md`, "Records").
#[derive(Debug, Drop)]
pub enum Record {
    /// The first record of a log: whose log it is.
    Head {
        /// The format of the log, 1.
        format: u8,
        /// How many servers there are, from 1 to 32.
        servers: u32,
        /// The number of this server, below the servers.
        server: u32,
        /// A partition with more rows than this is split; from 1 to 8000.
        threshold: u32,
    },
    /// The server was opened for a new run, in which no client has sent anything yet.
    Opened,
    /// A change was carried out.
    Served {
        /// The client, from 1 to 64.
        client: u32,
        /// The number of the call among the client's calls, from 1.
        seq: u64,
        /// The partition in which it was carried out, below 1024.
        part: u32,
        /// The call.
        call: Call,
        /// Its reply.
        said: Final,
    },
    /// The split of a partition began: the upper half of its range is frozen, and moves to its child.
    Begin {
        /// The number of the directory.
        dir: u64,
        /// The partition, below 2^depth.
        part: u32,
        /// Its depth before the split.
        depth: u32,
    },
    /// The child of a split was made from what its source sent.
    Install {
        /// The number of the directory.
        dir: u64,
        /// The child, below 2^depth.
        part: u32,
        /// Its depth.
        depth: u32,
        /// The source's bitmap of the directory.
        bitmap: BoxedBitmap,
        /// The source's sessions, by rising clients.
        sessions: SessionList,
        /// The rows of the child, in the order of a scan.
        rows: RowList,
    },
    /// The split of a partition ended: its moved rows are gone, and the child is known.
    End {
        /// The number of the directory.
        dir: u64,
        /// The partition.
        part: u32,
        /// Its depth before the split.
        depth: u32,
    },
}

impl Record {
    /// A copy of the record; it is refused only where there is no memory for it.
    pub fn copy(&self, alloc: Global) -> Result<Record, AllocError>
        ensures { IfOk result (λ copy. copy ≡ self.now) }
    {
        Ok(match self {
            Record::Head {
                format,
                servers,
                server,
                threshold,
            } => Record::Head {
                format: *format,
                servers: *servers,
                server: *server,
                threshold: *threshold,
            },
            Record::Opened => Record::Opened,
            Record::Served {
                client,
                seq,
                part,
                call,
                said,
            } => Record::Served {
                client: *client,
                seq: *seq,
                part: *part,
                call: call.copy(alloc)?,
                said: *said,
            },
            Record::Begin { dir, part, depth } => Record::Begin {
                dir: *dir,
                part: *part,
                depth: *depth,
            },
            Record::Install {
                dir,
                part,
                depth,
                bitmap,
                sessions,
                rows,
            } => Record::Install {
                dir: *dir,
                part: *part,
                depth: *depth,
                bitmap: bitmap.copy(alloc)?,
                sessions: sessions.copy(alloc)?,
                rows: rows.copy(alloc)?,
            },
            Record::End { dir, part, depth } => Record::End {
                dir: *dir,
                part: *part,
                depth: *depth,
            },
        })
    }
}

/// Records in their order.
#[derive(Debug, Drop)]
pub struct RecordList {
    records: Vec<Record>,
}

impl Model for RecordList {
    ghost use Rattle.std.specs.Prelude.{List};
    ghost use Rattle.records.specs.declared.record.Record.{Record};
    ghost use Rattle.std.specs.Coded.{codes};
    ghost use Rattle.bitmap.specs.Bits.{coded_bits};

    ghost Value = { List Record };

    ghost coded = { Prim.hlevel (codes, coded_bits) };

    ghost view = { λ a. a.records.items };
}

impl RecordList {
    /// The list with no record.
    pub fn new(alloc: Global) -> RecordList
        ensures { result ≡ [] }
    {
        RecordList {
            records: Vec::new(alloc),
        }
    }

    /// Adds a record at the end. Where there is no memory for it the list stays as it is.
    pub fn push(&mut self, item: Record) -> Result<(), AllocError>
        ensures ok { OnOk result (self.new ≡ self.old ++ item ∷ []) }
        ensures err { OnErr result (self.new ≡ self.old) }
    {
        self.records.push(item)?;
        Ok(())
    }

    /// Moves the records of another list to the end. Where there is no memory for it both stay as they are.
    pub fn append(&mut self, other: &mut RecordList) -> Result<(), AllocError>
        ensures ok { OnOk result (self.new ≡ self.old ++ other.old) }
        ensures emptied { OnOk result (other.new ≡ []) }
        ensures err { OnErr result ((self.new ≡ self.old) × (other.new ≡ other.old)) }
    {
        self.records.append(&mut other.records)?;
        Ok(())
    }

    /// How many records there are.
    pub fn len(&self) -> usize
        ensures { result ≡ length self.now }
    {
        self.records.len()
    }

    /// The record at a place, counted from 0.
    pub fn get(&self, place: usize) -> Option<&Record>
        ensures { option_copied result ≡ slice_get self.now place }
    {
        self.records.get(place)
    }

    /// The records, in their order.
    pub fn records(&self) -> &[Record]
        ensures { result.now ≡ self.now }
    {
        self.records.as_slice()
    }

    /// A copy of the list; it is refused only where there is no memory for it.
    pub fn copy(&self, alloc: Global) -> Result<RecordList, AllocError>
        ensures { IfOk result (λ copy. copy ≡ self.now) }
    {
        let mut copies = Vec::with_capacity(alloc, self.records.len())?;
        for record in &self.records {
            copies.push(record.copy(alloc)?)?;
        }
        Ok(RecordList { records: copies })
    }
}
