//! Replaying a record: what it tells of is done again, where it may follow.
ghost use Rattle.std.specs.Prelude.{◌≡◌, ◌==◌, ◌<◌, OnErr, IfOk, MatchBool, ◌≢◌};
ghost use Rattle.std.specs.FinMap as map;
ghost use Rattle.mds_base.specs.Calls.{dir_of};
ghost use Rattle.mds_base.specs.RowsCause.{HasRowsCause};
ghost use Rattle.mds_base.specs.declared.limits.TheConstants.{DIRECTORIES};
ghost use Rattle.records.specs.declared.record.Record.{Record};
ghost use Rattle.node_core.specs.Nodes.{part_cmp, parts_cleared};
ghost use Rattle.node_core.specs.Ranges.{RecordFits};
ghost use Rattle.node_core.specs.Rules.{ChangeOf, asked_of};
ghost use Rattle.node_core.specs.Serving.{IsReplayed, is_head, is_placed};

use crate::asks::{Asks, asks_of};
use crate::node::Node;
use crate::plan::change_of;
use mds_base::limits::SERVER_DIRECTORIES;
use mds_base::{Ask, Call, Final, Name, Rows, RowsFault};
use partition::{Partition, Plan as PartPlan};
use records::Record;
use std::alloc::Global;
use std::collections::BTreeMap;

impl Node {
    /// Replays a record, and answers true exactly where it may follow (`crates/node_core/README.md`, "Records that may
    /// follow"); else nothing changes. Where it is refused the node and the rows stay as they are. A change takes what
    /// serving it takes; the beginning of a run takes a time that grows with the number of sessions, and no memory.
    pub fn replay<R: Rows>(
        &mut self,
        alloc: Global,
        rows: &mut R,
        item: &Record,
    ) -> Result<bool, RowsFault>
        requires fits { RecordFits item.now }
        ensures ok { IfOk result
            (λ follows. IsReplayed (record { node = self.old; rows = R.contents rows.old }) item.now self.new
            (R.contents rows.new) follows) }
        ensures err { OnErr result ((self.new ≡ self.old) × (R.contents rows.new ≡ R.contents rows.old)) }
        ensures cause { HasRowsCause (R.faults rows.old) (R.faults rows.new) result }
    {
        match item {
            Record::Served {
                client,
                seq,
                part,
                call,
                said,
            } => self.redo(alloc, rows, *client, *seq, *part, call, *said),
            Record::Head {
                format,
                servers,
                server,
                threshold,
            } => Ok(self.heads(*format, *servers, *server, *threshold)),
            Record::Opened => {
                clear_in(&mut self.parts);
                Ok(true)
            }
            Record::Begin { .. } => Ok(false),
            Record::Install { .. } => Ok(false),
            Record::End { .. } => Ok(false),
        }
    }

    fn heads(&self, format: u8, servers: u32, server: u32, threshold: u32) -> bool
        ensures { result ≡ is_head self.now format servers server threshold }
    {
        (self.next == u64::from(self.server) * SERVER_DIRECTORIES + 2 && is_bare(&self.parts))
            && ((format == 1 && servers == self.setup.servers)
                && (server == self.server && threshold == self.setup.threshold))
    }

    fn redo<R: Rows>(
        &mut self,
        alloc: Global,
        rows: &mut R,
        client: u32,
        seq: u64,
        part: u32,
        call: &Call,
        said: Final,
    ) -> Result<bool, RowsFault>
        requires fits { dir_of call.now < DIRECTORIES }
        ensures ok { IfOk result
            (λ follows. IsReplayed (record { node = self.old; rows = R.contents rows.old })
            (Record.Served client seq part call.now said) self.new (R.contents rows.new) follows) }
        ensures err { OnErr result ((self.new ≡ self.old) × (R.contents rows.new ≡ R.contents rows.old)) }
        ensures cause { HasRowsCause (R.faults rows.old) (R.faults rows.new) result }
    {
        match asks_of(call) {
            Asks::Change { dir, name } => {
                self.redo_at(alloc, rows, client, seq, part, call, said, dir, name)
            }
            Asks::Look { .. } => Ok(false),
            Asks::NothingYet => Ok(false),
        }
    }

    fn redo_at<R: Rows>(
        &mut self,
        alloc: Global,
        rows: &mut R,
        client: u32,
        seq: u64,
        part: u32,
        call: &Call,
        said: Final,
        dir: u64,
        name: &Name,
    ) -> Result<bool, RowsFault>
        requires asked { asked_of call.now ≡ ChangeOf dir name.now }
        requires fits { dir < DIRECTORIES }
        ensures ok { IfOk result
            (λ follows. IsReplayed (record { node = self.old; rows = R.contents rows.old })
            (Record.Served client seq part call.now said) self.new (R.contents rows.new) follows) }
        ensures err { OnErr result ((self.new ≡ self.old) × (R.contents rows.new ≡ R.contents rows.old)) }
        ensures cause { HasRowsCause (R.faults rows.old) (R.faults rows.new) result }
    {
        if !self.is_placed(dir, name, part) {
            return Ok(false);
        }
        let ask = Ask {
            client,
            seq,
            attempt: 1,
            call: call.copy(alloc)?,
        };
        let PartPlan { change, .. } = self.plan_in(alloc, rows, &ask, dir, part)?;
        let Some(change) = change_of(dir, part, change) else {
            return Ok(false);
        };
        if differs(change.session.said, said) {
            return Ok(false);
        }
        self.change(alloc, rows, change)?;
        Ok(true)
    }

    // Whether a change on a name may be noted in a partition of this server.
    fn is_placed(&self, dir: u64, name: &Name, part: u32) -> bool
        requires { dir < DIRECTORIES }
        ensures { result ≡ is_placed self.now dir name.now part }
    {
        let own = self.part_for(dir, name);
        part == own
            && (self.has_numbers()
                && (self.owns(dir, own) && self.frozen(dir, own, name).is_none()))
    }
}

// Forgets the sessions of all partitions. It takes no memory.
fn clear_in(parts: &mut BTreeMap<(u64, u32), Partition>)
    ensures { map.from_entries {R = part_cmp} parts.new.entries ≡ parts_cleared (map.from_entries parts.old.entries) }
{
    parts.retain(|_, part| {
        part.sessions.clear();
        true
    });
}

fn differs(a: Final, b: Final) -> bool
    ensures { MatchBool result (a ≢ b) (a ≡ b) }
{
    a != b
}

fn is_bare(parts: &BTreeMap<(u64, u32), Partition>) -> bool
    ensures { result ≡ (map.len (map.from_entries {R = part_cmp} parts.now.entries) == 0) }
{
    parts.len() == 0
}
