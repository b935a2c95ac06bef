//! Making the change of a plan: a partition and its rows change together or not at all.
ghost use Rattle.std.specs.Prelude.{◌≡◌, ℕ, ◌≤◌, OnOk, OnErr, IfOk, Some, true, unwrap_or, length};
ghost use Rattle.std.specs.FinMap as map;
ghost use Rattle.mds_base.specs.RowsCause.{HasRowsCause};
ghost use Rattle.sessions.specs.declared.kept.Judged.{Judged};
ghost use Rattle.sessions.specs.Kept.{judged};
ghost use Rattle.partition.specs.Rows.{written};
ghost use Rattle.partition.specs.Serving.{empty_part, part_noted};
ghost use Rattle.node_core.specs.Nodes.{part_cmp, has_numbers};
ghost use Rattle.node_core.specs.Edits.{parts_noted, numbers_of, node_noted, CanBeMade};
ghost use Rattle.node_core.specs.Planning.{IsPlan};
ghost use Rattle.node_core.specs.Serving.{serve, IsServed};
ghost use Rattle.records.specs.declared.msg.Msg.{Msg};

use crate::change::Change;
use crate::node::Node;
use crate::plan::Plan;
use mds_base::{Final, Rows, RowsFault, Session};
use partition::{Partition, write_edits};
use records::Handled;
use std::alloc::{AllocError, Global};
use std::collections::BTreeMap;

impl Node {
    /// Makes a plan that was worked out against this node and these rows, as they still are, and hands out what
    /// serving hands out. Where it is refused the node and the rows stay as they are.
    pub fn make<R: Rows>(&mut self, rows: &mut R, plan: Plan) -> Result<Handled, RowsFault>
        requires planned { (msg : Msg) × (now : ℕ)
            × IsPlan (record { node = self.old; rows = R.contents rows.old }) msg now plan }
        requires numbers { has_numbers self.old ≡ true }
        ensures ok { IfOk result
            (λ handled. (msg : Msg) → (now : ℕ)
            → IsPlan (record { node = self.old; rows = R.contents rows.old }) msg now plan
            → IsServed (serve (record { node = self.old; rows = R.contents rows.old }) msg now) self.new
            (R.contents rows.new) handled) }
        ensures handed_out { IfOk result (λ handled. handled ≡ plan.handled) }
        ensures err { OnErr result ((self.new ≡ self.old) × (R.contents rows.new ≡ R.contents rows.old)) }
        ensures cause { HasRowsCause (R.faults rows.old) (R.faults rows.new) result }
    {
        let Plan {
            handled,
            alloc,
            change,
        } = plan;
        match change {
            None => Ok(handled),
            Some(change) => {
                self.change(alloc, rows, change)?;
                Ok(handled)
            }
        }
    }

    // Makes a change: it is noted in its partition, and the rows are edited.
    pub(crate) fn change<R: Rows>(
        &mut self,
        alloc: Global,
        rows: &mut R,
        change: Change,
    ) -> Result<(), RowsFault>
        requires made { CanBeMade self.old change }
        requires numbers { has_numbers self.old ≡ true }
        ensures node { OnOk result (self.new ≡ node_noted self.old change) }
        ensures rows { OnOk result (R.contents rows.new ≡ written (R.contents rows.old) change.edits) }
        ensures err { OnErr result ((self.new ≡ self.old) × (R.contents rows.new ≡ R.contents rows.old)) }
        ensures cause { HasRowsCause (R.faults rows.old) (R.faults rows.new) result }
    {
        let said = change.session.said;
        change_in(alloc, &mut self.parts, self.floor, rows, change)?;
        self.next += numbers_of(said);
        Ok(())
    }
}

// Makes a change in one of these partitions. One in which nothing was noted yet is put there before the rows are
// edited, since it can be taken away again without memory.
fn change_in<R: Rows>(
    alloc: Global,
    parts: &mut BTreeMap<(u64, u32), Partition>,
    floor: u64,
    rows: &mut R,
    change: Change,
) -> Result<(), RowsFault>
    requires newer { judged
        (unwrap_or (map.get (map.from_entries {R = part_cmp} parts.old.entries) (change.dir, change.part))
        (empty_part floor)).sessions change.session.client change.session.seq ≡ Judged.New }
    requires few { length change.edits ≤ 1 }
    ensures parts { OnOk result
        (map.from_entries {R = part_cmp} parts.new.entries
        ≡ parts_noted (map.from_entries {R = part_cmp} parts.old.entries) floor (change.dir, change.part) change.session
        change.count) }
    ensures rows { OnOk result (R.contents rows.new ≡ written (R.contents rows.old) change.edits) }
    ensures same { OnErr result
        (map.from_entries {R = part_cmp} parts.new.entries ≡ map.from_entries {R = part_cmp} parts.old.entries) }
    ensures unwritten { OnErr result (R.contents rows.new ≡ R.contents rows.old) }
    ensures cause { HasRowsCause (R.faults rows.old) (R.faults rows.new) result }
{
    let key = (change.dir, change.part);
    let edits = change.edits.edits();
    if let Some(part) = parts.get_mut(&key) {
        return part.note(alloc, rows, edits, change.session, change.count);
    }
    let part = begun(alloc, floor, change.session, change.count)?;
    parts.insert(key, part)?;
    match write_edits(alloc, rows, edits) {
        Ok(()) => Ok(()),
        Err(fault) => {
            let _ = parts.remove(&key);
            Err(fault)
        }
    }
}

// A partition whose first change is noted.
fn begun(alloc: Global, floor: u64, session: Session, count: u64) -> Result<Partition, AllocError>
    requires newer { judged (empty_part floor).sessions session.client session.seq ≡ Judged.New }
    ensures { IfOk result (λ part. part ≡ part_noted (empty_part floor) session count) }
{
    let mut part = Partition::empty(alloc, floor);
    let Session { client, seq, said } = session;
    part.sessions.note(client, seq, said)?;
    part.count = count;
    Ok(part)
}

fn numbers_of(said: Final) -> u64
    ensures { result ≡ numbers_of said }
{
    match said {
        Final::CreatedDir(_) => 1,
        _ => 0,
    }
}
