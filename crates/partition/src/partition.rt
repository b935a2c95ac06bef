ghost use Rattle.std.specs.Prelude.{◌≡◌, ◌+◌, ◌<◌, ◌≤◌, IfOk, OnOk, OnErr};
ghost use Rattle.std.specs.FinMap as map;
ghost use Rattle.mds_base.specs.RowsCause.{HasRowsCause};
ghost use Rattle.mds_base.specs.Calls.{OnName, asked_of};
ghost use Rattle.mds_base.specs.declared.limits.TheConstants.{MOMENTS, LEASE_MOST};
ghost use Rattle.sessions.specs.declared.kept.Judged.{Judged};
ghost use Rattle.sessions.specs.Kept.{judged};
ghost use Rattle.partition.specs.Rows.{load_edits, written};
ghost use Rattle.partition.specs.Replies.{IsServed, rows_of};
ghost use Rattle.partition.specs.Planning.{plan_part, look_plan, name_plan, load_plan};
ghost use Rattle.partition.specs.Planning.{change_plan, new_plan, must_wait, aside};
ghost use Rattle.partition.specs.Serving.{empty_part, part_of, changed, part_noted, part_made, rows_made};
ghost use Rattle.partition.specs.Serving.{edits_in, serve_part, IsNewer, IsInPart, IsServedPart};

use crate::edits::{RowEdit, edits_of_load, list_of, write_edits};
use crate::plan::{Change, Plan, Step};
use crate::replies::{count_after, count_more, number_of, rows_of, said_to, waits};
use leases::Leases;
use mds_base::{
    Ask, Asked, Attr, Edit, Final, Reply, RowKey, Rows, RowsFault, Session, SessionList, Setup,
    SplitState,
};
use name_hash::row_key;
use sessions::{Judged, Sessions};
use std::alloc::{AllocError, Global};

/// What a server keeps of one of its partitions beside the rows.
#[derive(Debug, Drop)]
pub struct Partition {
    /// The last changes of its clients.
    pub sessions: Sessions,
    /// The leases that it granted on its names.
    pub leases: Leases,
    /// How many rows it has.
    pub count: u64,
    /// Whether a half of it moves.
    pub split: SplitState,
}

impl Partition {
    /// A partition in which nothing was noted, with this floor.
    pub fn empty(alloc: Global, floor: u64) -> Partition
        ensures { result ≡ empty_part floor }
    {
        Partition {
            sessions: Sessions::new(alloc),
            leases: Leases::new(alloc, floor),
            count: 0,
            split: SplitState::Quiet,
        }
    }

    /// A partition that came from another one, with this many rows, these sessions and this floor; no lease was granted
    /// in it, and it does not move. Where a client stands twice in the list, its first session counts. It is refused
    /// only where there is no memory for it.
    pub fn installed(
        alloc: Global,
        count: u64,
        sessions: &SessionList,
        floor: u64,
    ) -> Result<Partition, AllocError>
        ensures { IfOk result (λ part. part ≡ part_of count sessions.now floor) }
    {
        Ok(Partition {
            sessions: Sessions::from_list(alloc, sessions)?,
            leases: Leases::new(alloc, floor),
            count,
            split: SplitState::Quiet,
        })
    }

    /// A copy of the partition; it is refused only where there is no memory for it.
    pub fn copy(&self, alloc: Global) -> Result<Partition, AllocError>
        ensures { IfOk result (λ part. part ≡ self.now) }
    {
        Ok(Partition {
            sessions: self.sessions.copy(alloc)?,
            leases: self.leases.copy(alloc)?,
            count: self.count,
            split: self.split,
        })
    }

    /// Serves a call in partition `part` of a directory at a moment (`crates/partition/README.md`, "Serving in a
    /// partition"). `fresh` is the number that a mkdir or a grab gives. Where it is refused the partition stays as it
    /// is, and the rows are as `make` says.
    pub fn serve<R: Rows>(
        &mut self,
        alloc: Global,
        rows: &mut R,
        dir: u64,
        part: u32,
        ask: &Ask,
        now: u64,
        setup: &Setup,
        fresh: u64,
    ) -> Result<Step, RowsFault>
        requires served { IsServed ask.now.call }
        requires moment { now < MOMENTS }
        requires lease { setup.now.lease ≤ LEASE_MOST }
        ensures ok { IfOk result (λ step.
            IsServedPart (serve_part self.old (R.contents rows.old) dir part ask.now now setup.now fresh) step self.new
            (R.contents rows.new)) }
        ensures err { OnErr result (self.new ≡ self.old) }
        ensures in_part { let plan = plan_part self.old (R.contents rows.old) dir part ask.now now setup.now fresh in
            OnErr result (IsInPart (R.contents rows.old) (edits_in plan.change) (R.contents rows.new)) }
        ensures cause { HasRowsCause (R.faults rows.old) (R.faults rows.new) result }
    {
        let plan = self.plan(alloc, rows, dir, part, ask, now, setup, fresh)?;
        self.make(alloc, rows, &plan)?;
        let Plan { step, .. } = plan;
        Ok(step)
    }

    /// Works a call out, against the partition and the rows as they are. Nothing changes. A call on a name looks one
    /// row up, a load each of its rows; the session and the lease take a search each.
    pub fn plan<R: Rows>(
        &self,
        alloc: Global,
        rows: &mut R,
        dir: u64,
        part: u32,
        ask: &Ask,
        now: u64,
        setup: &Setup,
        fresh: u64,
    ) -> Result<Plan, RowsFault>
        requires served { IsServed ask.now.call }
        requires moment { now < MOMENTS }
        requires lease { setup.now.lease ≤ LEASE_MOST }
        ensures ok { IfOk result (λ plan.
            plan ≡ plan_part self.now (R.contents rows.old) dir part ask.now now setup.now fresh) }
        ensures newer { IfOk result (λ plan. IsNewer self.now plan.change) }
        ensures rows { R.contents rows.new ≡ R.contents rows.old }
        ensures cause { HasRowsCause (R.faults rows.old) (R.faults rows.new) result }
    {
        match ask.call.asked() {
            Asked::Name { name, changes, .. } => {
                if changes {
                    return self.plan_change(alloc, rows, dir, part, ask, now, fresh, &self.leases);
                }
                self.plan_look(
                    alloc,
                    rows,
                    row_key(alloc, dir, part, name)?,
                    now,
                    setup.lease,
                )
            }
            Asked::Directory { .. } => {
                self.plan_change(alloc, rows, dir, part, ask, now, fresh, &self.leases)
            }
            Asked::Partition { .. } => {
                self.plan_change(alloc, rows, dir, part, ask, now, fresh, &self.leases)
            }
        }
    }

    /// Works a change out as `plan` does, with leases and floors set aside: it waits for nothing, and drops no lease.
    /// So is worked out what a record tells of. Nothing changes.
    pub fn plan_aside<R: Rows>(
        &self,
        alloc: Global,
        rows: &mut R,
        dir: u64,
        part: u32,
        ask: &Ask,
        fresh: u64,
    ) -> Result<Plan, RowsFault>
        ensures ok { IfOk result (λ plan. plan
            ≡ change_plan (aside self.now) (R.contents rows.old) dir part ask.now 0 fresh (asked_of ask.now.call)) }
        ensures newer { IfOk result (λ plan. IsNewer self.now plan.change) }
        ensures rows { R.contents rows.new ≡ R.contents rows.old }
        ensures cause { HasRowsCause (R.faults rows.old) (R.faults rows.new) result }
    {
        let none = Leases::new(alloc, 0);
        self.plan_change(alloc, rows, dir, part, ask, 0, fresh, &none)
    }

    /// Makes a plan that was worked out against this partition, as it still is; its step is then what serving comes to.
    /// Where it is refused the partition stays as it is. Of the rows a front of the edits may then have been made, but
    /// not the last one: those of a call on a name, which edits one row at most, stay as they are too. It takes a write
    /// for each edit, and time by how many leases have ended.
    pub fn make<R: Rows>(
        &mut self,
        alloc: Global,
        rows: &mut R,
        plan: &Plan,
    ) -> Result<(), RowsFault>
        requires newer { IsNewer self.old plan.now.change }
        ensures part { OnOk result (self.new ≡ part_made self.old plan.now) }
        ensures rows { OnOk result (R.contents rows.new ≡ rows_made (R.contents rows.old) plan.now) }
        ensures err { OnErr result (self.new ≡ self.old) }
        ensures in_part { OnErr result
            (IsInPart (R.contents rows.old) (edits_in plan.now.change) (R.contents rows.new)) }
        ensures cause { HasRowsCause (R.faults rows.old) (R.faults rows.new) result }
    {
        self.change(alloc, rows, &plan.change)?;
        self.leases.sweep(plan.moment);
        Ok(())
    }

    fn change<R: Rows>(
        &mut self,
        alloc: Global,
        rows: &mut R,
        change: &Change,
    ) -> Result<(), RowsFault>
        requires newer { IsNewer self.old change.now }
        ensures part { OnOk result (self.new ≡ changed self.old change.now) }
        ensures rows { OnOk result (R.contents rows.new ≡ written (R.contents rows.old) (edits_in change.now)) }
        ensures err { OnErr result (self.new ≡ self.old) }
        ensures in_part { OnErr result
            (IsInPart (R.contents rows.old) (edits_in change.now) (R.contents rows.new)) }
        ensures cause { HasRowsCause (R.faults rows.old) (R.faults rows.new) result }
    {
        match change {
            Change::Nothing => Ok(()),
            Change::Lease { name, until } => {
                self.leases.grant(alloc, name, *until)?;
                Ok(())
            }
            Change::Note {
                edits,
                session,
                count,
            } => self.note(alloc, rows, edits.edits(), *session, *count),
        }
    }

    /// Notes a change of a client and edits rows, as `make` does for a plan that notes; leases stay as they are. The
    /// note comes first, since it can be taken back without memory. Where it is refused the partition stays as it is,
    /// and the rows are as `make` says.
    pub fn note<R: Rows>(
        &mut self,
        alloc: Global,
        rows: &mut R,
        edits: &[RowEdit],
        session: Session,
        count: u64,
    ) -> Result<(), RowsFault>
        requires newer { judged self.old.sessions session.client session.seq ≡ Judged.New }
        ensures part { OnOk result (self.new ≡ part_noted self.old session count) }
        ensures rows { OnOk result (R.contents rows.new ≡ written (R.contents rows.old) edits.now) }
        ensures err { OnErr result (self.new ≡ self.old) }
        ensures in_part { OnErr result (IsInPart (R.contents rows.old) edits.now (R.contents rows.new)) }
        ensures cause { HasRowsCause (R.faults rows.old) (R.faults rows.new) result }
    {
        let Session { client, seq, said } = session;
        let kept = self.sessions.kept(client);
        self.sessions.note(client, seq, said)?;
        match write_edits(alloc, rows, edits) {
            Ok(()) => {
                self.count = count;
                Ok(())
            }
            Err(fault) => {
                self.sessions.restore(client, kept);
                Err(fault)
            }
        }
    }

    fn plan_look<R: Rows>(
        &self,
        alloc: Global,
        rows: &mut R,
        key: RowKey,
        now: u64,
        lease: u64,
    ) -> Result<Plan, RowsFault>
        requires moment { now < MOMENTS }
        requires lease { lease ≤ LEASE_MOST }
        ensures ok { IfOk result (λ plan.
            plan ≡ look_plan (map.get (R.contents rows.old) key) key.name (now + lease) now) }
        ensures newer { IfOk result (λ plan. IsNewer self.now plan.change) }
        ensures rows { R.contents rows.new ≡ R.contents rows.old }
        ensures cause { HasRowsCause (R.faults rows.old) (R.faults rows.new) result }
    {
        match rows.get(&key)? {
            None => Ok(Plan::unchanging(Step::Said(Reply::Said(Final::Missing)), now)),
            Some(attr) => Ok(Plan::leasing(key.name, attr, now + lease, now)),
        }
    }

    fn plan_change<R: Rows>(
        &self,
        alloc: Global,
        rows: &mut R,
        dir: u64,
        part: u32,
        ask: &Ask,
        now: u64,
        fresh: u64,
        leases: &Leases,
    ) -> Result<Plan, RowsFault>
        ensures ok { IfOk result (λ plan.
            plan ≡ change_plan (record self.now { leases = leases.now }) (R.contents rows.old) dir part ask.now now
            fresh (asked_of ask.now.call)) }
        ensures newer { IfOk result (λ plan. IsNewer self.now plan.change) }
        ensures rows { R.contents rows.new ≡ R.contents rows.old }
        ensures cause { HasRowsCause (R.faults rows.old) (R.faults rows.new) result }
    {
        match self.sessions.judge(ask.client, ask.seq) {
            Judged::New => self.plan_new(alloc, rows, dir, part, ask, now, fresh, leases),
            Judged::Again(said) => Ok(Plan::unchanging(Step::Said(Reply::Said(said)), now)),
            Judged::Old { kept } => Ok(Plan::unchanging(Step::Old { kept }, now)),
        }
    }

    fn plan_new<R: Rows>(
        &self,
        alloc: Global,
        rows: &mut R,
        dir: u64,
        part: u32,
        ask: &Ask,
        now: u64,
        fresh: u64,
        leases: &Leases,
    ) -> Result<Plan, RowsFault>
        requires newer { judged self.now.sessions ask.now.client ask.now.seq ≡ Judged.New }
        ensures ok { IfOk result (λ plan.
            plan ≡ new_plan (record self.now { leases = leases.now }) (R.contents rows.old) dir part ask.now now fresh
            (asked_of ask.now.call)) }
        ensures newer { IfOk result (λ plan. IsNewer self.now plan.change) }
        ensures rows { R.contents rows.new ≡ R.contents rows.old }
        ensures cause { HasRowsCause (R.faults rows.old) (R.faults rows.new) result }
    {
        match ask.call.asked() {
            Asked::Name { name, .. } => {
                let key = row_key(alloc, dir, part, name)?;
                self.plan_name(alloc, rows, key, ask, now, fresh, leases)
            }
            Asked::Directory { .. } => self.plan_load(alloc, rows, dir, part, ask, now),
            Asked::Partition { .. } => self.plan_load(alloc, rows, dir, part, ask, now),
        }
    }

    fn plan_name<R: Rows>(
        &self,
        alloc: Global,
        rows: &mut R,
        key: RowKey,
        ask: &Ask,
        now: u64,
        fresh: u64,
        leases: &Leases,
    ) -> Result<Plan, RowsFault>
        requires newer { judged self.now.sessions ask.now.client ask.now.seq ≡ Judged.New }
        ensures ok { IfOk result (λ plan.
            plan ≡ name_plan (record self.now { leases = leases.now }) key ask.now
            (map.get (R.contents rows.old) key) now fresh) }
        ensures newer { IfOk result (λ plan. IsNewer self.now plan.change) }
        ensures rows { R.contents rows.new ≡ R.contents rows.old }
        ensures cause { HasRowsCause (R.faults rows.old) (R.faults rows.new) result }
    {
        let before = rows.get(&key)?;
        let said = said_to(&ask.call, before, fresh);
        let edit = Edit::of(&ask.call, said, before);
        if must_wait(leases, &key, edit, before, now) {
            let until = leases.held_until(&key.name);
            return Ok(Plan::unchanging(Step::Held { until }, now));
        }
        let count = count_after(self.count, edit, before)?;
        let edits = list_of(alloc, key, edit)?;
        Ok(Plan::carrying(ask, said, edits, count, now))
    }

    fn plan_load<R: Rows>(
        &self,
        alloc: Global,
        rows: &mut R,
        dir: u64,
        part: u32,
        ask: &Ask,
        now: u64,
    ) -> Result<Plan, RowsFault>
        requires newer { judged self.now.sessions ask.now.client ask.now.seq ≡ Judged.New }
        ensures ok { IfOk result (λ plan.
            plan ≡ load_plan self.now ask.now (load_edits (R.contents rows.old) dir part (rows_of ask.now.call)) now) }
        ensures newer { IfOk result (λ plan. IsNewer self.now plan.change) }
        ensures rows { R.contents rows.new ≡ R.contents rows.old }
        ensures cause { HasRowsCause (R.faults rows.old) (R.faults rows.new) result }
    {
        let edits = edits_of_load(alloc, rows, dir, part, rows_of(&ask.call))?;
        let added = edits.edits().len() as u64;
        let said = Final::Loaded(number_of(added)?);
        let count = count_more(self.count, added)?;
        Ok(Plan::carrying(ask, said, edits, count, now))
    }
}

// Whether an edit has to wait for one of these leases.
fn must_wait(leases: &Leases, key: &RowKey, edit: Edit, before: Option<Attr>, now: u64) -> bool
    ensures { result ≡ must_wait leases.now key.now edit before now }
{
    waits(edit, before) && now < leases.held_until(&key.name)
}
