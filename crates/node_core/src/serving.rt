//! Serving a message: what it hands out and what is to be changed are worked out first, and then the change is made.
ghost use Rattle.std.specs.Prelude.{◌≡◌, ℕ, ◌<◌, ◌∷◌, [], OnErr, IfOk, None, true};
ghost use Rattle.records.specs.declared.msg.Msg.{Msg};
ghost use Rattle.mds_base.specs.RowsCause.{HasRowsCause};
ghost use Rattle.mds_base.specs.declared.limits.TheConstants.{DIRECTORIES, MOMENTS};
ghost use Rattle.mds_base.specs.Calls.{asked_of as call_on, dir_of};
ghost use Rattle.partition.specs.Planning.{aside, change_plan};
ghost use Rattle.partition.specs.Serving.{IsNewer};
ghost use Rattle.node_core.specs.Nodes.{bits_in, has_numbers, part_in};
ghost use Rattle.node_core.specs.Ranges.{DirFits};
ghost use Rattle.node_core.specs.Rules.{ChangeOf, LookOf, asked_of, found};
ghost use Rattle.node_core.specs.Planning.{IsPlanOf, IsPlan};
ghost use Rattle.node_core.specs.Serving.{serve, serve_ask, reminders, IsServed};

use crate::asks::{Asks, asks_of, request_in};
use crate::node::Node;
use crate::plan::Plan;
use crate::told::{answered, busy, redirected};
use mds_base::{Ask, Attr, Final, Name, Reply, Rows, RowsFault};
use name_hash::row_key;
use partition::{Partition, Plan as PartPlan};
use records::{Handled, Msg, MsgList};
use std::alloc::{AllocError, Global};

impl Node {
    /// Serves a message: the records of the changes that were carried out and the messages to send are handed out
    /// (`crates/node_core/README.md`, "Serving"). Where it is refused the node and the rows stay as they are. It takes
    /// a time that grows with the logarithms of the numbers of partitions and of clients, and with what its look-up and
    /// its write of one row cost.
    pub fn serve<R: Rows>(
        &mut self,
        alloc: Global,
        rows: &mut R,
        msg: &Msg,
        now: u64,
    ) -> Result<Handled, RowsFault>
        requires fits { DirFits msg.now }
        requires moment { now < MOMENTS }
        requires numbers { has_numbers self.old ≡ true }
        ensures ok { IfOk result
            (λ handled. IsServed (serve (record { node = self.old; rows = R.contents rows.old }) msg.now now) self.new
            (R.contents rows.new) handled) }
        ensures err { OnErr result ((self.new ≡ self.old) × (R.contents rows.new ≡ R.contents rows.old)) }
        ensures cause { HasRowsCause (R.faults rows.old) (R.faults rows.new) result }
    {
        let plan = self.plan(alloc, rows, msg, now)?;
        self.make(rows, plan)
    }

    /// Works a Serve out: what it hands out, and what is to be changed (`crates/node_core/README.md`, "Plan"). Nothing
    /// changes.
    pub fn plan<R: Rows>(
        &self,
        alloc: Global,
        rows: &mut R,
        msg: &Msg,
        now: u64,
    ) -> Result<Plan, RowsFault>
        requires fits { DirFits msg.now }
        requires moment { now < MOMENTS }
        ensures ok { IfOk result
            (λ plan. IsPlan (record { node = self.now; rows = R.contents rows.old }) msg.now now plan) }
        ensures rows { R.contents rows.new ≡ R.contents rows.old }
        ensures cause { HasRowsCause (R.faults rows.old) (R.faults rows.new) result }
    {
        match request_in(msg) {
            Some(ask) => self.plan_ask(alloc, rows, ask, now),
            None => Ok(Plan::idle(alloc)),
        }
    }

    /// The transfers that are to be sent again, of the partitions that move: none, since nothing splits yet
    /// (`crates/node_core/README.md`, "Reminders"). The rows stay as they are.
    pub fn remind<R: Rows>(&self, alloc: Global, rows: &mut R) -> Result<MsgList, RowsFault>
        ensures ok { IfOk result (λ list. list ≡ reminders (record { node = self.now; rows = R.contents rows.old })) }
        ensures rows { R.contents rows.new ≡ R.contents rows.old }
        ensures cause { HasRowsCause (R.faults rows.old) (R.faults rows.new) result }
    {
        let _rows = rows;
        Ok(MsgList::new(alloc))
    }

    fn plan_ask<R: Rows>(
        &self,
        alloc: Global,
        rows: &mut R,
        ask: &Ask,
        now: u64,
    ) -> Result<Plan, RowsFault>
        requires fits { dir_of ask.now.call < DIRECTORIES }
        requires moment { now < MOMENTS }
        ensures ok { IfOk result
            (λ plan. IsPlanOf (record { node = self.now; rows = R.contents rows.old })
            (serve_ask (record { node = self.now; rows = R.contents rows.old }) ask.now now) plan) }
        ensures rows { R.contents rows.new ≡ R.contents rows.old }
        ensures cause { HasRowsCause (R.faults rows.old) (R.faults rows.new) result }
    {
        match asks_of(&ask.call) {
            Asks::Change { dir, name } => self.plan_change(alloc, rows, ask, dir, name, now),
            Asks::Look { dir, name } => self.plan_look(alloc, rows, ask, dir, name, now),
            Asks::NothingYet => Ok(Plan::idle(alloc)),
        }
    }

    fn plan_look<R: Rows>(
        &self,
        alloc: Global,
        rows: &mut R,
        ask: &Ask,
        dir: u64,
        name: &Name,
        now: u64,
    ) -> Result<Plan, RowsFault>
        requires asked { asked_of ask.now.call ≡ LookOf dir name.now }
        requires fits { dir < DIRECTORIES }
        requires moment { now < MOMENTS }
        ensures ok { IfOk result
            (λ plan. IsPlanOf (record { node = self.now; rows = R.contents rows.old })
            (serve_ask (record { node = self.now; rows = R.contents rows.old }) ask.now now) plan) }
        ensures rows { R.contents rows.new ≡ R.contents rows.old }
        ensures cause { HasRowsCause (R.faults rows.old) (R.faults rows.new) result }
    {
        let part = self.part_for(dir, name);
        if !self.owns(dir, part) {
            return Ok(self.plan_redirect(alloc, ask, dir)?);
        }
        if let Some(depth) = self.frozen(dir, part, name) {
            return Ok(plan_busy(alloc, ask, part, depth)?);
        }
        let key = row_key(alloc, dir, part, name)?;
        let attr = rows.get(&key)?;
        let until = now + self.setup.lease;
        let handled = answered(alloc, ask, found(attr, until))?;
        Ok(Plan::unchanging(alloc, handled))
    }

    fn plan_change<R: Rows>(
        &self,
        alloc: Global,
        rows: &mut R,
        ask: &Ask,
        dir: u64,
        name: &Name,
        now: u64,
    ) -> Result<Plan, RowsFault>
        requires asked { asked_of ask.now.call ≡ ChangeOf dir name.now }
        requires fits { dir < DIRECTORIES }
        ensures ok { IfOk result
            (λ plan. IsPlanOf (record { node = self.now; rows = R.contents rows.old })
            (serve_ask (record { node = self.now; rows = R.contents rows.old }) ask.now now) plan) }
        ensures rows { R.contents rows.new ≡ R.contents rows.old }
        ensures cause { HasRowsCause (R.faults rows.old) (R.faults rows.new) result }
    {
        let _moment = now;
        let part = self.part_for(dir, name);
        if !self.owns(dir, part) {
            return Ok(self.plan_redirect(alloc, ask, dir)?);
        }
        if let Some(depth) = self.frozen(dir, part, name) {
            return Ok(plan_busy(alloc, ask, part, depth)?);
        }
        let plan = self.plan_in(alloc, rows, ask, dir, part)?;
        Ok(Plan::of(alloc, ask, dir, part, plan)?)
    }

    // The plan of a request of what lies on another server: it is redirected.
    fn plan_redirect(&self, alloc: Global, ask: &Ask, dir: u64) -> Result<Plan, AllocError>
        ensures records { IfOk result (λ plan. plan.handled.records ≡ []) }
        ensures outputs { IfOk result (λ plan. plan.handled.outputs
            ≡ Msg.Redirect ask.now.client ask.now.seq ask.now.attempt (dir_of ask.now.call) (bits_in self.now dir)
            ∷ []) }
        ensures change { IfOk result (λ plan. plan.change ≡ None) }
    {
        let handled = redirected(alloc, ask, self.bitmap(dir))?;
        Ok(Plan::unchanging(alloc, handled))
    }

    // The plan of a change in a partition. No lease is granted yet, so leases are set aside.
    pub(crate) fn plan_in<R: Rows>(
        &self,
        alloc: Global,
        rows: &mut R,
        ask: &Ask,
        dir: u64,
        part: u32,
    ) -> Result<PartPlan, RowsFault>
        ensures ok { IfOk result (λ plan. plan
            ≡ change_plan (aside (part_in self.now dir part)) (R.contents rows.old) dir part ask.now 0 self.now.next
            (call_on ask.now.call)) }
        ensures rows { R.contents rows.new ≡ R.contents rows.old }
        ensures cause { HasRowsCause (R.faults rows.old) (R.faults rows.new) result }
    {
        match self.parts.get(&(dir, part)) {
            Some(partition) => partition.plan_aside(alloc, rows, dir, part, ask, self.next),
            None => {
                let partition = Partition::empty(alloc, self.floor);
                partition.plan_aside(alloc, rows, dir, part, ask, self.next)
            }
        }
    }
}

fn found(attr: Option<Attr>, until: u64) -> Reply
    ensures { result ≡ found attr until }
{
    match attr {
        None => Reply::Said(Final::Missing),
        Some(attr) => Reply::Found { attr, until },
    }
}

// The plan of a request on a name that a partition moves away.
fn plan_busy(alloc: Global, ask: &Ask, part: u32, depth: u32) -> Result<Plan, AllocError>
    ensures records { IfOk result (λ plan. plan.handled.records ≡ []) }
    ensures outputs { IfOk result (λ plan. plan.handled.outputs
        ≡ Msg.Busy ask.now.client ask.now.seq ask.now.attempt part depth ∷ []) }
    ensures change { IfOk result (λ plan. plan.change ≡ None) }
{
    let handled = busy(alloc, ask, part, depth)?;
    Ok(Plan::unchanging(alloc, handled))
}
