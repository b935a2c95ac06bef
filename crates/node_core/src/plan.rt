ghost use Rattle.std.specs.Prelude.{◌≡◌, [], IfOk, None};
ghost use Rattle.node_core.specs.Planning.{records_of, outputs_of, change_of};

use crate::change::Change;
use crate::told::{answer, no_records, nothing, record_of};
use mds_base::Ask;
use partition::{Change as PartChange, Plan as PartPlan, Step};
use records::{Handled, MsgList, RecordList};
use std::alloc::{AllocError, Global};

/// A Serve that was worked out and is still to be made (`crates/node_core/README.md`, "Plan"). It holds what serving
/// hands out, and the change of one partition, or none.
#[derive(Debug, Drop)]
pub struct Plan {
    /// The records and the messages that serving hands out.
    pub handled: Handled,
    // What making the change takes its memory from.
    pub(crate) alloc: Global,
    pub(crate) change: Option<Change>,
}

impl Plan {
    /// A plan that hands this out, and changes nothing.
    pub(crate) fn unchanging(alloc: Global, handled: Handled) -> Plan
        ensures handled { result.handled ≡ handled }
        ensures change { result.change ≡ None }
    {
        Plan {
            handled,
            alloc,
            change: None,
        }
    }

    /// A plan that hands out nothing, and changes nothing.
    pub(crate) fn idle(alloc: Global) -> Plan
        ensures records { result.handled.records ≡ [] }
        ensures outputs { result.handled.outputs ≡ [] }
        ensures change { result.change ≡ None }
    {
        Plan::unchanging(alloc, nothing(alloc))
    }

    /// What a partition's plan of a request comes to.
    pub(crate) fn of(
        alloc: Global,
        ask: &Ask,
        dir: u64,
        part: u32,
        plan: PartPlan,
    ) -> Result<Plan, AllocError>
        ensures records { IfOk result (λ whole. whole.handled.records ≡ records_of ask.now part plan.change) }
        ensures outputs { IfOk result (λ whole. whole.handled.outputs ≡ outputs_of ask.now plan.step) }
        ensures change { IfOk result (λ whole. whole.change ≡ change_of dir part plan.change) }
    {
        let PartPlan { step, change, .. } = plan;
        let outputs = outputs_of(alloc, ask, step)?;
        let records = records_of(alloc, ask, part, &change)?;
        Ok(Plan {
            handled: Handled { records, outputs },
            alloc,
            change: change_of(dir, part, change),
        })
    }
}

fn outputs_of(alloc: Global, ask: &Ask, step: Step) -> Result<MsgList, AllocError>
    ensures { IfOk result (λ outputs. outputs ≡ outputs_of ask.now step) }
{
    match step {
        Step::Said(reply) => answer(alloc, ask, reply),
        Step::Held { .. } => Ok(MsgList::new(alloc)),
        Step::Old { .. } => Ok(MsgList::new(alloc)),
    }
}

fn records_of(
    alloc: Global,
    ask: &Ask,
    part: u32,
    change: &PartChange,
) -> Result<RecordList, AllocError>
    ensures { IfOk result (λ records. records ≡ records_of ask.now part change.now) }
{
    match change {
        PartChange::Nothing => Ok(no_records(alloc)),
        PartChange::Lease { .. } => Ok(no_records(alloc)),
        PartChange::Note { session, .. } => record_of(alloc, ask, part, session.said),
    }
}

/// The change that a partition's plan leaves to be made.
pub(crate) fn change_of(dir: u64, part: u32, change: PartChange) -> Option<Change>
    ensures { result ≡ change_of dir part change }
{
    match change {
        PartChange::Nothing => None,
        PartChange::Lease { .. } => None,
        PartChange::Note {
            edits,
            session,
            count,
        } => Some(Change {
            dir,
            part,
            edits,
            session,
            count,
        }),
    }
}
