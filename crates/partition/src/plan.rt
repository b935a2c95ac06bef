ghost use Rattle.std.specs.Prelude.{◌≡◌, Some};
ghost use Rattle.partition.specs.Planning.{unchanging, look_plan, carry_plan};

use crate::edits::EditList;
use mds_base::{Ask, Attr, Final, Name, Reply, Session};

/// What serving a call comes to.
#[derive(Debug, Drop)]
pub enum Step {
    /// The call is answered.
    Said(Reply),
    /// A lease on the entry that the call would change may be live before this moment.
    Held { until: u64 },
    /// The call is an older one than the last change of its client, whose number is kept: nothing is to be sent.
    Old { kept: u64 },
}

/// What a plan changes, but for the leases that have ended, which it drops.
#[derive(Debug, Drop)]
pub enum Change {
    /// Nothing.
    Nothing,
    /// A lease on a name is granted until a moment.
    Lease {
        name: Name,
        until: u64,
    },
    /// Rows are edited, the session of a client keeps its change, and the partition then has this many rows.
    Note {
        edits: EditList,
        session: Session,
        count: u64,
    },
}

/// A call that was worked out and is still to be made (`crates/partition/README.md`, "Plan of a partition").
#[derive(Debug, Drop)]
pub struct Plan {
    /// What serving the call comes to.
    pub step: Step,
    /// What it changes.
    pub change: Change,
    /// The moment; leases that do not end after it are dropped.
    pub moment: u64,
}

impl Plan {
    /// A plan that changes nothing but leases that have ended.
    pub(crate) fn unchanging(step: Step, now: u64) -> Plan
        ensures { result ≡ unchanging step now }
    {
        Plan {
            step,
            change: Change::Nothing,
            moment: now,
        }
    }

    /// A plan of a lookup that found these attributes: they are leased until a moment.
    pub(crate) fn leasing(name: Name, attr: Attr, until: u64, now: u64) -> Plan
        ensures { result ≡ look_plan (Some attr) name until now }
    {
        Plan {
            step: Step::Said(Reply::Found { attr, until }),
            change: Change::Lease { name, until },
            moment: now,
        }
    }

    /// A plan of a change that is carried out.
    pub(crate) fn carrying(ask: &Ask, said: Final, edits: EditList, count: u64, now: u64) -> Plan
        ensures { result ≡ carry_plan ask.now said edits count now }
    {
        Plan {
            step: Step::Said(Reply::Said(said)),
            change: Change::Note {
                edits,
                session: Session {
                    client: ask.client,
                    seq: ask.seq,
                    said,
                },
                count,
            },
            moment: now,
        }
    }
}
