ghost use Rattle.std.specs.Prelude.{◌≡◌, ◌<◌, ◌≤◌, true, false, cond, length, IfSome, IfNone};
ghost use Rattle.std.specs.BTreeMap.{is_at};
ghost use Rattle.leases.specs.declared.ending.Ending.{Ending};
ghost use Rattle.leases.specs.Order.{ending_cmp, has_ending};

use mds_base::Name;
use std::collections::BTreeSet;

/// A name, and the moment at which the last lease on it ends. The order is by the moment, and then by the bytes of the
/// name.
#[derive(Debug, Drop, PartialEq, Eq, PartialOrd, Ord)]
pub struct Ending {
    /// The moment.
    pub until: u64,
    /// The name.
    pub name: Name,
}

/// Takes the first ending out where its moment is not above this one.
pub fn pop_ended(order: &mut BTreeSet<Ending>, now: u64) -> Option<Ending>
    ensures ended { IfSome result (λ e. e.until ≤ now) }
    ensures member { IfSome result (λ e. has_ending order.old.keys e ≡ true) }
    ensures taken { IfSome result (λ e. (q : Ending)
        → has_ending order.new.keys q ≡ cond (is_at (ending_cmp e) q) false (has_ending order.old.keys q)) }
    ensures above { IfNone result ((q : Ending) → has_ending order.old.keys q ≡ true → now < q.until) }
    ensures unchanged { IfNone result (order.new.keys ≡ order.old.keys) }
{
    if order.first()?.until > now {
        return None;
    }
    order.pop_first()
}
