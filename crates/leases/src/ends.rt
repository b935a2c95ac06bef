ghost use Rattle.std.specs.Prelude.{◌≡◌, ◌<◌, ◌≤◌, ℕ, List, OnOk, OnErr, IfOk, IfSome, IfNone, IsSome, Some, None};
ghost use Rattle.std.specs.Bool.{OnTrue, OnFalse};
ghost use Rattle.std.specs.FinMap as map;
ghost use Rattle.leases.specs.Leases.{end_of, ends_above};
ghost use Rattle.leases.specs.Order.{ends_of};

use crate::ending::{Ending, pop_ended};
use mds_base::Name;
use std::alloc::{AllocError, Global};
use std::collections::{BTreeMap, BTreeSet};
use std::marker::Model;

/// For each name the moment at which the last of its leases ends. The ends stand a second time in the order in which
/// they come, so that those that are over are found first.
#[derive(Debug, Drop)]
pub struct Ends {
    by_name: BTreeMap<Name, u64>,
    order: BTreeSet<Ending>,
}

impl Model for Ends {
    ghost use Rattle.std.specs.FinMap as map;
    ghost use Rattle.std.specs.Coded.{codes};
    ghost use Rattle.leases.specs.Leases.{Ends as Seen};
    ghost use Rattle.leases.specs.Order.{ends_of, AreEndings};

    ghost Value = { Seen };

    ghost coded = { Prim.hlevel (codes, map.code) };

    ghost view = { λ a. ends_of a.by_name.entries };

    ghost invariant = { λ a. AreEndings a.order.keys (ends_of a.by_name.entries) };
}

impl Ends {
    /// No name has an end.
    pub fn new(alloc: Global) -> Ends
        ensures { result ≡ map.empty }
    {
        Ends {
            by_name: BTreeMap::new(alloc),
            order: BTreeSet::new(alloc),
        }
    }

    /// The end of a name.
    pub fn get(&self, name: &Name) -> Option<u64>
        ensures { result ≡ map.get self.now name.now }
    {
        self.by_name.get(name).copied()
    }

    /// The greatest end, and none where no name has one.
    pub fn last(&self) -> Option<u64>
        ensures reached { IfSome result (λ last. (name : List ℕ) × (map.get self.now name ≡ Some last)) }
        ensures greatest { IfSome result (λ last. (name : List ℕ) → end_of self.now name ≤ last) }
        ensures none { IfNone result (self.now ≡ map.empty) }
    {
        Some(self.order.last()?.until)
    }

    /// Gives an end to a name that has none. Where there is no memory for it, nothing changes.
    pub fn begin(&mut self, alloc: Global, name: &Name, until: u64) -> Result<(), AllocError>
        requires { map.get self.old name.now ≡ None }
        ensures ok { OnOk result (self.new ≡ map.insert self.old name.now until) }
        ensures err { OnErr result (self.new ≡ self.old) }
    {
        let ending = Ending {
            until,
            name: name.copy(alloc)?,
        };
        self.by_name.insert(name.copy(alloc)?, until)?;
        if self.order.insert(ending).is_err() {
            let _ = self.by_name.remove(name);
            return Err(AllocError);
        }
        Ok(())
    }

    /// Gives a later end to a name. Where there is no memory for it, nothing changes.
    pub fn prolong(
        &mut self,
        alloc: Global,
        name: &Name,
        end: u64,
        until: u64,
    ) -> Result<(), AllocError>
        requires kept { map.get self.old name.now ≡ Some end }
        requires later { end < until }
        ensures ok { OnOk result (self.new ≡ map.insert self.old name.now until) }
        ensures err { OnErr result (self.new ≡ self.old) }
    {
        let over = Ending {
            until: end,
            name: name.copy(alloc)?,
        };
        let ending = Ending {
            until,
            name: name.copy(alloc)?,
        };
        self.order.insert(ending)?;
        let _ = self.order.remove(&over);
        set_end(&mut self.by_name, name, until);
        Ok(())
    }

    /// Drops the ends that are not above the moment, one step of the loop for each.
    pub fn drop_ended(&mut self, now: u64)
        ensures { self.new ≡ ends_above self.old now }
    {
        while self.drop_first(now) {}
    }

    // Drops the first end where it is not above the moment.
    fn drop_first(&mut self, now: u64) -> bool
        ensures same { OnTrue result (ends_above self.new now ≡ ends_above self.old now) }
        ensures fewer { OnTrue result (map.len self.new < map.len self.old) }
        ensures none { OnFalse result (self.new ≡ ends_above self.old now) }
    {
        match pop_ended(&mut self.order, now) {
            None => false,
            Some(ended) => {
                let _ = self.by_name.remove(&ended.name);
                true
            }
        }
    }

    /// A copy; it is refused only where there is no memory for it.
    pub fn copy(&self, alloc: Global) -> Result<Ends, AllocError>
        ensures { IfOk result (λ ends. ends ≡ self.now) }
    {
        let mut copy = Ends::new(alloc);
        for (name, until) in &self.by_name {
            copy.begin(alloc, name, *until)?;
        }
        Ok(copy)
    }
}

// Gives a name another end in place of the one that it has.
fn set_end(by_name: &mut BTreeMap<Name, u64>, name: &Name, until: u64)
    requires { IsSome (map.get (ends_of by_name.old.entries) name.now) }
    ensures { ends_of by_name.new.entries ≡ map.insert (ends_of by_name.old.entries) name.now until }
{
    if let Some(end) = by_name.get_mut(name) {
        *end = until;
    }
}
