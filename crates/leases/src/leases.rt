ghost use Rattle.std.specs.Prelude.{◌≡◌, OnOk, OnErr, IfOk};
ghost use Rattle.leases.specs.Leases.{unleased, granted, held_until, top, swept};

use crate::ends::Ends;
use mds_base::Name;
use std::alloc::{AllocError, Global};
use std::marker::Model;

/// The leases that a partition granted on its names: for each name the greatest moment at which one ends, and the
/// floor, which no lease passes that is not kept here (`crates/leases/README.md`, "Leases").
#[derive(Debug, Drop)]
pub struct Leases {
    ends: Ends,
    floor: u64,
}

impl Model for Leases {
    ghost use Rattle.std.specs.FinMap as map;
    ghost use Rattle.std.specs.Coded.{codes};
    ghost use Rattle.leases.specs.Leases.{LeasesV};

    ghost Value = { LeasesV };

    ghost coded = { Prim.hlevel (codes, map.code) };

    ghost view = { λ a. record { ends = a.ends; floor = a.floor } };
}

impl Leases {
    /// No lease was granted, and the floor is this moment.
    pub fn new(alloc: Global, floor: u64) -> Leases
        ensures { result ≡ unleased floor }
    {
        Leases {
            ends: Ends::new(alloc),
            floor,
        }
    }

    /// Grants a lease on a name until this moment; of the end that is kept and this one the greater is kept. It is
    /// refused only where there is no memory for it, and the leases stay as they are then.
    pub fn grant(&mut self, alloc: Global, name: &Name, until: u64) -> Result<(), AllocError>
        ensures ok { OnOk result (self.new ≡ granted self.old name.now until) }
        ensures err { OnErr result (self.new ≡ self.old) }
    {
        match self.ends.get(name) {
            None => self.ends.begin(alloc, name, until),
            Some(end) if end < until => self.ends.prolong(alloc, name, end, until),
            Some(_) => Ok(()),
        }
    }

    /// The moment before which the name is not to be changed: the greater of the end that is kept of it and the floor.
    /// It takes no memory.
    pub fn held_until(&self, name: &Name) -> u64
        ensures { result ≡ held_until self.now name.now }
    {
        self.ends.get(name).unwrap_or(0).max(self.floor)
    }

    /// The moment that no lease passes which is not kept here.
    pub fn floor(&self) -> u64
        ensures { result ≡ self.now.floor }
    {
        self.floor
    }

    /// The greatest of the floor and all ends. It takes no memory.
    pub fn top(&self) -> u64
        ensures { result ≡ top self.now }
    {
        match self.ends.last() {
            None => self.floor,
            Some(last) => last.max(self.floor),
        }
    }

    /// Drops the ends that are not above the moment. It takes no memory, and time by how many they are.
    pub fn sweep(&mut self, now: u64)
        ensures { self.new ≡ swept self.old now }
    {
        self.ends.drop_ended(now);
    }

    /// A copy of the leases; it is refused only where there is no memory for it.
    pub fn copy(&self, alloc: Global) -> Result<Leases, AllocError>
        ensures { IfOk result (λ leases. leases ≡ self.now) }
    {
        Ok(Leases {
            ends: self.ends.copy(alloc)?,
            floor: self.floor,
        })
    }
}
