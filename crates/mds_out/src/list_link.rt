//! A link whose fates were chosen before.
ghost use Rattle.std.specs.Prelude.{◌≡◌, slice_index_or};
ghost use Rattle.mds_out.specs.declared.fate.Fate.TheVariants.{Deliver};
ghost use Rattle.mds_out.specs.Fates.{HasFateCause, lost_before, after_fate};

use crate::{Fate, Link};
use std::marker::Model;

/// Gives the fates of its list in turn, whatever the messages are, and `Deliver` from the list's end on.
#[derive(Drop)]
pub struct ListLink {
    fates: Vec<Fate>,
    next: usize,
}

impl Model for ListLink {
    ghost use Rattle.std.specs.Prelude.{◌≤◌, length};
    ghost use Rattle.mds_out.specs.Fates.{Fates};

    ghost Value = { Fates };

    ghost view = { λ l. record { list = l.fates.items; next = l.next } };

    ghost invariant = { λ l. l.next ≤ length l.fates.items };
}

impl ListLink {
    /// A link that gives these fates.
    pub fn new(fates: Vec<Fate>) -> ListLink
        ensures { result ≡ record { list = fates.items; next = 0 } }
    {
        ListLink { fates, next: 0 }
    }
}

impl Link for ListLink {
    ghost faults = { λ l. lost_before l.list l.next };

    fn fate(&mut self, _client: u32, _seq: u64, _attempt: u32) -> Fate
        ensures cause { HasFateCause (lost_before self.old.list self.old.next) (lost_before self.new.list self.new.next)
            result }
        ensures fate { result ≡ slice_index_or self.old.list self.old.next Deliver }
        ensures after { self.new ≡ after_fate self.old }
    {
        match self.fates.get(self.next) {
            Some(fate) => {
                let fate = *fate;
                self.next += 1;
                fate
            }
            None => Fate::Deliver,
        }
    }
}
