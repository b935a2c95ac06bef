ghost use Rattle.std.specs.Prelude.{◌≡◌, ◌↔◌, IsTrue};
ghost use Rattle.mds_base.specs.Setups.{IsSetup, is_setup};

use crate::limits::{CLIENTS_MOST, LEASE_MOST, SERVERS_MOST, THRESHOLD_MOST};

/// What all servers and clients of a run are started with.
#[derive(Clone, Copy, Debug, PartialEq, Eq)]
pub struct Setup {
    /// How many servers there are, from 1 to 32.
    pub servers: u32,
    /// A partition with more rows than this is split; from 1 to 8000.
    pub threshold: u32,
    /// How long a lease lasts, in moments, at most 1000000.
    pub lease: u64,
    /// How many clients there are, from 1 to 64.
    pub clients: u32,
}

impl Setup {
    /// Whether a run may be started with this: each number is within its range.
    pub fn is_fit(&self) -> bool
        ensures test { result ≡ is_setup self.now }
        ensures fit { IsTrue result ↔ IsSetup self.now }
    {
        are_within(self)
    }
}

/// A number of a run that has a limit (`docs/GUIDE.md`, "Limits").
#[derive(Clone, Copy, Debug, PartialEq, Eq)]
pub enum Which {
    /// The events.
    Events,
    /// The rows in sent transfers, loads and pages.
    Rows,
    /// The lines of the script.
    Lines,
    /// The moment.
    Moment,
    /// The directory numbers that are left at a server.
    Directories,
}

fn are_within(setup: &Setup) -> bool
    ensures { result ≡ is_setup setup.now }
{
    (1 <= setup.servers && setup.servers <= SERVERS_MOST)
        && (1 <= setup.clients && setup.clients <= CLIENTS_MOST)
        && (setup.lease <= LEASE_MOST
            && (1 <= setup.threshold && setup.threshold <= THRESHOLD_MOST))
}
