ghost use Rattle.std.specs.Prelude.{◌≡◌, ◌<◌, ◌≤◌};
ghost use Rattle.std.specs.FinMap as map;
ghost use Rattle.name_hash.specs.NameHash.{hash_of};
ghost use Rattle.node_core.specs.Nodes.{new_node, owns, part_for, part_in, frozen_in, has_numbers, bits_in};
ghost use Rattle.mds_base.specs.declared.limits.TheConstants.{DIRECTORIES, LEASE_MOST, SERVERS_MOST};
ghost use Rattle.node_core.specs.Serving.{restarted};

use bitmap::Bitmap;
use mds_base::limits::{SERVE_DIRECTORIES, SERVER_DIRECTORIES};
use mds_base::{Name, Setup, SplitState};
use name_hash::hash;
use partition::Partition;
use placement::server_of;
use split::Collector;
use std::alloc::Global;
use std::collections::BTreeMap;
use std::marker::Model;

/// A server without its disk: what it keeps beside its rows (`crates/node_core/README.md`, "Node").
#[derive(Debug, Drop)]
pub struct Node {
    pub(crate) server: u32,
    pub(crate) setup: Setup,
    pub(crate) next: u64,
    pub(crate) floor: u64,
    pub(crate) bits: BTreeMap<u64, Bitmap>,
    pub(crate) parts: BTreeMap<(u64, u32), Partition>,
    pub(crate) pieces: BTreeMap<(u64, u32), Collector>,
}

impl Model for Node {
    ghost use Rattle.std.specs.FinMap as map;
    ghost use Rattle.std.specs.FinSet as set;
    ghost use Rattle.std.specs.Coded.{codes};
    ghost use Rattle.node_core.specs.Nodes.{NodeV};

    ghost Value = { NodeV };

    ghost coded = { Prim.hlevel (codes, map.code, set.code) };

    ghost use Rattle.node_core.specs.Ranges.{AreRanges};

    ghost view = { λ a.
        record {
          server = a.server;
          setup = a.setup;
          next = a.next;
          floor = a.floor;
          bits = map.from_entries a.bits.entries;
          parts = map.from_entries a.parts.entries;
          pieces = map.from_entries a.pieces.entries;
        } };

    ghost invariant = { λ a. AreRanges a.server a.setup };
}

impl Node {
    /// A node on which nothing was noted yet.
    pub fn new(alloc: Global, server: u32, setup: Setup) -> Node
        requires in_setup { server < setup.servers }
        requires servers { setup.servers ≤ SERVERS_MOST }
        requires lease { setup.lease ≤ LEASE_MOST }
        ensures { result ≡ new_node server setup }
    {
        Node {
            server,
            setup,
            next: u64::from(server) * SERVER_DIRECTORIES + 2,
            floor: 0,
            bits: BTreeMap::new(alloc),
            parts: BTreeMap::new(alloc),
            pieces: BTreeMap::new(alloc),
        }
    }

    /// The bitmap of a directory, as far as the node knows it. It takes no memory.
    pub fn bitmap(&self, dir: u64) -> Bitmap
        ensures { result ≡ bits_in self.now dir }
    {
        match self.bits.get(&dir) {
            None => Bitmap::zero(),
            Some(bits) => *bits,
        }
    }

    /// The next directory number that the node gives.
    pub fn next_id(&self) -> u64
        ensures { result ≡ self.now.next }
    {
        self.next
    }

    /// Whether the node has the directory numbers that serving one message may want.
    pub fn has_numbers(&self) -> bool
        ensures { result ≡ has_numbers self.now }
    {
        self.next <= (u64::from(self.server) + 1) * SERVER_DIRECTORIES - SERVE_DIRECTORIES
    }

    /// Sets what a restart sets: nothing yet, since there are no leases.
    pub fn restarted(&mut self, now: u64)
        ensures { self.new ≡ (restarted (record { node = self.old; rows = map.empty }) now).node }
    {
        let _moment = now;
    }

    // The partition that the node locates for a name of a directory.
    pub(crate) fn part_for(&self, dir: u64, name: &Name) -> u32
        ensures { result ≡ part_for self.now dir name.now }
    {
        match self.bits.get(&dir) {
            // Partition 0 alone: every hash is located there.
            None => 0,
            Some(bits) => bits.locate(hash(name)),
        }
    }

    // The depth at which a partition moves a name away, where it does.
    pub(crate) fn frozen(&self, dir: u64, part: u32, name: &Name) -> Option<u32>
        ensures { result ≡ frozen_in (part_in self.now dir part).split (hash_of name.now) }
    {
        match self.parts.get(&(dir, part)) {
            None => None,
            Some(partition) => frozen_depth(&partition.split, name),
        }
    }

    // Whether a partition lies on this server.
    pub(crate) fn owns(&self, dir: u64, part: u32) -> bool
        requires { dir < DIRECTORIES }
        ensures { result ≡ owns self.now dir part }
    {
        server_of(dir, part, self.setup.servers) == self.server
    }
}

// The depth at which a name is moved away in this state, where it is. A name is hashed only where a half moves.
fn frozen_depth(state: &SplitState, name: &Name) -> Option<u32>
    ensures { result ≡ frozen_in state.now (hash_of name.now) }
{
    match state {
        SplitState::Quiet => None,
        SplitState::Moving { depth } => {
            if split::frozen(state, hash(name)) {
                Some(*depth)
            } else {
                None
            }
        }
    }
}
