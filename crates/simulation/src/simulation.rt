ghost use Rattle.std.specs.Prelude.{◌≡◌, ℕ, ◌+◌, ◌<◌, ◌≤◌, ◌^◌, true, Some, MatchOption, IfOk, length};
ghost use Rattle.std.specs.Prelude.{slice_set};
ghost use Rattle.std.specs.List.{slice_get};
ghost use Rattle.mds_base.specs.declared.limits.TheConstants.{EVENTS, MOMENTS};
ghost use Rattle.mds_out.specs.Fused.{Fused};
ghost use Rattle.node_store.specs.Store.{Store};
ghost use Rattle.world.specs.declared.event.Event.TheVariants as Event;
ghost use Rattle.world.specs.Events.{is_for_client};
ghost use Rattle.pasts.specs.Fuses.{seen_by, images_by};
ghost use Rattle.simulation.specs.Payments.{ArePaid, none_at, once_at};
ghost use Rattle.simulation.specs.Moves.{armed, ticked};
ghost use Rattle.simulation.specs.Shows.{Happens, ShowsSame, client_at, server_for, stands_in};
ghost use Rattle.simulation.specs.Shows as shown;

use crate::places::Places;
use crate::waits::Waits;
use client_core::Client;
use mds_base::Setup;
use mds_base::limits::{SERVE_DIRECTORIES, SERVER_DIRECTORIES};
use mds_out::{Disk, Fuse};
use message_store::{Kind, Made, MessageStore};
use node_store::NodeStore;
use std::alloc::{AllocError, Global};
use std::marker::Model;

/// Servers on disks, clients and all messages, at one moment (`crates/simulation/README.md`, "Simulation").
///
/// What each call does is said of the run that the simulation shows (`Shows`): each event that a call carries out may
/// happen in it, and the simulation shows the run with it. That is claimed of disks that tell what they hold.
#[derive(Drop)]
pub struct Simulation<D: Disk> {
    pub(crate) setup: Setup,
    pub(crate) moment: u64,
    pub(crate) count: u64,
    pub(crate) stores: Vec<NodeStore<Fuse<D>>>,
    pub(crate) clients: Vec<Client>,
    // All messages, and the entries that were made.
    pub(crate) messages: MessageStore,
    pub(crate) waiting: Waits,
    pub(crate) taken: Places,
    // Empty, with room for all disks, so that they can be handed back without memory.
    pub(crate) back: Vec<D>,
}

impl<D: Disk> Model for Simulation<D> {
    ghost use Rattle.std.specs.Prelude.{◌≡◌, ◌≤◌, []};
    ghost use Rattle.std.specs.FinMap as map;
    ghost use Rattle.std.specs.FinSet as set;
    ghost use Rattle.std.specs.Coded.{codes};
    ghost use Rattle.std.specs.Vec.{vec_capacity};
    ghost use Rattle.mds_base.specs.Entries.{coded_attr};
    ghost use Rattle.mds_base.specs.RowKeys.{coded_row_key};
    ghost use Rattle.bitmap.specs.Bits.{coded_bits};
    ghost use Rattle.mds_out.specs.Fused.{Fused};
    ghost use Rattle.simulation.specs.Shows.{SimulationV};
    ghost use Rattle.simulation.specs.Ranges.{IsRanged};

    ghost Value = { SimulationV (Fused D) };

    ghost coded = { Prim.hlevel (codes, map.code, set.code, coded_attr, coded_row_key, coded_bits) };

    ghost view = { λ a. record {
      setup = a.setup;
      moment = a.moment;
      count = a.count;
      stores = a.stores.items;
      clients = a.clients.items;
      sent = a.messages.sent;
      waiting = a.waiting;
      made = a.messages.made;
      taken = a.taken;
    } };

    ghost invariant = { λ a. IsRanged a.setup a.moment a.count a.stores.items a.clients.items a.messages.sent
        × (a.back.items ≡ []) × (a.setup.servers ≤ vec_capacity a.back) };
}

impl<D: Disk> Simulation<D> {
    /// What it was opened with.
    pub fn setup(&self) -> Setup
        ensures { result ≡ self.now.setup }
    {
        self.setup
    }

    /// The moment.
    pub fn now(&self) -> u64
        ensures { result ≡ self.now.moment }
    {
        self.moment
    }

    /// How many events were carried out, at most 2^20.
    pub fn count(&self) -> u64
        ensures { result ≡ self.now.count }
    {
        self.count
    }

    /// A client, by its number from 1.
    pub fn client(&self, number: u32) -> &Client
        requires { (1 ≤ number) × (number ≤ self.now.setup.clients) }
        ensures { client_at self.now.clients number ≡ Some result.now }
    {
        &self.clients[number as usize - 1]
    }

    /// Whether a server is up, by its number.
    pub fn is_up(&self, server: u32) -> bool
        requires { server < self.now.setup.servers }
        ensures { result ≡ shown.is_up self.now server }
    {
        !self.stores[server as usize].is_down()
    }

    /// Whether a server that is up has the directory numbers that one Serve may want.
    pub fn has_numbers(&self, server: u32) -> bool
        requires there { server < self.now.setup.servers }
        requires up { shown.is_up self.now server ≡ true }
        ensures { result ≡ shown.has_numbers_at self.now server }
    {
        let next = self.stores[server as usize].next_id();
        next <= (u64::from(server) + 1) * SERVER_DIRECTORIES - SERVE_DIRECTORIES
    }

    /// The server of the message, where one was sent that is for a server: it is one that is there.
    pub fn server_for(&self, message: u64) -> Option<u32>
        ensures value { result ≡ server_for (slice_get self.now.sent message) }
        ensures there { MatchOption result (Unit {0}) (λ server. server < self.now.setup.servers) }
    {
        let Ok(at) = usize::try_from(message) else {
            return None;
        };
        self.messages.server(at)
    }

    /// Whether the message was sent and is for a client.
    pub fn is_for_client(&self, client: u32, message: u64) -> bool
        ensures { result ≡ is_for_client client (slice_get self.now.sent message) }
    {
        let Ok(at) = usize::try_from(message) else {
            return false;
        };
        match self.messages.client(at) {
            None => false,
            Some(to) => to == client,
        }
    }

    /// How many entries were made.
    pub fn made_len(&self) -> usize
        ensures { result ≡ length self.now.made }
    {
        self.messages.made_len()
    }

    /// An entry that was made, by its place among them.
    pub fn made(&self, alloc: Global, at: usize) -> Result<Option<Made>, AllocError>
        ensures { IfOk result (λ made. made ≡ slice_get self.now.made at) }
    {
        self.messages.made(alloc, at)
    }

    /// Whether an entry that was made is an effect: a change is one, and a lookup where its answer was taken.
    pub fn stands(&self, made: &Made) -> bool
        ensures { result ≡ stands_in self.now made.now }
    {
        match made.kind {
            Kind::Change => true,
            Kind::Lookup { message } => self.taken.contains(message),
        }
    }

    /// Moves the moment on.
    pub fn tick(&mut self, by: u64)
        requires room { self.old.count < EVENTS }
        requires moment { self.old.moment + by < MOMENTS }
        ensures happens { Happens (seen_by D.seen) (images_by D.images) self.old self.new (Event.Tick by) }
        ensures after { self.new ≡ ticked self.old by }
    {
        self.moment += by;
        self.count += 1;
    }

    /// From here on `calls` calls of a server's disk pass, and later ones fail, until it is restarted.
    pub fn arm(&mut self, server: u32, calls: u64)
        requires { server < self.old.setup.servers }
        ensures setup { self.new.setup ≡ self.old.setup }
        ensures same { ShowsSame (seen_by D.seen) (images_by D.images) self.old self.new }
        ensures paid { ArePaid D.faults D.lasts self.old.stores self.new.stores none_at (once_at server) }
        ensures after { (store : Store (Fused D)) → slice_get self.old.stores server ≡ Some store
            → self.new ≡ record self.old { stores = slice_set self.old.stores server (armed store calls) } }
    {
        self.stores[server as usize].arm(calls);
    }
}
