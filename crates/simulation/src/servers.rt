//! The events of a server.
ghost use Rattle.std.specs.Prelude.{◌≡◌, ◌≢◌, ◌++◌, ℕ, ◌<◌, true, is_some, length, Ok, Some, None, IfOk, IfErr, OnOk};
ghost use Rattle.std.specs.Prelude.{OnErr, IsSome};
ghost use Rattle.mds_base.specs.declared.store_fault.StoreFault.TheVariants as StoreFault;
ghost use Rattle.std.specs.FinSet as set;
ghost use Rattle.std.specs.List.{slice_get};
ghost use Rattle.mds_base.specs.declared.limits.TheConstants.{EVENTS, MOMENTS};
ghost use Rattle.mds_out.specs.Fused.{Fused, fused_faults, OutlastsBy, FailsBy};
ghost use Rattle.node_core.specs.Nodes.{NodeAndRows, has_numbers};
ghost use Rattle.node_core.specs.Serving.{serve};
ghost use Rattle.node_store.specs.Serve.{IsMessage};
ghost use Rattle.node_store.specs.Reading.{IsRefusal, IsBadAtRestart};
ghost use Rattle.node_store.specs.Store.{Store, IsDownAt};
ghost use Rattle.records.specs.declared.msg.Msg.{Msg};
ghost use Rattle.world.specs.declared.event.Event.TheVariants as Event;
ghost use Rattle.world.specs.declared.event.StopCause.TheVariants as StopCause;
ghost use Rattle.simulation.specs.Calls.{CanServe, CanMiss, Serves, ServesOn, IsServe, OthersStay, Restarts, IsRestart};
ghost use Rattle.simulation.specs.Calls.{IsRestartFault};
ghost use Rattle.pasts.specs.Fuses.{seen_by, images_by};
ghost use Rattle.simulation.specs.Payments.{IsPaid, ArePaid, none_at, stops_in_serve, stops_of_serve};
ghost use Rattle.simulation.specs.Payments.{stops_of_restart};
ghost use Rattle.simulation.specs.Moves.{counted, halt, halted_by};
ghost use Rattle.simulation.specs.Runs.{RunV};
ghost use Rattle.simulation.specs.Shows.{Happens, Shows, StaysNear, IsServeAt, IsRestartOf, server_for};
ghost use Rattle.simulation.specs.Shows as shown;
ghost use Rattle.simulation.specs.Stores.{IsHandled, NearServed, NearRestarted, RestartsOn, entries_left};

use crate::entries::{add_changes, hand_out};
use crate::simulation::Simulation;
use crate::waits::Waits;
use mds_base::StoreFault;
use mds_out::{Disk, Fuse};
use message_store::MessageStore;
use node_store::NodeStore;
use records::{Handled, MsgList};
use std::alloc::{AllocError, Global};

/// How a Serve ended.
#[derive(Clone, Copy, Debug, PartialEq, Eq)]
pub enum Served {
    /// It was done, and its first message has this number.
    Answered {
        /// The number.
        message: u64,
    },
    /// It was done, and sent nothing.
    Silent,
    /// The device failed, and the server is down; its records, if there are any, are in doubt.
    Stopped,
}

/// How a restart ended.
#[derive(Clone, Copy, Debug, PartialEq, Eq)]
pub enum Restarted {
    /// The server is up.
    Up,
    /// The device failed, and the server is still down.
    Stopped,
}

impl<D: Disk> Simulation<D> {
    /// Has the server of a message serve it.
    pub fn serve(&mut self, alloc: Global, message: u64) -> Result<Served, AllocError>
        requires room { self.old.count < EVENTS }
        requires message { CanServe self.old message }
        ensures after { IfOk result
            (λ served. (server : ℕ) → server_for (slice_get self.old.sent message) ≡ Some server
            → IsServe (seen_by D.seen) (images_by D.images) (fused_faults D.faults) self.old self.new server message
            served) }
        ensures ok { IfOk result
            (λ served. (server : ℕ) → server_for (slice_get self.old.sent message) ≡ Some server
            → Serves (seen_by D.seen) (images_by D.images) self.old self.new server message served) }
        ensures err { OnErr result ((server : ℕ) → server_for (slice_get self.old.sent message) ≡ Some server
            → StaysNear (seen_by D.seen) (images_by D.images) self.old self.new (IsServeAt server message)) }
        ensures others { OnErr result
            ((server : ℕ) → server_for (slice_get self.old.sent message) ≡ Some server
            → OthersStay self.old self.new server) }
        ensures paid { (server : ℕ) → server_for (slice_get self.old.sent message) ≡ Some server
            → ArePaid D.faults D.lasts self.old.stores self.new.stores (stops_of_serve result server) none_at }
        ensures setup { self.new.setup ≡ self.old.setup }
    {
        let Some(server) = self.server_for(message) else {
            unreachable!();
        };
        // It is taken out first: what the Serve sends then mostly waits alone, and finds its place without memory.
        no_longer_waits(&mut self.waiting, server, message);
        let served = serve_on(
            alloc,
            &mut self.stores[server as usize],
            &mut self.messages,
            &mut self.waiting,
            message,
            self.moment,
        )?;
        self.count += 1;
        Ok(served)
    }

    /// A message meets a server that is down.
    pub fn miss(&mut self, message: u64)
        requires room { self.old.count < EVENTS }
        requires message { CanMiss self.old message }
        ensures happens { Happens (seen_by D.seen) (images_by D.images) self.old self.new (Event.Miss message) }
        ensures after { self.new ≡ counted self.old }
    {
        let _ = message;
        self.count += 1;
    }

    /// Stops a server that is up.
    pub fn stop(&mut self, server: u32)
        requires room { self.old.count < EVENTS }
        requires up { (server < self.old.setup.servers) × (shown.is_up self.old server ≡ true) }
        ensures after { (store : Store (Fused D)) → slice_get self.old.stores server ≡ Some store
            → self.new ≡ halted_by self.old server (halt store) }
        ensures happens { Happens (seen_by D.seen) (images_by D.images) self.old self.new
            (Event.Stop server StopCause.Asked) }
        ensures paid { ArePaid D.faults D.lasts self.old.stores self.new.stores none_at none_at }
        ensures setup { self.new.setup ≡ self.old.setup }
    {
        self.stores[server as usize].halt();
        self.count += 1;
    }

    /// Mends the fuse of a server's disk, and brings the server up again.
    pub fn restart(&mut self, alloc: Global, server: u32) -> Result<Restarted, StoreFault>
        requires room { self.old.count < EVENTS }
        requires down { (server < self.old.setup.servers) × (shown.is_up self.old server ≢ true) }
        ensures after { IfOk result
            (IsRestart (seen_by D.seen) (images_by D.images) (fused_faults D.faults) self.old self.new server) }
        ensures ok { IfOk result
            (λ restarted. Restarts (seen_by D.seen) (images_by D.images) self.old self.new server restarted) }
        ensures err { OnErr result (StaysNear (seen_by D.seen) (images_by D.images) self.old self.new
            (IsRestartOf server)) }
        ensures others { OnErr result (OthersStay self.old self.new server) }

        // Where a run is shown, it is refused for want of memory alone.
        ensures fault { IfErr result
            (λ fault. (run : RunV) → Shows (seen_by D.seen) (images_by D.images) self.old run
            → fault ≡ StoreFault.OutOfMemory) }

        // Damage is what the log of the server's disk has.
        ensures damaged { IfErr result (IsRestartFault (seen_by D.seen) self.new server) }
        ensures paid { ArePaid D.faults D.lasts self.old.stores self.new.stores
            (stops_of_restart result server) none_at }
        ensures sent { self.new.sent ≡ self.old.sent }
        ensures setup { self.new.setup ≡ self.old.setup }
    {
        let store = &mut self.stores[server as usize];
        store.mend();
        let restarted = revive(alloc, store, &mut self.messages, self.moment)?;
        self.count += 1;
        Ok(restarted)
    }
}

// The message was served.
fn no_longer_waits(waiting: &mut Waits, server: u32, message: u64)
    ensures { waiting.new ≡ set.remove waiting.old (server, message) }
{
    waiting.remove(server, message);
}

// Has a server serve the message, sends what it hands out, which waits for its servers, and makes its entries.
fn serve_on<D: Disk>(
    alloc: Global,
    store: &mut NodeStore<Fuse<D>>,
    messages: &mut MessageStore,
    waiting: &mut Waits,
    message: u64,
    moment: u64,
) -> Result<Served, AllocError>
    requires up { (up : NodeAndRows) × (store.old.up ≡ Some up) × (has_numbers up.node ≡ true) }
    requires one { (msg : Msg) × (slice_get messages.old.sent message ≡ Some msg) × IsMessage msg }
    requires moment { moment < MOMENTS }
    ensures ok { (up : NodeAndRows) → (msg : Msg) → store.old.up ≡ Some up
        → slice_get messages.old.sent message ≡ Some msg
        → IfOk result (ServesOn (seen_by D.seen) (images_by D.images) (fused_faults D.faults) store.old store.new up msg
        moment messages.old.sent messages.new.sent waiting.old waiting.new messages.old.made messages.new.made) }
    ensures err { (up : NodeAndRows) → (msg : Msg) → store.old.up ≡ Some up
        → slice_get messages.old.sent message ≡ Some msg
        → OnErr result (NearServed (seen_by D.seen) (images_by D.images) store.old store.new up (serve up msg moment)) }
    ensures unsent { OnErr result (messages.new ≡ messages.old) }
    ensures paid { IsPaid D.faults D.lasts (Some store.old) (Some store.new) (stops_in_serve result) 0 }
    ensures same { (store.new.server ≡ store.old.server) × (store.new.setup ≡ store.old.setup) }
{
    match handle(alloc, store, messages, message, moment) {
        Ok(handled) => hand_out(alloc, messages, waiting, message, handled),
        Err(fault) => match fault {
            StoreFault::Device => Ok(Served::Stopped),
            _ => Err(AllocError),
        },
    }
}

// Has a server serve the message.
fn handle<D: Disk>(
    alloc: Global,
    store: &mut NodeStore<D>,
    messages: &MessageStore,
    message: u64,
    moment: u64,
) -> Result<Handled, StoreFault>
    requires up { (up : NodeAndRows) × (store.old.up ≡ Some up) × (has_numbers up.node ≡ true) }
    requires one { (msg : Msg) × (slice_get messages.now.sent message ≡ Some msg) × IsMessage msg }
    requires moment { moment < MOMENTS }
    ensures { IsHandled D.seen D.images D.faults D.lasts D.fails store.old store.new
        (slice_get messages.now.sent message) moment result }
{
    match messages.among(message as usize) {
        Some(among) => handle_in(alloc, store, among.list, among.place, moment),
        None => match copied(alloc, messages, message) {
            Ok(one) => handle_in(alloc, store, &one, 0, moment),
            Err(_) => Err(StoreFault::OutOfMemory),
        },
    }
}

// The message alone in a list.
fn copied(alloc: Global, messages: &MessageStore, message: u64) -> Result<MsgList, AllocError>
    requires { IsSome (slice_get messages.now.sent message) }
    ensures { IfOk result (λ one. slice_get one 0 ≡ slice_get messages.now.sent message) }
{
    let mut one = MsgList::new(alloc);
    let Some(msg) = messages.get(alloc, message as usize)? else {
        unreachable!();
    };
    one.push(msg)?;
    Ok(one)
}

// Has a server serve the message at a place of a list.
fn handle_in<D: Disk>(
    alloc: Global,
    store: &mut NodeStore<D>,
    list: &MsgList,
    place: u64,
    moment: u64,
) -> Result<Handled, StoreFault>
    requires up { (up : NodeAndRows) × (store.old.up ≡ Some up) × (has_numbers up.node ≡ true) }
    requires one { (msg : Msg) × (slice_get list.now place ≡ Some msg) × IsMessage msg }
    requires moment { moment < MOMENTS }
    ensures { IsHandled D.seen D.images D.faults D.lasts D.fails store.old store.new (slice_get list.now place) moment
        result }
{
    store.serve_batch(alloc, list, &[place], moment, 0)
}

// Restarts a server, the fuse of whose disk is not armed, and makes the entries of the records that were kept.
fn revive<D: Disk>(
    alloc: Global,
    store: &mut NodeStore<Fuse<D>>,
    messages: &mut MessageStore,
    moment: u64,
) -> Result<Restarted, StoreFault>
    requires unarmed { store.old.disk.left ≡ None }
    requires down { store.old.up ≡ None }
    requires moment { moment < MOMENTS }
    ensures ok { IfOk result
        (RestartsOn (seen_by D.seen) (images_by D.images) (fused_faults D.faults) store.old store.new moment
        messages.old.made messages.new.made) }
    ensures sent { messages.new.sent ≡ messages.old.sent }
    ensures unmade { OnErr result (messages.new ≡ messages.old) }
    ensures err { OnErr result (NearRestarted (seen_by D.seen) (images_by D.images) store.old store.new moment) }
    ensures sound { IfErr result
        (λ fault. is_some (D.seen store.old.disk.inner 1) ≡ true → (owed : NodeAndRows)
        → IsDownAt (seen_by D.seen) (images_by D.images) store.old owed → fault ≡ StoreFault.OutOfMemory) }
    ensures damaged { IfErr result
        (IsRefusal (IsBadAtRestart store.old.server store.old.setup) (D.seen store.new.disk.inner 1)) }
    ensures same { (store.new.server ≡ store.old.server) × (store.new.setup ≡ store.old.setup) }
    ensures down { result ≡ Ok Restarted.Stopped → store.new.up ≡ None }
    ensures lasts { OutlastsBy D.lasts D.faults store.old.disk store.new.disk }
    ensures failed { result ≡ Ok Restarted.Stopped → FailsBy D.fails D.faults store.old.disk store.new.disk }
{
    let made = messages.made_len();
    add_changes(alloc, messages, store.doubt(), 0)?;
    let restarted = store.restart(alloc, moment);
    messages.cut_made(entries_left(&restarted, made, messages.made_len()));
    match restarted {
        Ok(_) => Ok(Restarted::Up),
        Err(fault) => match fault {
            StoreFault::Device => Ok(Restarted::Stopped),
            fault => Err(fault),
        },
    }
}

// How many entries are left of those before a restart and those of the records in doubt: all of them where records were
// kept.
fn entries_left(restarted: &Result<u32, StoreFault>, before: usize, all: usize) -> usize
    ensures { result ≡ entries_left restarted.now before all }
{
    match restarted {
        Ok(kept) => { if *kept == 0 { before } else { all } }
        Err(_) => before,
    }
}
