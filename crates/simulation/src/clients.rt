//! The events of a client.
ghost use Rattle.std.specs.Prelude.{◌≡◌, ◌++◌, ◌∷◌, [], ◌+◌, ◌<◌, ◌≤◌, true, false, length, Some, IfOk, OnOk, OnErr};
ghost use Rattle.std.specs.Prelude.{IsSome};
ghost use Rattle.std.specs.List.{slice_get};
ghost use Rattle.mds_base.specs.declared.limits.TheConstants.{EVENTS};
ghost use Rattle.client_core.specs.Clients.{HasRoom};
ghost use Rattle.client_core.specs.Taking.{IsTaken, take};
ghost use Rattle.node_store.specs.Serve.{IsWellMade};
ghost use Rattle.records.specs.declared.msg.Msg.{Msg};
ghost use Rattle.world.specs.declared.event.Event.TheVariants as Event;
ghost use Rattle.world.specs.Events.{is_call, is_for_client};
ghost use Rattle.simulation.specs.Calls.{IsRequestAt, IsSend, taken_of};
ghost use Rattle.pasts.specs.Fuses.{seen_by, images_by};
ghost use Rattle.simulation.specs.Moves.{issued_by, noting, resent_by, taken_by};
ghost use Rattle.simulation.specs.Shows.{Happens, StaysNear, IsNone, client_at, is_idle, is_busy, server_for};

use crate::places::Places;
use crate::simulation::Simulation;
use crate::waiting::await_server;
use crate::waits::Waits;
use client_core::{Client, Taken};
use mds_base::Call;
use mds_out::Disk;
use message_store::MessageStore;
use records::Msg;
use std::alloc::{AllocError, Global};

impl<D: Disk> Simulation<D> {
    /// Sends a client's next call, and answers its request's number.
    pub fn issue(&mut self, alloc: Global, client: u32, call: Call) -> Result<u64, AllocError>
        requires room { self.old.count < EVENTS }
        requires free { is_idle (client_at self.old.clients client) ≡ true }
        requires made { IsWellMade call }
        requires served { is_call call ≡ true }
        ensures message { IfOk result (λ message. (message ≡ length self.old.sent)
            × (length self.new.sent ≡ message + 1)) }
        ensures request { IfOk result (λ message. IsRequestAt self.new client message) }
        ensures after { OnOk result (self.new ≡ issued_by self.old client call) }
        ensures ok { OnOk result
            (Happens (seen_by D.seen) (images_by D.images) self.old self.new (Event.Issue client call)) }
        ensures err { OnErr result (StaysNear (seen_by D.seen) (images_by D.images) self.old self.new IsNone) }
        ensures setup { self.new.setup ≡ self.old.setup }
        ensures stores { self.new.stores ≡ self.old.stores }
    {
        // It is counted first: the client's numbers are then no greater than the count at each exit.
        self.count += 1;
        let request = self.clients[client as usize - 1].issue(alloc, call)?;
        send(alloc, &mut self.messages, &mut self.waiting, request)
    }

    /// Sends a client's open call again, and answers its request's number.
    pub fn resend(&mut self, alloc: Global, client: u32) -> Result<u64, AllocError>
        requires room { self.old.count < EVENTS }
        requires busy { is_busy (client_at self.old.clients client) ≡ true }
        ensures message { IfOk result (λ message. (message ≡ length self.old.sent)
            × (length self.new.sent ≡ message + 1)) }
        ensures request { IfOk result (λ message. IsRequestAt self.new client message) }
        ensures after { OnOk result (self.new ≡ resent_by self.old client) }
        ensures ok { OnOk result
            (Happens (seen_by D.seen) (images_by D.images) self.old self.new (Event.Resend client)) }
        ensures err { OnErr result (StaysNear (seen_by D.seen) (images_by D.images) self.old self.new IsNone) }
        ensures setup { self.new.setup ≡ self.old.setup }
        ensures stores { self.new.stores ≡ self.old.stores }
    {
        self.count += 1;
        let request = self.clients[client as usize - 1].resend(alloc)?;
        send(alloc, &mut self.messages, &mut self.waiting, request)
    }

    /// Has a client take a message, and says what it made of it.
    pub fn take(&mut self, alloc: Global, client: u32, message: u64) -> Result<Taken, AllocError>
        requires room { self.old.count < EVENTS }
        requires client { (1 ≤ client) × (client ≤ self.old.setup.clients) }
        requires message { is_for_client client (slice_get self.old.sent message) ≡ true }
        ensures taken { IfOk result
            (λ taken. taken_of (client_at self.old.clients client) (slice_get self.old.sent message) ≡ Some taken) }
        ensures after { OnOk result (self.new ≡ taken_by self.old client message) }
        ensures ok { OnOk result
            (Happens (seen_by D.seen) (images_by D.images) self.old self.new (Event.Take client message)) }
        ensures sent { self.new.sent ≡ self.old.sent }
        ensures err { OnErr result (StaysNear (seen_by D.seen) (images_by D.images) self.old self.new IsNone) }
        ensures setup { self.new.setup ≡ self.old.setup }
        ensures stores { self.new.stores ≡ self.old.stores }
    {
        self.count += 1;
        let taken = take_from(
            alloc,
            &mut self.clients[client as usize - 1],
            &self.messages,
            message,
        )?;
        note_taken(&mut self.taken, &taken, message)?;
        Ok(taken)
    }
}

// Sends a message, which waits for its server, and answers its number.
fn send(
    alloc: Global,
    messages: &mut MessageStore,
    waiting: &mut Waits,
    msg: Msg,
) -> Result<u64, AllocError>
    ensures sends { IsSend result messages.old.sent messages.new.sent waiting.old waiting.new msg }
    ensures made { messages.new.made ≡ messages.old.made }
{
    let message = messages.len() as u64;
    await_server(waiting, &msg, message)?;
    messages.push(alloc, msg)?;
    Ok(message)
}

// Has a client take the message of a number.
fn take_from(
    alloc: Global,
    client: &mut Client,
    messages: &MessageStore,
    message: u64,
) -> Result<Taken, AllocError>
    requires room { HasRoom client.old.pending }
    requires there { IsSome (slice_get messages.now.sent message) }
    ensures ok { (msg : Msg) → slice_get messages.now.sent message ≡ Some msg
        → IfOk result (λ taken. IsTaken (take client.old msg) taken client.new) }
    ensures err { OnErr result (client.new ≡ client.old) }
{
    match messages.lent(message as usize) {
        Some(msg) => client.take(alloc, msg),
        None => {
            let Some(msg) = messages.get(alloc, message as usize)? else {
                unreachable!();
            };
            client.take(alloc, &msg)
        }
    }
}

// Notes that the message answered a call, where it did.
fn note_taken(places: &mut Places, taken: &Taken, message: u64) -> Result<(), AllocError>
    ensures { OnOk result (places.new ≡ noting places.old taken.now message) }
{
    if let Taken::Answer(_) = taken {
        places.insert(message)?;
    }
    Ok(())
}
