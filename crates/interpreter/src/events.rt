//! One event each, with the line that it prints.
ghost use Rattle.std.specs.Prelude.{◌≡◌, ◌≢◌, ℕ, ◌+◌, ◌<◌, ◌≤◌, true, is_some, length, Some, IfOk, IfErr, OnOk};
ghost use Rattle.std.specs.List.{slice_get};
ghost use Rattle.mds_base.specs.declared.limits.TheConstants.{EVENTS};
ghost use Rattle.node_store.specs.Serve.{IsWellMade};
ghost use Rattle.simulation.specs.Calls.{IsRequestAt};
ghost use Rattle.pasts.specs.Fuses.{seen_by, images_by};
ghost use Rattle.simulation.specs.Payments.{none_at};
ghost use Rattle.simulation.specs.Runs.{RunV};
ghost use Rattle.simulation.specs.Shows.{Shows, client_at, is_idle, is_busy, server_for};
ghost use Rattle.simulation.specs.Shows as shown;
ghost use Rattle.world.specs.declared.event.Event.TheVariants as Event;
ghost use Rattle.world.specs.declared.event.StopCause.TheVariants as StopCause;
ghost use Rattle.world.specs.Events.{is_call, is_for_client};
ghost use Rattle.script.specs.declared.line.Line.TheVariants as Line;
ghost use Rattle.interpreter.specs.Payments.{Pays};
ghost use Rattle.interpreter.specs.Steps.{Carries, Halts, HaltsLine, IsEvent, IsDeliveredTo, OrNone, RepliesAt};
ghost use Rattle.interpreter.specs.Steps.{halt_of};
ghost use Rattle.interpreter.specs.Story.{IsDelivery, IsRestarted, is_redirected, redirects};

use crate::interpreter::{Halt, Interpreter};
use crate::text::{DownLine, StoppedLine, TakenLine};
use client_core::Taken;
use mds_base::limits::MOMENTS;
use mds_base::{Call, StoreFault, Which};
use mds_out::Disk;
use simulation::{Restarted, Served};
use std::alloc::Global;

impl<D: Disk> Interpreter<D> {
    /// Sends a client's next call, and answers its request's number.
    pub(crate) fn issue(&mut self, alloc: Global, client: u32, call: Call) -> Result<u64, Halt>
        requires free { is_idle (client_at self.old.simulation.clients client) ≡ true }
        requires made { IsWellMade call }
        requires served { is_call call ≡ true }
        ensures message { IfOk result (λ message. message ≡ length self.old.simulation.sent) }
        ensures request { IfOk result (λ message. IsRequestAt self.new.simulation client message) }
        ensures ok { OnOk result
            (Carries (seen_by D.seen) (images_by D.images) self.old.simulation self.new.simulation
            self.old.pending.items self.new.pending.items (IsEvent (Event.Issue client call))) }
        ensures err { IfErr result
            (Halts (seen_by D.seen) (images_by D.images) self.old.simulation self.new.simulation self.old.pending.items
            self.new.pending.items (OrNone (IsEvent (Event.Issue client call)))) }
        ensures paid { Pays D.faults D.lasts self.old.simulation.stores self.new.simulation.stores
            self.old.pending.items self.new.pending.items none_at }
        ensures setup { self.new.simulation.setup ≡ self.old.simulation.setup }
    {
        self.admit()?;
        let message = self.simulation.issue(alloc, client, call)?;
        Ok(message)
    }

    /// Sends a client's open call again, and answers its request's number.
    pub(crate) fn resend(&mut self, alloc: Global, client: u32) -> Result<u64, Halt>
        requires { is_busy (client_at self.old.simulation.clients client) ≡ true }
        ensures message { IfOk result (λ message. message ≡ length self.old.simulation.sent) }
        ensures request { IfOk result (λ message. IsRequestAt self.new.simulation client message) }
        ensures ok { OnOk result
            (Carries (seen_by D.seen) (images_by D.images) self.old.simulation self.new.simulation
            self.old.pending.items self.new.pending.items (IsEvent (Event.Resend client))) }
        ensures err { IfErr result
            (Halts (seen_by D.seen) (images_by D.images) self.old.simulation self.new.simulation self.old.pending.items
            self.new.pending.items (OrNone (IsEvent (Event.Resend client)))) }
        ensures paid { Pays D.faults D.lasts self.old.simulation.stores self.new.simulation.stores
            self.old.pending.items self.new.pending.items none_at }
        ensures setup { self.new.simulation.setup ≡ self.old.simulation.setup }
    {
        self.admit()?;
        let message = self.simulation.resend(alloc, client)?;
        Ok(message)
    }

    /// Has the server of the message serve it, or the message meet a server that is down; answers the place
    /// of the first message that this sent. A message that is for no server stays as it is.
    pub(crate) fn deliver(&mut self, alloc: Global, message: u64) -> Result<Option<u64>, Halt>
        ensures ok { IfOk result
            (λ first. is_some (server_for (slice_get self.old.simulation.sent message)) ≡ true
            → Carries (seen_by D.seen) (images_by D.images) self.old.simulation self.new.simulation
            self.old.pending.items self.new.pending.items (IsDeliveredTo message first)) }
        ensures room { OnOk result
            (is_some (server_for (slice_get self.old.simulation.sent message)) ≡ true
            → self.old.simulation.count < EVENTS) }
        ensures replies { IfOk result (λ first. RepliesAt self.old.simulation self.new.simulation message first) }
        ensures err { IfErr result
            (Halts (seen_by D.seen) (images_by D.images) self.old.simulation self.new.simulation self.old.pending.items
            self.new.pending.items (OrNone (λ run. IsDelivery run message))) }
        ensures paid { Pays D.faults D.lasts self.old.simulation.stores self.new.simulation.stores
            self.old.pending.items self.new.pending.items none_at }
        ensures setup { self.new.simulation.setup ≡ self.old.simulation.setup }
    {
        let Some(server) = self.simulation.server_for(message) else {
            return Ok(None);
        };
        if self.simulation.is_up(server) {
            self.serve(alloc, server, message)
        } else {
            self.miss(server, message)
        }
    }

    // Has a server that is up serve a message.
    fn serve(&mut self, alloc: Global, server: u32, message: u64) -> Result<Option<u64>, Halt>
        requires server { server_for (slice_get self.old.simulation.sent message) ≡ Some server }
        requires there { server < self.old.simulation.setup.servers }
        requires up { shown.is_up self.old.simulation server ≡ true }
        ensures ok { IfOk result
            (λ first. Carries (seen_by D.seen) (images_by D.images) self.old.simulation self.new.simulation
            self.old.pending.items self.new.pending.items (IsDeliveredTo message first)) }
        ensures room { OnOk result (self.old.simulation.count < EVENTS) }
        ensures replies { IfOk result (λ first. RepliesAt self.old.simulation self.new.simulation message first) }
        ensures err { IfErr result
            (Halts (seen_by D.seen) (images_by D.images) self.old.simulation self.new.simulation self.old.pending.items
            self.new.pending.items (OrNone (λ run. IsDelivery run message))) }
        ensures paid { Pays D.faults D.lasts self.old.simulation.stores self.new.simulation.stores
            self.old.pending.items self.new.pending.items none_at }
        ensures setup { self.new.simulation.setup ≡ self.old.simulation.setup }
    {
        self.admit()?;
        if !self.simulation.has_numbers(server) {
            return Err(Halt::Limit {
                which: Which::Directories,
            });
        }
        match self.simulation.serve(alloc, message)? {
            Served::Answered { message } => Ok(Some(message)),
            Served::Silent => Ok(None),
            Served::Stopped => {
                self.print(StoppedLine(server))?;
                Ok(None)
            }
        }
    }

    // Has a message meet a server that is down.
    fn miss(&mut self, server: u32, message: u64) -> Result<Option<u64>, Halt>
        requires server { server_for (slice_get self.old.simulation.sent message) ≡ Some server }
        requires there { server < self.old.simulation.setup.servers }
        requires down { shown.is_up self.old.simulation server ≢ true }
        ensures ok { IfOk result
            (λ first. Carries (seen_by D.seen) (images_by D.images) self.old.simulation self.new.simulation
            self.old.pending.items self.new.pending.items (IsDeliveredTo message first)) }
        ensures room { OnOk result (self.old.simulation.count < EVENTS) }
        ensures replies { IfOk result (λ first. RepliesAt self.old.simulation self.new.simulation message first) }
        ensures err { IfErr result
            (Halts (seen_by D.seen) (images_by D.images) self.old.simulation self.new.simulation self.old.pending.items
            self.new.pending.items (OrNone (λ run. IsDelivery run message))) }
        ensures paid { Pays D.faults D.lasts self.old.simulation.stores self.new.simulation.stores
            self.old.pending.items self.new.pending.items none_at }
        ensures setup { self.new.simulation.setup ≡ self.old.simulation.setup }
    {
        self.admit()?;
        self.simulation.miss(message);
        self.print(DownLine(server))?;
        Ok(None)
    }

    /// Has a client take a message, and says whether it is redirected, so that its call is still open.
    pub(crate) fn take(&mut self, alloc: Global, client: u32, message: u64) -> Result<bool, Halt>
        requires client { (1 ≤ client) × (client ≤ self.old.simulation.setup.clients) }
        requires message { is_for_client client (slice_get self.old.simulation.sent message) ≡ true }
        ensures ok { OnOk result
            (Carries (seen_by D.seen) (images_by D.images) self.old.simulation self.new.simulation
            self.old.pending.items self.new.pending.items (IsEvent (Event.Take client message))) }
        ensures redirected { IfOk result
            (λ redirected. (run : RunV) → Shows (seen_by D.seen) (images_by D.images) self.old.simulation run
            → redirected ≡ redirects run.trace.world client message) }
        ensures busy { IfOk result
            (λ redirected. redirected ≡ true → is_busy (client_at self.new.simulation.clients client) ≡ true) }
        ensures err { IfErr result
            (Halts (seen_by D.seen) (images_by D.images) self.old.simulation self.new.simulation self.old.pending.items
            self.new.pending.items (OrNone (IsEvent (Event.Take client message)))) }
        ensures paid { Pays D.faults D.lasts self.old.simulation.stores self.new.simulation.stores
            self.old.pending.items self.new.pending.items none_at }
        ensures setup { self.new.simulation.setup ≡ self.old.simulation.setup }
    {
        self.admit()?;
        let seq = self.simulation.client(client).seq();
        let taken = self.simulation.take(alloc, client, message)?;
        self.print(TakenLine {
            client,
            seq,
            taken: &taken,
        })?;
        let busy = self.simulation.client(client).busy();
        Ok(busy && is_redirected(&taken))
    }

    /// Moves the moment on.
    pub(crate) fn tick(&mut self, by: u64) -> Result<(), Halt>
        ensures ok { OnOk result
            (Carries (seen_by D.seen) (images_by D.images) self.old.simulation self.new.simulation
            self.old.pending.items self.new.pending.items (IsEvent (Event.Tick by))) }
        ensures err { IfErr result
            (Halts (seen_by D.seen) (images_by D.images) self.old.simulation self.new.simulation self.old.pending.items
            self.new.pending.items (OrNone (IsEvent (Event.Tick by)))) }
        ensures paid { Pays D.faults D.lasts self.old.simulation.stores self.new.simulation.stores
            self.old.pending.items self.new.pending.items none_at }
        ensures setup { self.new.simulation.setup ≡ self.old.simulation.setup }
    {
        self.admit()?;
        if self.simulation.now().saturating_add(by) >= MOMENTS {
            return Err(Halt::Limit {
                which: Which::Moment,
            });
        }
        self.simulation.tick(by);
        Ok(())
    }

    /// Stops a server.
    pub(crate) fn stop(&mut self, server: u32) -> Result<(), Halt>
        requires { (server < self.old.simulation.setup.servers) × (shown.is_up self.old.simulation server ≡ true) }
        ensures ok { OnOk result
            (Carries (seen_by D.seen) (images_by D.images) self.old.simulation self.new.simulation
            self.old.pending.items self.new.pending.items (IsEvent (Event.Stop server StopCause.Asked))) }
        ensures err { IfErr result
            (Halts (seen_by D.seen) (images_by D.images) self.old.simulation self.new.simulation self.old.pending.items
            self.new.pending.items (OrNone (IsEvent (Event.Stop server StopCause.Asked)))) }
        ensures paid { Pays D.faults D.lasts self.old.simulation.stores self.new.simulation.stores
            self.old.pending.items self.new.pending.items none_at }
        ensures setup { self.new.simulation.setup ≡ self.old.simulation.setup }
    {
        self.admit()?;
        self.simulation.stop(server);
        Ok(())
    }

    /// Restarts a server.
    pub(crate) fn restart(&mut self, alloc: Global, server: u32) -> Result<(), Halt>
        requires { (server < self.old.simulation.setup.servers) × (shown.is_up self.old.simulation server ≢ true) }
        ensures ok { OnOk result
            (Carries (seen_by D.seen) (images_by D.images) self.old.simulation self.new.simulation
            self.old.pending.items self.new.pending.items (λ run. IsRestarted server)) }
        ensures err { IfErr result
            (HaltsLine (seen_by D.seen) (images_by D.images) self.old.simulation self.new.simulation
            self.old.pending.items self.new.pending.items (Line.Restart server)) }
        ensures paid { Pays D.faults D.lasts self.old.simulation.stores self.new.simulation.stores
            self.old.pending.items self.new.pending.items none_at }
        ensures setup { self.new.simulation.setup ≡ self.old.simulation.setup }
    {
        self.admit()?;
        match self.simulation.restart(alloc, server) {
            Ok(Restarted::Up) => Ok(()),
            Ok(Restarted::Stopped) => {
                self.print(StoppedLine(server))?;
                Ok(())
            }
            Err(fault) => Err(halt_of(server, fault)),
        }
    }
}

// Whether what a client made of a message is that it is redirected.
fn is_redirected(taken: &Taken) -> bool
    ensures { result ≡ is_redirected (Some taken.now) }
{
    matches!(taken, Taken::Redirected { .. })
}

// What a fault of a server's restart comes to, where it is not the device's.
fn halt_of(server: u32, fault: StoreFault) -> Halt
    ensures { result ≡ halt_of server fault }
{
    match fault {
        StoreFault::Damaged {
            file,
            offset,
            damage,
        } => Halt::Damaged {
            server,
            file,
            offset,
            damage,
        },
        _ => Halt::OutOfMemory,
    }
}
