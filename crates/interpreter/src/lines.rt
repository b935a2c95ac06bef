//! The lines of a script.
ghost use Rattle.std.specs.Prelude.{◌≡◌, true, IfOk, IfErr, OnOk};
ghost use Rattle.node_store.specs.Serve.{IsWellMade};
ghost use Rattle.script.specs.Grammar.{IsClient};
ghost use Rattle.simulation.specs.Calls.{IsRequestAt};
ghost use Rattle.pasts.specs.Fuses.{seen_by, images_by};
ghost use Rattle.simulation.specs.Payments.{none_at};
ghost use Rattle.simulation.specs.Runs.{RunV};
ghost use Rattle.simulation.specs.Shows.{Shows, client_at, is_idle, is_busy};
ghost use Rattle.world.specs.declared.event.Event.TheVariants as Event;
ghost use Rattle.world.specs.Events.{is_call};
ghost use Rattle.interpreter.specs.Payments.{Pays, fuses_of};
ghost use Rattle.interpreter.specs.Steps.{Arms, Carries, Halts, HaltsLine, IsRound, IsRequested, allows};
ghost use Rattle.interpreter.specs.Story.{IsSaid, IsDone, IsFollowed, IsFollowing, IsSettled, IsSettling};
ghost use Rattle.interpreter.specs.Story.{IsSentAndFollowed, IsSending, is_allowed};

use crate::interpreter::{Halt, Interpreter};
use mds_base::limits::EVENTS;
use mds_base::{Call, Which};
use mds_out::Disk;
use node_core::is_served;
use script::Line;
use std::alloc::Global;

impl<D: Disk> Interpreter<D> {
    /// Whether a line is allowed at its place (`docs/FORMATS.md`, "Lines carried out").
    pub fn is_allowed(&self, line: &Line) -> bool
        requires { IsSaid self.now.simulation.setup line.now }
        ensures allows { result ≡ allows self.now.simulation line.now }
        ensures allowed { (run : RunV) → Shows (seen_by D.seen) (images_by D.images) self.now.simulation run
            → result ≡ is_allowed run.trace.world line.now }
    {
        self.allows(line)
    }

    // Whether a line is allowed, by what the simulation holds.
    fn allows(&self, line: &Line) -> bool
        requires { IsSaid self.now.simulation.setup line.now }
        ensures { result ≡ allows self.now.simulation line.now }
    {
        match line {
            Line::Skipped => true,
            Line::Call { client, call } => {
                !self.simulation.client(*client).busy() && is_served(call)
            }
            Line::Issue { client, call } => {
                !self.simulation.client(*client).busy() && is_served(call)
            }
            Line::Retry { client } => self.simulation.client(*client).busy(),
            Line::Deliver { message } => self.simulation.server_for(*message).is_some(),
            Line::Take { client, message } => self.simulation.is_for_client(*client, *message),
            Line::Settle => true,
            Line::Tick { .. } => true,
            Line::Fuse { .. } => true,
            Line::Stop { server } => self.simulation.is_up(*server),
            Line::Restart { server } => !self.simulation.is_up(*server),
            // It is not carried out yet.
            _ => false,
        }
    }

    /// Carries out a line that is allowed: its events happen, one after another, and their text is put behind what is
    /// pending. Where it is halted, events that begin the line have happened.
    pub fn carry_out(&mut self, alloc: Global, line: Line) -> Result<(), Halt>
        requires said { IsSaid self.old.simulation.setup line }
        requires allowed { allows self.old.simulation line ≡ true }
        ensures ok { OnOk result
            (Carries (seen_by D.seen) (images_by D.images) self.old.simulation self.new.simulation
            self.old.pending.items self.new.pending.items (λ run. IsDone run line)) }
        ensures err { IfErr result
            (HaltsLine (seen_by D.seen) (images_by D.images) self.old.simulation self.new.simulation
            self.old.pending.items self.new.pending.items line) }
        ensures arms { OnOk result (Arms self.old.simulation self.new.simulation line) }
        ensures paid { Pays D.faults D.lasts self.old.simulation.stores self.new.simulation.stores
            self.old.pending.items self.new.pending.items (fuses_of line) }
        ensures setup { self.new.simulation.setup ≡ self.old.simulation.setup }
    {
        match line {
            Line::Skipped => Ok(()),
            Line::Call { client, call } => self.call(alloc, client, call),
            Line::Issue { client, call } => {
                self.issue(alloc, client, call)?;
                Ok(())
            }
            Line::Retry { client } => self.retry(alloc, client),
            Line::Deliver { message } => {
                self.deliver(alloc, message)?;
                Ok(())
            }
            Line::Take { client, message } => {
                self.take(alloc, client, message)?;
                Ok(())
            }
            Line::Settle => self.settle(alloc),
            Line::Tick { by } => self.tick(by),
            Line::Fuse { server, calls } => {
                self.simulation.arm(server, calls);
                Ok(())
            }
            Line::Stop { server } => self.stop(server),
            Line::Restart { server } => self.restart(alloc, server),
            // It is not allowed.
            _ => unreachable!(),
        }
    }

    // Sends a client's next call, and follows it.
    fn call(&mut self, alloc: Global, client: u32, call: Call) -> Result<(), Halt>
        requires client { IsClient self.old.simulation.setup client }
        requires free { is_idle (client_at self.old.simulation.clients client) ≡ true }
        requires made { IsWellMade call }
        requires served { is_call call ≡ true }
        ensures ok { OnOk result
            (Carries (seen_by D.seen) (images_by D.images) self.old.simulation self.new.simulation
            self.old.pending.items self.new.pending.items
            (λ run. IsSentAndFollowed run client (Event.Issue client call))) }
        ensures err { IfErr result
            (Halts (seen_by D.seen) (images_by D.images) self.old.simulation self.new.simulation self.old.pending.items
            self.new.pending.items (λ run. IsSending run client (Event.Issue client call))) }
        ensures paid { Pays D.faults D.lasts self.old.simulation.stores self.new.simulation.stores
            self.old.pending.items self.new.pending.items none_at }
        ensures setup { self.new.simulation.setup ≡ self.old.simulation.setup }
    {
        let message = self.issue(alloc, client, call)?;
        self.follow(alloc, client, message)
    }

    // Sends a client's open call again, and follows it.
    fn retry(&mut self, alloc: Global, client: u32) -> Result<(), Halt>
        requires client { IsClient self.old.simulation.setup client }
        requires busy { is_busy (client_at self.old.simulation.clients client) ≡ true }
        ensures ok { OnOk result
            (Carries (seen_by D.seen) (images_by D.images) self.old.simulation self.new.simulation
            self.old.pending.items self.new.pending.items (λ run. IsSentAndFollowed run client (Event.Resend client))) }
        ensures err { IfErr result
            (Halts (seen_by D.seen) (images_by D.images) self.old.simulation self.new.simulation self.old.pending.items
            self.new.pending.items (λ run. IsSending run client (Event.Resend client))) }
        ensures paid { Pays D.faults D.lasts self.old.simulation.stores self.new.simulation.stores
            self.old.pending.items self.new.pending.items none_at }
        ensures setup { self.new.simulation.setup ≡ self.old.simulation.setup }
    {
        let message = self.resend(alloc, client)?;
        self.follow(alloc, client, message)
    }

    // Follows a client's message: it is delivered, its reply is taken, and where that redirects the client the call is
    // sent again.
    fn follow(&mut self, alloc: Global, client: u32, message: u64) -> Result<(), Halt>
        requires client { IsClient self.old.simulation.setup client }
        requires request { IsRequestAt self.old.simulation client message }
        ensures ok { OnOk result
            (Carries (seen_by D.seen) (images_by D.images) self.old.simulation self.new.simulation
            self.old.pending.items self.new.pending.items (λ run. IsFollowed run client message)) }
        ensures err { IfErr result
            (Halts (seen_by D.seen) (images_by D.images) self.old.simulation self.new.simulation self.old.pending.items
            self.new.pending.items (λ run. IsFollowing run client message)) }
        ensures paid { Pays D.faults D.lasts self.old.simulation.stores self.new.simulation.stores
            self.old.pending.items self.new.pending.items none_at }
        ensures setup { self.new.simulation.setup ≡ self.old.simulation.setup }
    {
        let mut next = message;
        // Each round is an event at least, so a run has no more of them.
        for _ in 0..=EVENTS {
            match self.round(alloc, client, next)? {
                None => return Ok(()),
                Some(message) => next = message,
            }
        }
        Err(Halt::Limit {
            which: Which::Events,
        })
    }

    // Delivers a client's message, has the client take the reply, and where that redirects it sends the call again.
    // Answers the number of the message to follow then.
    fn round(&mut self, alloc: Global, client: u32, message: u64) -> Result<Option<u64>, Halt>
        requires client { IsClient self.old.simulation.setup client }
        requires request { IsRequestAt self.old.simulation client message }
        ensures ok { IfOk result
            (λ next. Carries (seen_by D.seen) (images_by D.images) self.old.simulation self.new.simulation
            self.old.pending.items self.new.pending.items (IsRound client message next)) }
        ensures request { IfOk result (IsRequested self.new.simulation client) }
        ensures err { IfErr result
            (Halts (seen_by D.seen) (images_by D.images) self.old.simulation self.new.simulation self.old.pending.items
            self.new.pending.items (λ run. IsFollowing run client message)) }
        ensures paid { Pays D.faults D.lasts self.old.simulation.stores self.new.simulation.stores
            self.old.pending.items self.new.pending.items none_at }
        ensures setup { self.new.simulation.setup ≡ self.old.simulation.setup }
    {
        let Some(reply) = self.deliver(alloc, message)? else {
            return Ok(None);
        };
        if !self.take(alloc, client, reply)? {
            return Ok(None);
        }
        let next = self.resend(alloc, client)?;
        Ok(Some(next))
    }

    // Delivers the first message that waits for a server that is up, until there is none.
    fn settle(&mut self, alloc: Global) -> Result<(), Halt>
        ensures ok { OnOk result
            (Carries (seen_by D.seen) (images_by D.images) self.old.simulation self.new.simulation
            self.old.pending.items self.new.pending.items IsSettled) }
        ensures err { IfErr result
            (Halts (seen_by D.seen) (images_by D.images) self.old.simulation self.new.simulation self.old.pending.items
            self.new.pending.items IsSettling) }
        ensures paid { Pays D.faults D.lasts self.old.simulation.stores self.new.simulation.stores
            self.old.pending.items self.new.pending.items none_at }
        ensures setup { self.new.simulation.setup ≡ self.old.simulation.setup }
    {
        // Each round is an event, so a run has no more of them.
        for _ in 0..=EVENTS {
            let Some(message) = self.simulation.next_waiting() else {
                return Ok(());
            };
            self.deliver(alloc, message)?;
        }
        Err(Halt::Limit {
            which: Which::Events,
        })
    }
}
