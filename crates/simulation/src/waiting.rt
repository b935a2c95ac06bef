//! The messages that no Serve named yet.
ghost use Rattle.std.specs.Prelude.{◌≡◌, ◌+◌, ◌<◌, ◌^◌, true, length, OnOk, OnErr, Some};
ghost use Rattle.std.specs.FinSet as set;
ghost use Rattle.simulation.specs.Moves.{awaiting, awaiting_all};
ghost use Rattle.simulation.specs.Shows.{IsDue, IsFirst, due_one, is_up, server_for};

use crate::simulation::Simulation;
use crate::waits::{Few, Waits, earlier};
use mds_out::Disk;
use records::{Msg, MsgList};
use std::alloc::AllocError;

impl<D: Disk> Simulation<D> {
    /// The first number of a message that is for a server that is up and was named in no Serve before. Where none
    /// waits, or only the one that was sent last, it takes constant time; else a time that grows with the number of
    /// servers, and with the logarithm of that of waiting messages.
    pub fn next_waiting(&self) -> Option<u64>
        ensures first { IsFirst (IsDue self.now self.now.setup.servers) result }
        ensures stores { length self.now.stores ≡ self.now.setup.servers }
    {
        match self.waiting.few() {
            Few::None => None,
            Few::One { server, message } => self.due_one(server, message),
            Few::More => self.first_due(),
        }
    }

    // A message that waits for a server, where the server is up.
    fn due_one(&self, server: u32, message: u64) -> Option<u64>
        ensures { result ≡ due_one self.now server message }
    {
        if server >= self.setup.servers {
            return None;
        }
        if !self.is_up(server) {
            return None;
        }
        Some(message)
    }

    // The first number of a message that waits for a server that is up.
    fn first_due(&self) -> Option<u64>
        ensures { IsFirst (IsDue self.now self.now.setup.servers) result }
    {
        let mut first = None;
        for server in 0..self.setup.servers {
            first = earlier(first, self.due_at(server));
        }
        first
    }

    // The first number of a message that waits for a server, where the server is up.
    fn due_at(&self, server: u32) -> Option<u64>
        requires { server < self.now.setup.servers }
        ensures { IsFirst
            (λ message. (is_up self.now server ≡ true)
            × (set.contains self.now.waiting (server, message) ≡ true)) result }
    {
        if !self.is_up(server) {
            return None;
        }
        self.waiting.first_for(server)
    }
}

/// Has a message wait for its server, where it is for one.
pub(crate) fn await_server(waiting: &mut Waits, msg: &Msg, message: u64) -> Result<(), AllocError>
    ensures ok { OnOk result (waiting.new ≡ awaiting waiting.old (server_for (Some msg.now)) message) }
    ensures err { OnErr result (waiting.new ≡ waiting.old) }
{
    if let Some(server) = msg.server() {
        waiting.insert(server, message)?;
    }
    Ok(())
}

/// Has each message of a list wait for its server, where it is for one; the first one has this number.
pub(crate) fn await_all(waiting: &mut Waits, msgs: &MsgList, first: u64) -> Result<(), AllocError>
    requires { first + length msgs.now < 2 ^ 64 }
    ensures { OnOk result (waiting.new ≡ awaiting_all waiting.old msgs.now first) }
{
    let mut message = first;
    for msg in msgs.messages() {
        await_server(waiting, msg, message)?;
        message += 1;
    }
    Ok(())
}
