ghost use Rattle.std.specs.Prelude.{◌≡◌, ◌++◌, [], ◌<◌, ◌≤◌, OnOk, OnErr, MatchResult};
ghost use Rattle.std.specs.Prelude.{map as list_map};
ghost use Rattle.std.specs.Prelude.{List};
ghost use Rattle.mds_base.specs.declared.limits.TheConstants.{EVENTS};
ghost use Rattle.world.specs.declared.state.ServerState.{ServerState};
ghost use Rattle.pasts.specs.Fuses.{seen_by, images_by};
ghost use Rattle.pasts.specs.Servers.{AreServers};
ghost use Rattle.pasts.specs.Starts.{AreDisks};

use crate::text::Printed;
use mds_base::limits::EVENTS;
use mds_base::{Damage, Which};
use mds_out::Disk;
use script::LineText;
use simulation::Simulation;
use std::alloc::{AllocError, Global};

/// Why a line was not carried out to its end.
#[derive(Clone, Copy, Debug, PartialEq, Eq)]
pub enum Halt {
    /// The next event would pass this limit.
    Limit {
        /// Which.
        which: Which,
    },
    /// A server's disk was found damaged at its restart.
    Damaged {
        /// The server.
        server: u32,
        /// The file.
        file: u32,
        /// The offset in the file.
        offset: u64,
        /// What is wrong there.
        damage: Damage,
    },
    /// There was no memory.
    OutOfMemory,
}

impl From<AllocError> for Halt {
    ghost use Rattle.interpreter.specs.declared.interpreter.Halt.{Halt};

    ghost from_gives = { λ _ halt. halt ≡ Halt.OutOfMemory };

    fn from(_: AllocError) -> Halt {
        Halt::OutOfMemory
    }
}

/// A simulation that the lines of a script move, and the text that waits to be written.
#[derive(Drop)]
pub struct Interpreter<D: Disk> {
    /// The servers, clients and messages.
    pub simulation: Simulation<D>,
    /// The text that was made and not taken away yet.
    pub pending: Vec<u8>,
    // The line that is being printed.
    line: LineText,
}

impl<D: Disk> Interpreter<D> {
    /// Moves a simulation by lines.
    pub fn new(alloc: Global, simulation: Simulation<D>) -> Interpreter<D>
        ensures simulation { result.simulation ≡ simulation }
        ensures pending { result.pending.items ≡ [] }
    {
        Interpreter {
            simulation,
            pending: Vec::new(alloc),
            line: LineText::new(),
        }
    }

    /// Whether one event more may be carried out.
    pub(crate) fn admit(&self) -> Result<(), Halt>
        ensures { MatchResult result (λ _. self.now.simulation.count < EVENTS)
            (λ halt. (halt ≡ Halt.Limit Which.Events) × (EVENTS ≤ self.now.simulation.count)) }
    {
        if self.simulation.count() >= EVENTS {
            return Err(Halt::Limit {
                which: Which::Events,
            });
        }
        Ok(())
    }

    /// Prints a line behind what is pending. Where there is no memory for it nothing is printed.
    pub(crate) fn print<T: Printed + Drop>(&mut self, printed: T) -> Result<(), AllocError>
        ensures ok { OnOk result (self.new.pending.items ≡ self.old.pending.items ++ T.text printed) }
        ensures err { OnErr result (self.new.pending.items ≡ self.old.pending.items) }
        ensures simulation { self.new.simulation ≡ self.old.simulation }
    {
        self.line.clear();
        printed.print(&mut self.line);
        self.pending.extend_from_slice(self.line.bytes())
    }
}

impl<D: Disk + Drop> Interpreter<D> {
    /// The disks, each at its place. Where the servers on them are those of a world, the disks are such as a run leaves
    /// that ends there.
    pub fn into_disks(self) -> Vec<D>
        ensures left { (servers : List ServerState)
            → AreServers (seen_by D.seen) (images_by D.images) self.simulation.setup self.simulation.stores servers
            → AreDisks D.seen D.images self.simulation.setup result.items servers }
        ensures same { result.items ≡ list_map (λ store. store.disk.inner) self.simulation.stores }
    {
        let Interpreter { simulation, .. } = self;
        simulation.into_disks()
    }
}
