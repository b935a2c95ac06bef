//! A simulation is opened on the disks of its servers, and hands them back.
ghost use Rattle.std.specs.Prelude.{◌≡◌, ◌+◌, List, length, map, IfOk, IfErr};
ghost use Rattle.std.specs.List.{range_with_len};
ghost use Rattle.client_core.specs.Clients.{new_client};
ghost use Rattle.mds_base.specs.Setups.{IsSetup};
ghost use Rattle.world.specs.declared.state.ServerState.{ServerState};
ghost use Rattle.world.specs.Law.{PastRun};
ghost use Rattle.pasts.specs.Fuses.{seen_by, images_by};
ghost use Rattle.pasts.specs.Openings.{AreCounted, ComeBack, IsNotOpened, IsNoDamage, LastOn};
ghost use Rattle.pasts.specs.Servers.{AreServers};
ghost use Rattle.pasts.specs.Starts.{AreDisks, AreReached};
ghost use Rattle.simulation.specs.Openings.{BeginsFrom, IsFresh};

use crate::places::Places;
use crate::simulation::Simulation;
use crate::waits::Waits;
use client_core::Client;
use mds_base::Setup;
use mds_out::Disk;
use message_store::MessageStore;
use pasts::{NotOpened, Servers};
use std::alloc::{AllocError, Global};

impl<D: Disk + Drop> Simulation<D> {
    /// Brings up the server of each disk, in the order of their numbers, and begins a run in which nothing happened
    /// yet.
    ///
    /// Where the disks are new, or are left by past runs, the run begins where those lead: whether the records in doubt
    /// of a server that was down were kept is what its disk turned out to hold. Where a server is refused all disks
    /// come back, each at its place: it is the first that is refused, and those after it are as they were. The memory
    /// for handing them back is taken first.
    pub fn open(alloc: Global, setup: Setup, disks: Vec<D>) -> Result<Simulation<D>, NotOpened<D>>
        requires setup { IsSetup setup }
        requires disks { length disks.items ≡ setup.servers }
        ensures begins { IfOk result
            (λ sim. (past : List PastRun) → AreReached D.seen D.images setup disks.items past
            → BeginsFrom (seen_by D.seen) (images_by D.images) setup past sim) }
        ensures fresh { IfOk result (IsFresh setup) }
        ensures servers { IfOk result (λ sim. length sim.stores ≡ setup.servers) }
        ensures counts { IfOk result (λ sim. AreCounted D.faults disks.items sim.stores) }
        ensures last { IfOk result (λ sim. LastOn D.lasts disks.items sim.stores) }
        ensures back { IfErr result (λ refused. ComeBack D.lasts disks.items refused.disks.items) }
        ensures still { IfErr result
            (λ refused. (past : List PastRun) → AreReached D.seen D.images setup disks.items past
            → AreReached D.seen D.images setup refused.disks.items past) }
        ensures refused { IfErr result
            (λ refused. IsNotOpened D.faults D.seen D.images setup disks.items refused.disks.items refused.server
            refused.fault) }
        ensures sound { IfErr result
            (λ refused. (past : List PastRun) → AreReached D.seen D.images setup disks.items past
            → IsNoDamage refused.fault) }
    {
        let Ok(clients) = new_clients(alloc, setup) else {
            return Err(NotOpened::without_memory(disks));
        };
        match Servers::open(alloc, setup, disks) {
            Ok(servers) => {
                let Servers { stores, back } = servers;
                Ok(Simulation {
                    setup,
                    moment: 0,
                    count: 0,
                    stores,
                    clients,
                    messages: MessageStore::new(alloc),
                    waiting: Waits::new(alloc),
                    taken: Places::new(alloc),
                    back,
                })
            }
            Err(refused) => Err(refused),
        }
    }

    /// The disks, each at its place. It takes no memory.
    ///
    /// Where the servers on them are those of a world, the disks are such as a run leaves that ends there.
    pub fn into_disks(self) -> Vec<D>
        ensures left { (servers : List ServerState)
            → AreServers (seen_by D.seen) (images_by D.images) self.setup self.stores servers
            → AreDisks D.seen D.images self.setup result.items servers }
        ensures same { result.items ≡ map (λ store. store.disk.inner) self.stores }
    {
        let Simulation { stores, back, .. } = self;
        Servers { stores, back }.into_disks()
    }
}

// The clients, of which none has numbered a call.
fn new_clients(alloc: Global, setup: Setup) -> Result<Vec<Client>, AllocError>
    requires { IsSetup setup }
    ensures { IfOk result (λ clients. clients.items ≡ map (λ k. new_client k setup) (range_with_len 1 setup.clients)) }
{
    let mut clients = Vec::new(alloc);
    for number in 0..setup.clients {
        clients.push(Client::new(alloc, number + 1, setup))?;
    }
    Ok(clients)
}
