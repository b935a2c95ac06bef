//! Servers are opened on their disks, and the disks are handed back.
ghost use Rattle.std.specs.Prelude.{◌≡◌, ℕ, ◌+◌, ◌≤◌, ◌++◌, [], ◌∷◌, List, length, map, IfOk, IfErr};
ghost use Rattle.std.specs.Vec.{vec_capacity};
ghost use Rattle.std.specs.Vec.Iter.{into_iter_items};
ghost use Rattle.mds_base.specs.declared.setup.Setup.{Setup};
ghost use Rattle.mds_base.specs.Setups.{IsSetup};
ghost use Rattle.node_store.specs.Parts.{IsServer};
ghost use Rattle.world.specs.declared.state.ServerState.{ServerState};
ghost use Rattle.world.specs.Law.{PastRun};
ghost use Rattle.pasts.specs.Fuses.{seen_by, images_by};
ghost use Rattle.pasts.specs.Openings.{ComeBack, OpensFrom, Paired, IsHandedBack, IsUpOn, IsCounted, AreCounted};
ghost use Rattle.pasts.specs.Openings.{IsDiskOf, IsOpenFault, IsNotOpened, IsNoDamage};
ghost use Rattle.pasts.specs.Servers.{AreServers};
ghost use Rattle.pasts.specs.Starts.{AreDisks, AreReached};

use mds_base::{Setup, StoreFault};
use mds_out::{Disk, Fuse};
use node_store::{NodeStore, Refused, laws_of_disks};
use std::alloc::Global;
use std::vec::IntoIter;

/// Servers, each on its disk behind a fuse.
#[derive(Drop)]
pub struct Servers<D: Disk> {
    /// The servers, by their numbers.
    pub stores: Vec<NodeStore<Fuse<D>>>,
    /// Empty, with room for all disks, so that they can be handed back without memory.
    pub back: Vec<D>,
}

/// The disks of servers of which one could not be opened.
#[derive(Drop)]
pub struct NotOpened<D: Disk> {
    /// The disks, each at its place.
    pub disks: Vec<D>,
    /// The server that was not opened.
    pub server: u32,
    /// Why.
    pub fault: StoreFault,
}

impl<D: Disk> NotOpened<D> {
    /// The disks as they were, for want of memory.
    pub fn without_memory(disks: Vec<D>) -> NotOpened<D>
        ensures { result ≡ record { disks = disks; server = 0; fault = StoreFault.OutOfMemory } }
    {
        NotOpened {
            disks,
            server: 0,
            fault: StoreFault::OutOfMemory,
        }
    }
}

impl<D: Disk + Drop> Servers<D> {
    /// Brings up the server of each disk, in the order of their numbers, behind a fuse that is not armed.
    ///
    /// Where the disks are new, or are left by past runs, the servers are those to which these lead: whether the
    /// records in doubt of a server that was down were kept is what its disk turned out to hold. Where a server is
    /// refused all disks come back, each at its place: on those before it the servers were opened, so it is the first
    /// that is refused, and those after it are as they were. `Device` comes where that disk's count of faults rose,
    /// `Damaged` where its bytes are damaged, which those that past runs left never are, and `OutOfMemory` for want of
    /// memory. The memory for handing the disks back is taken first.
    pub fn open(alloc: Global, setup: Setup, disks: Vec<D>) -> Result<Servers<D>, NotOpened<D>>
        requires setup { IsSetup setup }
        requires disks { length disks.items ≡ setup.servers }
        ensures opens { IfOk result
            (λ servers. (past : List PastRun) → AreReached D.seen D.images setup disks.items past
            → OpensFrom (seen_by D.seen) (images_by D.images) setup past servers.stores.items) }
        ensures up { IfOk result (λ servers. Paired
            (IsUpOn D.lasts D.seen D.images setup) 0 disks.items servers.stores.items) }
        ensures counts { IfOk result (λ servers. AreCounted D.faults disks.items servers.stores.items) }
        ensures room { IfOk result
            (λ servers. (servers.back.items ≡ []) × (setup.servers ≤ vec_capacity servers.back)) }
        ensures back { IfErr result (λ refused. ComeBack D.lasts disks.items refused.disks.items) }
        ensures still { IfErr result
            (λ refused. (past : List PastRun) → AreReached D.seen D.images setup disks.items past
            → AreReached D.seen D.images setup refused.disks.items past) }
        ensures refused { IfErr result
            (λ refused. IsNotOpened D.faults D.seen D.images setup disks.items refused.disks.items refused.server
            refused.fault) }
        ensures sound { IfErr result
            (λ refused. (past : List PastRun) → AreReached D.seen D.images setup disks.items past
            → IsNoDamage refused.fault) }
    {
        laws_of_disks();
        let Ok(back) = Vec::with_capacity(alloc, setup.servers as usize) else {
            return Err(NotOpened::without_memory(disks));
        };
        let Ok(stores) = Vec::with_capacity(alloc, setup.servers as usize) else {
            return Err(NotOpened::without_memory(disks));
        };
        bring_up_all(alloc, setup, disks, stores, back)
    }

    /// The disks, each at its place. It takes no memory.
    ///
    /// Where the servers on them are those of a world, the disks are such as a run leaves that ends there.
    pub fn into_disks(self) -> Vec<D>
        requires none { self.back.items ≡ [] }
        requires room { length self.stores.items ≤ vec_capacity self.back }
        ensures left { (setup : Setup) → (servers : List ServerState)
            → AreServers (seen_by D.seen) (images_by D.images) setup self.stores.items servers
            → AreDisks D.seen D.images setup result.items servers }
        ensures same { result.items ≡ map (λ store. store.disk.inner) self.stores.items }
    {
        let Servers {
            stores,
            back: mut disks,
        } = self;
        put_back(stores, &mut disks);
        disks
    }
}

// Brings up the servers of all disks, or hands the disks back.
fn bring_up_all<D: Disk + Drop>(
    alloc: Global,
    setup: Setup,
    disks: Vec<D>,
    mut stores: Vec<NodeStore<Fuse<D>>>,
    back: Vec<D>,
) -> Result<Servers<D>, NotOpened<D>>
    requires setup { IsSetup setup }
    requires disks { length disks.items ≡ setup.servers }
    requires stores { (stores.items ≡ []) × (setup.servers ≤ vec_capacity stores) }
    requires back { (back.items ≡ []) × (setup.servers ≤ vec_capacity back) }
    ensures up { IfOk result
        (λ servers. Paired (IsUpOn D.lasts D.seen D.images setup) 0 disks.items servers.stores.items) }
    ensures counts { IfOk result (λ servers. AreCounted D.faults disks.items servers.stores.items) }
    ensures room { IfOk result (λ servers. (servers.back.items ≡ []) × (setup.servers ≤ vec_capacity servers.back)) }
    ensures back { IfErr result
        (λ refused. Paired (IsHandedBack D.lasts D.seen D.images setup) 0 disks.items refused.disks.items) }
    ensures refused { IfErr result
        (λ refused. IsNotOpened D.faults D.seen D.images setup disks.items refused.disks.items refused.server
        refused.fault) }
{
    let mut server = 0;
    let mut rest = disks.into_iter();
    while let Some(disk) = rest.next() {
        match bring_up(alloc, disk, server, setup) {
            Ok(store) => stores.push_reserved(store),
            Err(Refused { disk, fault }) => {
                return Err(NotOpened {
                    disks: handed_back(stores, disk, rest, back),
                    server,
                    fault,
                });
            }
        }
        server += 1;
    }
    Ok(Servers { stores, back })
}

// Brings a server up on its disk, and puts a fuse round the disk.
fn bring_up<D: Disk>(
    alloc: Global,
    disk: D,
    server: u32,
    setup: Setup,
) -> Result<NodeStore<Fuse<D>>, Refused<D>>
    requires { IsServer server setup }
    ensures up { IfOk result (IsUpOn D.lasts D.seen D.images setup server disk) }
    ensures counts { IfOk result (IsCounted D.faults disk) }
    ensures back { IfErr result (λ refused. IsHandedBack D.lasts D.seen D.images setup server disk refused.disk) }
    ensures cause { IfErr result (λ refused. IsOpenFault D.faults D.seen setup server disk refused.disk refused.fault) }
{
    match NodeStore::bring_up(alloc, disk, server, setup) {
        Ok(store) => Ok(store.fused()),
        Err(refused) => Err(refused),
    }
}

// The disks of servers, that of the refused one, and the rest, each at its place.
fn handed_back<D: Disk + Drop>(
    stores: Vec<NodeStore<Fuse<D>>>,
    refused: D,
    rest: IntoIter<D>,
    mut back: Vec<D>,
) -> Vec<D>
    requires none { back.items ≡ [] }
    requires room { length stores.items + 1 + length (into_iter_items rest) ≤ vec_capacity back }
    ensures { (disks : List D) × (result.items ≡ disks ++ refused ∷ into_iter_items rest)
        × Paired (λ _. IsDiskOf D.seen D.images) 0 stores.items disks }
{
    put_back(stores, &mut back);
    back.push_reserved(refused);
    for disk in rest {
        back.push_reserved(disk);
    }
    back
}

// Puts the disks of servers behind others, for which there is room.
fn put_back<D: Disk + Drop>(stores: Vec<NodeStore<Fuse<D>>>, back: &mut Vec<D>)
    requires { length back.old.items + length stores.items ≤ vec_capacity back.old }
    ensures disks { (disks : List D) × (back.new.items ≡ back.old.items ++ disks)
        × Paired (λ _. IsDiskOf D.seen D.images) 0 stores.items disks }
    ensures room { vec_capacity back.old ≤ vec_capacity back.new }
{
    for store in stores {
        back.push_reserved(store.into_disk().into_inner());
    }
}
