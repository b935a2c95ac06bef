ghost use Rattle.std.specs.Prelude.{◌≡◌, ◌+◌, ◌<◌, ◌∷◌, [], true, IfOk, OnOk, map, is_some};
ghost use Rattle.std.specs.List.{range_with_len, slice_get};
ghost use Rattle.mds_base.specs.declared.limits.TheConstants.{MOMENTS};
ghost use Rattle.world.specs.Worlds.{new_world, new_server, new_seat};
ghost use Rattle.mds_base.specs.Setups.{IsSetup};
ghost use Rattle.world.specs.Runs.{LeadsOn};
ghost use Rattle.world.specs.Events.{enabled, step, seat_at, can_issue, can_resend, can_take, can_give_up, can_serve};
ghost use Rattle.world.specs.Events.{can_restart, is_there, is_for_client, is_for_server, serves_at, after_issue};
ghost use Rattle.world.specs.Events.{after_resend, after_take, after_hint, after_give_up, after_serve, after_stop};
ghost use Rattle.world.specs.Events.{after_restart};

use crate::enabling::{
    can_give_up, can_hint, can_issue, can_resend, can_restart, can_serve, can_stop, can_take,
    is_for_client, is_up, misses, msg_at, seat_at, serves_at,
};
use crate::event::{Event, ServeEnd};
use crate::state::{ClientState, ServerState};
use bitmap::Bitmap;
use mds_base::limits::MOMENTS;
use mds_base::{Call, PlaceList, Setup};
use records::MsgList;
use std::alloc::{AllocError, Global};
use std::marker::Model;

/// Servers, clients, and the list of all messages that were ever sent (`crates/world/README.md`, "World").
#[derive(Debug, Drop)]
pub struct World {
    setup: Setup,
    moment: u64,
    servers: Vec<ServerState>,
    clients: Vec<ClientState>,
    sent: MsgList,
}

impl Model for World {
    ghost use Rattle.std.specs.FinMap as map;
    ghost use Rattle.std.specs.FinSet as set;
    ghost use Rattle.std.specs.Coded.{codes};
    ghost use Rattle.world.specs.Worlds.{WorldV};
    ghost use Rattle.world.specs.Ranges.{IsRanged};

    ghost Value = { WorldV };

    ghost coded = { Prim.hlevel (codes, map.code, set.code) };

    ghost view = { λ a.
        record {
          setup = a.setup;
          now = a.moment;
          servers = a.servers.items;
          clients = a.clients.items;
          sent = a.sent;
        } };

    ghost invariant = { λ a. IsRanged a.setup a.moment a.servers.items a.clients.items a.sent };
}

impl World {
    /// A world in which nothing happened yet.
    pub fn new(alloc: Global, setup: Setup) -> Result<World, AllocError>
        requires { IsSetup setup }
        ensures { IfOk result (λ world. world ≡ new_world setup) }
    {
        Ok(World {
            setup,
            moment: 0,
            servers: new_servers(alloc, setup)?,
            clients: new_seats(alloc, setup)?,
            sent: MsgList::new(alloc),
        })
    }

    /// What the world was started with.
    pub fn setup(&self) -> Setup
        ensures value { result ≡ self.now.setup }
        ensures is_setup { IsSetup self.now.setup }
    {
        self.setup
    }

    /// The moment.
    pub fn now(&self) -> u64
        ensures { result ≡ self.now.now }
    {
        self.moment
    }

    /// The servers, by their numbers.
    pub fn servers(&self) -> &[ServerState]
        ensures { result.now ≡ self.now.servers }
    {
        self.servers.as_slice()
    }

    /// The clients, by their numbers less 1.
    pub fn clients(&self) -> &[ClientState]
        ensures { result.now ≡ self.now.clients }
    {
        self.clients.as_slice()
    }

    /// All messages that were ever sent, in the order in which they were sent.
    pub fn sent(&self) -> &MsgList
        ensures { result.now ≡ self.now.sent }
    {
        &self.sent
    }

    /// Whether an event may happen now (`crates/world/README.md`, "Events"), in time by what the event names; a Hint
    /// looks at each partition at each client.
    pub fn enabled(&self, event: &Event) -> bool
        ensures { result ≡ enabled self.now event.now }
    {
        match event {
            Event::Issue { client, call } => can_issue(seat_at(&self.clients, *client), call),
            Event::Resend { client } => can_resend(seat_at(&self.clients, *client)),
            Event::Serve {
                server,
                places,
                how: _,
            } => {
                can_serve(self.servers.get(*server as usize))
                    && serves_at(&self.sent, *server, places)
            }
            Event::Miss { message } => { misses(&self.servers, msg_at(&self.sent, *message)) }
            Event::Take { client, message } => {
                can_take(seat_at(&self.clients, *client))
                    && is_for_client(*client, msg_at(&self.sent, *message))
            }
            Event::Cached { .. } => false,
            Event::Hint {
                client,
                dir,
                bitmap,
            } => can_hint(&self.clients, *client, *dir, bitmap),
            Event::Remind { server } => is_up(self.servers.get(*server as usize)),
            Event::Stop { server, cause } => can_stop(self.servers.get(*server as usize), *cause),
            Event::Restart { server, kept } => {
                can_restart(self.servers.get(*server as usize), *kept)
            }
            Event::Tick { by } => self.can_tick(*by),
            Event::GiveUp { client } => can_give_up(seat_at(&self.clients, *client)),
            Event::Verdict { .. } => true,
        }
    }

    /// Lets an enabled event happen. Where there is no memory for it the world may be changed in part, and is given up.
    pub fn step(&mut self, alloc: Global, event: &Event) -> Result<(), AllocError>
        requires { enabled self.old event.now ≡ true }
        ensures ok { OnOk result (self.new ≡ step self.old event.now) }

        // The law of runs (`crates/world/README.md`, "Every run is explained"), of each run that led here, with this
        // event.
        ensures law { OnOk result (LeadsOn self.old event.now self.new) }
    {
        let _setup = self.setup();
        self.carry_out(alloc, event)
    }

    fn carry_out(&mut self, alloc: Global, event: &Event) -> Result<(), AllocError>
        requires { enabled self.old event.now ≡ true }
        ensures { OnOk result (self.new ≡ step self.old event.now) }
    {
        match event {
            Event::Issue { client, call } => self.issue(alloc, *client, call),
            Event::Resend { client } => self.resend(alloc, *client),
            Event::Serve {
                server,
                places,
                how,
            } => self.serve(alloc, *server, places, *how),
            Event::Take { client, message } => self.take(alloc, *client, *message),
            Event::Hint {
                client,
                dir,
                bitmap,
            } => self.hint(*client, *dir, bitmap),
            Event::Stop { server, cause: _ } => {
                self.stop(*server);
                Ok(())
            }
            Event::Restart { server, kept } => self.restart(alloc, *server, *kept),
            Event::Tick { by } => {
                self.tick(*by);
                Ok(())
            }
            Event::GiveUp { client } => {
                self.give_up(*client);
                Ok(())
            }
            Event::Miss { .. } => Ok(()),
            Event::Cached { .. } => Ok(()),
            Event::Remind { .. } => Ok(()),
            Event::Verdict { .. } => Ok(()),
        }
    }

    fn can_tick(&self, by: u64) -> bool
        ensures { result ≡ enabled self.now (Event.Tick by) }
    {
        by < MOMENTS - self.moment
    }

    fn issue(&mut self, alloc: Global, client: u32, call: &Call) -> Result<(), AllocError>
        requires { can_issue (seat_at self.old.clients client) call.now ≡ true }
        ensures { OnOk result (self.new ≡ after_issue self.old client call.now (seat_at self.old.clients client)) }
    {
        let call = call.copy(alloc)?;
        let seat = &mut self.clients[client as usize - 1];
        let msg = seat.client.issue(alloc, call)?;
        self.sent.push(msg)?;
        Ok(())
    }

    fn resend(&mut self, alloc: Global, client: u32) -> Result<(), AllocError>
        requires { can_resend (seat_at self.old.clients client) ≡ true }
        ensures { OnOk result (self.new ≡ after_resend self.old client (seat_at self.old.clients client)) }
    {
        let seat = &mut self.clients[client as usize - 1];
        let msg = seat.client.resend(alloc)?;
        self.sent.push(msg)?;
        Ok(())
    }

    fn take(&mut self, alloc: Global, client: u32, message: u64) -> Result<(), AllocError>
        requires can { can_take (seat_at self.old.clients client) ≡ true }
        requires is_for { is_for_client client (slice_get self.old.sent message) ≡ true }
        ensures { OnOk result
            (self.new ≡ after_take self.old client (slice_get self.old.sent message)
            (seat_at self.old.clients client)) }
    {
        let msg = msg_at(&self.sent, message).unwrap();
        let seat = &mut self.clients[client as usize - 1];
        let _ = seat.client.take(alloc, msg)?;
        Ok(())
    }

    fn hint(&mut self, client: u32, dir: u64, bitmap: &Bitmap) -> Result<(), AllocError>
        requires { is_some (seat_at self.old.clients client) ≡ true }
        ensures { OnOk result (self.new ≡ after_hint self.old client dir bitmap.now (seat_at self.old.clients client)) }
    {
        let seat = &mut self.clients[client as usize - 1];
        seat.client.hint(dir, bitmap)
    }

    fn give_up(&mut self, client: u32)
        requires { can_give_up (seat_at self.old.clients client) ≡ true }
        ensures { self.new ≡ after_give_up self.old client (seat_at self.old.clients client) }
    {
        self.clients[client as usize - 1].quit = true;
    }

    fn serve(
        &mut self,
        alloc: Global,
        server: u32,
        places: &PlaceList,
        how: ServeEnd,
    ) -> Result<(), AllocError>
        requires can { can_serve (slice_get self.old.servers server) ≡ true }
        requires serves { serves_at self.old.sent server places.now ≡ true }
        ensures { OnOk result
            (self.new ≡ after_serve self.old server places.now how (slice_get self.old.servers server)) }
    {
        let message = places.places()[0];
        match how {
            ServeEnd::Done => self.serve_done(alloc, server, message),
            ServeEnd::Stop => self.serve_stopped(alloc, server, message),
        }
    }

    fn serve_done(&mut self, alloc: Global, server: u32, message: u64) -> Result<(), AllocError>
        requires can { can_serve (slice_get self.old.servers server) ≡ true }
        requires is_for { is_for_server server (slice_get self.old.sent message) ≡ true }
        ensures { OnOk result
            (self.new ≡ after_serve self.old server (message ∷ []) ServeEnd.Done (slice_get self.old.servers server)) }
    {
        let msg = msg_at(&self.sent, message).unwrap();
        let state = &mut self.servers[server as usize];
        let mut outputs = state.serve(alloc, msg, self.moment)?;
        self.sent.append(&mut outputs)?;
        Ok(())
    }

    fn serve_stopped(&mut self, alloc: Global, server: u32, message: u64) -> Result<(), AllocError>
        requires can { can_serve (slice_get self.old.servers server) ≡ true }
        requires is_for { is_for_server server (slice_get self.old.sent message) ≡ true }
        ensures { OnOk result
            (self.new ≡ after_serve self.old server (message ∷ []) ServeEnd.Stop (slice_get self.old.servers server)) }
    {
        let msg = msg_at(&self.sent, message).unwrap();
        let state = &mut self.servers[server as usize];
        state.stop_serving(alloc, msg, self.moment)?;
        Ok(())
    }

    fn stop(&mut self, server: u32)
        requires { is_there (slice_get self.old.servers server) ≡ true }
        ensures { self.new ≡ after_stop self.old server (slice_get self.old.servers server) }
    {
        self.servers[server as usize].up = false;
    }

    fn restart(&mut self, alloc: Global, server: u32, kept: u32) -> Result<(), AllocError>
        requires { can_restart (slice_get self.old.servers server) kept ≡ true }
        ensures { OnOk result (self.new ≡ after_restart self.old server kept (slice_get self.old.servers server)) }
    {
        self.servers[server as usize].restart(alloc, kept, self.moment)
    }

    fn tick(&mut self, by: u64)
        requires { self.old.now + by < MOMENTS }
        ensures { self.new ≡ step self.old (Event.Tick by) }
    {
        self.moment += by;
    }
}

fn new_servers(alloc: Global, setup: Setup) -> Result<Vec<ServerState>, AllocError>
    requires { IsSetup setup }
    ensures { IfOk result (λ servers. servers.items ≡ map (new_server setup) (range_with_len 0 setup.servers)) }
{
    let mut servers = Vec::with_capacity(alloc, setup.servers as usize)?;
    for number in 0..setup.servers {
        servers.push(ServerState::new(alloc, number, setup))?;
    }
    Ok(servers)
}

fn new_seats(alloc: Global, setup: Setup) -> Result<Vec<ClientState>, AllocError>
    requires { IsSetup setup }
    ensures { IfOk result (λ clients. clients.items ≡ map (new_seat setup) (range_with_len 1 setup.clients)) }
{
    let mut clients = Vec::with_capacity(alloc, setup.clients as usize)?;
    for number in 0..setup.clients {
        clients.push(ClientState::new(alloc, number + 1, setup))?;
    }
    Ok(clients)
}
