//! The world of servers, clients and every message ever sent.
//!
//! It stands on `node_core` for servers, on `client_core` for clients, on `mds_base`'s `MapRows` for rows, and on
//! `records` for messages. Its contract: `World::enabled` and `World::step` equal the definitions of
//! `specs/Events.antt`, `run` carries a list of events out up to the first that is not enabled, and of each run of
//! enabled events the law of `specs/Law.antt` holds: it is explained, it ends well, and each name has one owner. An
//! event costs what the server or the client makes of it; the list of messages only grows. Where there is no memory for
//! an event the world is given up.
#![tactic(auto)]

mod enabling;
mod event;
mod law;
mod running;
mod state;
mod world;

pub use event::{Event, ServeEnd, StopCause};
pub use law::{laws_of_hints, laws_of_runs};
pub use running::{Ran, run};
pub use state::{ClientState, ServerState};
pub use world::World;
