//! The servers on their disks, the clients, and every message that was ever sent, in one process: each event that is
//! carried out is a step of the world (`crates/simulation/README.md`, "Simulation").
#![tactic(auto)]

mod clients;
mod entries;
mod opening;
mod places;
mod servers;
mod simulation;
mod waiting;
mod waits;

pub use message_store::{Kind, Made};
pub use servers::{Restarted, Served};
pub use simulation::Simulation;
