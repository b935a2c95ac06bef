ghost use Rattle.std.specs.Prelude.{IfOk};
ghost use Rattle.mds_base.specs.Setups.{IsSetup};
ghost use Rattle.world.specs.Runs.{RunsAs, HoldsIfWhole};

use crate::event::Event;
use crate::world::World;
use mds_base::Setup;
use std::alloc::{AllocError, Global};

/// How a run went.
#[derive(Debug, Drop)]
pub enum Ran {
    /// Each event was enabled when it came; this is the world after all.
    Whole(World),
    /// The event at this place, counted from 0, is the first that was not enabled when it came.
    NotEnabled { place: u64 },
}

/// Lets events happen, one after another, in a world of new servers and new clients, until one is not enabled. Where
/// each is, the law of runs holds of the run (`crates/world/README.md`, "Every run is explained").
pub fn run(alloc: Global, setup: Setup, events: &[Event]) -> Result<Ran, AllocError>
    requires { IsSetup setup }
    ensures ran { IfOk result (RunsAs setup events.now) }
    ensures law { IfOk result (HoldsIfWhole setup events.now) }
{
    let mut world = World::new(alloc, setup)?;
    for (place, event) in events.iter().enumerate() {
        if !world.enabled(event) {
            return Ok(Ran::NotEnabled {
                place: place as u64,
            });
        }
        world.step(alloc, event)?;
    }
    Ok(Ran::Whole(world))
}
