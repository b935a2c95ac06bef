//! A run of the program, from its disks to its disks.
ghost use Rattle.std.specs.Prelude.{◌≡◌, [], length};
ghost use Rattle.mds_base.specs.Setups.{IsSetup};
ghost use Rattle.pasts.specs.Openings.{ComeBack};
ghost use Rattle.mds_cli.specs.Disks.{LeadToDisks};
ghost use Rattle.mds_cli.specs.Ending.{HasEnded, EndsSo, outside};
ghost use Rattle.mds_cli.specs.Payments.{TextIsPaid, ScriptIsPaid};

use crate::reader::Reader;
use crate::session::Session;
use crate::status::{Status, status_of_fault};
use mds_base::Setup;
use mds_out::{Disk, Sink, Source};
use pasts::{NotOpened, laws_of_pasts};
use simulation::Simulation;
use std::alloc::Global;
use world::laws_of_runs;

/// How a run ended, and its disks, each at the place at which it was handed in.
#[derive(Drop)]
pub struct Ended<D> {
    /// How it ended.
    pub status: Status,
    /// The disks.
    pub disks: Vec<D>,
}

/// Opens the servers on their disks and carries out a script, and writes its text.
pub(crate) fn run<S: Source, K: Sink, D: Disk + Drop>(
    alloc: Global,
    setup: Setup,
    input: &mut S,
    output: &mut K,
    disks: Vec<D>,
) -> Ended<D>
    requires setup { IsSetup setup }
    requires disks { length disks.items ≡ setup.servers }
    ensures ends { HasEnded D.faults D.seen D.images setup result.status disks.items result.disks.items
        (outside (S.left input.old) (K.taken output.old) (S.faults input.old) (K.faults output.old))
        (outside (S.left input.new) (K.taken output.new) (S.faults input.new) (K.faults output.new)) }
    ensures passed_on { result.status ≡ Status.Done → K.passed_on output.new }
    ensures paid { TextIsPaid D.faults disks.items result.disks.items (S.left input.old) (K.taken output.old)
        (K.taken output.new) }
    ensures disks { ComeBack D.lasts disks.items result.disks.items }
{
    laws_of_runs();
    laws_of_pasts::<D>();
    let Ok(reader) = Reader::new(alloc) else {
        return Ended {
            status: Status::OutOfMemory,
            disks,
        };
    };
    match Simulation::open(alloc, setup, disks) {
        Ok(simulation) => carry_script(alloc, reader, simulation, input, output),
        Err(
            NotOpened {
                disks,
                server,
                fault,
            },
        ) => Ended {
            status: status_of_fault(server, fault),
            disks,
        },
    }
}

/// Carries out a script on servers that were opened, and writes its text.
fn carry_script<S: Source, K: Sink, D: Disk + Drop>(
    alloc: Global,
    reader: Reader,
    simulation: Simulation<D>,
    input: &mut S,
    output: &mut K,
) -> Ended<D>
    requires { reader ≡ [] }
    ensures ends { EndsSo D.faults D.seen D.images result.status
        (outside (S.left input.old) (K.taken output.old) (S.faults input.old) (K.faults output.old))
        (outside (S.left input.new) (K.taken output.new) (S.faults input.new) (K.faults output.new))
        simulation result.disks.items }
    ensures passed_on { result.status ≡ Status.Done → K.passed_on output.new }
    ensures paid { ScriptIsPaid D.faults simulation.stores result.disks.items (S.left input.old) (K.taken output.old)
        (K.taken output.new) }
    ensures disks { LeadToDisks D.lasts simulation.stores result.disks.items }
{
    let mut session = Session::new(alloc, reader, simulation);
    match session.carry(alloc, input, output) {
        Ok(()) => {
            let status = session.finish(alloc, output);
            Ended {
                status,
                disks: session.into_disks(),
            }
        }
        Err(status) => {
            let status = session.stop(status, output);
            Ended {
                status,
                disks: session.into_disks(),
            }
        }
    }
}
