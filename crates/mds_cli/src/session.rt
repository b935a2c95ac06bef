//! A run line by line: each line is carried out on a simulation, and the text of its events is made.
ghost use Rattle.std.specs.Prelude.{◌≡◌, ◌≤◌, ◌^◌, [], ◌∷◌, ◌++◌, IfOk, IfErr, OnOk, List, map, codes};
ghost use Rattle.std.specs.Io.KnownBytes.{Appends};
ghost use Rattle.mds_out.specs.Fault.{HasCause};
ghost use Rattle.mds_out.specs.Stream.{TakesFront};
ghost use Rattle.pasts.specs.Fuses.{seen_by, images_by};
ghost use Rattle.pasts.specs.Servers.{AreServers};
ghost use Rattle.pasts.specs.Starts.{AreDisks};
ghost use Rattle.world.specs.declared.state.ServerState.{ServerState};
ghost use Rattle.interpreter.specs.Payments.{Pays};
ghost use Rattle.interpreter.specs.Steps.{Carries};
ghost use Rattle.mds_cli.specs.Arming.{ArmsLine};
ghost use Rattle.mds_cli.specs.Follows.{IsCarriedOut};
ghost use Rattle.mds_cli.specs.SoFar.{HasStopped};
ghost use Rattle.mds_cli.specs.Payments.{fuses_armed};
ghost use Rattle.mds_cli.specs.Streams.{moment};
ghost use Rattle.mds_cli.specs.Turn.{CarriesAll, StopsCall, TakesTurn, StopsWith, FinishesWith, status_of};

use crate::line::{Line, Stop, flush, next_line, without_return};
use crate::reader::{LINE_LIMIT, Reader};
use crate::status::{Status, status_of_halt};
use interpreter::Interpreter;
use mds_base::Which;
use mds_out::{Disk, Failed, Sink, Source, write_whole};
use script::{LineFault, read_line};
use simulation::Simulation;
use std::alloc::Global;

/// The most lines that a script may have.
const LINE_COUNT: u64 = 1 << 22;

/// A run at one moment.
#[derive(Drop)]
pub(crate) struct Session<D: Disk> {
    /// The bytes that were read and not used yet.
    pub(crate) reader: Reader,
    /// The present line.
    pub(crate) line: Vec<u8>,
    /// The servers, clients and messages, and the text that was not written yet.
    pub(crate) interpreter: Interpreter<D>,
}

impl<D: Disk> Session<D> {
    /// A run before its first line.
    pub(crate) fn new(alloc: Global, reader: Reader, simulation: Simulation<D>) -> Session<D>
        ensures reader { result.reader ≡ reader }
        ensures simulation { result.interpreter.simulation ≡ simulation }
        ensures pending { result.interpreter.pending.items ≡ [] }
    {
        Session {
            reader,
            line: Vec::new(alloc),
            interpreter: Interpreter::new(alloc, simulation),
        }
    }

    /// Carries out all lines.
    pub(crate) fn carry<S: Source, K: Sink>(
        &mut self,
        alloc: Global,
        input: &mut S,
        output: &mut K,
    ) -> Result<(), Status>
        ensures ok { OnOk result (CarriesAll D.faults D.lasts D.seen D.images
            (moment S.left S.faults K.taken K.faults input.old output.old self.old.reader
            self.old.interpreter.pending.items)
            (moment S.left S.faults K.taken K.faults input.new output.new self.new.reader
            self.new.interpreter.pending.items)
            self.old.interpreter.simulation self.new.interpreter.simulation) }
        ensures err { IfErr result (λ status. HasStopped D.faults D.lasts D.seen D.images status 1
            (moment S.left S.faults K.taken K.faults input.old output.old self.old.reader
            self.old.interpreter.pending.items)
            (moment S.left S.faults K.taken K.faults input.new output.new self.new.reader
            self.new.interpreter.pending.items)
            self.old.interpreter.simulation self.new.interpreter.simulation) }
    {
        let mut number = 0;
        'lines: loop {
            number += 1;
            let found = self.turn(alloc, number, input, output)?;
            if !found.has_feed() {
                return Ok(());
            }
        }
    }

    /// Reads the next line and carries it out, as the line of this number. A line past the last one that a script may
    /// have is refused, as a bad one or by the limit.
    fn turn<S: Source, K: Sink>(
        &mut self,
        alloc: Global,
        number: u64,
        input: &mut S,
        output: &mut K,
    ) -> Result<Line, Status>
        ensures ok { IfOk result (λ found. TakesTurn D.faults D.lasts D.seen D.images found number
            (moment S.left S.faults K.taken K.faults input.old output.old self.old.reader
            self.old.interpreter.pending.items)
            (moment S.left S.faults K.taken K.faults input.new output.new self.new.reader
            self.new.interpreter.pending.items)
            self.old.interpreter.simulation self.new.interpreter.simulation) }
        ensures err { IfErr result (λ status. HasStopped D.faults D.lasts D.seen D.images status number
            (moment S.left S.faults K.taken K.faults input.old output.old self.old.reader
            self.old.interpreter.pending.items)
            (moment S.left S.faults K.taken K.faults input.new output.new self.new.reader
            self.new.interpreter.pending.items)
            self.old.interpreter.simulation self.new.interpreter.simulation) }
    {
        let found = match next_line(
            &mut self.reader,
            &mut self.line,
            &mut self.interpreter.pending,
            input,
            output,
        ) {
            Ok(found) => found,
            Err(stop) => return Err(status_of(stop, number)),
        };
        if !found.is_line() {
            return Ok(found);
        }
        self.carry_out(alloc, number)?;
        Ok(found)
    }

    /// Carries out the present line, as the one of this number.
    fn carry_out(&mut self, alloc: Global, number: u64) -> Result<(), Status>
        ensures ok { OnOk result (Carries (seen_by D.seen) (images_by D.images)
            self.old.interpreter.simulation self.new.interpreter.simulation
            self.old.interpreter.pending.items self.new.interpreter.pending.items
            (λ run. IsCarriedOut self.old.interpreter.simulation.setup run self.old.line.items)) }
        ensures within { OnOk result (number ≤ 2 ^ 22) }
        ensures paid { OnOk result
            (Pays D.faults D.lasts self.old.interpreter.simulation.stores self.new.interpreter.simulation.stores
            self.old.interpreter.pending.items self.new.interpreter.pending.items
            (fuses_armed (self.old.line.items ∷ []))) }
        ensures arms { OnOk result
            (ArmsLine self.old.line.items self.old.interpreter.simulation self.new.interpreter.simulation) }
        ensures err { IfErr result (λ status. StopsCall D.faults D.lasts D.seen D.images status
            self.old.interpreter.simulation self.new.interpreter.simulation
            self.old.interpreter.pending.items self.new.interpreter.pending.items self.old.line.items number) }
        ensures reader { self.new.reader ≡ self.old.reader }
        ensures setup { self.new.interpreter.simulation.setup ≡ self.old.interpreter.simulation.setup }
    {
        let bytes = without_return(&self.line);
        if bytes.len() > LINE_LIMIT {
            return Err(Status::BadScript { line: number });
        }
        let line = match read_line(alloc, bytes, &self.interpreter.simulation.setup()) {
            Ok(line) => line,
            Err(LineFault::NotALine) => return Err(Status::BadScript { line: number }),
            Err(LineFault::OutOfMemory) => return Err(Status::OutOfMemory),
        };
        if !self.interpreter.is_allowed(&line) {
            return Err(Status::BadScript { line: number });
        }
        if number > LINE_COUNT {
            return Err(Status::Limit {
                which: Which::Lines,
            });
        }
        match self.interpreter.carry_out(alloc, line) {
            Ok(()) => Ok(()),
            Err(halt) => Err(status_of_halt(halt)),
        }
    }

    /// Writes what is left of the text of a run whose lines were all carried out, and says how the run ended. Where
    /// there is no memory for the effects, only what was pending is written.
    pub(crate) fn finish<K: Sink>(&mut self, alloc: Global, output: &mut K) -> Status
        ensures cases { FinishesWith (seen_by D.seen) (images_by D.images) self.old.interpreter.simulation result
            (K.taken output.old) (K.taken output.new) (K.faults output.old) (K.faults output.new)
            self.old.interpreter.pending.items }
        ensures passed_on { result ≡ Status.Done → K.passed_on output.new }
        ensures simulation { self.new.interpreter.simulation ≡ self.old.interpreter.simulation }
    {
        let Ok(effects) = self.interpreter.effects(alloc) else {
            return self.stop(Status::OutOfMemory, output);
        };
        match self.write_rest(&effects, output) {
            Ok(()) => Status::Done,
            Err(Failed) => Status::WriteFault,
        }
    }

    /// Writes the text that is still pending, the effects and `end`, and passes all on.
    fn write_rest<K: Sink>(&self, effects: &[u8], output: &mut K) -> Result<(), Failed>
        ensures whole { OnOk result (Appends (K.taken output.old) (K.taken output.new)
            (self.now.interpreter.pending.items ++ effects.now ++ codes "end\n")) }
        ensures passed_on { OnOk result (K.passed_on output.new) }
        ensures front { TakesFront (K.taken output.old) (K.taken output.new)
            (self.now.interpreter.pending.items ++ effects.now ++ codes "end\n") }
        ensures cause { HasCause (K.faults output.old) (K.faults output.new) result }
    {
        write_both(output, &self.interpreter.pending, effects)?;
        write_whole(output, b"end\n")?;
        output.finish()
    }

    /// Writes the text that is still pending before the run stops with this status. Where the sink fails, or failed
    /// before, the status is `WriteFault`; but want of memory stays.
    pub(crate) fn stop<K: Sink>(&mut self, status: Status, output: &mut K) -> Status
        ensures cases { StopsWith status result (K.taken output.old) (K.taken output.new) (K.faults output.old)
            (K.faults output.new) self.old.interpreter.pending.items }
        ensures simulation { self.new.interpreter.simulation ≡ self.old.interpreter.simulation }
    {
        match status {
            Status::WriteFault => Status::WriteFault,
            Status::OutOfMemory => {
                let _ = flush(&mut self.interpreter.pending, output);
                Status::OutOfMemory
            }
            _ => match flush(&mut self.interpreter.pending, output) {
                Ok(()) => status,
                Err(Failed) => Status::WriteFault,
            },
        }
    }
}

impl<D: Disk + Drop> Session<D> {
    /// The disks, each at its place.
    pub(crate) fn into_disks(self) -> Vec<D>
        ensures left { (servers : List ServerState)
            → AreServers (seen_by D.seen) (images_by D.images) self.interpreter.simulation.setup
            self.interpreter.simulation.stores servers
            → AreDisks D.seen D.images self.interpreter.simulation.setup result.items servers }
        ensures same { result.items ≡ map (λ store. store.disk.inner) self.interpreter.simulation.stores }
    {
        let Session { interpreter, .. } = self;
        interpreter.into_disks()
    }
}

/// The status with which a run ends where no line was found.
fn status_of(stop: Stop, number: u64) -> Status
    ensures { result ≡ status_of stop number }
{
    match stop {
        Stop::TooLong => Status::BadScript { line: number },
        Stop::ReadFault => Status::ReadFault,
        Stop::WriteFault => Status::WriteFault,
        Stop::OutOfMemory => Status::OutOfMemory,
    }
}

/// Has the sink take two texts, one behind the other. Where it fails it has taken a front of both.
fn write_both<K: Sink>(output: &mut K, first: &[u8], second: &[u8]) -> Result<(), Failed>
    ensures whole { OnOk result (Appends (K.taken output.old) (K.taken output.new) (first.now ++ second.now)) }
    ensures front { TakesFront (K.taken output.old) (K.taken output.new) (first.now ++ second.now) }
    ensures cause { HasCause (K.faults output.old) (K.faults output.new) result }
{
    write_whole(output, first)?;
    write_whole(output, second)
}
