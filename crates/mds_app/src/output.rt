//! A writer as a sink.
ghost use Rattle.std.specs.Prelude.{◌≡◌, ⊤};

use mds_out::{Failed, Sink};
use std::io::Write;

/// A sink over a writer; each error of the writer, and a write that takes nothing, is a fault.
#[derive(Drop)]
pub(crate) struct Output<W> {
    pub(crate) writer: W,
    pub(crate) faults: u64,
}

impl<W: Write> Output<W> {
    pub(crate) fn new(writer: W) -> Output<W>
        ensures { result ≡ record { writer = writer; faults = 0 } }
    {
        Output { writer, faults: 0 }
    }
}

impl<W: Write> Sink for Output<W> {
    ghost taken = { λ output. W.contents output.writer };

    ghost passed_on = { λ output. ⊤ };

    ghost faults = { λ output. output.faults };

    fn write(&mut self, bytes: &[u8]) -> Result<usize, Failed> {
        match self.writer.write(bytes) {
            Ok(0) | Err(_) => {
                self.faults = self.faults.saturating_add(1);
                Err(Failed)
            }
            Ok(count) => Ok(count),
        }
    }

    fn finish(&mut self) -> Result<(), Failed> {
        match self.writer.flush() {
            Ok(()) => Ok(()),
            Err(_) => {
                self.faults = self.faults.saturating_add(1);
                Err(Failed)
            }
        }
    }
}
