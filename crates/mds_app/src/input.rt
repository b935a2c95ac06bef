//! A reader as a source.
ghost use Rattle.std.specs.Prelude.{◌≡◌};

use mds_out::{Failed, Source};
use std::io::Read;

/// A source over a reader; each error of the reader is a fault.
#[derive(Drop)]
pub(crate) struct Input<R> {
    pub(crate) reader: R,
    pub(crate) faults: u64,
}

impl<R: Read> Input<R> {
    pub(crate) fn new(reader: R) -> Input<R>
        ensures { result ≡ record { reader = reader; faults = 0 } }
    {
        Input { reader, faults: 0 }
    }
}

impl<R: Read> Source for Input<R> {
    ghost left = { λ input. R.remaining input.reader };

    ghost faults = { λ input. input.faults };

    fn read(&mut self, into: &mut [u8]) -> Result<usize, Failed> {
        match self.reader.read(into) {
            Ok(count) => Ok(count),
            Err(_) => {
                self.faults = self.faults.saturating_add(1);
                Err(Failed)
            }
        }
    }
}
