//! Where bytes come from, piece by piece.
ghost use Rattle.std.specs.Prelude.{◌≡◌, ◌≤◌, List, ℕ, Option, length, IfOk, OnErr};
ghost use Rattle.std.specs.Io.KnownBytes.{Keeps};
ghost use Rattle.mds_out.specs.Fault.{HasCause};
ghost use Rattle.mds_out.specs.Stream.{Gives};

use thiserror::Error;

/// A call of a source or a sink did not succeed: its count of faults has risen, and it gave or took nothing.
#[derive(Clone, Copy, Debug, PartialEq, Eq, Error)]
#[error("the call failed")]
pub struct Failed;

/// Bytes that are read in pieces.
pub trait Source {
    /// The bytes that are still to come, where the source tells them.
    ghost left: { Self → Option (List ℕ) };

    /// How often the source has failed.
    ghost faults: { Self → ℕ };

    /// Puts the next `k` bytes at the start of `into` and takes them from what is left; `Ok(0)` is the end of input.
    /// What then stands in `into` behind them is not said. `Failed` takes nothing.
    fn read(&mut self, into: &mut [u8]) -> Result<usize, Failed>
        requires { 1 ≤ length into.old }
        ensures given { IfOk result (Gives (left self.old) (left self.new) into.new) }
        ensures unchanged { OnErr result (Keeps (left self.old) (left self.new)) }
        ensures cause { HasCause (faults self.old) (faults self.new) result };
}
