//! Where bytes go, piece by piece.
ghost use Rattle.std.specs.Prelude.{◌≡◌, ◌≤◌, List, ℕ, Option, length, IfOk, OnOk, OnErr};
ghost use Rattle.std.specs.Io.KnownBytes.{Appends, Keeps};
ghost use Rattle.mds_out.specs.Fault.{HasCause};
ghost use Rattle.mds_out.specs.Stream.{Takes, TakesFront};

use crate::Failed;

/// Takes bytes in pieces.
pub trait Sink {
    /// All bytes that the sink has taken, where it tells them.
    ghost taken: { Self → Option (List ℕ) };

    /// All that was taken was passed on.
    ghost passed_on: { Self → Type 0 };

    /// How often the sink has failed.
    ghost faults: { Self → ℕ };

    /// Takes the first `k` bytes, at least one. `Failed` takes nothing.
    fn write(&mut self, bytes: &[u8]) -> Result<usize, Failed>
        requires { 1 ≤ length bytes.now }
        ensures taken { IfOk result (Takes (taken self.old) (taken self.new) bytes.now) }
        ensures unchanged { OnErr result (Keeps (taken self.old) (taken self.new)) }
        ensures cause { HasCause (faults self.old) (faults self.new) result };

    /// Passes on what was taken. At `Ok` and at `Failed` what was taken stays as it is.
    fn finish(&mut self) -> Result<(), Failed>
        ensures unchanged { Keeps (taken self.old) (taken self.new) }
        ensures passed_on { OnOk result (passed_on self.new) }
        ensures cause { HasCause (faults self.old) (faults self.new) result };
}

/// Has the sink take all of these bytes, in as many writes as it needs.
/// `Failed` comes with the first write that fails; the sink has then taken a front of the bytes.
pub fn write_whole<K: Sink>(out: &mut K, bytes: &[u8]) -> Result<(), Failed>
    ensures whole { OnOk result (Appends (K.taken out.old) (K.taken out.new) bytes.now) }
    ensures front { TakesFront (K.taken out.old) (K.taken out.new) bytes.now }
    ensures cause { HasCause (K.faults out.old) (K.faults out.new) result }
{
    let mut rest = bytes;
    while !rest.is_empty() {
        let count = out.write(rest)?;
        rest = &rest[count..];
    }
    Ok(())
}
