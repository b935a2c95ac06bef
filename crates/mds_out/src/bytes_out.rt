//! A sink over bytes in memory.
ghost use Rattle.std.specs.Prelude.{◌≡◌, ◌≤◌, [], Some, true, false, length, min, take, is_err, IfOk, OnOk, OnErr};
ghost use Rattle.std.specs.Prelude.{IsTrue};
ghost use Rattle.std.specs.Io.KnownBytes.{Keeps};
ghost use Rattle.mds_out.specs.BytesOut.{writing_faults, fails_next, after_write, after_refusal, after_finish};
ghost use Rattle.mds_out.specs.Fault.{HasCause};
ghost use Rattle.mds_out.specs.Stream.{Takes};

use crate::calls::Calls;
use crate::{Failed, Sink};
use std::alloc::{AllocError, Global};
use std::marker::Model;

/// Keeps the bytes that it takes, at most `step` of them a write, and fails at the calls that its maker named and
/// where it finds no memory.
#[derive(Drop)]
pub struct BytesOut {
    bytes: Vec<u8>,
    step: usize,
    calls: Calls,
    refused: u64,
    passed: bool,
}

impl Model for BytesOut {
    ghost use Rattle.std.specs.Prelude.{◌≤◌};
    ghost use Rattle.mds_out.specs.BytesOut.{Writing};

    ghost Value = { Writing };

    ghost view = { λ s.
        record {
          taken = s.bytes.items;
          step = s.step;
          fails = s.calls.fails.items;
          made = s.calls.made;
          refused =
              s.refused;
          passed = s.passed;
        } };

    ghost invariant = { λ s. 1 ≤ s.step };
}

impl BytesOut {
    /// A sink that has taken nothing and takes at most `step` bytes a write. The calls of `write` and `finish`,
    /// numbered together from 0, that stand in `fails` fail; the number 2^64 - 1 stands for none.
    pub fn new(alloc: Global, step: usize, fails: Vec<u64>) -> Result<BytesOut, AllocError>
        requires { 1 ≤ step }
        ensures { IfOk result
            (λ out. out ≡ record {
              taken = [];
              step = step;
              fails = fails.items;
              made = 0;
              refused = 0;
              passed =
                  true;
            }) }
    {
        Ok(BytesOut {
            bytes: Vec::new(alloc),
            step,
            calls: Calls { fails, made: 0 },
            refused: 0,
            passed: true,
        })
    }

    /// The bytes that were taken.
    pub fn bytes(&self) -> &[u8]
        ensures { result.now ≡ self.now.taken }
    {
        &self.bytes
    }
}

impl Sink for BytesOut {
    ghost taken = { λ s. Some s.taken };

    ghost passed_on = { λ s. IsTrue s.passed };

    ghost faults = { writing_faults };

    fn write(&mut self, bytes: &[u8]) -> Result<usize, Failed>
        requires { 1 ≤ length bytes.now }
        ensures taken { IfOk result (Takes (Some self.old.taken) (Some self.new.taken) bytes.now) }
        ensures unchanged { OnErr result (Keeps (Some self.old.taken) (Some self.new.taken)) }
        ensures cause { HasCause (writing_faults self.old) (writing_faults self.new) result }
        ensures fails { OnOk result (fails_next self.old ≡ false) }
        ensures count { IfOk result
            (λ k. (k ≡ min self.old.step (length bytes.now)) × (self.new ≡ after_write self.old (take k bytes.now))) }
        ensures failed { OnErr result (self.new ≡ after_refusal self.old) }
    {
        self.calls.make()?;
        let count = self.step.min(bytes.len());
        if self.bytes.extend_from_slice(&bytes[..count]).is_err() {
            self.refused = self.refused.saturating_add(1);
            return Err(Failed);
        }
        self.passed = false;
        Ok(count)
    }

    fn finish(&mut self) -> Result<(), Failed>
        ensures unchanged { Keeps (Some self.old.taken) (Some self.new.taken) }
        ensures passed_on { OnOk result (IsTrue self.new.passed) }
        ensures cause { HasCause (writing_faults self.old) (writing_faults self.new) result }
        ensures fails { is_err result ≡ fails_next self.old }
        ensures after { OnOk result (self.new ≡ after_finish self.old) }
        ensures failed { OnErr result (self.new ≡ after_refusal self.old) }
    {
        self.calls.make()?;
        self.passed = true;
        Ok(())
    }
}
