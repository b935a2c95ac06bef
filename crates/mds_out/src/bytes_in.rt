//! A source over bytes in memory.
ghost use Rattle.std.specs.Prelude.{◌≡◌, ◌≤◌, ◌++◌, List, ℕ, Some, length, take, drop, is_err, IfOk, OnErr};
ghost use Rattle.std.specs.Io.KnownBytes.{Keeps};
ghost use Rattle.mds_out.specs.Calls.{is_failing, failed_calls};
ghost use Rattle.mds_out.specs.Fault.{HasCause};
ghost use Rattle.mds_out.specs.Stream.{Gives};
ghost use Rattle.mds_out.specs.BytesIn.{given_count, after_read};

use crate::calls::Calls;
use crate::{Failed, Source};
use std::marker::Model;

/// Gives its bytes, at most `step` of them a call, and fails at the calls that its maker named.
#[derive(Drop)]
pub struct BytesIn {
    bytes: Vec<u8>,
    at: usize,
    step: usize,
    calls: Calls,
}

impl Model for BytesIn {
    ghost use Rattle.std.specs.Prelude.{◌≤◌, drop, length};
    ghost use Rattle.mds_out.specs.BytesIn.{Reading};

    ghost Value = { Reading };

    ghost view = { λ s.
        record { left = drop s.at s.bytes.items; step = s.step; fails = s.calls.fails.items; made = s.calls.made } };

    ghost invariant = { λ s. (s.at ≤ length s.bytes.items) × (1 ≤ s.step) };
}

impl BytesIn {
    /// A source of these bytes that gives at most `step` of them a call. The calls whose numbers, from 0, stand in
    /// `fails` fail; the number 2^64 - 1 stands for none.
    pub fn new(bytes: Vec<u8>, step: usize, fails: Vec<u64>) -> BytesIn
        requires { 1 ≤ step }
        ensures { result ≡ record { left = bytes.items; step = step; fails = fails.items; made = 0 } }
    {
        BytesIn {
            bytes,
            at: 0,
            step,
            calls: Calls { fails, made: 0 },
        }
    }
}

impl Source for BytesIn {
    ghost left = { λ s. Some s.left };

    ghost faults = { λ s. failed_calls s.fails s.made };

    fn read(&mut self, into: &mut [u8]) -> Result<usize, Failed>
        requires { 1 ≤ length into.old }
        ensures given { IfOk result (Gives (Some self.old.left) (Some self.new.left) into.new) }
        ensures unchanged { OnErr result (Keeps (Some self.old.left) (Some self.new.left)) }
        ensures cause { HasCause (failed_calls self.old.fails self.old.made) (failed_calls self.new.fails self.new.made)
            result }
        ensures fails { is_err result ≡ is_failing self.old.fails self.old.made }
        ensures count { IfOk result
            (λ k. (k ≡ given_count self.old (length into.old)) × (self.new ≡ after_read self.old k)) }
        ensures rest { IfOk result (λ k. drop k into.new ≡ drop k into.old) }
        ensures failed { OnErr result (self.new ≡ after_read self.old 0) }
    {
        self.calls.make()?;
        let count = self.step.min(into.len()).min(self.bytes.len() - self.at);
        into[..count].copy_from_slice(&self.bytes[self.at..self.at + count]);
        self.at += count;
        Ok(count)
    }
}
