//! Carries out calls whose replies are known.
ghost use Rattle.std.specs.Prelude.{◌≡◌, IfOk, MatchBool};
ghost use Rattle.mds_base.specs.PlainRules.{Allows, SealAllows, UnsealAllows, KillAllows, after};
ghost use Rattle.plain_dir.specs.Steps.{IsNoLoad};

use crate::allowing::{
    may_find, may_grab, may_make, may_make_directory, may_remove, may_set, may_unlink, may_unseal,
};
use crate::directory::PlainDir;
use mds_base::{Call, Final, Reply, Row};
use std::alloc::{AllocError, Global};

impl PlainDir {
    /// Carries a call out that got this reply, where the plain rules allow it, and answers whether they do.
    pub(crate) fn takes(
        &mut self,
        alloc: Global,
        call: &Call,
        reply: &Reply,
    ) -> Result<bool, AllocError>
        ensures { let P = Allows self.old call.now reply.now in IfOk result
            (λ b. MatchBool b (P × (self.new ≡ after self.old call.now reply.now)) (P → ⊥)) }
    {
        if let Call::Load { dir, rows } = call {
            return self.takes_load(alloc, *dir, rows.rows(), reply);
        }
        if !self.allows(alloc, call, reply)? {
            return Ok(false);
        }
        self.follow(alloc, call, reply)?;
        Ok(true)
    }

    fn takes_load(
        &mut self,
        alloc: Global,
        dir: u64,
        rows: &[Row],
        reply: &Reply,
    ) -> Result<bool, AllocError>
        ensures { let P = Allows self.old (Call.Load dir rows.now) reply.now in IfOk result
            (λ b. MatchBool b (P × (self.new ≡ after self.old (Call.Load dir rows.now) reply.now)) (P → ⊥)) }
    {
        match reply {
            Reply::Said(said) => match said {
                Final::Stale => Ok(true),
                Final::Loaded(number) => {
                    let count = self.load(alloc, dir, rows)?;
                    Ok(count == *number as usize)
                }
                _ => Ok(false),
            },
            _ => Ok(false),
        }
    }

    /// Whether a call that is no load may be answered so.
    fn allows(&self, alloc: Global, call: &Call, reply: &Reply) -> Result<bool, AllocError>
        requires { IsNoLoad call.now }
        ensures { let P = Allows self.now call.now reply.now in IfOk result (λ b. MatchBool b P (P → ⊥)) }
    {
        match call {
            Call::Create { dir, name } => {
                let before = self.find(alloc, *dir, name)?;
                Ok(may_make(before, reply, Final::Created))
            }
            Call::Mkdir { dir, name } => {
                let before = self.find(alloc, *dir, name)?;
                Ok(may_make_directory(before, reply))
            }
            Call::Link { dir, name, id } => {
                let before = self.find(alloc, *dir, name)?;
                Ok(may_make(before, reply, Final::CreatedDir(*id)))
            }
            Call::Remove { dir, name } => {
                let before = self.find(alloc, *dir, name)?;
                Ok(may_remove(before, reply))
            }
            Call::Unlink { dir, name, id } => {
                let before = self.find(alloc, *dir, name)?;
                Ok(may_unlink(before, *id, reply))
            }
            Call::Setattr { dir, name, .. } => {
                let before = self.find(alloc, *dir, name)?;
                Ok(may_set(before, reply))
            }
            Call::Lookup { dir, name } => {
                let before = self.find(alloc, *dir, name)?;
                Ok(may_find(before, reply))
            }
            Call::Grab { .. } => Ok(may_grab(reply)),
            Call::Seal { dir, .. } => Ok(self.may_seal(*dir, reply)),
            Call::Unseal { .. } => Ok(may_unseal(reply)),
            Call::Kill { dir, .. } => Ok(self.may_kill(*dir, reply)),
            Call::Scan { .. } => Ok(false),
            Call::Load { .. } => unreachable!(),
        }
    }

    /// Whether a seal may be answered so.
    #[tactic(auto, using(crate::proofs::Applied::not_both))]
    fn may_seal(&self, dir: u64, reply: &Reply) -> bool
        ensures { let P = SealAllows self.now dir reply.now in MatchBool result P (P → ⊥) }
    {
        match reply {
            Reply::Said(said) => match said {
                Final::Sealed { .. } => true,
                Final::Late => true,
                Final::NotEmpty => self.has_entry(dir),
                Final::Killed => !self.has_entry(dir),
                _ => false,
            },
            _ => false,
        }
    }

    /// Whether a kill may be answered so.
    #[tactic(auto, using(crate::proofs::Applied::not_both))]
    fn may_kill(&self, dir: u64, reply: &Reply) -> bool
        ensures { let P = KillAllows self.now dir reply.now in MatchBool result P (P → ⊥) }
    {
        match reply {
            Reply::Said(said) => match said {
                Final::Late => true,
                Final::Killed => !self.has_entry(dir),
                _ => false,
            },
            _ => false,
        }
    }
}
