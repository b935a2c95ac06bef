//! The way that a client's messages take.
ghost use Rattle.std.specs.Prelude.{ℕ};
ghost use Rattle.mds_out.specs.Fates.{HasFateCause};

use crate::Fate;

/// Decides of each message of one client what becomes of it.
pub trait Link {
    /// How many messages the link lost or kept for later.
    ghost faults: { Self → ℕ };

    /// What becomes of the message of this attempt at this call. The count rises at each `Lose` and each `Late`, and
    /// stays at the others.
    fn fate(&mut self, client: u32, seq: u64, attempt: u32) -> Fate
        ensures { HasFateCause (faults self.old) (faults self.new) result };
}
