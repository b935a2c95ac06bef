//! Calls that are counted, of which some fail by their number.
ghost use Rattle.std.specs.Prelude.{◌≡◌, ◌+◌, OnErr, is_err};
ghost use Rattle.mds_out.specs.Calls.{is_failing, next_number, failed_calls};
ghost use Rattle.mds_out.specs.Fault.{HasCause};

use crate::Failed;

#[derive(Drop)]
pub(crate) struct Calls {
    pub(crate) fails: Vec<u64>,
    pub(crate) made: u64,
}

impl Calls {
    /// Counts one call more, and says whether it fails.
    pub(crate) fn make(&mut self) -> Result<(), Failed>
        ensures counted { self.new.made ≡ next_number self.old.made }
        ensures fails { self.new.fails.items ≡ self.old.fails.items }
        ensures exact { is_err result ≡ is_failing self.old.fails.items self.old.made }
        ensures cause { HasCause (failed_calls self.old.fails.items self.old.made)
            (failed_calls self.new.fails.items self.new.made) result }
    {
        let number = self.made;
        if number == u64::MAX {
            return Ok(());
        }
        self.made = number + 1;
        if self.fails.contains(&number) {
            return Err(Failed);
        }
        Ok(())
    }
}
