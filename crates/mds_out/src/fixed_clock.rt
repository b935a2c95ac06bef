//! A clock that stands still.
ghost use Rattle.std.specs.Prelude.{◌≡◌, ◌^◌, ◌<◌};

use crate::Clock;

/// Tells the same moment at each reading.
#[derive(Clone, Copy, Debug, PartialEq, Eq)]
pub struct FixedClock {
    /// The moment, below 2^43.
    pub at: u64,
    pub ghost in_range: { at < 2 ^ 43 },
}

impl Clock for FixedClock {
    fn now(&self) -> u64
        ensures below { result < 2 ^ 43 }
        ensures fixed { result ≡ self.now.at }
    {
        self.at
    }

    fn pause(&self, _until: u64) {}
}
