//! The time of day, as far as leases need it.
ghost use Rattle.std.specs.Prelude.{◌^◌, ◌<◌};

/// Tells moments, in milliseconds.
pub trait Clock {
    /// The moment now, below 2^43. Of two readings the later one may be smaller.
    fn now(&self) -> u64
        ensures { result < 2 ^ 43 };

    /// May wait until the clock tells this moment. It promises nothing.
    fn pause(&self, until: u64);
}
