/// When what was written reaches the device.
#[derive(Clone, Copy, Debug, PartialEq, Eq)]
pub enum Syncing {
    /// At a sync, before it answers.
    Each,
    /// When the system chooses: a sync does nothing. What was written outlives the process, and not a machine that
    /// stops.
    Never,
}
