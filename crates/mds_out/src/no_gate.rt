//! A gate that holds nobody.

use crate::Gate;

/// Lets each call pass at once.
#[derive(Clone, Copy, Debug, PartialEq, Eq)]
pub struct NoGate;

impl Gate for NoGate {
    fn pass(&self, _client: u32, _seq: u64) {}
}
