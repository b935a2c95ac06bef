//! What becomes of a message on its way.

/// What a link does with one message.
#[derive(Clone, Copy, Debug, PartialEq, Eq)]
pub enum Fate {
    /// It arrives, once.
    Deliver,
    /// It never arrives.
    Lose,
    /// It arrives, and once more later.
    Twice,
    /// It arrives later.
    Late,
}
