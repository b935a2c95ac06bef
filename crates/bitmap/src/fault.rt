use thiserror::Error;

/// A child was refused: the bitmap lacks a partition that it has to have with the child.
#[derive(Debug, Clone, Copy, PartialEq, Eq, Error)]
#[error("partition {bit} is missing")]
pub struct NoParent {
    /// The least partition that is missing.
    pub bit: u32,
}

/// Words were refused: they are not well formed.
#[derive(Debug, Clone, Copy, PartialEq, Eq, Error)]
#[error("partition {bit} is missing")]
pub struct BadBitmap {
    /// The least partition that is missing.
    pub bit: u32,
}
