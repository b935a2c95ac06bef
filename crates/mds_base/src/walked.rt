use crate::attr::Attr;

/// The verdict of a walk along a path. The places are those of the path's components, counted from 0.
#[derive(Clone, Copy, Debug, PartialEq, Eq)]
pub enum Walked {
    /// Each component was found; these are the attributes of the last.
    Found(Attr),
    /// The component there is absent.
    Missing { at: u32 },
    /// The component there is a file, and is not the last.
    NotDir { at: u32 },
    /// The component there is no name; at 0 also where the path does not begin with a slash.
    BadPath { at: u32 },
    /// The lookup of the component there was not answered.
    Open { at: u32 },
}
