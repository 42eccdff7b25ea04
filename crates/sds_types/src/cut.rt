//! Pieces of a list of changes.

/// A piece of a list of changes, which becomes a batch.
#[derive(Clone, Copy, Debug, PartialEq, Eq)]
pub struct Cut {
    /// The place of its first change, from 0.
    pub first: u64,
    /// How many changes it has, at least 1.
    pub count: u64,
}
