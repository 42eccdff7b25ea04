//! Links between node groups.
use sds_base::{NoMemory, Twin};
use std::alloc::Global;

/// How batches come over a link (the SymmetricDS guide's chapter on group links).
#[derive(Clone, Copy, Debug, PartialEq, Eq)]
pub enum Action {
    /// The source pushes.
    P,
    /// The source waits for a pull.
    W,
}

/// A way by which changes go from one node group to another.
#[derive(Clone, Copy, Debug, PartialEq, Eq)]
pub struct LinkDef {
    /// The place of the sending group.
    pub source: u32,
    /// The place of the receiving group.
    pub target: u32,
    pub action: Action,
}

impl Twin for LinkDef {
    fn twin(&self, _alloc: Global) -> Result<LinkDef, NoMemory> {
        Ok(*self)
    }
}
