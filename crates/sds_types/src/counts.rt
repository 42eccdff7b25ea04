//! A node's counters.
use sds_base::Txt;

/// A node's counters. Each ends at 2^62.
#[derive(Clone, Copy, Debug, PartialEq, Eq)]
pub struct Counts {
    /// How many acts were made: commits that changed the node.
    pub acts: u64,
    pub last_change: u64,
    pub last_batch: u64,
    pub last_tx: u64,
    /// The last change at the last routing run.
    pub routed: u64,
}

/// A writer's last accepted write.
#[derive(Debug, Drop)]
pub struct WriterLast {
    pub writer: Txt,
    pub number: u64,
    /// The first change captured, or the next one where none was.
    pub first: u64,
    /// How many changes were captured.
    pub count: u32,
}
