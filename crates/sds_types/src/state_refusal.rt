//! Why kept records are no node's.
use sds_base::Bytes;

/// Why records aren't read as the state of a node.
#[derive(Debug, Drop)]
pub enum StateRefusal {
    /// The record of this key isn't of its form; an empty key where the record of the node itself is missing.
    BadRecord(Bytes),
    /// The record of this key disagrees with the configuration or with other records.
    Contradicts(Bytes),
    NoMemory,
}
