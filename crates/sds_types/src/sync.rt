//! Why messages aren't made or taken.
use crate::NodeFault;

/// Why no message is made.
#[derive(Debug, Drop)]
pub enum SyncRefusal {
    /// The other node is no peer, or no link leads to its group.
    NoWay,
    Fault(NodeFault),
}

/// Why a message isn't answered. After all but `NoWay` the batches that were loaded so far stand.
#[derive(Debug, Drop)]
pub enum PushRefusal {
    /// The sender is no peer, or no link leads from its group.
    NoWay,
    /// A reading of the message failed.
    ReadFault,
    /// The message ended early.
    Short,
    Fault(NodeFault),
}
