//! The parts of a node's state as records tell them.
use sds_types::{Change, Counts, KeptPeer, LaneIn, Opening, OutBatch, TableRow, WriterLast};
use sds_value::Peer;

/// A part of a node's state that a record tells.
#[derive(Debug, Drop)]
pub enum Told {
    /// The node itself.
    Me(Peer),
    /// The node's counters.
    Counts(Counts),
    /// A peer of the node.
    Peer(KeptPeer),
    /// A registration that the node has opened.
    Opening(Opening),
    /// A writer's last write.
    Writer(WriterLast),
    /// A row with the place of its table.
    Row(TableRow),
    /// A captured change.
    Change(Change),
    /// A batch that the node has made.
    Batch(OutBatch),
    /// What the node has loaded in a lane.
    Lane(LaneIn),
}
