//! The parts of a node's state, each of which has a record of its own.
use sds_types::{Change, Counts, KeptPeer, LaneIn, Opening, OutBatch, Row, WriterLast};
use sds_value::Peer;

/// A part of a node's state. Each is kept as one record.
#[derive(Drop)]
pub enum Part<'a> {
    /// The node itself.
    Me(&'a Peer),
    /// The node's counters.
    Counts(&'a Counts),
    /// A peer of the node.
    Peer(&'a KeptPeer),
    /// A registration that the node has opened.
    Opening(&'a Opening),
    /// A writer's last write.
    Writer(&'a WriterLast),
    /// A row of the table at this place.
    Row(u32, &'a Row),
    /// A captured change.
    Change(&'a Change),
    /// A batch that the node has made.
    Batch(&'a OutBatch),
    /// What the node has loaded in a lane.
    Lane(&'a LaneIn),
}
