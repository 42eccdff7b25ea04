//! What a node has, as its records tell it.
use sds_base::List;
use sds_rows::Tables;
use sds_types::{Change, Counts, KeptPeer, LaneIn, Opening, OutBatch, WriterLast};
use sds_value::Peer;

/// What a node has: all that it keeps. Peers, openings, writers and lanes ascend by the bytes of
/// their records' keys, rows by table and key, changes and batches by number.
#[derive(Debug, Drop)]
pub struct State {
    /// The node itself.
    pub me: Peer,
    /// The node's counters.
    pub counts: Counts,
    /// The peers that the node has.
    pub peers: List<KeptPeer>,
    /// The registrations that the node has opened.
    pub openings: List<Opening>,
    /// The last write of each writer.
    pub writers: List<WriterLast>,
    /// The rows of the tables.
    pub tables: Tables,
    /// The captured changes.
    pub changes: List<Change>,
    /// The batches that the node has made.
    pub batches: List<OutBatch>,
    /// What the node has loaded in each lane.
    pub lanes: List<LaneIn>,
}
