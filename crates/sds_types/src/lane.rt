//! What a node has loaded from another in a channel.
use crate::Rule;
use sds_base::Txt;

/// The batch of a lane that is in error, its row from 1, and the rule that the row broke.
#[derive(Clone, Copy, Debug, PartialEq, Eq)]
pub struct LaneError {
    pub batch: u64,
    pub row: u32,
    pub rule: Rule,
}

/// What a node has loaded from another in a channel. One sender, one receiver and one channel make a lane.
#[derive(Debug, Drop)]
pub struct LaneIn {
    pub peer: Txt,
    /// The place of the channel.
    pub channel: u32,
    /// The highest number among the batches loaded, or 0.
    pub highest: u64,
    /// Whether that batch was ignored; none before a batch was loaded.
    pub ignored: Option<bool>,
    /// The batch after it that broke a rule, if one did.
    pub error: Option<LaneError>,
}
