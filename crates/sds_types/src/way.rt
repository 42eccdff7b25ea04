//! The way of a batch.
use sds_base::Txt;

/// The node that a batch comes from and the node that it goes to, each with its group.
#[derive(Debug, Drop)]
pub struct Way {
    pub source: Txt,
    pub source_group: Txt,
    pub target: Txt,
    pub target_group: Txt,
}
