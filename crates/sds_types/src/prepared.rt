//! Batches that are read and ready to be loaded.
use crate::{LoadRow, Rule};
use sds_base::{List, Txt};

/// The rows of a batch, or the first one that can't be read.
#[derive(Debug, Drop)]
pub enum Body {
    Rows(List<LoadRow>),
    /// This row of the document, from 1, is the first that breaks one of the first five rules, and this is the first of
    /// them that it breaks.
    Broken { row: u32, rule: Rule },
}

/// A batch as a node loads it: transformed, and its texts read as values.
#[derive(Debug, Drop)]
pub struct Prepared {
    /// The node that sent it.
    pub from: Txt,
    /// The group of that node.
    pub from_group: Txt,
    /// The place of its channel; none where the configuration hasn't that channel.
    pub channel: Option<u32>,
    /// Its number at the sender.
    pub batch: u64,
    pub body: Body,
    /// For each table the place of the conflict setting that holds between the two groups, or none.
    pub settings: List<Option<u32>>,
}
