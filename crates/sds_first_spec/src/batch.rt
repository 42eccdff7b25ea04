//! Batches as messages carry them.
use sds_base::List;
use sds_value::DocRow;

/// A batch as a message carries it.
#[derive(Debug, Drop)]
pub struct Sent {
    /// Its number at the sender.
    pub id: u64,
    /// Its rows as a document has them.
    pub rows: List<DocRow>,
}
