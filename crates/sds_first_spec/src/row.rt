//! Rows as a batch brings them, and steps that were made.
use sds_base::List;
use sds_types::{Key, Row, RowStep};
use sds_value::{Event, Value};

/// A row of a batch, read for the tables of the node that loads it.
#[derive(Debug, Drop)]
pub struct LoadRow {
    /// The number, from 1, of the document's row that it came from.
    pub row: u32,
    pub table: u32,
    pub event: Event,
    /// The new key of an insert, else the old key.
    pub key: Key,
    /// The places of the columns that have a value here.
    pub columns: List<u32>,
    /// A value for each of these columns.
    pub new: List<Value>,
    /// The old value of each of these columns, where the document gives it.
    pub old: Option<List<Value>>,
}

/// A step that was made, and the row that stood before it.
#[derive(Debug, Drop)]
pub struct Done {
    pub step: RowStep,
    pub old: Option<Row>,
}
