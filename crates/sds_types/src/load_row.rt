//! Rows of a batch as they are loaded.
use crate::Key;
use sds_base::List;
use sds_value::{Event, Value};

/// What is added to a column of the row that stands.
#[derive(Clone, Copy, Debug, PartialEq, Eq)]
pub struct Addend {
    /// The place of the column.
    pub column: u32,
    /// The number, in units of the column's last digit; none where the batch doesn't give the old value that it is
    /// reckoned from.
    pub add: Option<i128>,
}

/// A row of a batch, transformed and read for the tables of the node that loads it.
#[derive(Debug, Drop)]
pub struct LoadRow {
    /// The number, from 1, of the document's row that it came from.
    pub row: u32,
    /// The place of its table.
    pub table: u32,
    pub event: Event,
    /// The new key of an insert, else the old key.
    pub key: Key,
    /// The places of the columns that it lists.
    pub columns: List<u32>,
    /// A value for each of these columns; none for a delete.
    pub new: List<Value>,
    /// The old value of each of these columns, where the batch gives it.
    pub old: Option<List<Value>>,
    /// The columns that are added and not put.
    pub adds: List<Addend>,
}
