//! Rows, keys, steps and changes.
use sds_base::{List, NoMemory, Twin, Txt};
use sds_value::{Event, Value};
use std::alloc::Global;

/// A row: a value for each column of its table.
#[derive(Debug, Drop)]
pub struct Row(pub List<Value>);

/// The values of a row's key columns, in the key's order.
#[derive(Debug, Drop)]
pub struct Key(pub List<Value>);

/// A row that stands, and the place of its table.
#[derive(Debug, Drop)]
pub struct TableRow {
    pub table: u32,
    pub row: Row,
}

/// What is done to one row of the tables.
#[derive(Debug, Drop)]
pub enum RowStep {
    Insert { table: u32, row: Row },
    /// The row of this key is replaced, which may change its key.
    Update { table: u32, key: Key, row: Row },
    Delete { table: u32, key: Key },
}

/// A captured change (the SymmetricDS guide's chapter on triggers: a row of its data table).
#[derive(Debug, Drop)]
pub struct Change {
    /// Its number at its node, from 1 in the order of commits.
    pub id: u64,
    /// The number of its transaction at its node.
    pub tx: u64,
    /// The place of its table.
    pub table: u32,
    pub event: Event,
    /// The row after an insert or an update.
    pub new: Option<Row>,
    /// The row before an update or a delete.
    pub old: Option<Row>,
    /// The place of its channel.
    pub channel: u32,
    /// The node whose batch brought it, or none for an own write.
    pub source: Option<Txt>,
}

impl Twin for Row {
    fn twin(&self, alloc: Global) -> Result<Row, NoMemory> {
        Ok(Row(self.0.twin(alloc)?))
    }
}
