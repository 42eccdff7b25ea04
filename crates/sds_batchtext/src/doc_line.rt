//! What the lines of a document say by themselves, wherever they stand.
use sds_base::{List, Txt};
use sds_value::{Binary, Field};

/// The node of a document, and the number of the line that names it.
#[derive(Debug, Drop)]
pub struct NodeLine {
    pub id: Txt,
    pub line: u64,
}

/// A line of a document whose fields are what its directive asks for.
#[derive(Debug, Drop)]
pub enum DocLine {
    NodeId(NodeLine),
    Binary(Binary),
    Channel(Txt),
    Batch(u64),
    Table(Txt),
    Keys(List<Txt>),
    Columns(List<Txt>),
    /// A value for each column.
    Insert(List<Field>),
    /// A value for each column, and then the old value of each key.
    Update(List<Field>),
    /// The old value of each column.
    Old(List<Field>),
    /// The old value of each key.
    Delete(List<Field>),
    Commit(u64),
    Skipped,
}
