//! The choice of a `subselect` router.
use sds_base::{List, NoMemory, Twin, Txt};
use std::alloc::Global;

/// By which of a node's columns a `subselect` router names it.
#[derive(Clone, Copy, Debug, PartialEq, Eq)]
pub enum NodeColumn {
    ExternalId,
    NodeId,
}

/// What a condition compares a column with.
#[derive(Debug, Drop)]
pub enum Compared {
    /// A column of the routed row.
    Routed(Txt),
    /// A text.
    Text(Txt),
}

/// A condition on the rows of the table that is chosen from.
#[derive(Debug, Drop)]
pub struct Condition {
    /// The table's column.
    pub column: Txt,
    pub value: Compared,
}

/// The choice of a `subselect` router: the nodes whose column is that of a row which meets every condition.
#[derive(Debug, Drop)]
pub struct Subselect {
    pub by: NodeColumn,
    /// The table's column that names the node.
    pub column: Txt,
    /// The table that is chosen from.
    pub table: Txt,
    pub conditions: List<Condition>,
}

impl Twin for Compared {
    fn twin(&self, alloc: Global) -> Result<Compared, NoMemory> {
        Ok(match self {
            Compared::Routed(name) => Compared::Routed(name.twin(alloc)?),
            Compared::Text(text) => Compared::Text(text.twin(alloc)?),
        })
    }
}

impl Twin for Condition {
    fn twin(&self, alloc: Global) -> Result<Condition, NoMemory> {
        Ok(Condition {
            column: self.column.twin(alloc)?,
            value: self.value.twin(alloc)?,
        })
    }
}

impl Twin for Subselect {
    fn twin(&self, alloc: Global) -> Result<Subselect, NoMemory> {
        Ok(Subselect {
            by: self.by,
            column: self.column.twin(alloc)?,
            table: self.table.twin(alloc)?,
            conditions: self.conditions.twin(alloc)?,
        })
    }
}
