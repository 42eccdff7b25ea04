//! The tests of a `column` router.
use sds_base::{NoMemory, Twin, Txt};
use std::alloc::Global;

/// What a column is compared with.
#[derive(Debug, Drop)]
pub enum Operand {
    /// The id of the node.
    NodeId,
    /// The external id of the node.
    ExternalId,
    /// The id of the node's group.
    NodeGroupId,
    /// The absence of a value.
    Null,
    /// A text.
    Text(Txt),
}

/// A test of a `column` router.
#[derive(Debug, Drop)]
pub struct ColumnTest {
    /// The name of the column, without `OLD_`.
    pub name: Txt,
    /// Whether the old value is asked for.
    pub old: bool,
    /// Whether the two are to differ.
    pub differs: bool,
    pub operand: Operand,
}

impl Twin for Operand {
    fn twin(&self, alloc: Global) -> Result<Operand, NoMemory> {
        Ok(match self {
            Operand::NodeId => Operand::NodeId,
            Operand::ExternalId => Operand::ExternalId,
            Operand::NodeGroupId => Operand::NodeGroupId,
            Operand::Null => Operand::Null,
            Operand::Text(text) => Operand::Text(text.twin(alloc)?),
        })
    }
}

impl Twin for ColumnTest {
    fn twin(&self, alloc: Global) -> Result<ColumnTest, NoMemory> {
        Ok(ColumnTest {
            name: self.name.twin(alloc)?,
            old: self.old,
            differs: self.differs,
            operand: self.operand.twin(alloc)?,
        })
    }
}
