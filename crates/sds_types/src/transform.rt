//! Transforms, and the rows that they make.
use crate::TransformColumn;
use sds_base::{List, NoMemory, Twin, Txt};
use sds_value::DocRow;
use std::alloc::Global;

/// When a transform is made: as a batch is written, or as it is loaded.
#[derive(Clone, Copy, Debug, PartialEq, Eq)]
pub enum Point {
    Extract,
    Load,
}

/// What a transform makes of a delete.
#[derive(Clone, Copy, Debug, PartialEq, Eq)]
pub enum DeleteAction {
    /// A delete.
    DelRow,
    /// Nothing: the row is dropped. Its word in the file is `NONE`.
    Nothing,
    /// An update.
    UpdateCol,
}

/// Which columns a transformed row has.
#[derive(Clone, Copy, Debug, PartialEq, Eq)]
pub enum ColumnPolicy {
    /// The listed ones.
    Specified,
    /// The source's, and the listed ones.
    Implied,
}

/// What becomes of a table's rows between two groups (the SymmetricDS guide's chapter on transforms). The tables and
/// columns of the other side may have any names, so both sides are named by texts.
#[derive(Debug, Drop)]
pub struct TransformDef {
    pub id: Txt,
    /// The place of the sending group.
    pub source_group: u32,
    /// The place of the receiving group.
    pub target_group: u32,
    pub point: Point,
    pub source_table: Txt,
    pub target_table: Txt,
    pub delete_action: DeleteAction,
    pub column_policy: ColumnPolicy,
    pub columns: List<TransformColumn>,
}

/// A column of a transformed row whose change is added to the number that stands, in place of being put there.
#[derive(Clone, Copy, Debug, PartialEq, Eq)]
pub struct Add {
    /// The place of the column in the target table.
    pub column: u32,
    /// By how much the change is multiplied, from -1,000,000 to 1,000,000.
    pub multiplier: i64,
}

/// A row that a transform made as a batch is loaded, and its columns that are added.
#[derive(Debug, Drop)]
pub struct Shaped {
    pub row: DocRow,
    pub adds: List<Add>,
}

impl Twin for TransformDef {
    fn twin(&self, alloc: Global) -> Result<TransformDef, NoMemory> {
        Ok(TransformDef {
            id: self.id.twin(alloc)?,
            source_group: self.source_group,
            target_group: self.target_group,
            point: self.point,
            source_table: self.source_table.twin(alloc)?,
            target_table: self.target_table.twin(alloc)?,
            delete_action: self.delete_action,
            column_policy: self.column_policy,
            columns: self.columns.twin(alloc)?,
        })
    }
}
