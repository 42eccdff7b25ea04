use crate::Kind;
use sds_base::{List, NoMemory, Same, Twin, Txt};
use std::alloc::Global;

/// A column of a table.
#[derive(Debug, Drop)]
pub struct ColumnDef {
    pub name: Txt,
    pub kind: Kind,
    /// Whether the column refuses null. A key column does.
    pub not_null: bool,
    /// The place of the table whose key this column refers to.
    pub parent: Option<u32>,
}

/// A table: its columns in order, and the places of its key's columns.
#[derive(Debug, Drop)]
pub struct TableDef {
    pub name: Txt,
    pub columns: List<ColumnDef>,
    pub key: List<u32>,
}

impl Same for Kind {
    fn same(&self, other: &Kind) -> bool {
        *self == *other
    }
}

impl Same for ColumnDef {
    fn same(&self, other: &ColumnDef) -> bool {
        self.name.same(&other.name)
            && self.kind.same(&other.kind)
            && self.not_null.same(&other.not_null)
            && self.parent.same(&other.parent)
    }
}

impl Twin for ColumnDef {
    fn twin(&self, alloc: Global) -> Result<ColumnDef, NoMemory> {
        Ok(ColumnDef {
            name: self.name.twin(alloc)?,
            kind: self.kind,
            not_null: self.not_null,
            parent: self.parent,
        })
    }
}

impl Same for TableDef {
    fn same(&self, other: &TableDef) -> bool {
        self.name.same(&other.name)
            && self.columns.same(&other.columns)
            && self.key.same(&other.key)
    }
}

impl Twin for TableDef {
    fn twin(&self, alloc: Global) -> Result<TableDef, NoMemory> {
        Ok(TableDef {
            name: self.name.twin(alloc)?,
            columns: self.columns.twin(alloc)?,
            key: self.key.twin(alloc)?,
        })
    }
}
