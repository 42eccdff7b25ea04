use sds_base::{List, NoMemory, Same, Twin, Txt};
use std::alloc::Global;

/// A field of a line: nothing stood there, or a text did.
#[derive(Debug, Drop)]
pub enum Field {
    Null,
    Text(Txt),
}

/// What happened to a row.
#[derive(Clone, Copy, Debug, PartialEq, Eq)]
pub enum Event {
    Insert,
    Update,
    Delete,
}

/// A row of a batch as a document gives it (the SymmetricDS guide's appendix on the CSV data format).
#[derive(Debug, Drop)]
pub struct DocRow {
    pub event: Event,
    pub table: Txt,
    /// The names of the key columns.
    pub keys: List<Txt>,
    /// The names of the columns that have a value here.
    pub columns: List<Txt>,
    /// A value for each column, of an insert or an update.
    pub new: List<Field>,
    /// The old value of each key column, of an update or a delete.
    pub key: List<Field>,
    /// The old value of each column, where the document gives it.
    pub old: Option<List<Field>>,
}

/// A node as another node knows it.
#[derive(Debug, Drop)]
pub struct Peer {
    pub id: Txt,
    /// The node group that it belongs to.
    pub group: Txt,
    /// What the user's own systems call it.
    pub external: Txt,
}

impl Same for Field {
    fn same(&self, other: &Field) -> bool {
        match (self, other) {
            (Field::Null, Field::Null) => true,
            (Field::Text(a), Field::Text(b)) => a.same(b),
            _ => false,
        }
    }
}

impl Twin for Field {
    fn twin(&self, alloc: Global) -> Result<Field, NoMemory> {
        match self {
            Field::Null => Ok(Field::Null),
            Field::Text(text) => Ok(Field::Text(text.twin(alloc)?)),
        }
    }
}

impl Same for Event {
    fn same(&self, other: &Event) -> bool {
        *self == *other
    }
}

impl Same for DocRow {
    fn same(&self, other: &DocRow) -> bool {
        self.event.same(&other.event)
            && self.table.same(&other.table)
            && self.keys.same(&other.keys)
            && self.columns.same(&other.columns)
            && self.new.same(&other.new)
            && self.key.same(&other.key)
            && self.old.same(&other.old)
    }
}

impl Twin for DocRow {
    fn twin(&self, alloc: Global) -> Result<DocRow, NoMemory> {
        Ok(DocRow {
            event: self.event,
            table: self.table.twin(alloc)?,
            keys: self.keys.twin(alloc)?,
            columns: self.columns.twin(alloc)?,
            new: self.new.twin(alloc)?,
            key: self.key.twin(alloc)?,
            old: self.old.twin(alloc)?,
        })
    }
}

impl Same for Peer {
    fn same(&self, other: &Peer) -> bool {
        self.id.same(&other.id)
            && self.group.same(&other.group)
            && self.external.same(&other.external)
    }
}

impl Twin for Peer {
    fn twin(&self, alloc: Global) -> Result<Peer, NoMemory> {
        Ok(Peer {
            id: self.id.twin(alloc)?,
            group: self.group.twin(alloc)?,
            external: self.external.twin(alloc)?,
        })
    }
}
