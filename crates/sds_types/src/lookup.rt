//! The lookup of a `lookuptable` router.
use sds_base::{NoMemory, Twin, Txt};
use std::alloc::Global;

/// What a `lookuptable` router looks up: the rows of a table that have the routed row's column in one of theirs, and the
/// external id of a node in another.
#[derive(Debug, Drop)]
pub struct Lookup {
    /// The table that is looked up in.
    pub table: Txt,
    /// The column of the routed row.
    pub column: Txt,
    /// The table's column that it is compared with.
    pub lookup_column: Txt,
    /// The table's column of external ids.
    pub external_id: Txt,
}

impl Twin for Lookup {
    fn twin(&self, alloc: Global) -> Result<Lookup, NoMemory> {
        Ok(Lookup {
            table: self.table.twin(alloc)?,
            column: self.column.twin(alloc)?,
            lookup_column: self.lookup_column.twin(alloc)?,
            external_id: self.external_id.twin(alloc)?,
        })
    }
}
