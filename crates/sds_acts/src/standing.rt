//! A node's rows, as routers read them.
use sds_base::NoMemory;
use sds_router::StandingRows;
use sds_rows::Tables;
use sds_types::Row;
use std::alloc::Global;

/// The rows of a node's tables.
#[derive(Drop)]
pub(crate) struct NodeRows<'a> {
    pub(crate) tables: &'a Tables,
}

impl<'a> StandingRows for NodeRows<'a> {
    ghost rows = { λ standing. standing.tables.now.rows };

    fn of_table(&self, alloc: Global, table: usize) -> Result<Vec<&Row>, NoMemory> {
        let Ok(table) = u32::try_from(table) else {
            return Err(NoMemory);
        };
        self.tables.rows(alloc, table)
    }
}
