//! The rows that stand, table by table, as routers read them.
ghost use Rattle.std.specs.Prelude.{◌≡◌, ◌++◌, IfOk, map};

use sds_base::{List, NoMemory};
use sds_types::{Row, TableRow};
use std::alloc::Global;

/// Rows that stand in tables.
pub trait StandingRows {
    ghost use Rattle.std.specs.Prelude.{List};
    ghost use Rattle.std.specs.Borrow.{Bor};
    ghost use Rattle.sds_types.specs.declared.row.Row.{Row};
    ghost use Rattle.sds_types.specs.declared.row.TableRow.{TableRow};
    ghost use Rattle.sds_router.specs.Standing.{rows_of};

    /// All of them.
    ghost rows: { Self → List TableRow };

    /// The rows of the table at a place, in their order.
    fn of_table(&self, alloc: Global, table: usize) -> Result<Vec<&Row>, NoMemory>
        ensures { IfOk result (λ found. map (λ (row : Bor Row). row.now) found.items
            ≡ rows_of table (rows self.now)) };
}

impl StandingRows for List<TableRow> {
    ghost rows = { λ rows. rows };

    fn of_table(&self, alloc: Global, table: usize) -> Result<Vec<&Row>, NoMemory> {
        let mut found = Vec::new(alloc);
        for row in self.inner() {
            if row.table as usize == table {
                found.push(&row.row)?;
            }
        }
        Ok(found)
    }
}
